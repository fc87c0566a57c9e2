// Purged runs, plain and intransitive.
#![tactic(auto)]

ghost use Rattle.std.specs.Prelude.{◌≡◌, ◌++◌, ℕ, ◌-◌, ◌<◌, length, get_or, replicate, Ok};
ghost use Rattle.model.specs.Limits.{BOXES};
ghost use Rattle.purge.specs.Purged.{names_actions, asked, kept_of, purge_result, written, purged_of, Added, Askable};
ghost use Rattle.laws.specs.Sets.{pack};
ghost use Rattle.model.specs.Arrows.{leads};
ghost use Rattle.purge.specs.Sets.{marked, touches, present};

use model::{BOXES, Kind, Machine, Model, RUN_ACTIONS, Refusal, Refused};
use std::array;

// What is written, as `purged_of` has it, for an action that is dropped, and to the end of the buffer.
const DROPPED: u8 = 255;

// The boxes that interfere with box u.
fn interferers(model: &Model, u: usize) -> u32
    requires { u < BOXES }
    ensures { result ≡ pack (λ v. leads model.now.arrows v u) 0 BOXES }
{
    let mut set: u32 = 0;
    // by number: `arrow` asks for two; over the rows as a slice each would have its bit picked by hand
    'boxes: for v in (0..BOXES).rev() {
        set = set * 2 + u32::from(model.arrow(v, u));
    }
    set
}

// The boxes that interfere with each box.
fn all_interferers(model: &Model) -> [u32; BOXES]
    ensures { ((u : ℕ) → u < BOXES → get_or result u 0 ≡ pack (λ v. leads model.now.arrows v u) 0 BOXES) }
{
    array::from_fn(|u| interferers(model, u))
}

// Writes each action that is kept in its place, and DROPPED for the others, from the right end of the run.
fn mark(machine: &Machine, run: &[u8], kept: &mut [u8], into: &[u32; BOXES], target: u32)
    requires { length kept.old ≡ length run.now }
    ensures { kept.new ≡ marked (touches machine.now.owners into.now target) run.now }
{
    // the boxes that interfere with a source of the run's part that was worked
    let mut set = target;
    // by index: a `zip` with `iter_mut` says nothing of what was written, once the loop is over
    'run: for i in (0..run.len()).rev() {
        let action = run[i];
        let owner = machine.owner(usize::from(action));
        if model::contains(set, owner) {
            kept[i] = action;
            set |= into.get(owner).copied().unwrap_or(0);
        } else {
            kept[i] = DROPPED;
        }
    }
}

// Moves the actions that are kept to the front, and answers how many they are.
fn gather(kept: &mut [u8]) -> usize
    ensures count { result ≡ length (present kept.old) }
    ensures gathered { kept.new ≡ present kept.old ++ replicate (length kept.old - result) 255 }
{
    let mut count = 0;
    // by index: it reads at i and writes at i and at count of one slice
    'actions: for i in 0..kept.len() {
        let action = kept[i];
        if action == DROPPED {
            continue 'actions;
        }
        kept[i] = DROPPED;
        kept[count] = action;
        count += 1;
    }
    count
}

// Whether each byte of the run names an action.
fn names_actions(run: &[u8], actions: usize) -> bool
    ensures { result ≡ names_actions actions run.now }
{
    run.iter().all(|action| usize::from(*action) < actions)
}

// Whether the position is a box's, and the run is one of the machine's and not too long.
fn asked(model: &Model, position: usize, run: &[u8]) -> bool
    ensures { result ≡ asked model.now position run.now }
{
    let sizes = model.machine.sizes;
    position < sizes.boxes && run.len() <= RUN_ACTIONS && names_actions(run, sizes.actions)
}

// The sets that a source adds to those who may pass something on: none in a plain purge.
fn added(kind: Kind, model: &Model) -> [u32; BOXES]
    ensures { Added kind model.now.arrows result }
{
    match kind {
        Kind::Plain => [0u32; BOXES],
        Kind::Intransitive => all_interferers(model),
    }
}

// Writes the kept actions, and 255 to the end of the buffer.
fn keep(model: &Model, kind: Kind, position: usize, run: &[u8], kept: &mut [u8]) -> usize
    requires askable { Askable model.now position run.now }
    requires as_long { length kept.old ≡ length run.now }
    ensures { purge_result (Ok result) kept.new ≡ written (kept_of model.now kind position run.now) (length run.now) }
{
    let into = added(kind, model);
    let target = interferers(model, position);
    mark(&model.machine, run, kept, &into, target);
    gather(kept)
}

// The run purged for the box at a position: the kept actions first, 255 after them, and their count.
// Refused, with the buffer as it was: a buffer of another length than the run's, a model that breaks the rules, and a position
// or a run that isn't the model's.
pub fn purged(
    model: Model,
    kind: Kind,
    position: usize,
    run: &[u8],
    kept: &mut [u8],
) -> Result<usize, Refused>
    ensures { purge_result result kept.new ≡ purged_of model kind position run.now kept.old }
{
    if kept.len() != run.len() {
        return Err(Refusal::Length.into());
    }
    if !model::model_fits(model) {
        return Err(Refusal::Rules.into());
    }
    if !asked(&model, position, run) {
        return Err(Refusal::Range.into());
    }
    Ok(keep(&model, kind, position, run, kept))
}
