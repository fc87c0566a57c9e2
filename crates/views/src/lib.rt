// The judge: whether views meet output, respect and step, and where they first do not.
// Searches go by number: a box, an action and two states together pick the entries of several flat tables, and the place found is told by them.
#![tactic(auto)]

ghost use Rattle.std.specs.Prelude.{◌≡◌, ◌≢◌, [], length, MatchResult};
ghost use Rattle.noninterference.specs.Purge.{intransitive};
ghost use Rattle.noninterference.specs.Judged.{first_output, first_respect, first_step};
ghost use Rattle.model.specs.Limits.{STATES, ACTIONS, BOXES, NEXT_ENTRIES, OUTPUT_ENTRIES};
ghost use Rattle.model.specs.Denoted.{machine_of, policy_of, view_of};
ghost use Rattle.model.specs.Good.{GoodMachine, GoodTable};
ghost use Rattle.model.specs.declared.refusal.Refusal.TheVariants.{Length};
ghost use Rattle.views.specs.Guards.{Kept, Alones};
ghost use Rattle.model.specs.Refusal.{refused_as};
ghost use Rattle.views.specs.Judgement.{answer, every_state, lengths_fit, first_broken, judgement_of};

mod guards; // what spares the loops over pairs
mod tables; // what the judge reads

use guards::{KEPT, SPOTS};
use model::{BOXES, Model, NEXT_ENTRIES, OUTPUT_ENTRIES, Refusal, Refused, VIEW_ENTRIES};
use tables::Tables;

// Why views are not accepted: the place at which a condition is first broken, or a refusal. A position is a box's.
#[derive(Clone, Copy, PartialEq, Eq)]
pub enum Fault {
    Output {
        action: usize,
        s: usize,
        t: usize,
    },
    Respect {
        position: usize,
        action: usize,
        s: usize,
    },
    Step {
        position: usize,
        action: usize,
        s: usize,
        t: usize,
    },
    Refused(Refused),
}

impl From<Refusal> for Fault {
    ghost use Rattle.views.specs.declared.Fault.TheVariants as faults;

    ghost from_gives = { λ refusal fault. fault ≡ faults.Refused (refused_as refusal 0) };

    fn from(refusal: Refusal) -> Self {
        Fault::Refused(refusal.into())
    }
}

// The first place that breaks output, by action, s, t.
fn first_output(
    tables: &Tables,
    outputs: &[u16; OUTPUT_ENTRIES],
    alones: &[bool; BOXES],
) -> Result<(), Fault>
    requires alones { Alones tables.now.model.now.machine.sizes.states tables.now.low.now alones.now }
    ensures { result ≡ answer (first_output (machine_of tables.now.model.now.machine [] outputs.now) every_state (view_of tables.now.model.now.machine tables.now.views.now)) }
{
    let sizes = tables.model.machine.sizes;
    let mut found = Ok(());
    'actions: for a in 0..sizes.actions {
        let o = tables.model.machine.owner(a);
        if tables.silent(outputs, alones, o, a) {
            continue 'actions;
        }
        'firsts: for s in 0..sizes.states {
            'seconds: for t in s + 1..sizes.states {
                if tables.leaks(outputs, o, a, s, t) {
                    found = Err(Fault::Output { action: a, s, t });
                    break 'actions;
                }
            }
        }
    }
    found
}

// The first place that breaks respect, by box, action, state.
fn first_respect(tables: &Tables, kept: &mut [bool; KEPT]) -> Result<(), Fault>
    requires kept { Kept tables.now.model.now.machine.sizes.states tables.now.model.now.machine.sizes.actions tables.now.next.now tables.now.low.now kept.old }
    ensures still_kept { Kept tables.now.model.now.machine.sizes.states tables.now.model.now.machine.sizes.actions tables.now.next.now tables.now.low.now kept.new }
    ensures first { result ≡ answer (first_respect (machine_of tables.now.model.now.machine tables.now.next.now []) every_state (policy_of tables.now.model.now) (view_of tables.now.model.now.machine tables.now.views.now)) }
{
    let sizes = tables.model.machine.sizes;
    let mut found = Ok(());
    'boxes: for u in 0..sizes.boxes {
        'actions: for a in 0..sizes.actions {
            let o = tables.model.machine.owner(a);
            if tables.model.arrow(o, u) {
                continue 'actions;
            }
            if tables.note_kept(kept, u, a) {
                continue 'actions;
            }
            'states: for s in 0..sizes.states {
                if tables.moves(u, a, s) {
                    found = Err(Fault::Respect {
                        position: u,
                        action: a,
                        s,
                    });
                    break 'boxes;
                }
            }
        }
    }
    found
}

// The first place that breaks step, by box, action, s, t.
fn first_step(tables: &Tables, kept: &[bool; KEPT], alones: &[bool; BOXES]) -> Result<(), Fault>
    requires kept { Kept tables.now.model.now.machine.sizes.states tables.now.model.now.machine.sizes.actions tables.now.next.now tables.now.low.now kept.now }
    requires alones { Alones tables.now.model.now.machine.sizes.states tables.now.low.now alones.now }
    ensures { result ≡ answer (first_step intransitive (machine_of tables.now.model.now.machine tables.now.next.now []) every_state (view_of tables.now.model.now.machine tables.now.views.now)) }
{
    let sizes = tables.model.machine.sizes;
    let mut found = Ok(());
    let mut spots = [0u8; SPOTS];
    'boxes: for u in 0..sizes.boxes {
        if alones[u] {
            continue 'boxes;
        }
        'actions: for a in 0..sizes.actions {
            let o = tables.model.machine.owner(a);
            if tables.settled(kept, alones, &mut spots, u, o, a) {
                continue 'actions;
            }
            'firsts: for s in 0..sizes.states {
                'seconds: for t in s + 1..sizes.states {
                    if tables.tears(u, o, a, s, t) {
                        found = Err(Fault::Step {
                            position: u,
                            action: a,
                            s,
                            t,
                        });
                        break 'boxes;
                    }
                }
            }
        }
    }
    found
}

// All of output before respect before step.
fn first_broken(
    model: &Model,
    next: &[u16; NEXT_ENTRIES],
    outputs: &[u16; OUTPUT_ENTRIES],
    views: &[u16; VIEW_ENTRIES],
) -> Result<(), Fault>
    requires { GoodTable model.now.machine next.now }
    ensures { result ≡ first_broken model.now next.now outputs.now views.now }
{
    let low = tables::lows(&model.machine, views);
    let tables = Tables {
        model,
        next,
        views,
        low: &low,
    };
    let alones = tables.alones();
    first_output(&tables, outputs, &alones)?;
    let mut kept = tables.idles();
    first_respect(&tables, &mut kept)?;
    first_step(&tables, &kept, &alones)
}

// A lent table as an array, where it has the array's length.
fn of_length<const N: usize>(table: &[u16]) -> Result<&[u16; N], Refusal>
    ensures { MatchResult result (λ array. (array.now ≡ table.now) × (length table.now ≡ N)) (λ refusal. (refusal ≡ Length) × (length table.now ≢ N)) }
{
    table.try_into().map_err(|_| Refusal::Length)
}

// Whether the views of a model are accepted. The tables are only read. Refused: a table of another length, and a model or a next
// state that breaks the rules.
// Not inlined, so that its tables leave the stack with it.
#[inline(never)]
pub fn judge(model: Model, next: &[u16], outputs: &[u16], views: &[u16]) -> Result<(), Fault>
    ensures { result ≡ judgement_of model next.now outputs.now views.now }
{
    let next = of_length(next)?;
    let outputs = of_length(outputs)?;
    let views = of_length(views)?;
    if !model::model_table_fits(model, next) {
        return Err(Refusal::Rules.into());
    }
    first_broken(&model, next, outputs, views)
}
