// The arrows that a machine needs, whatever was drawn, and how long a run each box needs to tell apart all that it can.
#![tactic(auto, using(laws::proofs::Loops::each), unfolding(laws::specs::Choice::both, laws::specs::Choice::choose, laws::specs::Choice::brings, crate::specs::Answered::lengths_fit, crate::specs::Answered::needed_of, crate::specs::Answered::list_of, crate::specs::Marks::wanted_in, crate::specs::Own::seen_by, crate::specs::Classes::agrees))]

// Loops go by number here: a state, an action or a box is the number that several tables are read at (`s * actions + a`, `v * BOXES + u`).
mod arrows;
mod changes;
mod likeness;
mod outputs;
mod rounds;
mod starts;
mod walk;

ghost use Rattle.std.specs.Prelude.{◌≡◌, replicate};
ghost use Rattle.noninterference.specs.Rounds.{needed_list};
ghost use Rattle.model.specs.Limits.{LIST_ENTRIES};
ghost use Rattle.model.specs.Denoted.{machine_of};
ghost use Rattle.reach.specs.Set.{listed, flag_at, has};
ghost use Rattle.needs.specs.Tables.{entry, Fitting};
ghost use Rattle.needs.specs.Again.{Befores};
ghost use Rattle.needs.specs.Rounds.{Known, Refined};
ghost use Rattle.needs.specs.Marks.{SortedOut};
ghost use Rattle.needs.specs.Listed.{padded};
ghost use Rattle.needs.specs.Answered.{found_in, needed_of, list_of};

use crate::arrows::{mark, write_list};
use crate::changes::{again, note_befores};
use crate::outputs::{Outputs, first_round, observes, own_actions};
use crate::rounds::{Classes, Moves, one_class, round};
use crate::walk::Walk;
use model::{
    ARROWS, BOXES, LIST_ENTRIES, Machine, NEXT_ENTRIES, OUTPUT_ENTRIES, Refusal, Refused, STATES,
};
use reach::Set;

// A flag for each two states.
pub(crate) const STATE_PAIRS: usize = STATES * STATES;

// What the call found: how many pairs stand on the list, how many states are reachable, and the depths, 0 beyond the last box.
#[derive(Clone, Copy)]
pub struct Needs {
    pub count: usize,
    pub reach: usize,
    pub depths: [usize; BOXES],
}

// A machine that keeps to the rules, with its tables.
#[derive(Clone, Copy)]
struct Tables<'a> {
    machine: &'a Machine,
    next: &'a [u16],
    outputs: &'a [u16],
    ghost fitting: { Fitting machine.now next.now outputs.now },
}

// The classes that no further round splits, and the rounds that split something.
#[derive(Clone, Copy)]
struct Refinement {
    numbers: [u8; STATES],
    rounds: usize,
}

// `Known` and `Befores` are clauses: they tie flags that are lent beside the tables to them.
fn refine(
    tables: &Tables<'_>,
    inside: &[bool; STATES],
    before: &[bool; STATE_PAIRS],
    u: usize,
) -> Refinement
    requires known { Known (machine_of tables.now.machine.now tables.now.next.now tables.now.outputs.now) (flag_at inside.now) }
    requires befores { Befores tables.now.machine.now.sizes.states tables.now.machine.now.sizes.actions tables.now.next.now before.now }
    ensures { Refined (machine_of tables.now.machine.now tables.now.next.now tables.now.outputs.now) (flag_at inside.now) u (entry result.numbers) result.rounds }
{
    let states = tables.machine.sizes.states;
    let actions = tables.machine.sizes.actions;
    let own = own_actions(tables.machine, u);
    let outputs = Outputs {
        table: tables.outputs,
        actions,
        own,
    };
    let mut numbers = first_round(&outputs, inside, states);
    if one_class(inside, &numbers, states) {
        return Refinement { numbers, rounds: 0 };
    }
    let walk = Walk {
        next: tables.next,
        states,
        actions,
    };
    let mut marks = [true; STATES];
    let mut rounds = 0;
    'rounds: loop {
        let classes = Classes {
            walk,
            numbers: &numbers,
        };
        // lent, since moving it inside the outcome copied it three times a round (needed arrows of chain-even: 2,340 -> 2,433 thousand instructions)
        let mut moved = Moves {
            list: [0u8; STATES],
            count: 0,
        };
        let outcome = round(&classes, inside, &marks, &mut moved);
        if outcome.same {
            return Refinement { numbers, rounds };
        }
        marks = again(before, &classes, &outcome.numbers, &moved);
        numbers = outcome.numbers;
        rounds += 1;
    }
}

// The needed arrows as flags, source * BOXES + target, self-arrows among them; and the depths.
#[derive(Clone, Copy)]
struct Sorted {
    table: [bool; ARROWS],
    depths: [usize; BOXES],
}

// A box without actions takes no round: it tells nothing apart.
fn sort(tables: &Tables<'_>, inside: &[bool; STATES]) -> Sorted
    requires { Known (machine_of tables.now.machine.now tables.now.next.now tables.now.outputs.now) (flag_at inside.now) }
    ensures { SortedOut (machine_of tables.now.machine.now tables.now.next.now tables.now.outputs.now) (flag_at inside.now) result.table result.depths tables.now.machine.now.sizes.boxes }
{
    let machine = tables.machine;
    let walk = Walk {
        next: tables.next,
        states: machine.sizes.states,
        actions: machine.sizes.actions,
    };
    let mut table = [false; ARROWS];
    let mut depths = [0usize; BOXES];
    let mut before = [false; STATE_PAIRS];
    note_befores(&walk, &mut before);
    'boxes: for u in 0..machine.sizes.boxes {
        if observes(machine, u) {
            let refinement = refine(tables, inside, &before, u);
            depths[u] = refinement.rounds;
            mark(
                &walk,
                &machine.owners,
                inside,
                &refinement.numbers,
                u,
                &mut table,
            );
        }
    }
    Sorted { table, depths }
}

// The flags of a set, at hand.
fn flags_of(reached: Set) -> [bool; STATES]
    ensures { result ≡ listed reached }
{
    // `array::from_fn` was tried, and its proof didn't close: its fact for one index doesn't say what the closure holds
    let mut flags = [false; STATES];
    'states: for s in 0..STATES {
        flags[s] = reached.contains(s);
    }
    flags
}

// What is found in a machine that keeps to the rules.
fn found(tables: &Tables<'_>, reached: &Set, list: &mut [u16]) -> Needs
    requires known { Known (machine_of tables.now.machine.now tables.now.next.now tables.now.outputs.now) (has reached.now) }
    requires zeros { list.old ≡ replicate LIST_ENTRIES 0 }
    ensures value { result ≡ found_in (machine_of tables.now.machine.now tables.now.next.now tables.now.outputs.now) }
    ensures list_after { list.new ≡ padded (needed_list (machine_of tables.now.machine.now tables.now.next.now tables.now.outputs.now)) }
{
    let inside = flags_of(*reached);
    let sorted = sort(tables, &inside);
    Needs {
        count: write_list(&sorted.table, tables.machine.sizes.boxes, list),
        reach: reached.count(),
        depths: sorted.depths,
    }
}

// The needed arrows and the depths of a machine. Refused: a table or a list of another length, which leaves the list untouched;
// a machine or a next state that breaks the rules, which zeroes it.
// Not inlined, so that its tables leave the stack with it.
#[inline(never)]
pub fn needed(
    machine: Machine,
    next: &[u16],
    outputs: &[u16],
    list: &mut [u16],
) -> Result<Needs, Refused>
    ensures value { result ≡ needed_of machine next.now outputs.now list.old }
    ensures list_after { list.new ≡ list_of machine next.now outputs.now list.old }
{
    Refusal::Length.unless(outputs.len() == OUTPUT_ENTRIES)?;
    Refusal::Length.unless(list.len() == LIST_ENTRIES)?;
    Refusal::Length.unless(next.len() == NEXT_ENTRIES)?;
    list.fill(0);
    let reached = reach::reached(machine, next)?;
    let tables = Tables {
        machine: &machine,
        next,
        outputs,
    };
    Ok(found(&tables, &reached, list))
}
