// The reachable states of a machine: those in which some run from the start ends.
#![tactic(auto)]

ghost use Rattle.std.specs.Prelude.{◌≡◌, false, true, ◌+◌, ◌<◌, replicate, set};
ghost use Rattle.model.specs.Limits.{STATES};
ghost use Rattle.model.specs.Good.{GoodTable};
ghost use Rattle.reach.specs.Set.{listed, has, size};
ghost use Rattle.reach.specs.Explored.{Explored, Looking, Complete};
ghost use Rattle.reach.specs.Answered.{answer_of};

use model::{Machine, NEXT_ENTRIES, Refusal, Refused, STATES};

// A set of states. Whoever holds one reads it by `contains` and `count` only.
#[derive(Clone, Copy)]
pub struct Set {
    flags: [bool; STATES],
}

impl Set {
    pub fn contains(&self, state: usize) -> bool
        ensures { result ≡ has self.now state }
    {
        self.flags.get(state).copied().unwrap_or(false)
    }

    pub fn count(&self) -> usize
        ensures { result ≡ size self.now }
    {
        self.flags.iter().filter(|flag| **flag).count()
    }
}

// The states that are entered, each once, in this order: the first `done` of them are looked at, too.
// `Explored` and `GoodTable` are clauses: they tie it to a machine and its table, which are lent beside it.
#[derive(Clone, Copy)]
struct Worklist {
    flags: [bool; STATES],
    work: [usize; STATES],
    done: usize,
    entered: usize,
}

impl Worklist {
    // Only the start is entered.
    fn new(start: usize) -> Worklist
        requires { start < STATES }
        ensures entered { (result.flags ≡ set (replicate STATES false) start true) × (result.work ≡ replicate STATES start) }
        ensures counts { (result.done ≡ 0) × (result.entered ≡ 1) }
    {
        let mut list = Worklist {
            flags: [false; STATES],
            work: [start; STATES],
            done: 0,
            entered: 1,
        };
        list.flags[start] = true;
        list
    }

    // Enters the state that the action leads to from s, at which the worklist looks, unless it is entered.
    fn enter(&mut self, machine: &Machine, next: &[u16], s: usize, a: usize)
        requires good_table { GoodTable machine.now next.now }
        requires looking { Looking machine.now next.now self.old.flags self.old.work self.old.done self.old.entered s a }
        requires action_in { a < machine.now.sizes.actions }
        ensures looking { Looking machine.now next.now self.new.flags self.new.work self.new.done self.new.entered s (a + 1) }
        ensures done_stays { self.new.done ≡ self.old.done }
    {
        let t = model::at(next, s * machine.sizes.actions + a);
        if !self.flags[t] {
            self.flags[t] = true;
            self.work[self.entered] = t;
            self.entered += 1;
        }
    }

    // Looks at the first state that was not looked at, and enters the states that its actions lead to first.
    fn look(&mut self, machine: &Machine, next: &[u16])
        requires good_table { GoodTable machine.now next.now }
        requires explored { Explored machine.now next.now self.old.flags self.old.work self.old.done self.old.entered }
        requires left { self.old.done < self.old.entered }
        ensures explored { Explored machine.now next.now self.new.flags self.new.work self.new.done self.new.entered }
        ensures one_more { self.new.done ≡ self.old.done + 1 }
    {
        let done = self.done;
        let s = self.work[done];
        // by number: over the row as a slice more goals stay open, since nothing here says how long the table is
        'actions: for a in 0..machine.sizes.actions {
            self.enter(machine, next, s, a);
        }
        self.done = done + 1;
    }
}

// Each state is entered once, and looked at once.
fn explore(machine: &Machine, next: &[u16]) -> Set
    requires { GoodTable machine.now next.now }
    ensures { Complete machine.now next.now (listed result) }
{
    let mut list = Worklist::new(machine.sizes.start);
    // not `while let`: between taking a state and the last of its actions no fact of the whole list holds
    'work: while list.done < list.entered {
        list.look(machine, next);
    }
    Set { flags: list.flags }
}

// The reachable states. Refused: a table of another length, and a machine or a next state that breaks the rules.
pub fn reached(machine: Machine, next: &[u16]) -> Result<Set, Refused>
    ensures { result ≡ answer_of machine next.now }
{
    if next.len() != NEXT_ENTRIES {
        return Err(Refusal::Length.into());
    }
    if !model::machine_table_fits(machine, next) {
        return Err(Refusal::Rules.into());
    }
    Ok(explore(&machine, next))
}
