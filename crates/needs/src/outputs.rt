// Classes by what a box's actions output, before any round.
ghost use Rattle.std.specs.Prelude.{◌≡◌, ◌<◌, ◌≤◌, eqb, get_or};
ghost use Rattle.laws.specs.Range.{some};
ghost use Rattle.model.specs.Limits.{STATES, ACTIONS};
ghost use Rattle.model.specs.Denoted.{owner_at};
ghost use Rattle.reach.specs.Set.{flag_at};
ghost use Rattle.needs.specs.Classes.{Led};
ghost use Rattle.needs.specs.Own.{Owned, Listing, output_in, seen_by, output_slot, no_class};
ghost use Rattle.needs.specs.Laws.{seen_sorts};

use crate::likeness::{Likeness, first_alike};
use crate::starts::SLOTS;
use model::{ACTIONS, Machine, STATES};

// The number of no state, in tables of bytes: an `Option` in each place would double them (fixed memory).
pub(crate) const NO_STATE: u8 = STATES as u8;

// The actions of a box, the first `count` of the list.
#[derive(Clone, Copy)]
pub(crate) struct Own {
    pub(crate) list: [u8; ACTIONS],
    pub(crate) count: usize,
}

// The outputs of a box's actions.
#[derive(Clone, Copy)]
pub(crate) struct Outputs<'a> {
    pub(crate) table: &'a [u16],
    pub(crate) actions: usize,
    pub(crate) own: Own,
    pub(crate) ghost listing: { Listing table.now actions own.list own.count },
}

// The actions of u.
pub(crate) fn own_actions(machine: &Machine, u: usize) -> Own
    requires { machine.now.sizes.actions ≤ ACTIONS }
    ensures { Owned machine.now.owners machine.now.sizes.actions u result.list result.count }
{
    let mut list = [0u8; ACTIONS];
    let mut count = 0;
    'actions: for a in 0..machine.sizes.actions {
        if machine.owner(a) == u {
            list[count] = a as u8;
            count += 1;
        }
    }
    Own { list, count }
}

impl<'a> Outputs<'a> {
    // The output of the i-th of them in a state.
    fn output(&self, s: usize, i: usize) -> usize
        requires { (s < STATES) × (i < self.now.own.count) }
        ensures value { result ≡ output_in self.now.actions self.now.table.now s (get_or self.now.own.list i 0) }
        ensures small { result < 65536 }
    {
        usize::from(self.table[s * self.actions + usize::from(self.own.list[i])])
    }
}

// States are alike where each of the actions outputs the same.
impl<'a> Likeness for Outputs<'a> {
    ghost alike = { λ o. seen_by o.own.list o.own.count o.table.now o.actions };

    ghost old = { λ _. no_class };

    ghost slot = { λ o. output_slot o.own.list o.own.count o.table.now o.actions };

    ghost states = { λ _. STATES };

    ghost laws = { λ o. seen_sorts o.own.list o.own.count o.table.now o.actions };

    // by number: the definitions count the actions of the list
    fn alike(&self, t: usize, s: usize) -> bool {
        'actions: for i in 0..self.own.count {
            if self.output(t, i) != self.output(s, i) {
                return false;
            }
        }
        true
    }

    fn slot(&self, s: usize) -> usize {
        let mut slot = 0;
        'actions: for i in 0..self.own.count {
            slot = (5 * slot + self.output(s, i)) % SLOTS;
        }
        slot
    }
}

// The classes by what a box's actions output. State 0 is the first of the one class before.
pub(crate) fn first_round(
    outputs: &Outputs<'_>,
    inside: &[bool; STATES],
    states: usize,
) -> [u8; STATES]
    requires { states ≤ STATES }
    ensures { Led (flag_at inside.now) (seen_by outputs.now.own.list outputs.now.own.count outputs.now.table.now outputs.now.actions) result states }
{
    let mut d = [0u8; STATES];
    let mut starts = [NO_STATE; SLOTS];
    'states: for s in 1..states {
        let first = first_alike(outputs, inside, &d, &mut starts, 0, s);
        d[s] = first as u8;
    }
    d
}

// Whether some action is u's.
pub(crate) fn observes(machine: &Machine, u: usize) -> bool
    ensures { result ≡ some machine.now.sizes.actions (λ a. eqb (owner_at machine.now a) u) }
{
    (0..machine.sizes.actions).any(|a| machine.owner(a) == u)
}
