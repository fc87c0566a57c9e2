// What spares the judge its loops over states and pairs of states. Guards read the table of first alike states.
// Loops go by number: a box, an action and a state together pick the entries of several flat tables (`u * STATES + s`, `s * actions + a`).
// `Kept` and `Alones` are clauses: each ties a table that is noted on the way to the `Tables` that are lent beside it.
ghost use Rattle.std.specs.Prelude.{◌≡◌, true, false, ◌+◌, ◌*◌, ◌<◌, ◌≤◌, get_or};
ghost use Rattle.model.specs.Limits.{STATES, ACTIONS, BOXES};
ghost use Rattle.views.specs.Guards.{SPOTS, low_at, sent, spot, Idle, Keeps, Kept, Alones, alone_in, strong_in, quiet_in, Links, Calm};

use crate::tables::Tables;
use model::{ACTIONS, BOXES, OUTPUT_ENTRIES, STATES};

// The numbers of pairs of classes.
pub(crate) const SPOTS: usize = STATES * STATES;

// What is noted for each box and action, box × ACTIONS + action.
pub(crate) const KEPT: usize = BOXES * ACTIONS;

// What was noted for u and the action.
fn was_kept(kept: &[bool; KEPT], u: usize, a: usize) -> bool
    requires { (u < BOXES) × (a < ACTIONS) }
    ensures { result ≡ get_or kept.now (u * ACTIONS + a) false }
{
    kept[u * ACTIONS + a]
}

impl<'a> Tables<'a> {
    // The first state that looks like s to box u.
    fn low_of(&self, u: usize, s: usize) -> usize
        requires { (u < self.now.model.now.machine.sizes.boxes) × (s < self.now.model.now.machine.sizes.states) }
        ensures is_low { result ≡ low_at self.now.low.now u s }
        ensures upto { result ≤ s }
    {
        usize::from(self.low[u * STATES + s])
    }

    // The same of the state that the action leads to.
    fn sends(&self, u: usize, a: usize, s: usize) -> usize
        requires box_in { (u < self.now.model.now.machine.sizes.boxes) × (a < self.now.model.now.machine.sizes.actions) }
        requires state_in { s < self.now.model.now.machine.sizes.states }
        ensures { result ≡ sent self.now.model.now.machine.sizes.actions self.now.next.now self.now.low.now u a s }
    {
        self.low_of(u, self.after(a, s))
    }

    // Whether no two states are alike to u.
    fn alone(&self, u: usize) -> bool
        requires { u < self.now.model.now.machine.sizes.boxes }
        ensures { result ≡ alone_in self.now.model.now.machine.sizes.states self.now.low.now u }
    {
        (0..self.model.machine.sizes.states).all(|s| self.low_of(u, s) == s)
    }

    // The same of every box, since step asks again for each action.
    pub(crate) fn alones(&self) -> [bool; BOXES]
        ensures { Alones self.now.model.now.machine.sizes.states self.now.low.now result }
    {
        // tried as `array::from_fn(|u| u < boxes && self.alone(u))`, and the proof didn't close
        let mut alones = [false; BOXES];
        'boxes: for u in 0..self.model.machine.sizes.boxes {
            alones[u] = self.alone(u);
        }
        alones
    }

    // Whether the action changes no state.
    fn is_idle(&self, a: usize) -> bool
        requires { a < self.now.model.now.machine.sizes.actions }
        ensures { result ≡ true → Idle self.now.model.now.machine.sizes.states self.now.model.now.machine.sizes.actions self.now.next.now a }
    {
        (0..self.model.machine.sizes.states).all(|s| self.after(a, s) == s)
    }

    // An action that changes none is noted for every box.
    fn note_idle(&self, kept: &mut [bool; KEPT], a: usize)
        requires kept { Kept self.now.model.now.machine.sizes.states self.now.model.now.machine.sizes.actions self.now.next.now self.now.low.now kept.old }
        requires idle { Idle self.now.model.now.machine.sizes.states self.now.model.now.machine.sizes.actions self.now.next.now a }
        requires action_in { a < ACTIONS }
        ensures { Kept self.now.model.now.machine.sizes.states self.now.model.now.machine.sizes.actions self.now.next.now self.now.low.now kept.new }
    {
        'boxes: for u in 0..BOXES {
            kept[u * ACTIONS + a] = true;
        }
    }

    // What is noted beforehand: the actions that change no state, as those that only look.
    pub(crate) fn idles(&self) -> [bool; KEPT]
        ensures { Kept self.now.model.now.machine.sizes.states self.now.model.now.machine.sizes.actions self.now.next.now self.now.low.now result }
    {
        let mut kept = [false; KEPT];
        'actions: for a in 0..self.model.machine.sizes.actions {
            if self.is_idle(a) {
                self.note_idle(&mut kept, a);
            }
        }
        kept
    }

    // Whether the action changes no state's class for u.
    fn keeps(&self, u: usize, a: usize) -> bool
        requires { (u < self.now.model.now.machine.sizes.boxes) × (a < self.now.model.now.machine.sizes.actions) }
        ensures { result ≡ true → Keeps self.now.model.now.machine.sizes.states self.now.model.now.machine.sizes.actions self.now.next.now self.now.low.now u a }
    {
        // by a loop: `all` over the range takes 9 instructions a state and not 8, and misses the bar of speed (still-both: 262 -> 289 thousand in the judge)
        'states: for s in 0..self.model.machine.sizes.states {
            if self.low_of(u, s) != self.sends(u, a, s) {
                return false;
            }
        }
        true
    }

    // The same, and noted, since what respect looked at step need not look at again.
    pub(crate) fn note_kept(&self, kept: &mut [bool; KEPT], u: usize, a: usize) -> bool
        requires kept { Kept self.now.model.now.machine.sizes.states self.now.model.now.machine.sizes.actions self.now.next.now self.now.low.now kept.old }
        requires box_in { (u < self.now.model.now.machine.sizes.boxes) × (a < self.now.model.now.machine.sizes.actions) }
        ensures still_kept { Kept self.now.model.now.machine.sizes.states self.now.model.now.machine.sizes.actions self.now.next.now self.now.low.now kept.new }
        ensures keeps { result ≡ true → Keeps self.now.model.now.machine.sizes.states self.now.model.now.machine.sizes.actions self.now.next.now self.now.low.now u a }
    {
        if was_kept(kept, u, a) {
            return true;
        }
        if self.keeps(u, a) {
            kept[u * ACTIONS + a] = true;
            return true;
        }
        false
    }

    // Whether each state and the first one alike to u go to states alike to u.
    fn strong(&self, u: usize, a: usize) -> bool
        requires { (u < self.now.model.now.machine.sizes.boxes) × (a < self.now.model.now.machine.sizes.actions) }
        ensures { result ≡ strong_in self.now.model.now.machine.sizes.states self.now.model.now.machine.sizes.actions self.now.next.now self.now.low.now u a }
    {
        // by a loop, as `keeps`
        'states: for s in 0..self.model.machine.sizes.states {
            let t = self.low_of(u, s);
            if t == s {
                continue 'states;
            }
            if self.sends(u, a, s) != self.sends(u, a, t) {
                return false;
            }
        }
        true
    }

    // One number for the classes of s for both boxes.
    fn spot_of(&self, u: usize, o: usize, s: usize) -> usize
        requires boxes_in { (u < self.now.model.now.machine.sizes.boxes) × (o < self.now.model.now.machine.sizes.boxes) }
        requires state_in { s < self.now.model.now.machine.sizes.states }
        ensures { (result ≡ spot self.now.low.now u o s) × (result < SPOTS) }
    {
        self.low_of(u, s) * STATES + self.low_of(o, s)
    }

    // Whether t, which the spots name, is an earlier state alike to both boxes.
    fn linked(&self, u: usize, o: usize, i: usize, s: usize, t: usize) -> bool
        requires boxes_in { (u < self.now.model.now.machine.sizes.boxes) × (o < self.now.model.now.machine.sizes.boxes) }
        requires state_in { s < self.now.model.now.machine.sizes.states }
        ensures { Links self.now.low.now u o i s t result }
    {
        t < s && self.spot_of(u, o, t) == i
    }

    // Whether each state and an earlier one alike to both boxes go to states alike to u. What stands at the spots is of no matter.
    fn weak(&self, spots: &mut [u8; SPOTS], u: usize, o: usize, a: usize) -> bool
        requires boxes_in { (u < self.now.model.now.machine.sizes.boxes) × (o < self.now.model.now.machine.sizes.boxes) }
        requires action_in { a < self.now.model.now.machine.sizes.actions }
        ensures { result ≡ true → Calm self.now.model.now.machine.sizes.states self.now.model.now.machine.sizes.actions self.now.next.now self.now.low.now u o a }
    {
        'states: for s in 0..self.model.machine.sizes.states {
            let i = self.spot_of(u, o, s);
            let t = usize::from(spots[i]);
            if self.linked(u, o, i, s, t) {
                if self.sends(u, a, s) != self.sends(u, a, t) {
                    return false;
                }
                continue 'states;
            }
            spots[i] = s as u8;
        }
        true
    }

    // Whether the loops over pairs would find nothing for u and a, an action of o, by four guards, the cheapest first.
    pub(crate) fn settled(
        &self,
        kept: &[bool; KEPT],
        alones: &[bool; BOXES],
        spots: &mut [u8; SPOTS],
        u: usize,
        o: usize,
        a: usize,
    ) -> bool
        requires kept { Kept self.now.model.now.machine.sizes.states self.now.model.now.machine.sizes.actions self.now.next.now self.now.low.now kept.now }
        requires alones { Alones self.now.model.now.machine.sizes.states self.now.low.now alones.now }
        requires boxes_in { (u < self.now.model.now.machine.sizes.boxes) × (o < self.now.model.now.machine.sizes.boxes) }
        requires action_in { a < self.now.model.now.machine.sizes.actions }
        ensures { result ≡ true → Calm self.now.model.now.machine.sizes.states self.now.model.now.machine.sizes.actions self.now.next.now self.now.low.now u o a }
    {
        was_kept(kept, u, a) || alones[o] || self.strong(u, a) || self.weak(spots, u, o, a)
    }

    // Whether the action's output at each state is that at the first one alike to o, its box.
    fn quiet(&self, outputs: &[u16; OUTPUT_ENTRIES], o: usize, a: usize) -> bool
        requires { (o < self.now.model.now.machine.sizes.boxes) × (a < self.now.model.now.machine.sizes.actions) }
        ensures { result ≡ quiet_in self.now.model.now.machine.sizes.states self.now.model.now.machine.sizes.actions outputs.now self.now.low.now o a }
    {
        // by a loop, as `keeps`
        'states: for s in 0..self.model.machine.sizes.states {
            let t = self.low_of(o, s);
            if self.at_state(outputs, a, s) != self.at_state(outputs, a, t) {
                return false;
            }
        }
        true
    }

    // The same, and of a box to which no two states are alike without looking.
    pub(crate) fn silent(
        &self,
        outputs: &[u16; OUTPUT_ENTRIES],
        alones: &[bool; BOXES],
        o: usize,
        a: usize,
    ) -> bool
        requires alones { Alones self.now.model.now.machine.sizes.states self.now.low.now alones.now }
        requires box_in { (o < self.now.model.now.machine.sizes.boxes) × (a < self.now.model.now.machine.sizes.actions) }
        ensures { result ≡ quiet_in self.now.model.now.machine.sizes.states self.now.model.now.machine.sizes.actions outputs.now self.now.low.now o a }
    {
        alones[o] || self.quiet(outputs, o, a)
    }
}
