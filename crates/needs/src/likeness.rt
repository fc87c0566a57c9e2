// What sorts states into classes, and the search for the first state of a class.
ghost use Rattle.std.specs.Prelude.{◌≡◌, Bool, ℕ, ◌+◌, ◌<◌, ◌≤◌};
ghost use Rattle.laws.specs.Choice.{both};
ghost use Rattle.reach.specs.Set.{flag_at};
ghost use Rattle.needs.specs.Classes.{lowest, Missed, Led};
ghost use Rattle.needs.specs.Sorts.{Sorts};
ghost use Rattle.needs.specs.Starts.{SLOTS, Begun};

use crate::starts::{SLOTS, start_of};
use model::STATES;

pub(crate) trait Likeness {
    ghost alike: { Self → ℕ → ℕ → Bool };

    // The first state of the class before, and a small number that alike states share.
    ghost old: { Self → ℕ → ℕ };

    ghost slot: { Self → ℕ → ℕ };

    ghost states: { Self → ℕ };

    ghost laws: { (l : Self) → Sorts (alike l) (old l) (slot l) (states l) };

    fn alike(&self, t: usize, s: usize) -> bool
        requires { (t < states self.now) × (s < states self.now) }
        ensures { result ≡ alike self.now t s };

    fn slot(&self, s: usize) -> usize
        requires { s < states self.now }
        ensures value { result ≡ slot self.now s }
        ensures small { result < SLOTS };
}

// Whether t counts and is alike to s.
fn joins<L: Likeness>(likeness: &L, inside: &[bool; STATES], t: usize, s: usize) -> bool
    requires { (t < L.states likeness.now) × (s < L.states likeness.now) }
    ensures { result ≡ both (flag_at inside.now t) (L.alike likeness.now t s) }
{
    let within = inside[t];
    within && likeness.alike(t, s)
}

// The first state alike to s, from a start on before which it is not. Of the states before s only those that are the first of theirs are looked at.
fn first_from<L: Likeness>(
    likeness: &L,
    inside: &[bool; STATES],
    d: &[u8; STATES],
    s: usize,
    start: usize,
) -> usize
    requires led { Led (flag_at inside.now) (L.alike likeness.now) d.now s }
    requires missed { Missed (flag_at inside.now) (L.alike likeness.now) s start }
    requires bounds { (start ≤ s) × (s < L.states likeness.now) }
    ensures value { result ≡ lowest (flag_at inside.now) (L.alike likeness.now) s }
    ensures most { result ≤ s }
{
    'earlier: for t in start..s {
        if usize::from(d[t]) != t {
            continue 'earlier;
        }
        if joins(likeness, inside, t, s) {
            return t;
        }
    }
    s
}

// The first state alike to s: that of its class before, or it is looked for from the start of its small number on.
pub(crate) fn first_alike<L: Likeness>(
    likeness: &L,
    inside: &[bool; STATES],
    d: &[u8; STATES],
    starts: &mut [u8; SLOTS],
    old: usize,
    s: usize,
) -> usize
    requires led { Led (flag_at inside.now) (L.alike likeness.now) d.now s }
    requires begun { Begun (flag_at inside.now) (L.alike likeness.now) (L.old likeness.now) (L.slot likeness.now) starts.old s }
    requires is_old { old ≡ L.old likeness.now s }
    requires missed { Missed (flag_at inside.now) (L.alike likeness.now) s old }
    requires bounds { (old < s) × (s < L.states likeness.now) }
    ensures value { result ≡ lowest (flag_at inside.now) (L.alike likeness.now) s }
    ensures most { result ≤ s }
    ensures begun { Begun (flag_at inside.now) (L.alike likeness.now) (L.old likeness.now) (L.slot likeness.now) starts.new (s + 1) }
{
    if joins(likeness, inside, old, s) {
        return old;
    }
    let start = start_of(starts, likeness.slot(s), s);
    first_from(likeness, inside, d, s, start)
}
