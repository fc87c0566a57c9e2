// One round: the class number of each state from those of the round before.
ghost use Rattle.std.specs.Prelude.{◌≡◌, ◌≢◌, true, false, ◌+◌, ◌<◌, ◌≤◌, eqb};
ghost use Rattle.laws.specs.Choice.{both, brings};
ghost use Rattle.laws.specs.Range.{every};
ghost use Rattle.model.specs.Limits.{STATES};
ghost use Rattle.reach.specs.Set.{flag_at};
ghost use Rattle.needs.specs.Tables.{entry};
ghost use Rattle.needs.specs.Classes.{agrees_in, unchanged, Below, Led};
ghost use Rattle.needs.specs.Again.{Quiet, Leads, Places, On, Longer, Stayed, Moved, MovedTo, kept_number};
ghost use Rattle.needs.specs.Starts.{next_slot, Begun};
ghost use Rattle.needs.specs.Laws.{agree_sorts};

use crate::likeness::{Likeness, first_alike};
use crate::outputs::NO_STATE;
use crate::starts::SLOTS;
use crate::walk::Walk;
use model::STATES;

// The class numbers of a round, none above its state.
#[derive(Clone, Copy)]
pub(crate) struct Classes<'w, 'n> {
    pub(crate) walk: Walk<'w>,
    pub(crate) numbers: &'n [u8; STATES],
    pub(crate) ghost below: { Below walk.states numbers.now },
}

// States are alike that have one class number, now and after each action.
impl<'w, 'n> Likeness for Classes<'w, 'n> {
    ghost alike = { λ c. agrees_in c.walk.actions c.walk.next.now c.numbers.now };

    ghost old = { λ c. entry c.numbers.now };

    ghost slot = { λ c. next_slot c.walk.actions c.walk.next.now c.numbers.now };

    ghost states = { λ c. c.walk.states };

    ghost laws = { λ c. agree_sorts c.walk.actions c.walk.next.now c.numbers.now c.walk.steps };

    fn alike(&self, t: usize, s: usize) -> bool {
        if self.numbers[t] != self.numbers[s] {
            return false;
        }
        'actions: for a in 0..self.walk.actions {
            let x = self.walk.step(t, a);
            let y = self.walk.step(s, a);
            if self.numbers[x] != self.numbers[y] {
                return false;
            }
        }
        true
    }

    fn slot(&self, s: usize) -> usize {
        let mut slot = 0;
        'actions: for a in 0..self.walk.actions {
            let x = self.walk.step(s, a);
            slot = (5 * slot + usize::from(self.numbers[x])) % SLOTS;
        }
        slot
    }
}

// The next class number of s where it is known without looking, from an unmarked state of its old class; else no number of a state.
pub(crate) fn known(marks: &[bool; STATES], lead: &[u8; STATES], s: usize, old: usize) -> usize
    requires { (s < STATES) × (old < STATES) }
    ensures unmarked { result < STATES → flag_at marks.now s ≡ false }
    ensures value { flag_at marks.now s ≡ false → result ≡ entry lead.now old }
{
    if marks[s] {
        STATES
    } else {
        usize::from(lead[old])
    }
}

// The number that the kept part of an old class has.
pub(crate) fn kept(lead: &[u8; STATES], old: usize) -> usize
    requires { old < STATES }
    ensures { result ≡ kept_number lead.now old }
{
    let number = usize::from(lead[old]);
    if number < STATES { number } else { old }
}

// States that moved: the first `count` of the list, unless that is full.
#[derive(Clone, Copy)]
pub(crate) struct Moves {
    pub(crate) list: [u8; STATES],
    pub(crate) count: usize,
    pub(crate) ghost places: { Places list count },
}

impl Moves {
    // Puts s on the list, unless that is full.
    fn note(&mut self, s: usize)
        requires { s < STATES }
        ensures longer { Longer self.old.list self.new.list self.old.count self.new.count }
        ensures on { self.new.count < STATES → On self.new.list self.new.count s }
    {
        if self.count < STATES {
            self.list[self.count] = s as u8;
            self.count += 1;
        }
    }

    // Puts the states before s that stayed with the first of their old class on the list: the kept part is another.
    fn note_stayed(&mut self, c: &[u8; STATES], d: &[u8; STATES], old: usize, s: usize)
        requires { s < STATES }
        ensures longer { Longer self.old.list self.new.list self.old.count self.new.count }
        ensures stayed { Stayed c.now d.now self.new.list self.new.count old s }
    {
        'earlier: for t in old..s {
            if usize::from(c[t]) != old {
                continue 'earlier;
            }
            if usize::from(d[t]) != old {
                continue 'earlier;
            }
            self.note(t);
        }
    }
}

// Whether s speaks for its old class: it counts and is not marked.
pub(crate) fn speaks(inside: &[bool; STATES], marks: &[bool; STATES], s: usize) -> bool
    requires { s < STATES }
    ensures { result ≡ true → (flag_at marks.now s ≡ false) × (flag_at inside.now s ≡ true) }
{
    !marks[s] && inside[s]
}

// Looks for the next class number of s. The kept part of a class is that of its first unmarked state that counts, and until there is one that of its first state.
// Its tables are parameters, and their facts clauses: each changes on the way, and is tied to `classes`, which is lent beside it.
pub(crate) fn place(
    classes: &Classes<'_, '_>,
    inside: &[bool; STATES],
    d: &mut [u8; STATES],
    marks: &[bool; STATES],
    lead: &mut [u8; STATES],
    starts: &mut [u8; SLOTS],
    moved: &mut Moves,
    s: usize,
)
    requires led { Led (flag_at inside.now) (agrees_in classes.now.walk.actions classes.now.walk.next.now classes.now.numbers.now) d.old s }
    requires leads { Leads classes.now.walk.actions classes.now.walk.next.now classes.now.numbers.now lead.old inside.now marks.now s }
    requires begun { Begun (flag_at inside.now) (agrees_in classes.now.walk.actions classes.now.walk.next.now classes.now.numbers.now) (entry classes.now.numbers.now) (next_slot classes.now.walk.actions classes.now.walk.next.now classes.now.numbers.now) starts.old s }
    requires moved_to { MovedTo s classes.now.numbers.now d.old lead.old moved.old.list moved.old.count }
    requires s_bound { s < classes.now.walk.states }
    requires no_first { entry classes.now.numbers.now s ≢ s }
    requires unknown { flag_at marks.now s ≡ false → STATES ≤ entry lead.old (entry classes.now.numbers.now s) }
    ensures led { Led (flag_at inside.now) (agrees_in classes.now.walk.actions classes.now.walk.next.now classes.now.numbers.now) d.new (s + 1) }
    ensures leads { Leads classes.now.walk.actions classes.now.walk.next.now classes.now.numbers.now lead.new inside.now marks.now (s + 1) }
    ensures begun { Begun (flag_at inside.now) (agrees_in classes.now.walk.actions classes.now.walk.next.now classes.now.numbers.now) (entry classes.now.numbers.now) (next_slot classes.now.walk.actions classes.now.walk.next.now classes.now.numbers.now) starts.new (s + 1) }
    ensures moved_to { MovedTo (s + 1) classes.now.numbers.now d.new lead.new moved.new.list moved.new.count }
{
    let old = usize::from(classes.numbers[s]);
    let first = first_alike(classes, inside, d, starts, old, s);
    let number = first as u8;
    d[s] = number;
    if speaks(inside, marks, s) {
        lead[old] = number;
        if first == old {
            return;
        }
        moved.note_stayed(classes.numbers, d, old, s);
        return;
    }
    if first == kept(lead, old) {
        return;
    }
    moved.note(s);
}

// Whether no state up to s that counts has another number, where `same` says so of those before it.
pub(crate) fn still(
    same: bool,
    inside: &[bool; STATES],
    c: &[u8; STATES],
    d: &[u8; STATES],
    s: usize,
) -> bool
    requires { s < STATES }
    ensures { result ≡ both same (brings (flag_at inside.now s) (eqb (entry c.now s) (entry d.now s))) }
{
    same && (c[s] == d[s] || !inside[s])
}

// The class numbers of the next round, and whether each state that counts has its old one.
// A flag beside them and no `Option`: the contract says what the numbers are in either case.
#[derive(Clone, Copy)]
pub(crate) struct Rounded {
    pub(crate) numbers: [u8; STATES],
    pub(crate) same: bool,
}

// The next round; it puts on the list the states that moved out of the kept part of their class.
// Only a marked state, and the first unmarked one of a class, are compared with others.
pub(crate) fn round(
    classes: &Classes<'_, '_>,
    inside: &[bool; STATES],
    marks: &[bool; STATES],
    moved: &mut Moves,
) -> Rounded
    requires { Quiet classes.now.walk.states classes.now.walk.actions classes.now.walk.next.now classes.now.numbers.now marks.now }
    ensures led { Led (flag_at inside.now) (agrees_in classes.now.walk.actions classes.now.walk.next.now classes.now.numbers.now) result.numbers classes.now.walk.states }
    ensures same { result.same ≡ unchanged classes.now.walk.states (flag_at inside.now) (entry classes.now.numbers.now) (entry result.numbers) }
    ensures moved { Moved classes.now.walk.states classes.now.numbers.now result.numbers moved.new.list moved.new.count }
{
    let c = classes.numbers;
    let mut d = [0u8; STATES];
    let mut lead = [NO_STATE; STATES];
    let mut starts = [NO_STATE; SLOTS];
    let mut same = true;
    'states: for s in 0..classes.walk.states {
        let old = usize::from(c[s]);
        if old == s {
            d[s] = s as u8;
            continue 'states;
        }
        let number = known(marks, &lead, s, old);
        if number < STATES {
            d[s] = number as u8;
            continue 'states;
        }
        place(
            classes,
            inside,
            &mut d,
            marks,
            &mut lead,
            &mut starts,
            moved,
            s,
        );
        same = still(same, inside, c, &d, s);
    }
    Rounded { numbers: d, same }
}

// Whether all states that count have number 0: one class, which no round splits.
pub(crate) fn one_class(inside: &[bool; STATES], c: &[u8; STATES], states: usize) -> bool
    requires { states ≤ STATES }
    ensures { result ≡ every states (λ s. brings (flag_at inside.now s) (eqb (entry c.now s) 0)) }
{
    (0..states).all(|s| c[s] == 0 || !inside[s])
}
