// What the judge reads: a machine, its next states, the views, and the first state that looks like each.
ghost use Rattle.std.specs.Prelude.{◌≡◌, ◌+◌, ◌*◌, ◌<◌, ◌≤◌, get_or};
ghost use Rattle.laws.specs.Choice.{both};
ghost use Rattle.model.specs.Limits.{STATES, BOXES};
ghost use Rattle.model.specs.Good.{GoodMachine, GoodTable};
ghost use Rattle.views.specs.Guards.{SLOTS, class_at, low_at, Least, Lows, Filled, slot_of, other_of, Slots, Others, Second, Noted};
ghost use Rattle.views.specs.Tables.{alike_in, leaks_in, moves_in, tears_in};

use model::{BOXES, Machine, Model, NEXT_ENTRIES, OUTPUT_ENTRIES, STATES, VIEW_ENTRIES};

// The first alike states, box × STATES + state; the slots of one box.
pub(crate) const LOWS: usize = BOXES * STATES;

const SLOTS: usize = 256;

#[derive(Clone, Copy)]
pub(crate) struct Tables<'a> {
    pub(crate) model: &'a Model,
    pub(crate) next: &'a [u16; NEXT_ENTRIES],
    pub(crate) views: &'a [u16; VIEW_ENTRIES],
    pub(crate) low: &'a [u8; LOWS],
    pub(crate) ghost good: { GoodTable model.now.machine next.now },
    pub(crate) ghost lows: { Lows model.now.machine.sizes.states model.now.machine.sizes.boxes views.now low.now },
}

impl<'a> Tables<'a> {
    // What a table of next states or outputs has for the action at s.
    pub(crate) fn at_state(&self, table: &[u16; NEXT_ENTRIES], a: usize, s: usize) -> usize
        requires { (a < self.now.model.now.machine.sizes.actions) × (s < self.now.model.now.machine.sizes.states) }
        ensures { result ≡ get_or table.now (s * self.now.model.now.machine.sizes.actions + a) 0 }
    {
        usize::from(table[s * self.model.machine.sizes.actions + a])
    }

    // The state that the action leads to from s.
    pub(crate) fn after(&self, a: usize, s: usize) -> usize
        requires { (a < self.now.model.now.machine.sizes.actions) × (s < self.now.model.now.machine.sizes.states) }
        ensures is_next { result ≡ get_or self.now.next.now (s * self.now.model.now.machine.sizes.actions + a) 0 }
        ensures in_table { result < self.now.model.now.machine.sizes.states }
    {
        self.at_state(self.next, a, s)
    }

    // Whether s and t look alike to box u.
    fn alike(&self, u: usize, s: usize, t: usize) -> bool
        requires box_in { u < self.now.model.now.machine.sizes.boxes }
        requires states_in { (s < self.now.model.now.machine.sizes.states) × (t < self.now.model.now.machine.sizes.states) }
        ensures { result ≡ alike_in self.now.model.now.machine.sizes.states self.now.views.now u s t }
    {
        let row = u * self.model.machine.sizes.states;
        self.views[row + s] == self.views[row + t]
    }

    // Whether s and t look alike to u and to o.
    fn both_alike(&self, u: usize, o: usize, s: usize, t: usize) -> bool
        requires boxes_in { (u < self.now.model.now.machine.sizes.boxes) × (o < self.now.model.now.machine.sizes.boxes) }
        requires states_in { (s < self.now.model.now.machine.sizes.states) × (t < self.now.model.now.machine.sizes.states) }
        ensures { result ≡ both (alike_in self.now.model.now.machine.sizes.states self.now.views.now u s t) (alike_in self.now.model.now.machine.sizes.states self.now.views.now o s t) }
    {
        self.alike(u, s, t) && self.alike(o, s, t)
    }

    // Whether s and t look alike to o, the action's box, and the action's outputs there differ.
    pub(crate) fn leaks(
        &self,
        outputs: &[u16; OUTPUT_ENTRIES],
        o: usize,
        a: usize,
        s: usize,
        t: usize,
    ) -> bool
        requires box_in { (o < self.now.model.now.machine.sizes.boxes) × (a < self.now.model.now.machine.sizes.actions) }
        requires states_in { (s < self.now.model.now.machine.sizes.states) × (t < self.now.model.now.machine.sizes.states) }
        ensures { result ≡ leaks_in self.now.model.now.machine.sizes.states self.now.model.now.machine.sizes.actions outputs.now self.now.views.now o a s t }
    {
        self.alike(o, s, t) && self.at_state(outputs, a, s) != self.at_state(outputs, a, t)
    }

    // Whether the action changes u's class of s.
    pub(crate) fn moves(&self, u: usize, a: usize, s: usize) -> bool
        requires box_in { (u < self.now.model.now.machine.sizes.boxes) × (a < self.now.model.now.machine.sizes.actions) }
        requires state_in { s < self.now.model.now.machine.sizes.states }
        ensures { result ≡ moves_in self.now.model.now.machine.sizes.states self.now.model.now.machine.sizes.actions self.now.next.now self.now.views.now u a s }
    {
        !self.alike(u, s, self.after(a, s))
    }

    // Whether s and t look alike to u and to o, the action's box, and no longer to u after the action.
    pub(crate) fn tears(&self, u: usize, o: usize, a: usize, s: usize, t: usize) -> bool
        requires box_in { (u < self.now.model.now.machine.sizes.boxes) × (o < self.now.model.now.machine.sizes.boxes) × (a < self.now.model.now.machine.sizes.actions) }
        requires states_in { (s < self.now.model.now.machine.sizes.states) × (t < self.now.model.now.machine.sizes.states) }
        ensures { result ≡ tears_in self.now.model.now.machine.sizes.states self.now.model.now.machine.sizes.actions self.now.next.now self.now.views.now u o a s t }
    {
        self.both_alike(u, o, s, t) && !self.alike(u, self.after(a, s), self.after(a, t))
    }
}

// The classes that one box's view gives the states.
#[derive(Clone, Copy)]
struct Row<'a> {
    views: &'a [u16; VIEW_ENTRIES],
    states: usize,
    u: usize,
    ghost states_most: { states ≤ STATES },
    ghost box_in: { u < BOXES },
}

// A small number that equal classes share.
fn slot_of(class: usize) -> usize
    ensures { (result ≡ slot_of class) × (result < SLOTS) }
{
    (class / SLOTS + class % SLOTS) % SLOTS
}

// Another, which classes that share the first do not share.
fn other_of(class: usize) -> usize
    ensures { (result ≡ other_of class) × (result < SLOTS) }
{
    class / SLOTS % SLOTS
}

impl<'a> Row<'a> {
    fn class(&self, s: usize) -> usize
        requires { s < self.now.states }
        ensures { result ≡ class_at self.now.states self.now.views.now self.now.u s }
    {
        usize::from(self.views[self.u * self.states + s])
    }

    // The first state with the class of s, by looking at each.
    fn first_like(&self, s: usize) -> usize
        requires { s < self.now.states }
        ensures { Least self.now.states self.now.views.now self.now.u s result }
    {
        (0..s)
            .find(|t| self.class(*t) == self.class(s))
            .unwrap_or(s)
    }

    // The same where the first slot names a state of another class, by way of the second slots.
    fn first_other(&self, others: &mut [u8; SLOTS], s: usize) -> usize
        requires second { Second self.now.states self.now.views.now self.now.u s others.old }
        requires state_in { s < self.now.states }
        ensures noted { Noted self.now.states self.now.views.now self.now.u s others.old others.new }
        ensures least { Least self.now.states self.now.views.now self.now.u s result }
    {
        let class = self.class(s);
        let slot = other_of(class);
        let t = usize::from(others[slot]);
        if s <= t {
            others[slot] = s as u8;
            return s;
        }
        if self.class(t) == class {
            return t;
        }
        self.first_like(s)
    }

    // The same by way of the slots, which name the first state that has each small number.
    fn first_alike(&self, slots: &mut [u8; SLOTS], others: &mut [u8; SLOTS], s: usize) -> usize
        requires slots { Slots self.now.states self.now.views.now self.now.u s slots.old }
        requires others { Others self.now.states self.now.views.now self.now.u s slots.old others.old }
        requires state_in { s < self.now.states }
        ensures slots_now { Slots self.now.states self.now.views.now self.now.u (s + 1) slots.new }
        ensures others_now { Others self.now.states self.now.views.now self.now.u (s + 1) slots.new others.new }
        ensures least { Least self.now.states self.now.views.now self.now.u s result }
    {
        let class = self.class(s);
        let slot = slot_of(class);
        let t = usize::from(slots[slot]);
        if s <= t {
            slots[slot] = s as u8;
            return s;
        }
        if self.class(t) == class {
            return t;
        }
        self.first_other(others, s)
    }

    // The first alike states of the box.
    fn fill(&self, low: &mut [u8; LOWS])
        requires { Filled self.now.states self.now.views.now low.old self.now.u 0 }
        ensures { Filled self.now.states self.now.views.now low.new (self.now.u + 1) 0 }
    {
        let mut slots = [255u8; SLOTS];
        let mut others = [255u8; SLOTS];
        // by number: a state's class stands in one table, and its entry in another
        'states: for s in 0..self.states {
            let r = self.first_alike(&mut slots, &mut others, s);
            low[self.u * STATES + s] = r as u8;
        }
    }
}

// The first alike state of every state, for every box.
pub(crate) fn lows(machine: &Machine, views: &[u16; VIEW_ENTRIES]) -> [u8; LOWS]
    requires { GoodMachine machine.now }
    ensures { Lows machine.now.sizes.states machine.now.sizes.boxes views.now result }
{
    let states = machine.sizes.states;
    let mut low = [0u8; LOWS];
    // by number: what a box fills is a row of the flat table
    'boxes: for u in 0..machine.sizes.boxes {
        let row = Row { views, states, u };
        row.fill(&mut low);
    }
    low
}
