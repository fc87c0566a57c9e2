// A model as values and three lent tables, and the limits that every crate goes by.
#![tactic(auto)]

mod refusal;
mod rules;

ghost use Rattle.std.specs.Prelude.{◌≡◌, get_or};
ghost use Rattle.laws.specs.Sets.{has};
ghost use Rattle.model.specs.Arrows.{leads};
ghost use Rattle.model.specs.Denoted.{owner_at};
ghost use Rattle.model.specs.Made.{sizes_from, machine_from, model_from};

pub use refusal::{Refusal, Refused};
pub use rules::{machine_table_fits, model_fits, model_table_fits};

// The three limits that every other one of a model follows from.
pub const STATES: usize = 128;

pub const ACTIONS: usize = 32;

pub const BOXES: usize = 16;

// A flag for each arrow, from box v to box u at v * BOXES + u.
pub const ARROWS: usize = BOXES * BOXES;

// The lengths of the lent tables: next states, outputs, view classes.
pub const NEXT_ENTRIES: usize = STATES * ACTIONS;

pub const OUTPUT_ENTRIES: usize = STATES * ACTIONS;

pub const VIEW_ENTRIES: usize = BOXES * STATES;

// The arrows from a box to another, and the entries of a needed list, two to an arrow.
pub const PAIRS: usize = BOXES * (BOXES - 1);

pub const LIST_ENTRIES: usize = 2 * PAIRS;

// The largest id, and the largest of every other number of a sheet.
pub const LARGEST_ID: u32 = 65535;

pub const LARGEST_NUMBER: u32 = 65535;

// A sheet's bytes, a label's bytes, a run's actions, a verdict's bytes.
pub const SHEET_BYTES: usize = 32768;

pub const LABEL_BYTES: usize = 32;

pub const RUN_ACTIONS: usize = 1024;

pub const VERDICT_BYTES: usize = 8192;

// The edits of a history, and the words that it takes, six to an edit.
pub const EDITS: usize = 32;

pub const EDIT_WORDS: usize = 6 * EDITS;

// The kind of purge: by the arrows into one box, or through the boxes between.
#[derive(Clone, Copy)]
pub enum Kind {
    Plain,
    Intransitive,
}

// How many states, actions and boxes there are, and the state that a run starts in.
#[derive(Clone, Copy)]
pub struct Sizes {
    pub states: usize,
    pub actions: usize,
    pub boxes: usize,
    pub start: usize,
}

// A machine: its sizes, and for each action the position of its box.
#[derive(Clone, Copy)]
pub struct Machine {
    pub sizes: Sizes,
    pub owners: [u8; ACTIONS],
}

// A machine with the boxes' ids and the drawn arrows: bit u of row v says that an arrow leads from v to u.
#[derive(Clone, Copy)]
pub struct Model {
    pub machine: Machine,
    pub ids: [u32; BOXES],
    pub arrows: [u32; BOXES],
}

impl Sizes {
    pub fn new(states: usize, actions: usize, boxes: usize, start: usize) -> Self
        ensures { result ≡ sizes_from states actions boxes start }
    {
        Self {
            states,
            actions,
            boxes,
            start,
        }
    }
}

impl Machine {
    pub fn new(sizes: Sizes, owners: [u8; ACTIONS]) -> Self
        ensures { result ≡ machine_from sizes owners }
    {
        Self { sizes, owners }
    }

    // The position of an action's box, 0 beyond the end of the list.
    pub fn owner(&self, action: usize) -> usize
        ensures { result ≡ owner_at self.now action }
    {
        owner(&self.owners, action)
    }
}

impl Model {
    pub fn new(machine: Machine, ids: [u32; BOXES], arrows: [u32; BOXES]) -> Self
        ensures { result ≡ model_from machine ids arrows }
    {
        Self {
            machine,
            ids,
            arrows,
        }
    }

    // The id of a box, 0 beyond the end of the list.
    pub fn id(&self, position: usize) -> u32
        ensures { result ≡ get_or self.now.ids position 0 }
    {
        id(&self.ids, position)
    }

    // Whether an arrow leads from one box to another, none from beyond the rows.
    pub fn arrow(&self, source: usize, target: usize) -> bool
        ensures { result ≡ leads self.now.arrows source target }
    {
        arrow(&self.arrows, source, target)
    }
}

// An entry of a lent table, 0 beyond its end.
pub fn at(table: &[u16], index: usize) -> usize
    ensures { result ≡ get_or table.now index 0 }
{
    usize::from(table.get(index).copied().unwrap_or(0))
}

// The box of an action, 0 beyond the end of the list.
pub fn owner(owners: &[u8], action: usize) -> usize
    ensures { result ≡ get_or owners.now action 0 }
{
    usize::from(owners.get(action).copied().unwrap_or(0))
}

// The id of a box, 0 beyond the end of the list.
pub fn id(ids: &[u32], position: usize) -> u32
    ensures { result ≡ get_or ids.now position 0 }
{
    ids.get(position).copied().unwrap_or(0)
}

// Whether a number is in a set of numbers below the width of a word.
pub fn contains(set: u32, member: usize) -> bool
    ensures { result ≡ has set member }
{
    member < 32 && (set >> member) % 2 == 1
}

// Whether an arrow leads from one box to another, none from beyond the rows.
pub fn arrow(arrows: &[u32], source: usize, target: usize) -> bool
    ensures { result ≡ leads arrows.now source target }
{
    contains(arrows.get(source).copied().unwrap_or(0), target)
}
