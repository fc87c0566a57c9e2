// Edits of the list of boxes that a host lends, with undo: add, delete, draw, erase.
#![tactic(auto, unfolding(laws::specs::Choice::both, laws::specs::Choice::choose, laws::specs::Choice::brings))]

mod allowed;
mod bits;
mod boxes;
mod call;
mod changes;
mod history;
mod plans;

ghost use Rattle.std.specs.Prelude.{◌≡◌};
ghost use Rattle.edits.specs.History.{past};
ghost use Rattle.edits.specs.Edited.{asked, number, outcome, edited};

use model::Refusal;

// The kinds of a request; the first four are those of an entry, too. They are numbers, since hosts give and keep them.
pub const ADD: u32 = 1;

pub const DELETE: u32 = 2;

pub const DRAW: u32 = 3;

pub const ERASE: u32 = 4;

pub const UNDO: u32 = 5;

pub const DROP: u32 = 6;

// The C interface: a box, with live 1; or no box, all zero. Bit u of arrows: an arrow to the box at position u.
#[repr(C)]
#[derive(Clone, Copy, Default, PartialEq, Eq)]
pub struct BoxRecord {
    pub id: u32,
    pub live: u32,
    pub arrows: u32,
}

// An edit that was done, with what undoes it. What a kind doesn't use is zero. The kind is a number and no enum,
// since the fields are words that a host keeps; `as` makes positions of them, since Rust has no `From` between u32 and usize.
#[derive(Clone, Copy, Default)]
pub struct Entry {
    pub kind: u32,
    pub at: u32,
    pub to: u32,
    pub id: u32,
    pub out: u32,
    pub into: u32,
}

// What a host asks to be changed; boxes by their ids.
#[derive(Clone, Copy)]
pub enum Change {
    Add(u32),
    Delete(u32),
    Draw(u32, u32),
    Erase(u32, u32),
}

// What is asked for. What is unknown is refused by `Rules`, and only after the list's own faults.
#[derive(Clone, Copy)]
pub enum Request {
    Make(Change),
    Undo,
    Drop,
    Unknown,
}

impl Request {
    // By its kind and two ids.
    #[tactic(auto, unfolding(laws::specs::Choice::choose, crate::specs::Edited::asked))]
    fn asked(kind: u32, first: u32, second: u32) -> Request
        ensures { result ≡ asked kind first second }
    {
        match kind {
            ADD => Request::Make(Change::Add(first)),
            DELETE => Request::Make(Change::Delete(first)),
            DRAW => Request::Make(Change::Draw(first, second)),
            ERASE => Request::Make(Change::Erase(first, second)),
            UNDO => Request::Undo,
            DROP => Request::Drop,
            _ => Request::Unknown,
        }
    }
}

// 0, or the number of the refusal.
pub fn number(answer: Result<(), Refusal>) -> u32
    ensures { result ≡ number answer }
{
    match answer {
        Ok(()) => 0,
        Err(refusal) => u32::from(refusal.number()),
    }
}

// What is asked for, done on a list and its history, which the host lends; by a refusal nothing changes.
#[tactic(auto, unfolding(laws::specs::Choice::both, laws::specs::Choice::choose, laws::specs::Choice::brings, crate::specs::Edited::edited))]
pub fn apply(
    list: &mut [BoxRecord],
    history: &mut [u32],
    count: &mut u32,
    request: Request,
) -> Result<(), Refusal>
    ensures { outcome (number result) list.new count.new history.new ≡ edited list.old (past count.old history.old) request }
{
    let Some(boxes) = list.as_mut_array() else {
        return Err(Refusal::Length);
    };
    let Some(words) = history.as_mut_array() else {
        return Err(Refusal::Length);
    };
    call::answer(boxes, words, count, request)
}

// The same, asked by a kind and two ids: 0, or the number of the refusal.
pub fn edit(
    list: &mut [BoxRecord],
    history: &mut [u32],
    count: &mut u32,
    kind: u32,
    first: u32,
    second: u32,
) -> u32
    ensures { outcome result list.new count.new history.new ≡ edited list.old (past count.old history.old) (asked kind first second) }
{
    number(apply(list, history, count, Request::asked(kind, first, second)))
}
