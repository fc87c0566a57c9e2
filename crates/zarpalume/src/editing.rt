// The calls on the list of boxes that a host lends: each hands on to the one edit. 0, or the refusal's number.
ghost use Rattle.std.specs.Prelude.{◌≡◌};
ghost use Rattle.edits.specs.History.{past};
ghost use Rattle.edits.specs.Edited.{outcome, edited};
ghost use Rattle.edits.specs.declared.Change.TheVariants.{Add, Delete, Draw, Erase};
ghost use Rattle.edits.specs.declared.Request.TheVariants.{Make, Undo, Drop};

use edits::{BoxRecord, Change, Request};

// A new box, behind the others.
pub fn zarpalume_add(list: &mut [BoxRecord], history: &mut [u32], count: &mut u32, id: u32) -> u32
    ensures { outcome result list.new count.new history.new ≡ edited list.old (past count.old history.old) (Make (Add id)) }
{
    edits::number(edits::apply(list, history, count, Request::Make(Change::Add(id))))
}

// The box with this id goes, with all its arrows.
pub fn zarpalume_delete(
    list: &mut [BoxRecord],
    history: &mut [u32],
    count: &mut u32,
    id: u32,
) -> u32
    ensures { outcome result list.new count.new history.new ≡ edited list.old (past count.old history.old) (Make (Delete id)) }
{
    edits::number(edits::apply(list, history, count, Request::Make(Change::Delete(id))))
}

pub fn zarpalume_draw(
    list: &mut [BoxRecord],
    history: &mut [u32],
    count: &mut u32,
    source: u32,
    target: u32,
) -> u32
    ensures { outcome result list.new count.new history.new ≡ edited list.old (past count.old history.old) (Make (Draw source target)) }
{
    edits::number(edits::apply(
        list,
        history,
        count,
        Request::Make(Change::Draw(source, target)),
    ))
}

pub fn zarpalume_erase(
    list: &mut [BoxRecord],
    history: &mut [u32],
    count: &mut u32,
    source: u32,
    target: u32,
) -> u32
    ensures { outcome result list.new count.new history.new ≡ edited list.old (past count.old history.old) (Make (Erase source target)) }
{
    edits::number(edits::apply(
        list,
        history,
        count,
        Request::Make(Change::Erase(source, target)),
    ))
}

// The list as it was before the newest edit of the history.
pub fn zarpalume_undo(list: &mut [BoxRecord], history: &mut [u32], count: &mut u32) -> u32
    ensures { outcome result list.new count.new history.new ≡ edited list.old (past count.old history.old) Undo }
{
    edits::number(edits::apply(list, history, count, Request::Undo))
}

// The whole history goes, and boxes and arrows stay.
pub fn zarpalume_drop(list: &mut [BoxRecord], history: &mut [u32], count: &mut u32) -> u32
    ensures { outcome result list.new count.new history.new ≡ edited list.old (past count.old history.old) Drop }
{
    edits::number(edits::apply(list, history, count, Request::Drop))
}
