// The calls for C and C++: each hands on to the library's function of its name, and promises what that promises.
#![tactic(auto)]

ghost use Rattle.std.specs.Prelude.{◌≡◌};
ghost use Rattle.edits.specs.History.{past};
ghost use Rattle.edits.specs.Edited.{outcome, edited};
ghost use Rattle.edits.specs.declared.Change.TheVariants.{Add, Delete, Draw, Erase};
ghost use Rattle.edits.specs.declared.Request.TheVariants.{Make, Undo, Drop};
ghost use Rattle.zarpalume.specs.Verdict.{call, call_of};

use edits::BoxRecord;

// The verdict on a sheet, into a buffer of exactly VERDICT_BYTES, with zeros after it; any other buffer is left alone, and 0 answered.
#[unsafe(no_mangle)]
pub extern "C" fn zarpalume_verdict(sheet: &[u8], verdict: &mut [u8]) -> usize
    ensures { call result verdict.new ≡ call_of sheet.now verdict.old }
{
    zarpalume::zarpalume_verdict(sheet, verdict)
}

// A new box, behind the others.
#[unsafe(no_mangle)]
pub extern "C" fn zarpalume_add(
    list: &mut [BoxRecord],
    history: &mut [u32],
    count: &mut u32,
    id: u32,
) -> u32
    ensures { outcome result list.new count.new history.new ≡ edited list.old (past count.old history.old) (Make (Add id)) }
{
    zarpalume::editing::zarpalume_add(list, history, count, id)
}

// The box with this id goes, with all its arrows.
#[unsafe(no_mangle)]
pub extern "C" fn zarpalume_delete(
    list: &mut [BoxRecord],
    history: &mut [u32],
    count: &mut u32,
    id: u32,
) -> u32
    ensures { outcome result list.new count.new history.new ≡ edited list.old (past count.old history.old) (Make (Delete id)) }
{
    zarpalume::editing::zarpalume_delete(list, history, count, id)
}

#[unsafe(no_mangle)]
pub extern "C" fn zarpalume_draw(
    list: &mut [BoxRecord],
    history: &mut [u32],
    count: &mut u32,
    source: u32,
    target: u32,
) -> u32
    ensures { outcome result list.new count.new history.new ≡ edited list.old (past count.old history.old) (Make (Draw source target)) }
{
    zarpalume::editing::zarpalume_draw(list, history, count, source, target)
}

#[unsafe(no_mangle)]
pub extern "C" fn zarpalume_erase(
    list: &mut [BoxRecord],
    history: &mut [u32],
    count: &mut u32,
    source: u32,
    target: u32,
) -> u32
    ensures { outcome result list.new count.new history.new ≡ edited list.old (past count.old history.old) (Make (Erase source target)) }
{
    zarpalume::editing::zarpalume_erase(list, history, count, source, target)
}

// The list as it was before the newest edit of the history.
#[unsafe(no_mangle)]
pub extern "C" fn zarpalume_undo(
    list: &mut [BoxRecord],
    history: &mut [u32],
    count: &mut u32,
) -> u32
    ensures { outcome result list.new count.new history.new ≡ edited list.old (past count.old history.old) Undo }
{
    zarpalume::editing::zarpalume_undo(list, history, count)
}

// The whole history goes, and boxes and arrows stay.
#[unsafe(no_mangle)]
pub extern "C" fn zarpalume_drop(
    list: &mut [BoxRecord],
    history: &mut [u32],
    count: &mut u32,
) -> u32
    ensures { outcome result list.new count.new history.new ≡ edited list.old (past count.old history.old) Drop }
{
    zarpalume::editing::zarpalume_drop(list, history, count)
}
