// A call on a list and a history of the right lengths. The three that are lent stay three parameters, as C lends them.
ghost use Rattle.std.specs.Prelude.{◌≡◌, true};
ghost use Rattle.edits.specs.History.{past, fresh};
ghost use Rattle.edits.specs.Allowed.{allowed};
ghost use Rattle.edits.specs.Plan.{plan};
ghost use Rattle.edits.specs.Edited.{number, outcome, accepted, planned, undo, checked};

use super::history::Past;
use super::{BoxRecord, Change, Request};
use model::Refusal;

#[tactic(auto, unfolding(laws::specs::Choice::choose, crate::specs::Edited::undo))]
fn undo_last(
    list: &mut [BoxRecord; model::BOXES],
    words: &mut [u32; model::EDIT_WORDS],
    count: &mut u32,
) -> Result<(), Refusal>
    requires { allowed list.old (past count.old words.old) ≡ true }
    ensures { outcome (number result) list.new count.new words.new ≡ undo list.old (past count.old words.old) }
{
    let n = *count;
    if n == 0 {
        return Err(Refusal::NothingToUndo);
    }
    let newest = n as usize - 1;
    let e = super::history::entry_at(words, newest);
    if !super::changes::fits_now(e, list) {
        return Err(Refusal::Rules);
    }
    super::changes::undo(list, e);
    super::history::cut(words, newest);
    *count = n - 1;
    Ok(())
}

fn drop_all(words: &mut [u32; model::EDIT_WORDS], count: &mut u32)
    ensures { past count.new words.new ≡ fresh }
{
    super::history::cut(words, 0);
    *count = 0;
}

#[tactic(auto, unfolding(crate::specs::Edited::planned))]
fn change(
    list: &mut [BoxRecord; model::BOXES],
    words: &mut [u32; model::EDIT_WORDS],
    count: &mut u32,
    asked: Change,
) -> Result<(), Refusal>
    requires { allowed list.old (past count.old words.old) ≡ true }
    ensures { outcome (number result) list.new count.new words.new ≡ planned list.old (past count.old words.old) (plan list.old (past count.old words.old) asked) }
{
    let n = *count;
    let past = Past {
        words,
        count: n as usize,
    };
    let e = super::plans::plan_of(list, past, asked)?;
    super::changes::make(list, e);
    super::history::push(words, n as usize, e);
    *count = n + 1;
    Ok(())
}

pub(crate) fn answer(
    list: &mut [BoxRecord; model::BOXES],
    words: &mut [u32; model::EDIT_WORDS],
    count: &mut u32,
    request: Request,
) -> Result<(), Refusal>
    ensures { outcome (number result) list.new count.new words.new ≡ checked list.old (past count.old words.old) request }
{
    if !super::allowed::is_allowed(list, words, *count as usize) {
        return Err(Refusal::Rules);
    }
    match request {
        Request::Make(asked) => change(list, words, count, asked),
        Request::Undo => undo_last(list, words, count),
        Request::Drop => {
            drop_all(words, count);
            Ok(())
        }
        Request::Unknown => Err(Refusal::Rules),
    }
}
