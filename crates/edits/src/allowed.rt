// Whether a list is allowed beside a history.
ghost use Rattle.std.specs.Prelude.{◌≡◌, ◌<◌, ◌≤◌};
ghost use Rattle.laws.specs.Range.{every};
ghost use Rattle.model.specs.Limits.{BOXES, EDITS};
ghost use Rattle.edits.specs.Records.{boxes};
ghost use Rattle.edits.specs.History.{past};
ghost use Rattle.edits.specs.Private.{said};
ghost use Rattle.edits.specs.Allowed.{made_add, row_of, made_delete, made_arrow, made, good_entry, is_box, good_at, allowed};

use super::history::Past;
use super::{BoxRecord, Entry};

// A set of positions, without p.
fn is_row(p: usize, set: u32) -> bool
    requires { p < BOXES }
    ensures { result ≡ row_of p set }
{
    super::bits::within(set, model::BOXES) && !super::bits::has(set, p)
}

impl Entry {
    fn made_add(self) -> bool
        ensures { result ≡ made_add self }
    {
        self.at == 0 && self.to == 0 && self.out == 0 && self.into == 0
    }

    fn made_delete(self) -> bool
        ensures { result ≡ made_delete self }
    {
        let p = self.at as usize;
        p < model::BOXES && self.to == 0 && is_row(p, self.out) && is_row(p, self.into)
    }

    fn made_arrow(self) -> bool
        ensures { result ≡ made_arrow self }
    {
        (self.at as usize) < model::BOXES
            && (self.to as usize) < model::BOXES
            && self.at != self.to
            && self.id == 0
            && self.out == 0
            && self.into == 0
    }

    // An entry that a call makes.
    #[tactic(auto, unfolding(laws::specs::Choice::choose, crate::specs::Allowed::made))]
    fn is_made(self) -> bool
        ensures { result ≡ made self }
    {
        match self.kind {
            super::ADD => self.made_add(),
            super::DELETE => self.made_delete(),
            super::DRAW | super::ERASE => self.made_arrow(),
            _ => false,
        }
    }
}

#[tactic(auto, unfolding(laws::specs::Choice::both, laws::specs::Choice::brings, crate::specs::Allowed::good_entry))]
fn entry_good(past: Past, k: usize) -> bool
    requires { k < EDITS }
    ensures { result ≡ good_entry past.entry.words.now k }
{
    let e = super::history::entry_at(past.words, k);
    e.is_made() && (e.kind > super::DELETE || !past.first(k).deletes(e.id))
}

fn entries_good(past: Past) -> bool
    ensures { result ≡ every past.entry.count (good_entry past.entry.words.now) }
{
    (0..past.count).all(|k| entry_good(past, k))
}

fn is_box(list: &[BoxRecord; model::BOXES], past: Past, n: usize, k: usize) -> bool
    requires { k < BOXES }
    ensures { result ≡ is_box list.now (said past.entry) n k }
{
    let item = list[k];
    super::boxes::place_of(list, item.id) == Some(k)
        && !past.deletes(item.id)
        && super::bits::within(item.arrows, n)
        && !super::bits::has(item.arrows, k)
}

#[tactic(auto, unfolding(laws::specs::Choice::both, laws::specs::Choice::choose, crate::specs::Allowed::good_at))]
fn record_good(list: &[BoxRecord; model::BOXES], past: Past, n: usize, k: usize) -> bool
    requires { k < BOXES }
    ensures { result ≡ good_at list.now (said past.entry) n k }
{
    if k < n {
        is_box(list, past, n, k)
    } else {
        list[k] == BoxRecord::default()
    }
}

fn records_good(list: &[BoxRecord; model::BOXES], past: Past) -> bool
    ensures { result ≡ every BOXES (good_at list.now (said past.entry) (boxes list.now)) }
{
    let n = super::boxes::boxes_of(list);
    (0..model::BOXES).all(|k| record_good(list, past, n, k))
}

#[tactic(auto, unfolding(laws::specs::Choice::both, crate::specs::Allowed::allowed))]
pub(crate) fn is_allowed(
    list: &[BoxRecord; model::BOXES],
    words: &[u32; model::EDIT_WORDS],
    count: usize,
) -> bool
    ensures { result ≡ allowed list.now (past count words.now) }
{
    if count > model::EDITS {
        return false;
    }
    let past = Past { words, count };
    entries_good(past) && records_good(list, past)
}
