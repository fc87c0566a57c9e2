// The list after an entry's edit, the list before it, and whether it can be undone.
ghost use Rattle.std.specs.Prelude.{◌≡◌, ◌<◌};
ghost use Rattle.laws.specs.Bits.{bit};
ghost use Rattle.model.specs.Limits.{BOXES};
ghost use Rattle.edits.specs.Records.{at};
ghost use Rattle.edits.specs.Done.{new_box, drawn, erased, done, undone};
ghost use Rattle.edits.specs.Fits.{alone, fits_add, fits_delete, fits_arrow, fits};
ghost use Rattle.edits.specs.Private.{one_if, Doable, Undoable};

use super::{BoxRecord, Entry};

fn new_box(id: u32) -> BoxRecord
    ensures { result ≡ new_box id }
{
    BoxRecord {
        id,
        live: 1,
        arrows: 0,
    }
}

fn draw(list: &mut [BoxRecord; model::BOXES], i: usize, j: usize)
    requires { (i < BOXES) × ((j < BOXES) × (bit j (at list.old i).arrows ≡ 0)) }
    ensures { list.new ≡ drawn list.old i j }
{
    let item = list[i];
    list[i] = BoxRecord {
        arrows: super::bits::with_bit(item.arrows, j),
        ..item
    };
}

fn erase(list: &mut [BoxRecord; model::BOXES], i: usize, j: usize)
    requires { (i < BOXES) × ((j < BOXES) × (bit j (at list.old i).arrows ≡ 1)) }
    ensures { list.new ≡ erased list.old i j }
{
    let item = list[i];
    list[i] = BoxRecord {
        arrows: super::bits::without_bit(item.arrows, j),
        ..item
    };
}

// Does an entry's edit.
#[tactic(auto, unfolding(laws::specs::Choice::choose, crate::specs::Done::done))]
pub(crate) fn make(list: &mut [BoxRecord; model::BOXES], e: Entry)
    requires { Doable e list.old }
    ensures { list.new ≡ done e list.old }
{
    match e.kind {
        super::ADD => {
            let n = super::boxes::boxes_of(list);
            list[n] = new_box(e.id);
        }
        super::DELETE => *list = super::boxes::without_box(list, e.at as usize),
        super::DRAW => draw(list, e.at as usize, e.to as usize),
        _ => erase(list, e.at as usize, e.to as usize),
    }
}

// Undoes it.
#[tactic(auto, unfolding(laws::specs::Choice::choose, crate::specs::Done::undone))]
pub(crate) fn undo(list: &mut [BoxRecord; model::BOXES], e: Entry)
    requires { Undoable e list.old }
    ensures { list.new ≡ undone e list.old }
{
    match e.kind {
        super::ADD => {
            let n = super::boxes::boxes_of(list);
            list[n - 1] = BoxRecord::default();
        }
        super::DELETE => {
            let item = BoxRecord {
                arrows: e.out,
                ..new_box(e.id)
            };
            *list = super::boxes::with_box(list, e.at as usize, item, e.into);
        }
        super::DRAW => erase(list, e.at as usize, e.to as usize),
        _ => draw(list, e.at as usize, e.to as usize),
    }
}

fn is_alone(list: &[BoxRecord; model::BOXES], p: usize, id: u32) -> bool
    requires { p < BOXES }
    ensures { result ≡ alone list.now p id }
{
    let item = list[p];
    item.id == id && item.arrows == 0 && super::boxes::column_of(list, p) == 0
}

fn fits_add(e: Entry, list: &[BoxRecord; model::BOXES]) -> bool
    ensures { result ≡ fits_add e list.now }
{
    let n = super::boxes::boxes_of(list);
    0 < n && is_alone(list, n - 1, e.id)
}

fn fits_delete(e: Entry, list: &[BoxRecord; model::BOXES]) -> bool
    ensures { result ≡ fits_delete e list.now }
{
    let n = super::boxes::boxes_of(list);
    n < model::BOXES
        && e.at as usize <= n
        && super::bits::within(e.out, n + 1)
        && super::bits::within(e.into, n + 1)
}

// Between boxes, an arrow that stands, or one that doesn't.
fn fits_arrow(e: Entry, list: &[BoxRecord; model::BOXES], stands: bool) -> bool
    ensures { result ≡ fits_arrow e list.now (one_if stands) }
{
    let n = super::boxes::boxes_of(list);
    let i = e.at as usize;
    let j = e.to as usize;
    i < n && j < n && super::bits::has(list[i].arrows, j) == stands
}

// Whether the entry can be undone.
#[tactic(auto, unfolding(laws::specs::Choice::choose, crate::specs::Fits::fits))]
pub(crate) fn fits_now(e: Entry, list: &[BoxRecord; model::BOXES]) -> bool
    ensures { result ≡ fits e list.now }
{
    match e.kind {
        super::ADD => fits_add(e, list),
        super::DELETE => fits_delete(e, list),
        super::DRAW => fits_arrow(e, list, true),
        _ => fits_arrow(e, list, false),
    }
}
