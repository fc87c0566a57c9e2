// The list of boxes: how many there are, where one stands, and what moves when one goes or comes back.
// A position is a number with a bound in the `requires`: a type of its own would be taken apart at each index and each bit.
ghost use Rattle.std.specs.Prelude.{◌≡◌, ◌<◌, IfSome};
ghost use Rattle.model.specs.Limits.{BOXES};
ghost use Rattle.edits.specs.Records.{at, lives, is_with, boxes, place};
ghost use Rattle.edits.specs.Moved.{skip, unskip, column_of, left_at, without_box, back_at, with_box};
ghost use Rattle.edits.specs.Private.{Small, found};

use super::BoxRecord;

impl BoxRecord {
    fn is_live(self) -> bool
        ensures { result ≡ lives self }
    {
        self.live == 1
    }

    fn is_with(self, id: u32) -> bool
        ensures { result ≡ is_with self id }
    {
        self.is_live() && self.id == id
    }
}

// The record at k, blank beyond the end.
pub(crate) fn record_at(list: &[BoxRecord; model::BOXES], k: usize) -> BoxRecord
    ensures { result ≡ at list.now k }
{
    list.get(k).copied().unwrap_or_default()
}

// How many boxes there are.
pub(crate) fn boxes_of(list: &[BoxRecord; model::BOXES]) -> usize
    ensures { result ≡ boxes list.now }
{
    list.iter()
        .position(|item| !item.is_live())
        .unwrap_or(model::BOXES)
}

// Where the box with this id stands.
pub(crate) fn place_of(list: &[BoxRecord; model::BOXES], id: u32) -> Option<usize>
    ensures place { result ≡ found (place list.now id) }
    ensures bound { IfSome result (λ p. p < BOXES) }
{
    list.iter().position(|item| item.is_with(id))
}

fn skip_of(p: usize, k: usize) -> usize
    requires { k < BOXES }
    ensures { result ≡ skip p k }
{
    if k < p { k } else { k + 1 }
}

fn left_at(list: &[BoxRecord; model::BOXES], p: usize, k: usize) -> BoxRecord
    requires { (p < BOXES) × (k < BOXES) }
    ensures { result ≡ left_at list.now p k }
{
    let item = record_at(list, skip_of(p, k));
    BoxRecord {
        arrows: super::bits::cut_of(item.arrows, p),
        ..item
    }
}

// The list without the box at p.
pub(crate) fn without_box(list: &[BoxRecord; model::BOXES], p: usize) -> [BoxRecord; model::BOXES]
    requires { p < BOXES }
    ensures { result ≡ without_box list.now p }
{
    std::array::from_fn(|k| left_at(list, p, k))
}

// The boxes with an arrow into the one at p.
pub(crate) fn column_of(list: &[BoxRecord; model::BOXES], p: usize) -> u32
    requires { p < BOXES }
    ensures { result ≡ column_of list.now p }
{
    let mut column = 0;
    for (k, item) in list.iter().enumerate() {
        if super::bits::has(item.arrows, p) {
            column = super::bits::with_bit(column, k);
        }
    }
    column
}

fn unskip_of(p: usize, k: usize) -> usize
    requires { (k < BOXES) × (k ≡ p → ⊥) }
    ensures moved { result ≡ unskip p k }
    ensures bound { result < BOXES }
{
    if k < p { k } else { k - 1 }
}

fn back_at(
    list: &[BoxRecord; model::BOXES],
    p: usize,
    item: BoxRecord,
    into: u32,
    k: usize,
) -> BoxRecord
    requires small { Small list.now }
    requires places { (p < BOXES) × (k < BOXES) }
    ensures { result ≡ back_at list.now p item into k }
{
    if k == p {
        return item;
    }
    let moved = list[unskip_of(p, k)];
    let b = super::bits::has(into, k);
    BoxRecord {
        arrows: super::bits::put_of(moved.arrows, p, b),
        ..moved
    }
}

// The list with this box at p, and arrows into it from the boxes of a set.
pub(crate) fn with_box(
    list: &[BoxRecord; model::BOXES],
    p: usize,
    item: BoxRecord,
    into: u32,
) -> [BoxRecord; model::BOXES]
    requires small { Small list.now }
    requires place { p < BOXES }
    ensures { result ≡ with_box list.now p item into }
{
    std::array::from_fn(|k| back_at(list, p, item, into, k))
}
