// The entry that does what is asked for, or why it is refused.
ghost use Rattle.std.specs.Prelude.{◌≡◌};
ghost use Rattle.edits.specs.Records.{place};
ghost use Rattle.edits.specs.Private.{one_if, said};
ghost use Rattle.edits.specs.Plan.{plan_delete, plan_arrow, plan_change, plan};
ghost use Rattle.edits.specs.declared.Change.TheVariants.{Add};

use super::history::Past;
use super::{BoxRecord, Change, Entry};
use model::Refusal;

fn plan_add(list: &[BoxRecord; model::BOXES], past: Past, id: u32) -> Result<Entry, Refusal>
    ensures { result ≡ plan_change list.now (said past.entry) (Add id) }
{
    if super::boxes::place_of(list, id).is_some() {
        return Err(Refusal::UsedId);
    }
    if past.deletes(id) {
        return Err(Refusal::UsedId);
    }
    if super::boxes::boxes_of(list) == model::BOXES {
        return Err(Refusal::NoRoom);
    }
    Ok(Entry {
        kind: super::ADD,
        id,
        ..Entry::default()
    })
}

fn plan_delete(list: &[BoxRecord; model::BOXES], id: u32) -> Result<Entry, Refusal>
    ensures { result ≡ plan_delete list.now id }
{
    let p = super::boxes::place_of(list, id).ok_or(Refusal::UnknownId)?;
    let item = list[p];
    Ok(Entry {
        kind: super::DELETE,
        at: p as u32,
        to: 0,
        id: item.id,
        out: item.arrows,
        into: super::boxes::column_of(list, p),
    })
}

// The arrow between the boxes with these ids, where it stands, or where it doesn't.
fn plan_arrow(
    list: &[BoxRecord; model::BOXES],
    kind: u32,
    stands: bool,
    source: u32,
    target: u32,
) -> Result<Entry, Refusal>
    ensures { result ≡ plan_arrow list.now kind (one_if stands) (place list.now source) (place list.now target) }
{
    let i = super::boxes::place_of(list, source).ok_or(Refusal::UnknownId)?;
    let j = super::boxes::place_of(list, target).ok_or(Refusal::UnknownId)?;
    if i == j || super::bits::has(list[i].arrows, j) != stands {
        return Err(Refusal::Arrow);
    }
    Ok(Entry {
        kind,
        at: i as u32,
        to: j as u32,
        ..Entry::default()
    })
}

#[tactic(auto, unfolding(laws::specs::Choice::choose, crate::specs::Plan::plan))]
pub(crate) fn plan_of(
    list: &[BoxRecord; model::BOXES],
    past: Past,
    change: Change,
) -> Result<Entry, Refusal>
    ensures { result ≡ plan list.now (said past.entry) change }
{
    if past.count == model::EDITS {
        return Err(Refusal::LongHistory);
    }
    match change {
        Change::Add(id) => plan_add(list, past, id),
        Change::Delete(id) => plan_delete(list, id),
        Change::Draw(source, target) => plan_arrow(list, super::DRAW, false, source, target),
        Change::Erase(source, target) => plan_arrow(list, super::ERASE, true, source, target),
    }
}
