// The needed arrows: marked target by target, written source by source.
ghost use Rattle.std.specs.Prelude.{◌≡◌, ◌+◌, ◌*◌, ◌<◌, ◌≤◌, length, set, replicate};
ghost use Rattle.noninterference.specs.Rounds.{arrows_upto};
ghost use Rattle.model.specs.Limits.{BOXES, ARROWS, PAIRS, LIST_ENTRIES};
ghost use Rattle.reach.specs.Set.{flag_at};
ghost use Rattle.needs.specs.Tables.{step_in, entry};
ghost use Rattle.needs.specs.Marks.{Owners, movers, sources, Marked, wanted_in};
ghost use Rattle.needs.specs.Listed.{Written};

use crate::walk::Walk;
use model::{ACTIONS, ARROWS, BOXES, STATES};

// Marks, for target u, the boxes whose actions move s to another class.
pub(crate) fn mark_state(
    walk: &Walk<'_>,
    owners: &[u8; ACTIONS],
    c: &[u8; STATES],
    s: usize,
    u: usize,
    table: &mut [bool; ARROWS],
)
    requires owners { Owners walk.now.actions owners.now }
    requires bounds { (s < walk.now.states) × (u < BOXES) }
    requires table_long { length table.old ≡ ARROWS }
    ensures { Marked table.old table.new u (movers owners.now (step_in walk.now.actions walk.now.next.now) walk.now.actions (entry c.now) s) }
{
    'actions: for a in 0..walk.actions {
        let t = walk.step(s, a);
        if c[t] == c[s] {
            continue 'actions;
        }
        let v = usize::from(owners[a]);
        table[v * BOXES + u] = true;
    }
}

// Marks, for target u, the boxes whose actions move a state that counts to another class.
pub(crate) fn mark(
    walk: &Walk<'_>,
    owners: &[u8; ACTIONS],
    inside: &[bool; STATES],
    c: &[u8; STATES],
    u: usize,
    table: &mut [bool; ARROWS],
)
    requires owners { Owners walk.now.actions owners.now }
    requires u_bound { u < BOXES }
    requires table_long { length table.old ≡ ARROWS }
    ensures { Marked table.old table.new u (sources owners.now (step_in walk.now.actions walk.now.next.now) walk.now.actions (entry c.now) (flag_at inside.now) walk.now.states) }
{
    'states: for s in 0..walk.states {
        if inside[s] {
            mark_state(walk, owners, c, s, u, table);
        }
    }
}

// Whether the arrow from v to u goes on the list.
pub(crate) fn wanted(table: &[bool; ARROWS], v: usize, u: usize) -> bool
    requires { (v < BOXES) × (u < BOXES) }
    ensures { result ≡ wanted_in table.now v u }
{
    v != u && table[v * BOXES + u]
}

// Writes the n-th pair.
pub(crate) fn put(list: &mut [u16], n: usize, v: usize, u: usize)
    requires { (length list.old ≡ LIST_ENTRIES) × (n < PAIRS) × (v < BOXES) × (u < BOXES) }
    ensures { list.new ≡ set (set list.old (2 * n) v) (2 * n + 1) u }
{
    list[2 * n] = v as u16;
    list[2 * n + 1] = u as u16;
}

// Writes the arrows from v behind the n pairs that stand there.
pub(crate) fn write_row(
    table: &[bool; ARROWS],
    boxes: usize,
    v: usize,
    list: &mut [u16],
    before: usize,
) -> usize
    requires boxes_bound { (boxes ≤ BOXES) × (v < boxes) }
    requires written { Written list.old (arrows_upto (wanted_in table.now) boxes v) before }
    ensures { Written list.new (arrows_upto (wanted_in table.now) boxes (v + 1)) result }
{
    let mut n = before;
    'targets: for u in 0..boxes {
        if wanted(table, v, u) {
            put(list, n, v, u);
            n += 1;
        }
    }
    n
}

// Writes all arrows, source ascending, then target.
pub(crate) fn write_list(table: &[bool; ARROWS], boxes: usize, list: &mut [u16]) -> usize
    requires boxes_bound { boxes ≤ BOXES }
    requires list_value { list.old ≡ replicate LIST_ENTRIES 0 }
    ensures { Written list.new (arrows_upto (wanted_in table.now) boxes boxes) result }
{
    let mut n = 0;
    'sources: for v in 0..boxes {
        n = write_row(table, boxes, v, list, n);
    }
    n
}
