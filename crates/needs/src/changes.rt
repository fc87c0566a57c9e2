// Which states a round must look at again: those with a next state outside the part kept of its old class.
ghost use Rattle.std.specs.Prelude.{◌≡◌, ◌<◌, ◌≤◌, length};
ghost use Rattle.model.specs.Limits.{STATES};
ghost use Rattle.needs.specs.Classes.{Below};
ghost use Rattle.needs.specs.Again.{Befores, Merged, Touched, Moved, Covered};

use crate::STATE_PAIRS;
use crate::rounds::{Classes, Moves};
use crate::walk::Walk;
use model::STATES;

// Notes the states that lead to each state.
pub(crate) fn note_befores(walk: &Walk<'_>, before: &mut [bool; STATE_PAIRS])
    ensures { Befores walk.now.states walk.now.actions walk.now.next.now before.new }
{
    'states: for s in 0..walk.states {
        'actions: for a in 0..walk.actions {
            let x = walk.step(s, a);
            before[x * STATES + s] = true;
        }
    }
}

// Marks the states that lead to x too.
pub(crate) fn merge(marks: &mut [bool; STATES], before: &[bool; STATE_PAIRS], x: usize)
    requires { (x < STATES) × (length marks.old ≡ STATES) }
    ensures { Merged before.now marks.old marks.new x }
{
    'states: for s in 0..STATES {
        marks[s] |= before[x * STATES + s];
    }
}

// Marks the states with a next state outside the part kept of its old class.
pub(crate) fn touched(
    before: &[bool; STATE_PAIRS],
    classes: &Classes<'_, '_>,
    d: &[u8; STATES],
    keep: &[u8; STATES],
) -> [bool; STATES]
    requires { Befores classes.now.walk.states classes.now.walk.actions classes.now.walk.next.now before.now }
    ensures { Touched classes.now.walk.states classes.now.walk.actions classes.now.walk.next.now classes.now.numbers.now d.now result }
{
    let mut marks = [false; STATES];
    'states: for x in 0..classes.walk.states {
        let old = usize::from(classes.numbers[x]);
        if d[x] != keep[old] {
            merge(&mut marks, before, x);
        }
    }
    marks
}

// How many states have each class number.
pub(crate) fn sizes(d: &[u8; STATES], states: usize) -> [u8; STATES]
    requires { (states ≤ STATES) × Below states d.now }
{
    let mut sizes = [0u8; STATES];
    'states: for s in 0..states {
        let number = usize::from(d[s]);
        sizes[number] = sizes[number].saturating_add(1);
    }
    sizes
}

// So many states that moved are few.
const FEW: usize = 8;

// The number of the largest part of each class, so that few states are marked. Whatever it is, the rounds are right.
pub(crate) fn largest(classes: &Classes<'_, '_>, d: &[u8; STATES]) -> [u8; STATES]
    requires { Below classes.now.walk.states d.now }
{
    let sizes = sizes(d, classes.walk.states);
    let mut keep = *d;
    let mut most = [0u8; STATES];
    'states: for s in 0..classes.walk.states {
        let old = usize::from(classes.numbers[s]);
        let number = usize::from(d[s]);
        if most[old] < sizes[number] {
            most[old] = sizes[number];
            keep[old] = d[s];
        }
    }
    keep
}

// Marks the states that lead to one that moved.
pub(crate) fn leading(before: &[bool; STATE_PAIRS], moved: &Moves) -> [bool; STATES]
    ensures { Covered before.now moved.now.list result moved.now.count }
{
    let mut marks = [false; STATES];
    for &x in &moved.list[..moved.count] {
        merge(&mut marks, before, usize::from(x));
    }
    marks
}

// Marks the states to look at again. Where many moved, the largest part of each class is looked for and only what leads elsewhere is marked.
pub(crate) fn again(
    before: &[bool; STATE_PAIRS],
    classes: &Classes<'_, '_>,
    d: &[u8; STATES],
    moved: &Moves,
) -> [bool; STATES]
    requires befores { Befores classes.now.walk.states classes.now.walk.actions classes.now.walk.next.now before.now }
    requires below { Below classes.now.walk.states d.now }
    requires moved { Moved classes.now.walk.states classes.now.numbers.now d.now moved.now.list moved.now.count }
    ensures { Touched classes.now.walk.states classes.now.walk.actions classes.now.walk.next.now classes.now.numbers.now d.now result }
{
    if FEW < moved.count {
        let keep = largest(classes, d);
        touched(before, classes, d, &keep)
    } else {
        leading(before, moved)
    }
}
