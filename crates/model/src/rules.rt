// The rules that a machine, a drawing and a table of next states keep to: else refusal 12.
#![tactic(auto, using(laws::proofs::Loops::each), unfolding(laws::specs::Choice::both, laws::specs::Choice::choose, crate::specs::Refused::sized, crate::specs::Refused::sizes_fit, crate::specs::Refused::owners_fit, crate::specs::Refused::machine_fits, crate::specs::Refused::next_fits, crate::specs::Refused::ids_fit, crate::specs::Refused::row_fits, crate::specs::Refused::arrows_fit, crate::specs::Refused::selves_fit, crate::specs::Refused::drawing_fits, crate::specs::Refused::machine_table_fits, crate::specs::Refused::model_fits, crate::specs::Refused::model_table_fits))]

ghost use Rattle.std.specs.Prelude.{◌≡◌, not, ◌+◌, ◌*◌, ◌^◌, ◌<◌, ◌≤◌, eqb, ltb, get_or, length};
ghost use Rattle.laws.specs.Range.{every};
ghost use Rattle.model.specs.Limits.{STATES, ACTIONS, BOXES};
ghost use Rattle.model.specs.Highest.{Highest};
ghost use Rattle.model.specs.Refused.{sized, sizes_fit, owners_fit, machine_fits, next_fits, ids_fit, row_fits, arrows_fit, selves_fit, drawing_fits, machine_table_fits, model_fits, model_table_fits};

use crate::{ACTIONS, BOXES, LARGEST_ID, Machine, Model, STATES, at};

// Whether a size is 1 to so many.
fn is_sized(most: usize, n: usize) -> bool
    ensures { result ≡ sized most n }
{
    0 < n && n <= most
}

fn sizes_fit(machine: &Machine) -> bool
    ensures { result ≡ sizes_fit machine.now }
{
    let sizes = machine.sizes;
    is_sized(STATES, sizes.states)
        && (is_sized(ACTIONS, sizes.actions)
            && (is_sized(BOXES, sizes.boxes) && sizes.start < sizes.states))
}

fn owners_fit(machine: &Machine) -> bool
    ensures { result ≡ owners_fit machine.now }
{
    (0..machine.sizes.actions).all(|a| machine.owner(a) < machine.sizes.boxes)
}

fn machine_fits(machine: &Machine) -> bool
    ensures { result ≡ machine_fits machine.now }
{
    sizes_fit(machine) && owners_fit(machine)
}

// The highest of the first n entries, 0 where there is none.
fn highest(table: &[u16], n: usize) -> u16
    requires { n ≤ length table.now }
    ensures { Highest n table.now result }
{
    table[..n].iter().copied().max().unwrap_or(0)
}

// Whether the next states that stand in a row from `base` on are states.
fn row_fits(next: &[u16], base: usize, actions: usize, states: usize) -> bool
    requires { (base ≤ STATES * ACTIONS) × (actions ≤ ACTIONS) }
    ensures { result ≡ every actions (λ a. ltb (get_or next.now (base + a) 0) states) }
{
    (0..actions).all(|a| at(next, base + a) < states)
}

fn rows_fit(machine: &Machine, next: &[u16]) -> bool
    requires { (machine.now.sizes.states ≤ STATES) × (machine.now.sizes.actions ≤ ACTIONS) }
    ensures { result ≡ next_fits machine.now next.now }
{
    let states = machine.sizes.states;
    let actions = machine.sizes.actions;
    (0..states).all(|s| row_fits(next, s * actions, actions, states))
}

// The same, by the highest of them where the table is long enough.
fn next_fits(machine: &Machine, next: &[u16]) -> bool
    requires { (machine.now.sizes.states ≤ STATES) × (machine.now.sizes.actions ≤ ACTIONS) × (0 < machine.now.sizes.states) }
    ensures { result ≡ next_fits machine.now next.now }
{
    let n = machine.sizes.states * machine.sizes.actions;
    if n <= next.len() {
        usize::from(highest(next, n)) < machine.sizes.states
    } else {
        rows_fit(machine, next)
    }
}

// Whether no box before this one has its id.
fn id_is_new(model: &Model, position: usize) -> bool
    ensures { result ≡ every position (λ v. not (eqb (get_or model.now.ids v 0) (get_or model.now.ids position 0))) }
{
    (0..position).all(|v| model.id(v) != model.id(position))
}

fn ids_fit(model: &Model) -> bool
    ensures { result ≡ ids_fit model.now }
{
    (0..model.machine.sizes.boxes).all(|u| model.id(u) <= LARGEST_ID && id_is_new(model, u))
}

fn power(n: usize) -> u64
    requires { n ≤ BOXES }
    ensures { result ≡ 2 ^ n }
{
    1u64 << n
}

// Whether a row leads to boxes only, and to none from beyond the last box.
fn targets_fit(row: u32, source: usize, boxes: usize) -> bool
    requires { boxes ≤ BOXES }
    ensures { result ≡ row_fits boxes source row }
{
    if source < boxes {
        u64::from(row) < power(boxes)
    } else {
        row < 1
    }
}

fn arrows_fit(model: &Model) -> bool
    requires { model.now.machine.sizes.boxes ≤ BOXES }
    ensures { result ≡ arrows_fit model.now }
{
    let boxes = model.machine.sizes.boxes;
    'sources: for (v, &row) in model.arrows.iter().enumerate() {
        if !targets_fit(row, v, boxes) {
            return false;
        }
    }
    true
}

fn selves_fit(model: &Model) -> bool
    ensures { result ≡ selves_fit model.now }
{
    (0..model.machine.sizes.boxes).all(|u| model.arrow(u, u))
}

fn drawing_fits(model: &Model) -> bool
    requires { model.now.machine.sizes.boxes ≤ BOXES }
    ensures { result ≡ drawing_fits model.now }
{
    ids_fit(model) && (arrows_fit(model) && selves_fit(model))
}

// Whether a machine and its next states keep to the rules.
pub fn machine_table_fits(machine: Machine, next: &[u16]) -> bool
    ensures { result ≡ machine_table_fits machine next.now }
{
    machine_fits(&machine) && next_fits(&machine, next)
}

// The same of a model that comes with no table.
pub fn model_fits(model: Model) -> bool
    ensures { result ≡ model_fits model }
{
    machine_fits(&model.machine) && drawing_fits(&model)
}

// The same of a model and its next states.
pub fn model_table_fits(model: Model, next: &[u16]) -> bool
    ensures { result ≡ model_table_fits model next.now }
{
    machine_table_fits(model.machine, next) && drawing_fits(&model)
}
