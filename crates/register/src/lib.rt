// The register machine as fixed tables.
#![tactic(auto, unfolding(model::specs::Arrows::selves, laws::specs::Sets::including, crate::specs::Tables::draws, crate::specs::Tables::by_box, crate::specs::Tables::by_state, crate::specs::Tables::column))]

ghost use Rattle.std.specs.Prelude.{◌≡◌, ◌++◌, ◌≤◌, ◌-◌, length, replicate};
ghost use Rattle.register.specs.Register as specs;

use model::{Machine, Model, Sizes};

// The next states, a line for each state: by U, V, W and X.
const NEXT: [u16; 36] = [
    1, 3, 0, 0, 1, 5, 2, 1, 2, 6, 2, 2, 5, 3, 4, 3, 7, 4, 4, 4, 5, 5, 8, 5, 6, 6, 8, 6, 7, 7, 8, 7,
    8, 8, 8, 8,
];

// The outputs, a line for each state: X outputs the sum.
const OUTPUTS: [u16; 36] = [
    0, 0, 0, 0, 0, 0, 0, 0, 0, 0, 0, 1, 0, 0, 0, 0, 0, 0, 0, 2, 0, 0, 0, 0, 0, 0, 0, 1, 0, 0, 0, 2,
    0, 0, 0, 3,
];

// The views, a line for each box.
const VIEWS: [u16; 36] = [
    0, 1, 1, 0, 0, 1, 1, 1, 1, 0, 0, 0, 1, 1, 1, 1, 1, 1, 0, 1, 1, 2, 2, 3, 3, 3, 3, 0, 0, 1, 0, 2,
    0, 1, 2, 3,
];

// Entries at the front of a table, and the same value behind them.
fn padded<T: Copy, const N: usize>(entries: &[T], blank: T) -> [T; N]
    requires { length entries.now ≤ N }
    ensures { result ≡ entries.now ++ replicate (N - length entries.now) blank }
{
    let mut table = [blank; N];
    table[..entries.len()].copy_from_slice(entries);
    table
}

// The next states, zero beyond the model.
pub fn next() -> [u16; model::NEXT_ENTRIES]
    ensures { result ≡ specs.next }
{
    padded(&NEXT, 0)
}

pub fn outputs() -> [u16; model::OUTPUT_ENTRIES]
    ensures { result ≡ specs.outputs }
{
    padded(&OUTPUTS, 0)
}

pub fn views() -> [u16; model::VIEW_ENTRIES]
    ensures { result ≡ specs.views }
{
    padded(&VIEWS, 0)
}

// The boxes are U, V, W and X, in that order; each has an action of the same number.
pub fn machine() -> Machine
    ensures { result ≡ specs.machine }
{
    Machine::new(Sizes::new(9, 4, 4, 0), padded(&[0, 1, 2, 3], 0))
}

// Their ids, and the arrows 10 to 30, 20 to 30, 30 to 40 with the self-arrows: U and W are 1 and 4, V 2, X 8.
pub fn model() -> Model
    ensures { result ≡ specs.model }
{
    let ids = padded(&[10, 20, 30, 40], 0);
    let arrows = padded(&[5, 6, 12, 8], 0);
    Model::new(machine(), ids, arrows)
}
