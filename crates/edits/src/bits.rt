// Sets of positions as words.
ghost use Rattle.std.specs.Prelude.{◌≡◌, ◌+◌, ◌-◌, ◌<◌, ◌^◌, not, eqb, ltb};
ghost use Rattle.laws.specs.Bits.{bit, cut, put};
ghost use Rattle.edits.specs.Private.{one_if};

// A word's own width, where `model` wants a wider one for its own.
fn power(p: usize) -> u32
    requires { p < 32 }
    ensures { result ≡ 2 ^ p }
{
    1 << p
}

// Whether position k is in the set.
pub(crate) fn has(set: u32, k: usize) -> bool
    requires { k < 32 }
    ensures within { result ≡ eqb (bit k set) 1 }
    ensures without { not result ≡ eqb (bit k set) 0 }
    ensures number { one_if result ≡ bit k set }
{
    (set >> k) % 2 == 1
}

// Whether the set's positions are below n: a word's own width needs no test.
pub(crate) fn within(set: u32, n: usize) -> bool
    ensures { result ≡ ltb set (2 ^ n) }
{
    n >= 32 || set < power(n)
}

// The set with position k, which isn't in it.
pub(crate) fn with_bit(set: u32, k: usize) -> u32
    requires { (k < 32) × (bit k set ≡ 0) }
    ensures { result ≡ set + 2 ^ k }
{
    set + power(k)
}

// The set without position k, which is in it.
pub(crate) fn without_bit(set: u32, k: usize) -> u32
    requires { (k < 32) × (bit k set ≡ 1) }
    ensures { result ≡ set - 2 ^ k }
{
    set - power(k)
}

// Position p cut out: those above it move down.
pub(crate) fn cut_of(set: u32, p: usize) -> u32
    requires { p < 32 }
    ensures { result ≡ cut p set }
{
    let low = power(p);
    set % low + set / low / 2 * low
}

// Position p put in, in the set or not: those from it on move up.
pub(crate) fn put_of(set: u32, p: usize, b: bool) -> u32
    requires { (p < 32) × (set < 2 ^ 31) }
    ensures { result ≡ put p (one_if b) set }
{
    let low = power(p);
    set % low + (set / low * 2 + u32::from(b)) * low
}
