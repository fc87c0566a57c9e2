// Where a search among earlier states begins: alike states share a small number, and each small number knows the first state that has it.
ghost use Rattle.std.specs.Prelude.{◌≡◌, ◌<◌, length};
ghost use Rattle.model.specs.Limits.{STATES};
ghost use Rattle.needs.specs.Starts.{SLOTS, Began};

pub(crate) const SLOTS: usize = 256;

// The start of a small number; s where it has none yet, and from now on.
pub(crate) fn start_of(starts: &mut [u8; SLOTS], slot: usize, s: usize) -> usize
    requires { (slot < SLOTS) × (s < STATES) × (length starts.old ≡ SLOTS) }
    ensures { Began starts.old starts.new slot s result }
{
    let start = usize::from(starts[slot]);
    if start < s {
        return start;
    }
    starts[slot] = s as u8;
    s
}
