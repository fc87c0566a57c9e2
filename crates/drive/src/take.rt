// Takes the parts of a request one after the other: none once a part is cut short or too long.
ghost use Rattle.std.specs.Prelude.{◌≤◌, length, IfSome};

use model::{ACTIONS, BOXES, Kind, Machine, Model, Sizes};

// The bytes that are not taken yet.
#[derive(Clone, Copy)]
pub(crate) struct Request<'r> {
    pub(crate) rest: &'r [u8],
}

impl<'r> Request<'r> {
    pub(crate) fn n1(&mut self) -> Option<u8> {
        let (&first, rest) = self.rest.split_first()?;
        self.rest = rest;
        Some(first)
    }

    fn n2(&mut self) -> Option<u16> {
        Some(u16::from_le_bytes([self.n1()?, self.n1()?]))
    }

    fn n4(&mut self) -> Option<u32> {
        Some(u32::from(self.n2()?) | u32::from(self.n2()?) << 16)
    }

    pub(crate) fn n8(&mut self) -> Option<usize> {
        Some(self.n4()? as usize | (self.n4()? as usize) << 32)
    }

    // How many entries there are, or how much is to be lent.
    pub(crate) fn count(&mut self, most: usize) -> Option<usize>
        ensures { IfSome result (λ n. n ≤ most) }
    {
        Some(self.n4()? as usize).filter(|said| *said <= most)
    }

    pub(crate) fn bytes(&mut self) -> Option<&'r [u8]> {
        let length = self.n4()? as usize;
        let (part, rest) = self.rest.split_at_checked(length)?;
        self.rest = rest;
        Some(part)
    }

    // A table, into the front of the entries that there is room for.
    pub(crate) fn table(&mut self, entries: &mut [u16]) -> Option<usize>
        ensures { IfSome result (λ n. n ≤ length entries.new) }
    {
        let said = self.count(entries.len())?;
        for entry in &mut entries[..said] {
            *entry = self.n2()?;
        }
        Some(said)
    }

    pub(crate) fn machine(&mut self) -> Option<Machine> {
        let sizes = Sizes::new(self.n8()?, self.n8()?, self.n8()?, self.n8()?);
        let mut owners = [0u8; ACTIONS];
        for owner in &mut owners {
            *owner = self.n1()?;
        }
        Some(Machine::new(sizes, owners))
    }

    // A flag for each arrow, source * BOXES + target.
    fn arrows(&mut self) -> Option<[u32; BOXES]> {
        let mut rows = [0u32; BOXES];
        for row in &mut rows {
            for target in 0..BOXES {
                if self.n1()? != 0 {
                    *row |= 1u32 << target;
                }
            }
        }
        Some(rows)
    }

    pub(crate) fn model(&mut self) -> Option<Model> {
        let machine = self.machine()?;
        let mut ids = [0u32; BOXES];
        for id in &mut ids {
            *id = self.n4()?;
        }
        Some(Model::new(machine, ids, self.arrows()?))
    }

    pub(crate) fn kind(&mut self) -> Option<Kind> {
        match self.n1()? {
            0 => Some(Kind::Plain),
            1 => Some(Kind::Intransitive),
            _ => None,
        }
    }
}
