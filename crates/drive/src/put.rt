// Puts the parts of an answer one after the other: none once there is no room.
use model::{BOXES, Model, Refused, STATES};
use needs::Needs;
use reach::Set;
use views::Fault;

// Room for the longest answer, the reader's with three tables.
const ANSWER_BYTES: usize = 65536;

// The first `count` bytes are put.
#[derive(Drop)]
pub(crate) struct Answer {
    bytes: [u8; ANSWER_BYTES],
    count: usize,
}

impl Answer {
    pub(crate) fn new() -> Answer {
        Answer {
            bytes: [0u8; ANSWER_BYTES],
            count: 0,
        }
    }

    // What is put so far.
    pub(crate) fn put(&self) -> &[u8] {
        self.bytes.get(..self.count).unwrap_or(&[])
    }

    pub(crate) fn n1(&mut self, byte: u8) -> Option<()> {
        *self.bytes.get_mut(self.count)? = byte;
        self.count += 1;
        Some(())
    }

    // Bytes without their count.
    pub(crate) fn bare(&mut self, part: &[u8]) -> Option<()> {
        for &byte in part {
            self.n1(byte)?;
        }
        Some(())
    }

    pub(crate) fn n4(&mut self, value: usize) -> Option<()> {
        self.bare(&((value & 0xffff_ffff) as u32).to_le_bytes())
    }

    pub(crate) fn n8(&mut self, value: usize) -> Option<()> {
        self.bare(&(value as u64).to_le_bytes())
    }

    fn flag(&mut self, flag: bool) -> Option<()> {
        self.n1(u8::from(flag))
    }

    pub(crate) fn values(&mut self, values: &[usize]) -> Option<()> {
        for &value in values {
            self.n8(value)?;
        }
        Some(())
    }

    // A refusal's number and line, 0 and 0 where nothing is refused.
    fn refusal(&mut self, refused: Option<Refused>) -> Option<()> {
        let (number, line) = refused.map_or((0, 0), |r| (usize::from(r.refusal.number()), r.line));
        self.n4(number)?;
        self.n4(line)
    }

    // What a call says: the refusal, and values that are 0 where there is one.
    pub(crate) fn said<const N: usize>(&mut self, said: Result<[usize; N], Refused>) -> Option<()> {
        match said {
            Ok(values) => {
                self.refusal(None)?;
                self.values(&values)
            }
            Err(refused) => {
                self.refusal(Some(refused))?;
                for _ in 0..N {
                    self.n8(0)?;
                }
                Some(())
            }
        }
    }

    // Bytes, or a lent buffer.
    pub(crate) fn bytes(&mut self, part: &[u8]) -> Option<()> {
        self.n4(part.len())?;
        self.bare(part)
    }

    // A lent table likewise.
    pub(crate) fn table(&mut self, entries: &[u16]) -> Option<()> {
        self.n4(entries.len())?;
        for &entry in entries {
            self.bare(&entry.to_le_bytes())?;
        }
        Some(())
    }

    // What the reader says, all 0 where it refuses.
    pub(crate) fn sheet(&mut self, read: Result<Model, Refused>) -> Option<()> {
        let sizes = read.map(|model| {
            let sizes = model.machine.sizes;
            [sizes.states, sizes.actions, sizes.boxes, sizes.start]
        });
        self.said(sizes)?;
        let model = read.unwrap_or(Model::new(
            model::Machine::new(model::Sizes::new(0, 0, 0, 0), [0u8; model::ACTIONS]),
            [0u32; BOXES],
            [0u32; BOXES],
        ));
        for &id in &model.ids {
            self.n4(id as usize)?;
        }
        self.bare(&model.machine.owners)?;
        for source in 0..BOXES {
            for target in 0..BOXES {
                self.flag(model.arrow(source, target))?;
            }
        }
        Some(())
    }

    // The first broken place, its condition by the format's number; for output the box is the action's.
    pub(crate) fn judged(&mut self, judged: Result<(), Fault>, model: &Model) -> Option<()> {
        let (refused, condition, place) = match judged {
            Ok(()) => (None, 0, [0usize; 4]),
            Err(Fault::Output { action, s, t }) => {
                (None, 1, [model.machine.owner(action), action, s, t])
            }
            Err(
                Fault::Respect {
                    position,
                    action,
                    s,
                },
            ) => (None, 2, [position, action, s, 0]),
            Err(
                Fault::Step {
                    position,
                    action,
                    s,
                    t,
                },
            ) => (None, 3, [position, action, s, t]),
            Err(Fault::Refused(refused)) => (Some(refused), 0, [0usize; 4]),
        };
        self.refusal(refused)?;
        self.n1(condition)?;
        self.values(&place)
    }

    pub(crate) fn needs(&mut self, needs: Result<Needs, Refused>) -> Option<()> {
        self.said(needs.map(|needs| [needs.count, needs.reach]))?;
        self.values(&needs.map_or([0usize; BOXES], |needs| needs.depths))
    }

    // No flag where the call is refused.
    pub(crate) fn reached(&mut self, reached: Result<Set, Refused>) -> Option<()> {
        self.said(reached.map(|set| [set.count()]))?;
        for s in 0..STATES {
            self.flag(reached.is_ok_and(|set| set.contains(s)))?;
        }
        Some(())
    }
}
