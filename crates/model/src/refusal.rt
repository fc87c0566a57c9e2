// Why a call is refused, and on which line of a sheet.
ghost use Rattle.std.specs.Prelude.{◌≡◌, true, false, Err, IsOk};
ghost use Rattle.model.specs.Refusal.{number_of, refused_as};

// One variant for each number of `docs/SHEET.md` and of the edits.
#[derive(Clone, Copy, PartialEq, Eq)]
pub enum Refusal {
    Text,
    Record,
    Fields,
    Number,
    Size,
    Order,
    SameId,
    UnknownId,
    Label,
    Length,
    Ended,
    Rules,
    Range,
    UsedId,
    NoRoom,
    NothingToUndo,
    LongHistory,
    Arrow,
}

impl Refusal {
    // The number that hosts are told.
    pub fn number(self) -> u8
        ensures { result ≡ number_of self }
    {
        match self {
            Refusal::Text => 1,
            Refusal::Record => 2,
            Refusal::Fields => 3,
            Refusal::Number => 4,
            Refusal::Size => 5,
            Refusal::Order => 6,
            Refusal::SameId => 7,
            Refusal::UnknownId => 8,
            Refusal::Label => 9,
            Refusal::Length => 10,
            Refusal::Ended => 11,
            Refusal::Rules => 12,
            Refusal::Range => 13,
            Refusal::UsedId => 14,
            Refusal::NoRoom => 15,
            Refusal::NothingToUndo => 16,
            Refusal::LongHistory => 17,
            Refusal::Arrow => 18,
        }
    }

    // Nothing where a rule holds, else this refusal: for `?`.
    pub fn unless(self, holds: bool) -> Result<(), Refusal>
        ensures kept { holds ≡ true → IsOk result }
        ensures broken { holds ≡ false → result ≡ Err self }
    {
        if holds { Ok(()) } else { Err(self) }
    }
}

// A refusal and its line.
#[derive(Clone, Copy, PartialEq, Eq)]
pub struct Refused {
    pub refusal: Refusal,
    pub line: usize,
}

// A call that takes no sheet's text names line 0.
impl From<Refusal> for Refused {
    ghost from_gives = { λ refusal refused. refused ≡ refused_as refusal 0 };

    fn from(refusal: Refusal) -> Self {
        Refused { refusal, line: 0 }
    }
}
