// The bytes of a sheet, the ids of its boxes, and a place among its lines.
ghost use Rattle.std.specs.Prelude.{◌+◌, ◌≤◌, length};
ghost use Rattle.model.specs.Limits.{BOXES};
ghost use Rattle.text.specs.Lines.{Ended};

// The bytes of a sheet, whose last is LF.
#[derive(Clone, Copy)]
pub(crate) struct Sheet<'a> {
    pub(crate) text: &'a [u8],
    pub(crate) ghost ended: { Ended text.now },
}

// The ids of boxes, by position.
#[derive(Clone, Copy)]
pub(crate) struct Ids<'a> {
    pub(crate) ids: &'a [u32],
    pub(crate) ghost few: { length ids.now ≤ BOXES },
}

// Where a line starts, and its number: each line before it has at least one byte.
#[derive(Clone, Copy)]
pub struct Cursor {
    pub at: usize,
    pub line: usize,
    ghost few: { line ≤ at + 1 },
}
