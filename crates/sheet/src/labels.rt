// Where the label of a box stands in a text.
ghost use Rattle.std.specs.Prelude.{◌≡◌, ◌+◌, ◌<◌, length};
ghost use Rattle.model.specs.Limits.{BOXES};
ghost use Rattle.text.specs.Lines.{lines, line_at};
ghost use Rattle.sheet.specs.Numbers.{rest};
ghost use Rattle.sheet.specs.Label.{line_start, box_start, label_place, label_found};

use super::{Place, Sheet};
use model::{Refusal, Refused};

// Where line `index` starts, counted from 0.
fn line_start(sheet: Sheet<'_>, index: usize) -> usize
    requires { index < length (lines sheet.text.now) }
    ensures { result ≡ line_start index sheet.entry.text.now }
{
    let mut at = 0;
    // k is a count of lines, which the invariant names
    for k in 0..index {
        at = text::find(sheet.text, at, b'\n') + 1;
    }
    at
}

// Where the label of a `box` line stands that has three fields.
fn label_place(sheet: Sheet<'_>, position: usize) -> Place
    requires small { position < BOXES }
    requires there { position + 1 < length (lines sheet.text.now) }
    requires three_fields { length (rest (line_at sheet.text.now (box_start sheet.text.now position))) ≡ 2 }
    ensures { result ≡ label_place sheet.entry.text.now position }
{
    let start = line_start(sheet, position + 1);
    let end = text::find(sheet.text, start, b'\n');
    let line = &sheet.text[start..end];
    let word = text::find(line, 0, b'\t');
    let id = text::find(line, word + 1, b'\t');
    Place {
        start: start + (id + 1),
        end,
    }
}

// The sheet is read into tables of this call's own, so that the whole of it is tested first.
pub(crate) fn label_found(text: &[u8], position: usize) -> Result<Place, Refused>
    ensures { result ≡ label_found text.now position }
{
    let mut next = [0u16; model::NEXT_ENTRIES];
    let mut outputs = [0u16; model::OUTPUT_ENTRIES];
    let mut views = [0u16; model::VIEW_ENTRIES];
    let model = super::read_text(text, &mut next, &mut outputs, &mut views)?;
    if position < model.machine.sizes.boxes {
        Ok(label_place(Sheet { text }, position))
    } else {
        Err(Refused {
            refusal: Refusal::Range,
            line: 0,
        })
    }
}
