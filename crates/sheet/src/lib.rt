// The reader of a sheet, and the label call.
#![tactic(auto)]

mod cursor;
mod labels;
mod lines;
mod phases;
mod quick;

ghost use Rattle.std.specs.Prelude.{◌≡◌, length};
ghost use Rattle.model.specs.Limits.{NEXT_ENTRIES, OUTPUT_ENTRIES, VIEW_ENTRIES};
ghost use Rattle.text.specs.Lines.{lines};
ghost use Rattle.sheet.specs.Phases.{steps};
ghost use Rattle.sheet.specs.Reading.{zeros, reading_of, sheet_lines, sheet_text, outcome, read};
ghost use Rattle.sheet.specs.Label.{label, Handed};

pub use cursor::Cursor;
use cursor::{Ids, Sheet};
use model::{Model, Refusal, Refused};

// The numbers of a record, 0 beyond its count. Four, since the definition `Record` has four, of which the theorems on the refusal table speak.
#[derive(Clone, Copy)]
pub struct Numbers {
    pub first: u32,
    pub second: u32,
    pub third: u32,
    pub fourth: u32,
}

// What a line of arrows says: one, or two.
#[derive(Clone, Copy)]
pub enum Arrows {
    One(usize, usize),
    Two(usize, usize),
}

// What a line says, with the place after it.
#[derive(Clone, Copy)]
pub struct Taken<T> {
    pub read: T,
    pub next: usize,
}

// What a run of lines gave, and where the next line starts.
#[derive(Clone, Copy)]
pub struct Run<T> {
    pub read: T,
    pub next: Cursor,
}

// A number, with the place behind the byte that ends it.
#[derive(Clone, Copy)]
pub struct Digits {
    pub value: u32,
    pub next: usize,
}

// A part of a text, from its start to its end.
#[derive(Clone, Copy)]
pub struct Place {
    pub start: usize,
    pub end: usize,
}

// The lines of a text that ends in LF.
fn read_lines(
    sheet: Sheet<'_>,
    next: &mut [u16; model::NEXT_ENTRIES],
    outputs: &mut [u16; model::OUTPUT_ENTRIES],
    views: &mut [u16; model::VIEW_ENTRIES],
) -> Result<Model, Refused>
    ensures { reading_of result (steps next.new outputs.new) views.new ≡ sheet_lines (steps next.old outputs.old) views.old (lines sheet.entry.text.now) }
{
    let first = Cursor { at: 0, line: 1 };
    let taken = phases::take(sheet, first, lines::sheet_line)?;
    let second = Cursor {
        at: taken.next,
        line: 2,
    };
    phases::read_body(sheet, second, taken.read, next, outputs, views)
}

// A text over tables that are zero.
fn read_text(
    text: &[u8],
    next: &mut [u16; model::NEXT_ENTRIES],
    outputs: &mut [u16; model::OUTPUT_ENTRIES],
    views: &mut [u16; model::VIEW_ENTRIES],
) -> Result<Model, Refused>
    requires next_zero { next.old ≡ zeros NEXT_ENTRIES }
    requires outputs_zero { outputs.old ≡ zeros OUTPUT_ENTRIES }
    requires views_zero { views.old ≡ zeros VIEW_ENTRIES }
    ensures { reading_of result (steps next.new outputs.new) views.new ≡ sheet_text text.now }
{
    let n = text.len();
    if 0 < n && n <= model::SHEET_BYTES && text[n - 1] == b'\n' {
        read_lines(Sheet { text }, next, outputs, views)
    } else {
        Err(Refused {
            refusal: Refusal::Text,
            line: 0,
        })
    }
}

// The three tables made 0.
fn zero_all(
    next: &mut [u16; model::NEXT_ENTRIES],
    outputs: &mut [u16; model::OUTPUT_ENTRIES],
    views: &mut [u16; model::VIEW_ENTRIES],
)
    ensures { (next.new ≡ zeros NEXT_ENTRIES) × (outputs.new ≡ zeros OUTPUT_ENTRIES) × (views.new ≡ zeros VIEW_ENTRIES) }
{
    next.fill(0);
    outputs.fill(0);
    views.fill(0);
}

// A sheet's text read into a model, its tables where they are lent; or a refusal, which makes the tables zero if they have
// the right lengths.
pub fn read(
    text: &[u8],
    next: &mut [u16],
    outputs: &mut [u16],
    views: &mut [u16],
) -> Result<Model, Refused>
    ensures { outcome result next.new outputs.new views.new ≡ read text.now next.old outputs.old views.old }
{
    let Some(next) = next.as_mut_array() else {
        return Err(Refusal::Length.into());
    };
    let Some(outputs) = outputs.as_mut_array() else {
        return Err(Refusal::Length.into());
    };
    let Some(views) = views.as_mut_array() else {
        return Err(Refusal::Length.into());
    };
    zero_all(next, outputs, views);
    let model = read_text(text, next, outputs, views);
    if model.is_err() {
        zero_all(next, outputs, views);
    }
    model
}

// The label of the box at a position, as the part of the caller's text where it stands.
pub fn label<'a>(text: &'a [u8], position: usize) -> Result<&'a [u8], Refused>
    ensures { Handed text.entry result (label text.now position) }
{
    let place = labels::label_found(text, position)?;
    Ok(&text[place.start..place.end])
}
