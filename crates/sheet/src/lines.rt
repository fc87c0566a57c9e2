// The lines of a sheet, each by itself.
ghost use Rattle.std.specs.Prelude.{◌≡◌, ◌≤◌, length};
ghost use Rattle.text.specs.Lines.{fields_at};
ghost use Rattle.sheet.specs.Numbers.{record_of, numbers, as_sizes, as_first, as_step, as_pair, as_class};
ghost use Rattle.sheet.specs.Records.{sized, placed, label_good, plain, sheet_line, box_line, act_line, go_line, arrow_line, view_line, box_of, box_fields, flow_line};

use super::{Arrows, Numbers};
use model::{Refusal, Sizes};

// The numbers in the fields from `from` on: as many as there are limits, each up to its own.
fn numbers_from(line: &[u8], from: usize, limits: &[u32]) -> Result<Numbers, Refusal>
    requires { length limits.now ≤ 4 }
    ensures { result ≡ numbers limits.now (fields_at line.now from) }
{
    let mut values = [0u32; 4];
    // no `?` at a bad number: a wrong count of fields is told before it
    let mut good = true;
    let mut at = from;
    for (k, limit) in limits.iter().enumerate() {
        if line.len() < at {
            return Err(Refusal::Fields);
        }
        let field = text::number_from(line, at, *limit);
        match field.number {
            Some(v) => {
                values[k] = v;
            }
            None => {
                good = false;
            }
        }
        at = field.end + 1;
    }
    if at <= line.len() {
        Err(Refusal::Fields)
    } else if good {
        Ok(Numbers {
            first: values[0],
            second: values[1],
            third: values[2],
            fourth: values[3],
        })
    } else {
        Err(Refusal::Number)
    }
}

// A record of the word and as many numbers as there are limits.
fn record_of(line: &[u8], word: &[u8], limits: &[u32]) -> Result<Numbers, Refusal>
    requires { length limits.now ≤ 4 }
    ensures { result ≡ record_of word.now limits.now line.now }
{
    if text::starts(line, word) {
        numbers_from(line, word.len() + 1, limits)
    } else {
        Err(Refusal::Record)
    }
}

// The position of the box with an id; none where no box has it.
pub(crate) fn position(ids: &[u32], id: u32) -> Option<usize>
    ensures { result ≡ placed ids.now id }
{
    ids.iter().position(|known| *known == id)
}

// Is a size 1 to its limit.
fn sized(most: usize, n: u32) -> bool
    ensures { result ≡ sized most n }
{
    0 < n && n as usize <= most
}

// Is every byte 0x20 to 0x7E.
fn plain(label: &[u8]) -> bool
    ensures { result ≡ plain label.now }
{
    label.iter().all(|byte| 32 <= *byte && *byte <= 126)
}

// Is a label 1 to 32 such bytes.
fn label_good(label: &[u8]) -> bool
    ensures { result ≡ label_good label.now }
{
    0 < label.len() && label.len() <= model::LABEL_BYTES && plain(label)
}

pub(crate) fn sheet_line(line: &[u8]) -> Result<Sizes, Refusal>
    ensures { result ≡ as_sizes (sheet_line line.now) }
{
    let n = model::LARGEST_NUMBER;
    let numbers = record_of(line, b"sheet", &[n, n, n, n])?;
    if sized(model::STATES, numbers.first)
        && sized(model::ACTIONS, numbers.second)
        && sized(model::BOXES, numbers.third)
    {
        if numbers.fourth < numbers.first {
            Ok(Sizes::new(
                numbers.first as usize,
                numbers.second as usize,
                numbers.third as usize,
                numbers.fourth as usize,
            ))
        } else {
            Err(Refusal::Order)
        }
    } else {
        Err(Refusal::Size)
    }
}

// The id and the label of a box, after boxes with the ids given.
fn box_of(number: Option<u32>, label: &[u8], ids: &[u32]) -> Result<u32, Refusal>
    ensures { result ≡ as_first (box_of ids.now number label.now) }
{
    let id = number.ok_or(Refusal::Number)?;
    if position(ids, id).is_some() {
        Err(Refusal::SameId)
    } else if label_good(label) {
        Ok(id)
    } else {
        Err(Refusal::Label)
    }
}

// The two fields of a box from `from` on.
fn box_from(line: &[u8], from: usize, ids: &[u32]) -> Result<u32, Refusal>
    ensures { result ≡ as_first (box_fields ids.now (fields_at line.now from)) }
{
    if line.len() < from {
        return Err(Refusal::Fields);
    }
    let field = text::number_from(line, from, model::LARGEST_ID);
    let number = field.number;
    let end = field.end;
    if line.len() <= end {
        return Err(Refusal::Fields);
    }
    let start = end + 1;
    let last = text::find(line, start, b'\t');
    if last < line.len() {
        return Err(Refusal::Fields);
    }
    box_of(number, &line[start..], ids)
}

pub(crate) fn box_line(line: &[u8], ids: &[u32]) -> Result<u32, Refusal>
    ensures { result ≡ as_first (box_line ids.now line.now) }
{
    if text::starts(line, b"box") {
        box_from(line, 4, ids)
    } else {
        Err(Refusal::Record)
    }
}

pub(crate) fn act_line(line: &[u8], ids: &[u32]) -> Result<usize, Refusal>
    ensures { result ≡ as_first (act_line ids.now line.now) }
{
    let numbers = record_of(line, b"act", &[model::LARGEST_ID])?;
    position(ids, numbers.first).ok_or(Refusal::UnknownId)
}

pub(crate) fn go_line(
    line: &[u8],
    states: u32,
    state: u32,
    action: u32,
) -> Result<(u32, u32), Refusal>
    ensures { result ≡ as_step (go_line states state action line.now) }
{
    let n = model::LARGEST_NUMBER;
    let numbers = record_of(line, b"go", &[n, n, n, n])?;
    if numbers.first == state && numbers.second == action && numbers.third < states {
        Ok((numbers.third, numbers.fourth))
    } else {
        Err(Refusal::Order)
    }
}

fn arrow_line(line: &[u8], word: &[u8], ids: &[u32]) -> Result<(usize, usize), Refusal>
    ensures { result ≡ as_pair (arrow_line word.now ids.now line.now) }
{
    let limits = [model::LARGEST_ID, model::LARGEST_ID];
    let numbers = record_of(line, word, &limits)?;
    let v = position(ids, numbers.first).ok_or(Refusal::UnknownId)?;
    let u = position(ids, numbers.second).ok_or(Refusal::UnknownId)?;
    Ok((v, u))
}

// A `flow` or a `both` line; none where it is another line.
pub(crate) fn flow_line(line: &[u8], ids: &[u32]) -> Result<Option<Arrows>, Refusal>
    ensures { result ≡ flow_line ids.now line.now }
{
    if text::starts(line, b"flow") {
        let (v, u) = arrow_line(line, b"flow", ids)?;
        Ok(Some(Arrows::One(v, u)))
    } else if text::starts(line, b"both") {
        let (v, u) = arrow_line(line, b"both", ids)?;
        Ok(Some(Arrows::Two(v, u)))
    } else {
        Ok(None)
    }
}

pub(crate) fn view_line(line: &[u8], id: u32, state: u32) -> Result<u32, Refusal>
    ensures { result ≡ as_class (view_line id state line.now) }
{
    let n = model::LARGEST_NUMBER;
    let numbers = record_of(line, b"view", &[model::LARGEST_ID, n, n])?;
    if numbers.first != id {
        Err(Refusal::UnknownId)
    } else if numbers.second != state {
        Err(Refusal::Order)
    } else {
        Ok(numbers.third)
    }
}
