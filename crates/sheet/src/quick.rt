// Lines read in one pass, where they are as they should be: no look for the line's end comes first. Any other line is left to
// the exact way, which alone names refusals.
ghost use Rattle.std.specs.Prelude.{◌≡◌, ℕ, ◌<◌, length};
ghost use Rattle.sheet.specs.Numbers.{as_step, as_class};
ghost use Rattle.sheet.specs.Records.{go_line, view_line, flow_line};
ghost use Rattle.sheet.specs.Phases.{taken_by};
ghost use Rattle.sheet.specs.OnePass.{NumberRead, MoreRead, Begins, Quickly, ArrowRead};

use super::{Arrows, Cursor, Digits, Sheet, Taken, lines, phases};
use model::Refused;

impl<'a> Sheet<'a> {
    // The number ends here, where `stop` stands.
    fn digits_end(self, at: usize, stop: u8, value: u32) -> Option<Digits>
        requires { at < length self.text.now }
        ensures { (limit : ℕ) → MoreRead limit self.entry.text.now stop at value result }
    {
        if self.text[at] == stop {
            Some(Digits {
                value,
                next: at + 1,
            })
        } else {
            None
        }
    }

    // The number whose first digits made `first`, its others from `at` on, up to `stop`.
    fn digits_more(self, at: usize, stop: u8, limit: u32, first: u32) -> Option<Digits>
        requires in_text { at < length self.text.now }
        requires positive { 0 < first }
        ensures { MoreRead limit self.entry.text.now stop at first result }
    {
        let mut value = first;
        let mut i = at;
        // the last byte of the text, which is LF, ends this loop: a test of the index would cost each digit
        loop {
            let Some(v) = text::grown(limit, value, self.text[i]) else {
                return self.digits_end(i, stop, value);
            };
            value = v;
            i += 1;
        }
    }

    // The number that stands at `at`, up to `stop`. Its first digits are written out, which spares a third of the loop's cost.
    fn digits_from(self, at: usize, stop: u8, limit: u32) -> Option<Digits>
        requires { at < length self.text.now }
        ensures { NumberRead limit self.entry.text.now stop at result }
    {
        let a = text::grown(limit, 0, self.text[at])?;
        let Some(b) = text::grown(limit, a, self.text[at + 1]) else {
            return self.digits_end(at + 1, stop, a);
        };
        if a == 0 {
            return None;
        }
        let Some(c) = text::grown(limit, b, self.text[at + 2]) else {
            return self.digits_end(at + 2, stop, b);
        };
        self.digits_more(at + 3, stop, limit, c)
    }

    // Do the word and a tab stand at a place.
    fn begins(self, at: usize, word: &[u8]) -> bool
        ensures { Begins self.entry.text.now at word.now result }
    {
        let Some(rest) = self.text.get(at..) else {
            return false;
        };
        rest.starts_with(word) && rest.get(word.len()).copied().unwrap_or(0) == b'\t'
    }
}

fn quick_go(
    sheet: Sheet<'_>,
    at: usize,
    states: u32,
    state: u32,
    action: u32,
) -> Option<Taken<(u32, u32)>>
    ensures { Quickly (λ n. taken_by (λ l. as_step (go_line states state action l)) sheet.entry.text.now at n) result }
{
    let n = model::LARGEST_NUMBER;
    if sheet.begins(at, b"go") {
        let s = sheet.digits_from(at + 3, b'\t', n)?;
        let a = sheet.digits_from(s.next, b'\t', n)?;
        let next = sheet.digits_from(a.next, b'\t', n)?;
        let output = sheet.digits_from(next.next, b'\n', n)?;
        if s.value == state && a.value == action && next.value < states {
            return Some(Taken {
                read: (next.value, output.value),
                next: output.next,
            });
        }
    }
    None
}

fn quick_view(sheet: Sheet<'_>, at: usize, id: u32, state: u32) -> Option<Taken<u32>>
    ensures { Quickly (λ n. taken_by (λ l. as_class (view_line id state l)) sheet.entry.text.now at n) result }
{
    let n = model::LARGEST_NUMBER;
    if sheet.begins(at, b"view") {
        let i = sheet.digits_from(at + 5, b'\t', model::LARGEST_ID)?;
        let s = sheet.digits_from(i.next, b'\t', n)?;
        let class = sheet.digits_from(s.next, b'\n', n)?;
        if i.value == id && s.value == state {
            return Some(Taken {
                read: class.value,
                next: class.next,
            });
        }
    }
    None
}

// The `go` line that is due, by the quick way or the exact one.
pub(crate) fn take_go(
    sheet: Sheet<'_>,
    cursor: Cursor,
    states: u32,
    state: u32,
    action: u32,
) -> Result<Taken<(u32, u32)>, Refused>
    ensures { result ≡ taken_by (λ l. as_step (go_line states state action l)) sheet.entry.text.now cursor.at cursor.line }
{
    if let Some(taken) = quick_go(sheet, cursor.at, states, state, action) {
        return Ok(taken);
    }
    phases::take(sheet, cursor, |line| {
        lines::go_line(line, states, state, action)
    })
}

// The `view` line that is due, likewise.
pub(crate) fn take_view(
    sheet: Sheet<'_>,
    cursor: Cursor,
    id: u32,
    state: u32,
) -> Result<Taken<u32>, Refused>
    ensures { result ≡ taken_by (λ l. as_class (view_line id state l)) sheet.entry.text.now cursor.at cursor.line }
{
    if let Some(taken) = quick_view(sheet, cursor.at, id, state) {
        return Ok(taken);
    }
    phases::take(sheet, cursor, |line| lines::view_line(line, id, state))
}

// The two ids of an arrow from `at` on, as positions.
fn quick_arrow(sheet: Sheet<'_>, at: usize, ids: &[u32]) -> Option<(usize, usize, usize)>
    requires { at < length sheet.text.now }
    ensures { ArrowRead ids.now sheet.entry.text.now at result }
{
    let from = sheet.digits_from(at, b'\t', model::LARGEST_ID)?;
    let to = sheet.digits_from(from.next, b'\n', model::LARGEST_ID)?;
    let v = lines::position(ids, from.value)?;
    let u = lines::position(ids, to.value)?;
    Some((v, u, to.next))
}

fn quick_flow(sheet: Sheet<'_>, at: usize, ids: &[u32]) -> Option<Taken<Option<Arrows>>>
    ensures { Quickly (λ n. taken_by (flow_line ids.now) sheet.entry.text.now at n) result }
{
    if sheet.begins(at, b"flow") {
        let (v, u, next) = quick_arrow(sheet, at + 5, ids)?;
        Some(Taken {
            read: Some(Arrows::One(v, u)),
            next,
        })
    } else if sheet.begins(at, b"both") {
        let (v, u, next) = quick_arrow(sheet, at + 5, ids)?;
        Some(Taken {
            read: Some(Arrows::Two(v, u)),
            next,
        })
    } else {
        None
    }
}

// A `flow` or a `both` line, likewise; no arrows where it is another line.
pub(crate) fn take_flow(
    sheet: Sheet<'_>,
    cursor: Cursor,
    ids: &[u32],
) -> Result<Taken<Option<Arrows>>, Refused>
    ensures { result ≡ taken_by (flow_line ids.now) sheet.entry.text.now cursor.at cursor.line }
{
    if let Some(taken) = quick_flow(sheet, cursor.at, ids) {
        return Ok(taken);
    }
    phases::take(sheet, cursor, |line| lines::flow_line(line, ids))
}
