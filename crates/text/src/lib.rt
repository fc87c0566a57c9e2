// Bytes: decimal numbers both ways, lines and fields, and writing into a lent tail. Every function takes anything.
#![tactic(auto)]

ghost use Rattle.std.specs.Prelude.{◌≡◌, ◌<◌, [], slice_index_or};
ghost use Rattle.text.specs.Number.{digit, decimal};
ghost use Rattle.text.specs.Lines.{fields, same, end_of, line_from, number_from, more_from};
ghost use Rattle.text.specs.Written.{Written, fitting};

// A number's field: the number, if it is one, and where the field ends.
#[derive(Clone, Copy)]
pub struct Field {
    pub number: Option<u32>,
    pub end: usize,
}

// A line without its LF, with the place of the next.
#[derive(Clone, Copy)]
pub struct Line {
    pub start: usize,
    pub end: usize,
    pub next: usize,
}

// Where the first `b` stands at `at` or after it.
pub fn find(s: &[u8], at: usize, b: u8) -> usize
    ensures { result ≡ end_of b s.now at }
{
    let rest = s.get(at..).unwrap_or(&[]);
    at + rest.iter().position(|x| *x == b).unwrap_or(rest.len())
}

// A reader: the bytes of a text, and a place in them.
#[derive(Clone, Copy)]
pub struct Reader<'a> {
    pub text: &'a [u8],
    pub at: usize,
}

impl<'a> Reader<'a> {
    pub fn open_at(text: &'a [u8], at: usize) -> Reader<'a>
        ensures { (result.text ≡ text.entry) × (result.at ≡ at) }
    {
        Reader { text, at }
    }

    // The line at the reader's place, with the place of the next; none where the text has ended.
    pub fn next_line(self) -> Option<Line>
        ensures { result ≡ line_from self.entry.text.now self.entry.at }
    {
        if self.at < self.text.len() {
            let lf = find(self.text, self.at, b'\n');
            Some(Line {
                start: self.at,
                end: lf,
                next: lf + 1,
            })
        } else {
            None
        }
    }
}

// The line at a place, through a reader: whoever calls this goes by a text and a number.
pub fn line_from(text: &[u8], at: usize) -> Option<Line>
    ensures { result ≡ line_from text.now at }
{
    Reader::open_at(text, at).next_line()
}

// Is the word the first field of the line.
pub fn starts(line: &[u8], word: &[u8]) -> bool
    ensures { result ≡ same (slice_index_or (fields line.now) 0 []) word.now }
{
    // no further than one byte behind the word: a line may be long
    let head = &line[0..line.len().min(word.len() + 1)];
    &head[0..find(head, 0, b'\t')] == word
}

// The value with one digit more.
pub fn grown(limit: u32, value: u32, byte: u8) -> Option<u32>
    ensures { result ≡ digit limit value byte }
{
    let d = u32::from(byte).wrapping_sub(48);
    if 9 < d {
        return None;
    }
    let v = u64::from(value) * 10 + u64::from(d);
    if v <= u64::from(limit) {
        Some(v as u32)
    } else {
        None
    }
}

// The number in the field that starts at `at`: one walk finds its value and its end.
pub fn number_from(line: &[u8], at: usize, limit: u32) -> Field
    ensures { result ≡ number_from limit line.now at }
{
    if line.len() <= at {
        return Field {
            number: None,
            end: at,
        };
    }
    let Some(first) = grown(limit, 0, line[at]) else {
        return Field {
            number: None,
            end: find(line, at, b'\t'),
        };
    };
    let zero = first == 0;
    if zero {
        zero_from(line, at + 1)
    } else {
        more_from(line, at + 1, limit, first)
    }
}

// The same, after a first digit 0, behind which nothing may stand.
fn zero_from(line: &[u8], at: usize) -> Field
    ensures { result ≡ more_from 0 line.now at 0 }
{
    let end = find(line, at, b'\t');
    Field {
        number: if end == at { Some(0) } else { None },
        end,
    }
}

// The same, after the digits that made `first`.
fn more_from(line: &[u8], at: usize, limit: u32, first: u32) -> Field
    requires { 0 < first }
    ensures { result ≡ more_from limit line.now at first }
{
    let mut value = first;
    let rest = line.get(at..).unwrap_or(&[]);
    for (i, byte) in rest.iter().enumerate() {
        let Some(v) = grown(limit, value, *byte) else {
            let end = find(line, at + i, b'\t');
            return Field {
                number: if *byte == b'\t' { Some(value) } else { None },
                end,
            };
        };
        value = v;
    }
    Field {
        number: Some(value),
        end: at + rest.len(),
    }
}

// The bytes written at the front of a lent tail, and their count; nothing where they have no room.
pub fn put_bytes(tail: &mut [u8], bytes: &[u8]) -> usize
    ensures { Written tail.old tail.new result (fitting tail.old bytes.now) }
{
    if tail.len() < bytes.len() {
        return 0;
    }
    // not `copy_from_slice`, by which the archive for C asks for `memmove`
    for (i, byte) in bytes.iter().enumerate() {
        tail[i] = *byte;
    }
    bytes.len()
}

// A number written in decimal, likewise.
pub fn put_number(tail: &mut [u8], value: u32) -> usize
    ensures { Written tail.old tail.new result (fitting tail.old (decimal value)) }
{
    let mut digits = [0u8; 10];
    let mut left = value;
    let mut i: usize = 9;
    // the loop ends by what is left and not by its index, which tells where the digits begin
    while 10 <= left {
        digits[i] = (48 + left % 10) as u8;
        left = left / 10;
        i -= 1;
    }
    digits[i] = (48 + left) as u8;
    put_bytes(tail, &digits[i..])
}
