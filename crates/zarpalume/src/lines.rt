// The writers of a verdict's lines, each into the rest of the buffer.
ghost use Rattle.std.specs.Prelude.{[], ◌∷◌, ◌++◌, ℕ, ◌+◌, ◌*◌, ◌<◌, ◌≤◌, length, get_or};
ghost use Rattle.text.specs.Number.{decimal};
ghost use Rattle.model.specs.Limits.{BOXES, PAIRS};
ghost use Rattle.text.specs.Written.{Written};
ghost use Rattle.zarpalume.specs.Lines.{tabbed, ended, broken_respect, dashed, views_line, Small, need_lines, depth_lines, reach_words};

use model::Model;
use views::Fault;

// Bytes that have room.
fn put_words(tail: &mut [u8], words: &[u8]) -> usize
    requires { length words.now ≤ length tail.old }
    ensures { Written tail.old tail.new result words.now × (result ≤ length words.now) }
{
    text::put_bytes(tail, words)
}

// A number and the byte that ends its field.
fn put_field(tail: &mut [u8], value: u32, end: u8) -> usize
    requires { 11 ≤ length tail.old }
    ensures { Written tail.old tail.new result (decimal value ++ (end ∷ [])) × (result ≤ 11) }
{
    let n = text::put_number(tail, value);
    tail[n] = end;
    n + 1
}

// Words with a tab after them, then two numbers: a line.
pub(crate) fn put_pair(tail: &mut [u8], words: &[u8], first: u32, second: u32) -> usize
    requires { length words.now + 22 ≤ length tail.old }
    ensures { Written tail.old tail.new result ((words.now ++ tabbed first) ++ ended second) × (result ≤ length words.now + 22) }
{
    let a = put_words(tail, words);
    let b = a + put_field(&mut tail[a..], first, 9);
    b + put_field(&mut tail[b..], second, 10)
}

// The words of a broken condition, then a box id, an action and a state.
fn put_place(tail: &mut [u8], words: &[u8], id: u32, action: u32, s: u32) -> usize
    requires { (length words.now ≤ 21) × (54 ≤ length tail.old) }
    ensures { Written tail.old tail.new result (((words.now ++ tabbed id) ++ tabbed action) ++ tabbed s) × (result ≤ 54) }
{
    let a = put_words(tail, words);
    let b = a + put_field(&mut tail[a..], id, 9);
    let c = b + put_field(&mut tail[b..], action, 9);
    c + put_field(&mut tail[c..], s, 9)
}

// The same with a second state: a line.
fn put_places(tail: &mut [u8], words: &[u8], id: u32, action: u32, s: u32, t: u32) -> usize
    requires { (length words.now ≤ 21) × (65 ≤ length tail.old) }
    ensures { Written tail.old tail.new result ((((words.now ++ tabbed id) ++ tabbed action) ++ tabbed s) ++ ended t) × (result ≤ 65) }
{
    let a = put_place(tail, words, id, action, s);
    a + put_field(&mut tail[a..], t, 10)
}

// A break of respect has no second state.
fn put_respect(tail: &mut [u8], id: u32, action: u32, s: u32) -> usize
    requires { 65 ≤ length tail.old }
    ensures { Written tail.old tail.new result ((((broken_respect ++ tabbed id) ++ tabbed action) ++ tabbed s) ++ dashed) × (result ≤ 65) }
{
    let a = put_place(tail, b"views\tbroken\trespect\t", id, action, s);
    a + put_words(&mut tail[a..], b"-\n")
}

// What the judge said of the views, by ids.
pub(crate) fn put_views(tail: &mut [u8], model: &Model, judged: Result<(), Fault>) -> usize
    requires { Small judged × (65 ≤ length tail.old) }
    ensures { Written tail.old tail.new result (views_line model.now.ids model.now.machine.owners judged) × (result ≤ 65) }
{
    match judged {
        Ok(()) => put_words(tail, b"views\taccepted\n"),
        Err(Fault::Output { action, s, t }) => {
            let id = model.id(model.machine.owner(action));
            put_places(
                tail,
                b"views\tbroken\toutput\t",
                id,
                action as u32,
                s as u32,
                t as u32,
            )
        }
        Err(
            Fault::Respect {
                position,
                action,
                s,
            },
        ) => put_respect(tail, model.id(position), action as u32, s as u32),
        Err(
            Fault::Step {
                position,
                action,
                s,
                t,
            },
        ) => {
            let id = model.id(position);
            put_places(
                tail,
                b"views\tbroken\tstep\t",
                id,
                action as u32,
                s as u32,
                t as u32,
            )
        }
        Err(Fault::Refused(refused)) => {
            let number = u32::from(refused.refusal.number());
            put_pair(tail, b"refused\t", number, refused.line as u32)
        }
    }
}

// A line for each of the first `count` pairs of the list.
pub(crate) fn put_needs(
    tail: &mut [u8],
    model: &Model,
    list: &[u16; model::LIST_ENTRIES],
    count: usize,
) -> usize
    requires { (count ≤ PAIRS) × (27 * PAIRS ≤ length tail.old) }
    ensures { Written tail.old tail.new result (need_lines model.now.ids list.now count) × (result ≤ 27 * PAIRS) }
{
    let mut at = 0;
    // by number, as the definition of the lines goes: the ends of arrow k stand at 2k and 2k + 1
    'pairs: for k in 0..count {
        let source = model.id(model::at(list, 2 * k));
        let target = model.id(model::at(list, 2 * k + 1));
        at += put_pair(&mut tail[at..], b"need\t", source, target);
    }
    at
}

// A line for each of the first `boxes` boxes.
pub(crate) fn put_depths(
    tail: &mut [u8],
    model: &Model,
    depths: &[usize; model::BOXES],
    boxes: usize,
) -> usize
    requires boxes_bound { (boxes ≤ BOXES) × (28 * BOXES ≤ length tail.old) }
    requires by_index { (u : ℕ) → get_or depths.now u 0 < 65536 }
    ensures { Written tail.old tail.new result (depth_lines model.now.ids depths.now boxes) × (result ≤ 28 * BOXES) }
{
    let mut at = 0;
    // by number: u picks an id and a depth
    'boxes: for u in 0..boxes {
        let id = model.id(u);
        let depth = depths[u] as u32;
        at += put_pair(&mut tail[at..], b"depth\t", id, depth);
    }
    at
}

// The count of reachable states.
pub(crate) fn put_reach(tail: &mut [u8], count: u32) -> usize
    requires { 17 ≤ length tail.old }
    ensures { Written tail.old tail.new result (reach_words ++ ended count) × (result ≤ 17) }
{
    let a = put_words(tail, b"reach\t");
    a + put_field(&mut tail[a..], count, 10)
}
