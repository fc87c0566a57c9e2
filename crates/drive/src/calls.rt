// For each public call: its request is taken apart, the call is made, and its answer is put.
use crate::put::Answer;
use crate::take::Request;

// The longest table, handed in or lent, and the most bytes that are lent.
const TABLE_ENTRIES: usize = 8192;

const LENT_BYTES: usize = 16384;

// What a lent buffer is filled with.
const LENT_ENTRY: u16 = 0xa5a5;

const LENT_BYTE: u8 = 0xa5;

fn read(request: &mut Request<'_>, answer: &mut Answer) -> Option<()> {
    let text = request.bytes()?;
    let n = request.count(TABLE_ENTRIES)?;
    let o = request.count(TABLE_ENTRIES)?;
    let v = request.count(TABLE_ENTRIES)?;
    let mut next = [LENT_ENTRY; TABLE_ENTRIES];
    let mut outputs = [LENT_ENTRY; TABLE_ENTRIES];
    let mut views = [LENT_ENTRY; TABLE_ENTRIES];
    let read = sheet::read(text, &mut next[..n], &mut outputs[..o], &mut views[..v]);
    answer.sheet(read)?;
    answer.table(&next[..n])?;
    answer.table(&outputs[..o])?;
    answer.table(&views[..v])
}

fn label(request: &mut Request<'_>, answer: &mut Answer) -> Option<()> {
    let text = request.bytes()?;
    let position = request.n8()?;
    let label = sheet::label(text, position);
    answer.said(label.map(|_| []))?;
    answer.bytes(label.unwrap_or(&[]))
}

fn judge(request: &mut Request<'_>, answer: &mut Answer) -> Option<()> {
    let model = request.model()?;
    let mut next = [LENT_ENTRY; TABLE_ENTRIES];
    let mut outputs = [LENT_ENTRY; TABLE_ENTRIES];
    let mut views = [LENT_ENTRY; TABLE_ENTRIES];
    let n = request.table(&mut next)?;
    let o = request.table(&mut outputs)?;
    let v = request.table(&mut views)?;
    let judged = views::judge(model, &next[..n], &outputs[..o], &views[..v]);
    answer.judged(judged, &model)
}

// The machine's tables come first in the request, then the list's length.
fn needed(request: &mut Request<'_>, answer: &mut Answer) -> Option<()> {
    let machine = request.machine()?;
    let mut next = [LENT_ENTRY; TABLE_ENTRIES];
    let mut outputs = [LENT_ENTRY; TABLE_ENTRIES];
    let mut list = [LENT_ENTRY; TABLE_ENTRIES];
    let n = request.table(&mut next)?;
    let o = request.table(&mut outputs)?;
    let l = request.count(TABLE_ENTRIES)?;
    let needs = needs::needed(machine, &next[..n], &outputs[..o], &mut list[..l]);
    answer.needs(needs)?;
    answer.table(&list[..l])
}

fn purged(request: &mut Request<'_>, answer: &mut Answer) -> Option<()> {
    let model = request.model()?;
    let kind = request.kind()?;
    let position = request.n8()?;
    let run = request.bytes()?;
    let length = request.count(LENT_BYTES)?;
    let mut kept = [LENT_BYTE; LENT_BYTES];
    let purged = purge::purged(model, kind, position, run, &mut kept[..length]);
    answer.said(purged.map(|count| [count]))?;
    answer.bytes(&kept[..length])
}

fn reached(request: &mut Request<'_>, answer: &mut Answer) -> Option<()> {
    let machine = request.machine()?;
    let mut next = [LENT_ENTRY; TABLE_ENTRIES];
    let n = request.table(&mut next)?;
    answer.reached(reach::reached(machine, &next[..n]))
}

fn verdict(request: &mut Request<'_>, answer: &mut Answer) -> Option<()> {
    let text = request.bytes()?;
    let length = request.count(LENT_BYTES)?;
    let mut verdict = [LENT_BYTE; LENT_BYTES];
    let count = zarpalume::zarpalume_verdict(text, &mut verdict[..length]);
    answer.n8(count)?;
    answer.bytes(&verdict[..length])
}

// The request's letter, a byte of the format, says which call. None where the request is not whole, breaks the layout, or its answer has no room.
pub(crate) fn answer(request: &mut Request<'_>, answer: &mut Answer) -> Option<()> {
    match request.n1()? {
        b'R' => read(request, answer),
        b'L' => label(request, answer),
        b'J' => judge(request, answer),
        b'N' => needed(request, answer),
        b'P' => purged(request, answer),
        b'S' => reached(request, answer),
        b'V' => verdict(request, answer),
        _ => None,
    }
}
