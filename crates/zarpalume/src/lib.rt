// The verdict on a sheet, and the one call for a host.
#![tactic(auto)]

pub mod editing;
mod lines;

ghost use Rattle.std.specs.Prelude.{◌≡◌, ◌++◌, ◌+◌, ◌≤◌, length};
ghost use Rattle.model.specs.Limits.{BOXES, VERDICT_BYTES};
ghost use Rattle.text.specs.Written.{Written};
ghost use Rattle.zarpalume.specs.Lines.{views_line, Small, need_lines, depth_lines, reach_line};
ghost use Rattle.zarpalume.specs.Verdict.{Few, verdict_of, refusal_of, LineSmall, call, call_of};

use model::{BOXES, Model, Refused};
use needs::Needs;
use views::Fault;

// What is written of needed arrows if that call were refused, which it can't be after a good read.
const NOTHING: Needs = Needs {
    count: 0,
    reach: 0,
    depths: [0; BOXES],
};

// The lines of a verdict, each into the rest of the buffer, which is why the buffer is a slice.
fn put_lines(
    verdict: &mut [u8],
    model: &Model,
    judged: Result<(), Fault>,
    needs: &Needs,
    list: &[u16; model::LIST_ENTRIES],
) -> usize
    requires { (length verdict.old ≡ VERDICT_BYTES) × (model.now.machine.sizes.boxes ≤ BOXES) × Small judged × Few needs.now }
    ensures { Written verdict.old verdict.new result (views_line model.now.ids model.now.machine.owners judged ++ (need_lines model.now.ids list.now needs.now.count ++ (depth_lines model.now.ids needs.now.depths model.now.machine.sizes.boxes ++ reach_line needs.now.reach))) × (result ≤ VERDICT_BYTES) }
{
    let boxes = model.machine.sizes.boxes;
    let a = lines::put_views(verdict, model, judged);
    let b = a + lines::put_needs(&mut verdict[a..], model, list, needs.count);
    let c = b + lines::put_depths(&mut verdict[b..], model, &needs.depths, boxes);
    c + lines::put_reach(&mut verdict[c..], needs.reach as u32)
}

// The verdict on a model and its tables.
fn put_verdict(
    verdict: &mut [u8],
    model: Model,
    next: &[u16],
    outputs: &[u16],
    views: &[u16],
) -> usize
    requires { (length verdict.old ≡ VERDICT_BYTES) × (model.machine.sizes.boxes ≤ BOXES) }
    ensures { Written verdict.old verdict.new result (verdict_of model next.now outputs.now views.now) × (result ≤ VERDICT_BYTES) }
{
    let judged = views::judge(model, next, outputs, views);
    let mut list = [0u16; model::LIST_ENTRIES];
    let needs = needs::needed(model.machine, next, outputs, &mut list).unwrap_or(NOTHING);
    put_lines(verdict, &model, judged, &needs, &list)
}

// A refusal is one line.
fn put_refusal(verdict: &mut [u8], refused: Refused) -> usize
    requires { (length verdict.old ≡ VERDICT_BYTES) × LineSmall refused }
    ensures { Written verdict.old verdict.new result (refusal_of refused) × (result ≤ VERDICT_BYTES) }
{
    let number = u32::from(refused.refusal.number());
    lines::put_pair(verdict, b"refused\t", number, refused.line as u32)
}

// The verdict on a sheet, into a buffer of exactly VERDICT_BYTES, with zeros after it; any other buffer is left alone, and 0 answered, which the C interface keeps.
pub fn zarpalume_verdict(sheet: &[u8], verdict: &mut [u8]) -> usize
    ensures { call result verdict.new ≡ call_of sheet.now verdict.old }
{
    let misfits = verdict.len() != model::VERDICT_BYTES;
    if misfits {
        return 0;
    }
    verdict.fill(0);
    let mut next = [0u16; model::NEXT_ENTRIES];
    let mut outputs = [0u16; model::OUTPUT_ENTRIES];
    let mut views = [0u16; model::VIEW_ENTRIES];
    match sheet::read(sheet, &mut next, &mut outputs, &mut views) {
        Ok(model) => put_verdict(verdict, model, &next, &outputs, &views),
        Err(refused) => put_refusal(verdict, refused),
    }
}
