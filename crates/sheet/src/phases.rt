// Runs of lines of one kind.
ghost use Rattle.std.specs.Prelude.{◌≡◌, ◌+◌, ◌<◌, ◌≤◌, length, drop, replicate};
ghost use Rattle.std.specs.Fn.{FnOnceReturnsAt};
ghost use Rattle.model.specs.Limits.{STATES, ACTIONS, BOXES, NEXT_ENTRIES, OUTPUT_ENTRIES, VIEW_ENTRIES};
ghost use Rattle.model.specs.Arrows.{drawn, selves};
ghost use Rattle.model.specs.Good.{GoodSizes};
ghost use Rattle.text.specs.Lines.{lines};
ghost use Rattle.sheet.specs.Phases.{TakenBy, told, told_run, boxes, acts, steps, goes, flows, views as views_of};
ghost use Rattle.sheet.specs.Reading.{parts, finish, model as model_of, reading_of};

use super::{Arrows, Cursor, Ids, Run, Sheet, Taken, lines, quick};
use model::{Machine, Model, Refusal, Refused, Sizes};

// The line at a place, by what reads such a line; `Ended` where the text has no line more.
pub(crate) fn take<T, F: FnOnce(&[u8]) -> Result<T, Refusal>>(
    sheet: Sheet<'_>,
    cursor: Cursor,
    read: F,
) -> Result<Taken<T>, Refused>
    requires { F.IsAlwaysCallable read }
    ensures { TakenBy (FnOnceReturnsAt F.FnOnce read) sheet.entry.text.now cursor.at cursor.line result }
{
    let Some(line) = text::line_from(sheet.text, cursor.at) else {
        return Err(Refused {
            refusal: Refusal::Ended,
            line: cursor.line,
        });
    };
    match read(&sheet.text[line.start..line.end]) {
        Ok(read) => Ok(Taken {
            read,
            next: line.next,
        }),
        Err(refusal) => Err(Refused {
            refusal,
            line: cursor.line,
        }),
    }
}

fn read_boxes(
    sheet: Sheet<'_>,
    first: Cursor,
    count: usize,
) -> Result<Run<[u32; model::BOXES]>, Refused>
    requires count { count ≤ BOXES }
    ensures { told_run result sheet.entry.text.now ≡ boxes count (lines (drop first.at sheet.entry.text.now)) first.line }
{
    let mut ids = [0u32; model::BOXES];
    let mut cursor = first;
    // k is the number of the entry, and tells which ids are known so far
    for k in 0..count {
        let known = &ids[0..k];
        let taken = take(sheet, cursor, |line| lines::box_line(line, known))?;
        ids[k] = taken.read;
        cursor = Cursor {
            at: taken.next,
            line: cursor.line + 1,
        };
    }
    Ok(Run {
        read: ids,
        next: cursor,
    })
}

fn read_acts(
    sheet: Sheet<'_>,
    first: Cursor,
    count: usize,
    ids: Ids<'_>,
) -> Result<Run<[u8; model::ACTIONS]>, Refused>
    requires count { count ≤ ACTIONS }
    ensures { told_run result sheet.entry.text.now ≡ acts ids.entry.ids.now count (lines (drop first.at sheet.entry.text.now)) first.line }
{
    let known = ids.ids;
    let mut owners = [0u8; model::ACTIONS];
    let mut cursor = first;
    for k in 0..count {
        let taken = take(sheet, cursor, |line| lines::act_line(line, known))?;
        owners[k] = taken.read as u8;
        cursor = Cursor {
            at: taken.next,
            line: cursor.line + 1,
        };
    }
    Ok(Run {
        read: owners,
        next: cursor,
    })
}

// The `go` lines, into the tables of next states and outputs.
fn read_goes(
    sheet: Sheet<'_>,
    first: Cursor,
    sizes: Sizes,
    next: &mut [u16; model::NEXT_ENTRIES],
    outputs: &mut [u16; model::OUTPUT_ENTRIES],
) -> Result<Cursor, Refused>
    requires sizes { GoodSizes sizes }
    ensures { told result sheet.entry.text.now (steps next.new outputs.new) ≡ goes sizes.states sizes.actions (steps next.old outputs.old) (lines (drop first.at sheet.entry.text.now)) first.line }
{
    let states = sizes.states;
    let actions = sizes.actions;
    let total = states * actions;
    let mut cursor = first;
    // k is the number of the entry, and tells the state and the action
    for k in 0..total {
        let state = k as u32 / actions as u32;
        let action = k as u32 % actions as u32;
        let taken = quick::take_go(sheet, cursor, states as u32, state, action)?;
        let (after, output) = taken.read;
        next[k] = after as u16;
        outputs[k] = output as u16;
        cursor = Cursor {
            at: taken.next,
            line: cursor.line + 1,
        };
    }
    Ok(cursor)
}

// An arrow more, from v to u.
fn draw(arrows: &mut [u32; model::BOXES], v: usize, u: usize)
    requires boxes { (v < BOXES) × (u < BOXES) }
    ensures { arrows.new ≡ drawn v u arrows.old }
{
    arrows[v] |= 1u32 << u;
}

// The self-arrows of the first `boxes` boxes, and no others.
fn self_arrows(boxes: usize) -> [u32; model::BOXES]
    requires { boxes ≤ BOXES }
    ensures { result ≡ selves boxes (replicate BOXES 0) }
{
    let mut arrows = [0u32; model::BOXES];
    for k in 0..boxes {
        draw(&mut arrows, k, k);
    }
    arrows
}

fn read_flows(
    sheet: Sheet<'_>,
    first: Cursor,
    ids: Ids<'_>,
) -> Result<Run<[u32; model::BOXES]>, Refused>
    ensures { told_run result sheet.entry.text.now ≡ flows ids.entry.ids.now (selves (length ids.entry.ids.now) (replicate BOXES 0)) (lines (drop first.at sheet.entry.text.now)) first.line }
{
    let mut arrows = self_arrows(ids.ids.len());
    let mut cursor = first;
    // as many lines as there are, up to the first of another kind
    while cursor.at < sheet.text.len() {
        let taken = quick::take_flow(sheet, cursor, ids.ids)?;
        let Some(arrow) = taken.read else {
            return Ok(Run {
                read: arrows,
                next: cursor,
            });
        };
        match arrow {
            Arrows::One(v, u) => {
                draw(&mut arrows, v, u);
            }
            Arrows::Two(v, u) => {
                draw(&mut arrows, v, u);
                draw(&mut arrows, u, v);
            }
        }
        cursor = Cursor {
            at: taken.next,
            line: cursor.line + 1,
        };
    }
    Ok(Run {
        read: arrows,
        next: cursor,
    })
}

// The `view` lines, into the table of view classes.
fn read_views(
    sheet: Sheet<'_>,
    first: Cursor,
    states: usize,
    ids: Ids<'_>,
    views: &mut [u16; model::VIEW_ENTRIES],
) -> Result<Cursor, Refused>
    requires states { (0 < states) × (states ≤ STATES) }
    ensures { told result sheet.entry.text.now views.new ≡ views_of ids.entry.ids.now states views.old (lines (drop first.at sheet.entry.text.now)) first.line }
{
    let total = ids.ids.len() * states;
    let mut cursor = first;
    for k in 0..total {
        let id = ids.ids[k / states];
        let taken = quick::take_view(sheet, cursor, id, k as u32 % states as u32)?;
        views[k] = taken.read as u16;
        cursor = Cursor {
            at: taken.next,
            line: cursor.line + 1,
        };
    }
    Ok(cursor)
}

// The lines after the `sheet` line, with none behind them: the tables, and the model that they make.
pub(crate) fn read_body(
    sheet: Sheet<'_>,
    second: Cursor,
    sizes: Sizes,
    next: &mut [u16; model::NEXT_ENTRIES],
    outputs: &mut [u16; model::OUTPUT_ENTRIES],
    views: &mut [u16; model::VIEW_ENTRIES],
) -> Result<Model, Refused>
    requires sizes { GoodSizes sizes }
    ensures { reading_of result (steps next.new outputs.new) views.new ≡ finish (parts sizes.states sizes.actions sizes.boxes (steps next.old outputs.old) views.old (lines (drop second.at sheet.entry.text.now)) second.line) (model_of sizes) }
{
    let boxes = read_boxes(sheet, second, sizes.boxes)?;
    let ids = Ids {
        ids: &boxes.read[0..sizes.boxes],
    };
    let acts = read_acts(sheet, boxes.next, sizes.actions, ids)?;
    let gone = read_goes(sheet, acts.next, sizes, next, outputs)?;
    let flows = read_flows(sheet, gone, ids)?;
    let last = read_views(sheet, flows.next, sizes.states, ids, views)?;
    if last.at < sheet.text.len() {
        Err(Refused {
            refusal: Refusal::Record,
            line: last.line,
        })
    } else {
        Ok(Model::new(Machine::new(sizes, acts.read), boxes.read, flows.read))
    }
}
