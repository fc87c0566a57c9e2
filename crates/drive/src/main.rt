// Answers a stream of requests for the public calls, so that they can be compared with another program's.
#![tactic(auto)]

mod calls;
mod put;
mod take;

ghost use Rattle.std.specs.Prelude.{◌+◌, ◌≤◌, length, IfSome};

use put::Answer;
use std::io::{Read, Write};
use take::Request;

// What is read ahead, and the longest request.
const WINDOW_BYTES: usize = 131072;

// Reads on behind the first `left` bytes. How many bytes came: 0 at the end of the input, after a failed read, and in a full window.
fn read_on<R: Read>(reader: &mut R, window: &mut [u8], left: usize) -> usize
    requires { left ≤ length window.old }
    ensures { left + result ≤ length window.new }
{
    reader.read(&mut window[left..]).unwrap_or(0)
}

// Answers the first request, and says how many bytes it has: none where it gets no answer.
fn answer_first<W: Write>(writer: &mut W, requests: &[u8]) -> Option<usize>
    ensures { IfSome result (λ n. n ≤ length requests.now) }
{
    let mut request = Request { rest: requests };
    let mut answer = Answer::new();
    calls::answer(&mut request, &mut answer)?;
    // Whoever stops listening wants no more answers.
    let _written = writer.write_all(answer.put());
    Some(requests.len().saturating_sub(request.rest.len()))
}

fn main(rt: HostRuntime) {
    let mut window = [0u8; WINDOW_BYTES];
    let mut start = 0;
    let mut end = 0;
    // Nothing says that the input ends, so the loop counts to a number that no run uses up.
    for _ in 0..u64::MAX {
        if let Some(taken) = answer_first(&mut rt.stdout(), &window[start..end]) {
            start += taken;
            continue;
        }
        window.copy_within(start..end, 0);
        end -= start;
        start = 0;
        let more = read_on(&mut rt.stdin(), &mut window, end);
        if more == 0 {
            return;
        }
        end += more;
    }
}
