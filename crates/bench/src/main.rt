// The bench: lines of standard input answered, as the specification's section 'The bench' has it. What a line does and
// whether its reply is shown is `bench_session`; here are only reading and writing, many lines to a call of the system.
#![tactic(auto)]

mod pieces;
mod words;

ghost use Rattle.std.specs.Prelude.{length, ◌≤◌};
ghost use Rattle.bench_lines.specs.ReplyLines.{longest_reply};
ghost use Rattle.group_bytes.specs.Groups.{ranges};
ghost use Rattle.bench_session.specs.NextParts.{BenchStaysSound};

use bench_session::showing::Bench;
use std::env::{Env, FillError};

// The bench lends 8 view records, and the books and queues that go with them.
const ROOM: usize = 8;

const LIST: usize = group_bytes::VIEW * ROOM;

const QUEUES: usize = group_bytes::HEAD + group_bytes::TABLE * ROOM;

// As many bytes are read at once, and written at once.
const PIECE: usize = 65536;

// With an argument it only says what it is for.
fn main(rt: HostRuntime) {
    if has_argument(&rt) {
        crate::words::help(&rt);
        return;
    }
    let mut list = [0u8; LIST];
    let mut all = [0u8; group_bytes::BOOKS];
    let mut queues = [0u8; QUEUES];
    let mut input = [0u8; PIECE];
    let mut out = [0u8; PIECE];
    run(&rt, &mut list, &mut all, &mut queues, &mut input, &mut out);
}

// Whether there is an argument behind the program's name, of whatever bytes and length.
fn has_argument(rt: &impl Env) -> bool {
    let mut first = [0u8; 1];
    !matches!(rt.arg(1, &mut first), Err(FillError::NotPresent))
}

// Round after round until the input ends, or something could not be read or written. A proved loop has to end, so its
// rounds are as many as no run uses up.
fn run(
    rt: &(impl Input + Print + Eprint),
    list: &mut [u8],
    all: &mut [u8],
    queues: &mut [u8],
    input: &mut [u8],
    out: &mut [u8],
)
    requires { longest_reply ≤ length out.old }
{
    let mut reader = rt.reader();
    let mut bench = bench_session::showing::idle();
    let mut held: usize = 0;
    for _ in 0..u64::MAX {
        let got = crate::pieces::fill(&mut reader, input, held);
        if got.failed {
            crate::words::unread(rt);
            return;
        }
        let n = got.count;
        if n == held {
            finish(rt, list, all, queues, bench, &input[..n], out);
            return;
        }
        let t = answer_all(rt, list, all, queues, bench, &input[..n], out);
        if t.failed {
            crate::words::unwritten(rt);
            return;
        }
        bench = t.bench;
        held = crate::pieces::keep(input, t.at, n);
    }
}

// Bytes behind the last byte 10 are a line, if there are any.
fn finish(
    rt: &(impl Print + Eprint),
    list: &mut [u8],
    all: &mut [u8],
    queues: &mut [u8],
    bench: Bench,
    line: &[u8],
    out: &mut [u8],
)
    requires { (longest_reply ≤ length out.old)
        × BenchStaysSound bench (ranges list.old all.old queues.old) }
{
    if line.is_empty() {
        return;
    }
    let h = bench_session::showing::hear_next(list, all, queues, bench, line);
    if !h.shown {
        return;
    }
    let said = crate::pieces::say(rt, out, 0, h.reply);
    if !crate::pieces::send(rt, out, said.filled) {
        crate::words::unwritten(rt);
    }
}

// The bench after the lines that were answered, where they end, and whether a write failed.
#[derive(Clone, Copy)]
struct Turn {
    bench: Bench,
    at: usize,
    failed: bool,
}

// Every line of the input that has its end is answered, and what is shown of it is written.
fn answer_all(
    rt: &impl Print,
    list: &mut [u8],
    all: &mut [u8],
    queues: &mut [u8],
    before: Bench,
    input: &[u8],
    out: &mut [u8],
) -> Turn
    requires { (longest_reply ≤ length out.old)
        × BenchStaysSound before (ranges list.old all.old queues.old) }
    ensures { (result.at ≤ length input.now)
        × BenchStaysSound result.bench (ranges list.new all.new queues.new) }
{
    let mut bench = before;
    let mut at: usize = 0;
    let mut filled: usize = 0;
    // Each turn goes on by a line, and where the last whole one ends is given back.
    while at < input.len() {
        let end = bench_lines::lines::line_end(input, at);
        if end == input.len() {
            break;
        }
        let h = bench_session::showing::hear_next(list, all, queues, bench, &input[at..end]);
        bench = h.bench;
        if h.shown {
            let said = crate::pieces::say(rt, out, filled, h.reply);
            if said.failed {
                return Turn {
                    bench,
                    at,
                    failed: true,
                };
            }
            filled = said.filled;
        }
        at = end + 1;
    }
    let sent = crate::pieces::send(rt, out, filled);
    Turn {
        bench,
        at,
        failed: !sent,
    }
}
