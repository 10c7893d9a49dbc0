// Input as it comes and output as it goes.
ghost use Rattle.std.specs.Prelude.{◌≤◌, length};
ghost use Rattle.bench_lines.specs.ReplyLines.{reply_line, longest_reply};
ghost use Rattle.bench.specs.PieceParts.{Filled, Kept, Behind};

use events::Reply;
use std::io::Read;

// A line longer than the longest that is read is unreadable whatever follows: so many bytes of an unfinished one tell.
const KEPT: usize = bench_lines::lines::LONGEST_LINE + 1;

// How many bytes of the buffer count after a read, and whether it failed.
#[derive(Clone, Copy)]
pub struct Got {
    pub count: usize,
    pub failed: bool,
}

// One read behind the bytes that are held.
pub fn fill(reader: &mut impl Read, input: &mut [u8], held: usize) -> Got
    requires { held ≤ length input.old }
    ensures { Filled held input.old input.new result.count result.failed }
{
    match reader.read(&mut input[held..]) {
        Ok(n) => Got {
            count: held + n,
            failed: false,
        },
        Err(_) => Got {
            count: held,
            failed: true,
        },
    }
}

// What the unfinished line from `at` to n has goes to the front, as far as it tells; how many bytes that is.
pub fn keep(input: &mut [u8], at: usize, n: usize) -> usize
    requires { n ≤ length input.old }
    ensures { Kept at n input.old input.new result }
{
    if n <= at {
        return 0;
    }
    let kept = KEPT.min(n - at);
    input.copy_within(at..at + kept, 0);
    kept
}

// The first bytes of the buffer are written, or not all of them, which is false.
pub fn send(rt: &impl Print, out: &[u8], filled: usize) -> bool
    requires { filled ≤ length out.now }
{
    rt.write_all(&out[..filled]).is_ok()
}

// How many bytes of the buffer are filled, and whether a write before that failed.
#[derive(Clone, Copy)]
pub struct Said {
    pub filled: usize,
    pub failed: bool,
}

// A reply's line goes behind the bytes that are filled; those are written first where there is no room for every reply.
pub fn say(rt: &impl Print, out: &mut [u8], filled: usize, r: Reply) -> Said
    requires { (filled ≤ length out.old) × (longest_reply ≤ length out.old) }
    ensures { Behind (reply_line r) filled out.old out.new result.filled }
{
    if out.len() - filled < bench_lines::replies::LONGEST_REPLY {
        let sent = send(rt, out, filled);
        return Said {
            filled: bench_lines::replies::write(out, r).unwrap_or(0),
            failed: !sent,
        };
    }
    // There is room for every reply, so none is refused.
    let n = bench_lines::replies::write(&mut out[filled..], r).unwrap_or(0);
    Said {
        filled: filled + n,
        failed: false,
    }
}
