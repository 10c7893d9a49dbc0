// Which replies a bench shows: a line that is given to it gets its reply, and whether that is shown.
ghost use Rattle.std.specs.Prelude.{true, ◌≡◌};
ghost use Rattle.group_bytes.specs.Groups.{ranges, ranges_sound};
ghost use Rattle.bench_session.specs.Showing.{idle, shows, decided_by, Hears};
ghost use Rattle.bench_session.specs.NextParts.{BenchStaysSound, HearsNext};

use events::Reply;

// What the first line decides: replies to accepted lines are shown, or all of them.
#[derive(Clone, Copy)]
pub enum Output {
    Undecided,
    Quiet,
    All,
}

// What a bench is between two lines, but for its three ranges.
#[derive(Clone, Copy)]
pub struct Bench {
    pub running: bool,
    pub output: Output,
}

// What a line gets, whether that is shown, and the bench after the line.
#[derive(Clone, Copy)]
pub struct Heard {
    pub reply: Reply,
    pub shown: bool,
    pub bench: Bench,
}

// The bench as it begins.
pub fn idle() -> Bench
    ensures { result ≡ idle }
{
    Bench {
        running: false,
        output: Output::Undecided,
    }
}

// Whether a reply is shown.
fn shows(output: Output, reply: Reply) -> bool
    ensures { result ≡ shows output reply }
{
    match output {
        Output::Undecided => reply.is_ok(),
        Output::Quiet => reply.is_ok(),
        Output::All => true,
    }
}

// What is decided after the line.
fn decided_by(output: Output, line: &[u8]) -> Output
    ensures { result ≡ decided_by output line.now }
{
    match output {
        Output::Undecided => {
            if bench_lines::lines::asks_all(line) {
                Output::All
            } else {
                Output::Quiet
            }
        }
        Output::Quiet => Output::Quiet,
        Output::All => Output::All,
    }
}

// A line of any bytes, without the byte 10 that ends it: it is answered, whether or not that is shown. 4 is checked
// unless a running group is known to be sound.
fn hear_line(
    list: &mut [u8],
    all: &mut [u8],
    queues: &mut [u8],
    bench: Bench,
    known: bool,
    line: &[u8],
) -> Heard
    requires { known ≡ true → bench.running ≡ true
        → ranges_sound (ranges list.old all.old queues.old) ≡ true }
    ensures { Hears bench (ranges list.old all.old queues.old)
        line.now (ranges list.new all.new queues.new) result }
{
    let a = crate::answer_line(list, all, queues, bench.running, known, line);
    Heard {
        reply: a.reply,
        shown: shows(bench.output, a.reply),
        bench: Bench {
            running: a.running,
            output: decided_by(bench.output, line),
        },
    }
}

// The same with any ranges: 4 is checked in every step.
pub fn hear(list: &mut [u8], all: &mut [u8], queues: &mut [u8], bench: Bench, line: &[u8]) -> Heard
    ensures { Hears bench (ranges list.old all.old queues.old)
        line.now (ranges list.new all.new queues.new) result }
{
    hear_line(list, all, queues, bench, false, line)
}

// The same for the bench's own loop, in which nothing changes the ranges between two lines. A running group stays sound
// there, so 4 is not checked.
pub fn hear_next(
    list: &mut [u8],
    all: &mut [u8],
    queues: &mut [u8],
    bench: Bench,
    line: &[u8],
) -> Heard
    requires { BenchStaysSound bench (ranges list.old all.old queues.old) }
    ensures { HearsNext bench (ranges list.old all.old queues.old)
        line.now (ranges list.new all.new queues.new) result }
{
    hear_line(list, all, queues, bench, true, line)
}
