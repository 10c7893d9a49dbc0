// What one line does to a running bench: its reply, whether a group is running after it, and the three ranges after it.
// Which replies are shown is `showing`'s.
#![tactic(auto)]

pub mod showing;

ghost use Rattle.std.specs.Prelude.{true, ◌≡◌};
ghost use Rattle.bench_lines.specs.Lines.{line_of};
ghost use Rattle.group_bytes.specs.Groups.{ranges, ranges_sound};
ghost use Rattle.bench_session.specs.Sessions.{unread_reply, now_running, Answers, group_line, step_line};

use bench_lines::lines::Line;
use events::Reply;
use views::refusal::{Refusal, Verdict};

// What a line gets, and whether a group is running after it.
#[derive(Clone, Copy)]
pub struct Answered {
    pub reply: Reply,
    pub running: bool,
}

// 40, and nothing changes.
fn unread(running: bool) -> Answered
    ensures { result ≡ record { reply = unread_reply; running = running } }
{
    Answered {
        reply: Err(Refusal::LineUnreadable),
        running,
    }
}

// Whether a group is running after a start's verdict.
fn runs(v: Verdict, running: bool) -> bool
    ensures { result ≡ now_running v running }
{
    match v {
        Err(_) => running,
        Ok(()) => true,
    }
}

// A group line: an accepted start has the group running, a refused one leaves a running group as it is.
fn begin(
    list: &mut [u8],
    all: &mut [u8],
    queues: &mut [u8],
    running: bool,
    members: u8,
    set: u8,
) -> Answered
    ensures { Answers running (ranges list.old all.old queues.old)
        (group_line members set) (ranges list.new all.new queues.new) result }
{
    let v = group::start::start(list, all, queues, members, set);
    Answered {
        reply: group::step::plain(v),
        running: runs(v, running),
    }
}

// A step's line: 40 if no group is running. 4 is checked unless a running group is known to be sound.
fn go(
    list: &mut [u8],
    all: &mut [u8],
    queues: &mut [u8],
    running: bool,
    known: bool,
    kind: u8,
    first: u32,
    second: u64,
) -> Answered
    requires { known ≡ true → running ≡ true → ranges_sound (ranges list.old all.old queues.old) ≡ true }
    ensures { Answers running (ranges list.old all.old queues.old)
        (step_line kind first second) (ranges list.new all.new queues.new) result }
{
    if !running {
        return unread(false);
    }
    Answered {
        reply: group::step::next(list, all, queues, known, kind, first, second),
        running: true,
    }
}

// The answer to a line of any bytes, without the byte 10 that ends it. 4 is checked unless a running group is known to
// be sound.
fn answer_line(
    list: &mut [u8],
    all: &mut [u8],
    queues: &mut [u8],
    running: bool,
    known: bool,
    line: &[u8],
) -> Answered
    requires { known ≡ true → running ≡ true → ranges_sound (ranges list.old all.old queues.old) ≡ true }
    ensures { Answers running (ranges list.old all.old queues.old)
        (line_of line.now) (ranges list.new all.new queues.new) result }
{
    match bench_lines::lines::read(line) {
        None => unread(running),
        Some(Line::Group(s)) => begin(list, all, queues, running, s.members, s.set),
        Some(Line::Step(s)) => go(list, all, queues, running, known, s.kind, s.first, s.second),
    }
}

// The same with any ranges: 4 is checked in every step.
pub fn answer(
    list: &mut [u8],
    all: &mut [u8],
    queues: &mut [u8],
    running: bool,
    line: &[u8],
) -> Answered
    ensures { Answers running (ranges list.old all.old queues.old)
        (line_of line.now) (ranges list.new all.new queues.new) result }
{
    answer_line(list, all, queues, running, false, line)
}
