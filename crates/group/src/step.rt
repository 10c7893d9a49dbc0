// Step: 4 for unsound ranges, then the step of a kind's number. Its operands may be any numbers; here they become
// members, identifiers and sets, and beneath this file none of the three is a bare number.
ghost use Rattle.std.specs.Prelude.{◌≡◌, true, ◌<◌, length, get_or, None};
ghost use Rattle.book_bytes.specs.Places.{members_at};
ghost use Rattle.events.specs.Replies.{replied};
ghost use Rattle.c_answers.specs.Answers.{narrowed};
ghost use Rattle.group_bytes.specs.Groups.{ranges, ranges_sound};
ghost use Rattle.group_steps.specs.CarrierParts.{Ordered};
ghost use Rattle.group_steps.specs.VisitParts.{Joined};
ghost use Rattle.group.specs.StepParts.{no_view};
ghost use Rattle.group.specs.StepCalls.{asked, Went};

use events::{Reply, kinds};
use group_steps::{carrier_view, client_view, messages};
use views::refusal::{Refusal, Verdict};
use views::{Member, ViewId};

// A member of no group, and a set that fits none: they stand for the numbers that are too large for a byte.
const NO_MEMBER: u8 = 255;

const NO_SET: u8 = 0;

// The first number that is too large for a byte, and for an identifier.
const BYTES: u64 = 256;

const IDENTIFIERS: u64 = 4294967296;

// The member of an operand.
fn member(x: u32) -> Member
    ensures { result.0 ≡ narrowed 255 x }
{
    Member(c_answers::narrow(x, NO_MEMBER))
}

// The set of an operand.
fn set(x: u64) -> u8
    ensures { result ≡ narrowed 0 x }
{
    if BYTES <= x { NO_SET } else { x as u8 }
}

// The refusal of an identifier that no view has: 6, then 10.
fn no_view(all: &[u8], p: Member) -> Refusal
    requires { members_at < length all.now }
    ensures { result ≡ no_view p.0 (get_or all.now members_at 0) }
{
    if all[book_bytes::MEMBERS] <= p.0 {
        Refusal::NoSuchMember
    } else {
        Refusal::NoSuchView
    }
}

// Join, with any number for the identifier.
fn join(list: &[u8], all: &mut [u8], queues: &[u8], p: Member, x: u64) -> Reply
    requires { ranges_sound (ranges list.now all.old queues.now) ≡ true }
    ensures { Joined (ranges list.now all.old queues.now) p.0 x
        all.new result }
{
    if IDENTIFIERS <= x {
        return Err(no_view(all, p));
    }
    carrier_view::join(list, all, queues, p, ViewId(x as u32))
}

// Order, with any number for the identifier.
fn order(list: &[u8], all: &[u8], queues: &mut [u8], p: Member, x: u64) -> Verdict
    requires { ranges_sound (ranges list.now all.now queues.old) ≡ true }
    ensures { Ordered (ranges list.now all.now queues.old) p.0 x
        queues.new result }
{
    if IDENTIFIERS <= x {
        return Err(no_view(all, p));
    }
    messages::order::order(list, all, queues, p, ViewId(x as u32))
}

// The reply of a step that has no event.
pub fn plain(v: Verdict) -> Reply
    ensures { result ≡ replied v None }
{
    v?;
    Ok(None)
}

// The step of a kind's number on a sound group; 5 for any other number.
fn dispatch(
    list: &mut [u8],
    all: &mut [u8],
    queues: &mut [u8],
    kind: u8,
    first: u32,
    second: u64,
) -> Reply
    requires { ranges_sound (ranges list.old all.old queues.old) ≡ true }
    ensures { Went (ranges list.old all.old queues.old)
        (asked kind first second) (ranges list.new all.new queues.new) result }
{
    let p = member(first);
    match kind {
        kinds::CREATE => plain(carrier_view::create::create(
            list,
            all,
            queues,
            ViewId(first),
            set(second),
        )),
        kinds::JOIN => join(list, all, queues, p, second),
        kinds::PASS => plain(messages::pass::pass(list, all, queues, p)),
        kinds::ORDER => plain(order(list, all, queues, p, second)),
        kinds::DELIVER => messages::deliver(list, all, queues, p),
        kinds::ATTEMPT => carrier_view::attempt::attempt(list, all, queues, p),
        kinds::REGISTER => client_view::register(all, p),
        kinds::SEND => client_view::send(all, p, second),
        kinds::HAND => client_view::hand(all, p),
        kinds::TELL => client_view::tell(all, p),
        kinds::SAFE => client_view::safe(all, p),
        kinds::COLLECT => carrier_view::collect(all, p),
        0 | 13..=255 => Err(Refusal::UnknownStep),
    }
}

// One step of any kind number and any operands, put to any three ranges.
pub fn step(
    list: &mut [u8],
    all: &mut [u8],
    queues: &mut [u8],
    kind: u8,
    first: u32,
    second: u64,
) -> Reply
    ensures { Went (ranges list.old all.old queues.old)
        (asked kind first second) (ranges list.new all.new queues.new) result }
{
    if !group_sound::sound(list, all, queues) {
        return Err(Refusal::RecordsUnsound);
    }
    dispatch(list, all, queues, kind, first, second)
}

// The same step. If the ranges are known to be a sound group, 4 is not checked again.
pub fn next(
    list: &mut [u8],
    all: &mut [u8],
    queues: &mut [u8],
    known: bool,
    kind: u8,
    first: u32,
    second: u64,
) -> Reply
    requires { known ≡ true → ranges_sound (ranges list.old all.old queues.old) ≡ true }
    ensures { Went (ranges list.old all.old queues.old)
        (asked kind first second) (ranges list.new all.new queues.new) result }
{
    if known {
        return dispatch(list, all, queues, kind, first, second);
    }
    step(list, all, queues, kind, first, second)
}
