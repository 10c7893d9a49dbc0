// Answers as numbers and lent bytes: a verdict's number; the bytes of an event, which the calls of the C interface and
// the answers of a run share, of a number that a call gives out, of a delivery, and of a view that may be missing; and
// numbers of 32 bits taken in a byte.
#![tactic(auto)]

ghost use Rattle.std.specs.Prelude.{length, ◌≡◌, ◌<◌, ◌^◌};
ghost use Rattle.views.specs.Lists.{id_of};
ghost use Rattle.views.specs.Refusals.{code_of, number_of};
ghost use Rattle.c_answers.specs.Answers.{narrowed, event_size, event_bytes, length_size, length_bytes};
ghost use Rattle.c_answers.specs.Answers.{delivery_size, delivery_bytes, found_size, found_bytes, given_bytes};
ghost use Rattle.c_answers.specs.Answers.{named, fields_of, fields_bytes};

use events::{Delivered, Event, Reply, kinds};
use views::refusal::Refusal;
use views::{Member, View, ViewId, refusal, sizes};

// Where the parts of an event stand: its kind, the member, the view, the sender, the entry number.
pub const KIND: usize = 0;

pub const MEMBER: usize = KIND + 1;

pub const VIEW: usize = MEMBER + 1;

pub const SENDER: usize = VIEW + sizes::VIEW;

pub const ENTRY: usize = SENDER + 1;

// Bytes of an event.
pub const EVENT: usize = ENTRY + sizes::NUMBER;

// Bytes of a number that a call gives out: the length of a message, how many bytes one took, how many steps.
pub const LENGTH: usize = 4;

// Where the parts of a delivery stand: how many messages were delivered, the refusal that stopped it.
pub const COUNT: usize = 0;

pub const STOPPED: usize = COUNT + LENGTH;

// Bytes of a delivery.
pub const DELIVERY: usize = STOPPED + 1;

// The places in a view that may be missing: whether there is one, the view.
pub const THERE: usize = 0;

pub const SEEN: usize = THERE + 1;

// Bytes of such a view.
pub const FOUND: usize = SEEN + sizes::VIEW;

// 0 for accepted, or the refusal's number.
pub fn code<T: Drop>(r: Result<T, Refusal>) -> u32
    ensures { result ≡ code_of r }
{
    match r {
        Ok(_) => 0,
        Err(why) => refused(why),
    }
}

// The refusal's number.
pub fn refused(r: Refusal) -> u32
    ensures { result ≡ number_of r }
{
    r.number() as u32
}

// The number in one byte, or another number that stands for all that are too large for it.
pub fn narrow(x: u32, other: u8) -> u8
    ensures { result ≡ narrowed other x }
{
    u8::try_from(x).unwrap_or(other)
}

// The fields of an event's record, of which the bytes may hold any.
#[derive(Clone, Copy)]
pub struct Fields {
    pub kind: u8,
    pub member: Member,
    pub view: View,
    pub sender: Member,
    pub entry: u64,
}

// A view of which the identifier alone is given.
fn named(id: ViewId) -> View
    ensures { result ≡ named id }
{
    View { id, set: 0 }
}

// The fields of an event, 0 for what it does not have; all are 0 where there is none.
fn fields_for(happened: Option<Event>) -> Fields
    ensures { result ≡ fields_of happened }
{
    let none = Fields {
        kind: 0,
        member: Member(0),
        view: named(ViewId(0)),
        sender: Member(0),
        entry: 0,
    };
    match happened {
        None => none,
        Some(Event::Attempt(member, view)) => Fields {
            kind: kinds::ATTEMPT,
            member,
            view,
            ..none
        },
        Some(Event::Register(member, id)) => Fields {
            kind: kinds::REGISTER,
            member,
            view: named(id),
            ..none
        },
        Some(Event::Send(member, id, entry)) => Fields {
            kind: kinds::SEND,
            member,
            view: named(id),
            entry,
            ..none
        },
        Some(Event::Hand(member, id, item)) => Fields {
            kind: kinds::HAND,
            member,
            view: named(id),
            sender: item.sender,
            entry: item.entry,
        },
        Some(Event::Safe(member, id, item)) => Fields {
            kind: kinds::SAFE,
            member,
            view: named(id),
            sender: item.sender,
            entry: item.entry,
        },
    }
}

// An event's record: its kind, the member, the view's identifier and set, the sender, the entry number.
pub fn put_fields(out: &mut [u8], e: Fields)
    requires { length out.old ≡ event_size }
    ensures { out.new ≡ fields_bytes e }
{
    out[KIND] = e.kind;
    out[MEMBER] = e.member.0;
    wire::writer::store_view(out, VIEW, e.view);
    out[SENDER] = e.sender.0;
    numbers::put_number(out, ENTRY, sizes::NUMBER, e.entry);
}

// The event's record. The numbers are within the widths of their types, so that the bytes read back.
pub fn put_event(out: &mut [u8], happened: Option<Event>)
    requires { length out.old ≡ event_size }
    ensures bytes { out.new ≡ event_bytes happened }
    ensures fits { (id_of (fields_of happened).view < 256 ^ 4) × ((fields_of happened).entry < 256 ^ 8) }
{
    put_fields(out, fields_for(happened));
}

// The number of a call that gives an event out: a refusal leaves the bytes.
pub fn answer(out: &mut [u8], r: Reply) -> u32
    requires { length out.old ≡ event_size }
    ensures { (result ≡ code_of r) × (out.new ≡ given_bytes event_bytes r out.old) }
{
    match r {
        Err(why) => refused(why),
        Ok(e) => {
            put_event(out, e);
            0
        }
    }
}

// The number of a call that gives a length or a count out: a refusal leaves the bytes.
pub fn measure(out: &mut [u8], r: Result<usize, Refusal>) -> u32
    requires { length out.old ≡ length_size }
    ensures { (result ≡ code_of r) × (out.new ≡ given_bytes length_bytes r out.old) }
{
    match r {
        Err(why) => refused(why),
        Ok(n) => {
            numbers::put_number(out, 0, LENGTH, n as u64);
            0
        }
    }
}

// The number of a call that gives a delivery out: a refusal of the call leaves the bytes.
pub fn account(out: &mut [u8], r: Result<Delivered, Refusal>) -> u32
    requires { length out.old ≡ delivery_size }
    ensures { (result ≡ code_of r) × (out.new ≡ given_bytes delivery_bytes r out.old) }
{
    match r {
        Err(why) => refused(why),
        Ok(d) => {
            numbers::put_number(out, COUNT, LENGTH, d.count as u64);
            out[STOPPED] = refusal::code(d.stopped);
            0
        }
    }
}

// A view, or zeros if there is none.
pub fn put_found(out: &mut [u8], f: Option<View>)
    requires { length out.old ≡ found_size }
    ensures { out.new ≡ found_bytes f }
{
    match f {
        None => wire::writer::clear(out),
        Some(v) => {
            out[THERE] = 1;
            wire::writer::store_view(out, SEEN, v);
        }
    }
}
