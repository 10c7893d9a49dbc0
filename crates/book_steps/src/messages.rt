// Deliver, in a sound book's bytes: a message of the carrier view is taken, its views where they lie.
ghost use Rattle.std.specs.Prelude.{◌≡◌, true, ◌+◌, ◌*◌, ◌≤◌, ◌<◌, length, get_or, Ok};
ghost use Rattle.views.specs.Limits.{max_members, max_views, max_open, max_ordered};
ghost use Rattle.views.specs.Sizes.{view_size};
ghost use Rattle.views.specs.Refusals.{left};
ghost use Rattle.wire.specs.declared.Message.TheVariants.{Info};
ghost use Rattle.wire.specs.Reader.{views_in};
ghost use Rattle.rules.specs.Data.{client, info};
ghost use Rattle.rules.specs.Member.{settled_by};
ghost use Rattle.rules.specs.Alone.{info_of, message_of};
ghost use Rattle.events.specs.Replies.{reply_of, verdict_of};
ghost use Rattle.book_bytes.specs.Places.{book_size, carrier_at, taken_at, side_at, opens_at};
ghost use Rattle.book_bytes.specs.Books.{book_in, bytes_sound};
ghost use Rattle.book_steps.specs.Acts.{taking, gaining, one_more, noted, take_bytes};
ghost use Rattle.book_steps.specs.ArrivalParts.{Took};

use book_bytes::Held;
use events::Reply;
use views::refusal::{Refusal, Verdict};
use views::{Member, View, limits, sizes};
use wire::Message;

// A queue entry: its sender together with one of the four messages. An info's views are kept beside it.
#[derive(Clone, Copy)]
pub struct Entry {
    pub sender: Member,
    pub message: Message,
}

// One message more was taken.
fn count(b: &mut [u8])
    requires { (book_size ≤ length b.old) × (get_or b.old taken_at 0 < max_ordered) }
    ensures { b.new ≡ one_more b.old }
{
    b[book_bytes::TAKEN] += 1;
}

// The sender of a message is noted in the set at a place behind the number taken.
fn note(b: &mut [u8], at: usize, q: Member)
    requires { (book_size ≤ length b.old) × (get_or b.old taken_at 0 < max_ordered) × (q.0 < max_members)
        × (taken_at < at) × (at < book_size) }
    ensures { b.new ≡ one_more (noted at q.0 b.old) }
{
    b[at] = record_steps::messages::with_member(b[at], q);
    count(b);
}

// The inward list of the carrier view: the client view's where they are one view, else the other.
fn gaining(b: &[u8]) -> usize
    requires { (book_size ≤ length b.now) × (get_or b.now side_at 0 ≤ 1) }
    ensures { result ≡ gaining b.now }
{
    let client = book_bytes::load_seat(b, book_bytes::CLIENT);
    let carrier = book_bytes::load_seat(b, book_bytes::CARRIER);
    let side = b[book_bytes::SIDE];
    if record_steps::tests::same_view(client, carrier) {
        crate::inward(side)
    } else {
        crate::inward(1 - side)
    }
}

// A client message goes to the end of the carrier view's inward list.
fn receive(b: &mut [u8], q: Member, x: u64)
    requires { (bytes_sound b.old ≡ true) × (get_or b.old taken_at 0 < max_ordered)
        × (get_or b.old carrier_at 0 ≡ 1) }
    ensures { b.new ≡ take_bytes q.0 (client x) b.old }
{
    let c = gaining(b);
    slots::inward::gain(b, c, q, x);
    count(b);
}

// The settled view after an info with the settled view x: an open view with x's identifier keeps the set it had.
fn settled_by(b: &[u8], x: View) -> View
    requires { (book_size ≤ length b.now) × (get_or b.now opens_at 0 ≤ max_open) }
    ensures { result ≡ settled_by x (book_in b.now).held }
{
    let own = wire::reader::load_view(b, book_bytes::SETTLED);
    if x.id <= own.id {
        return own;
    }
    let count = b[book_bytes::OPENS] as usize;
    match wire::in_bytes::find(b, book_bytes::OPENS + 1, count, x.id) {
        Some(v) => v,
        None => x,
    }
}

// The info with the settled view x is taken, its n open views from a place on: 43 where more than 31 would be open.
fn learn(b: &mut [u8], q: Member, x: View, list: &[u8], from: usize, n: usize) -> Verdict
    requires { (book_size ≤ length b.old) × (get_or b.old taken_at 0 < max_ordered)
        × (get_or b.old opens_at 0 ≤ max_open) × (q.0 < max_members)
        × (from + view_size * n ≤ length list.now) × (n ≤ max_open) }
    ensures { Took q.0 (info x (views_in list.now from n)) b.old b.new result }
{
    let settled = settled_by(b, x);
    let count = b[book_bytes::OPENS] as usize;
    let merged = wire::merging::merge(b, book_bytes::OPENS + 1, count, list, from, n, settled.id);
    let opens = merged.views;
    if limits::OPEN < opens.count {
        return Err(Refusal::TooManyOpen);
    }
    book_bytes::store_held(b, Held { settled, opens });
    note(b, book_bytes::INFOS, q);
    Ok(())
}

// An info is taken, its n views from a place on. Where no view is open on either side no list is made.
fn inform(b: &mut [u8], q: Member, list: &[u8], from: usize, n: usize) -> Verdict
    requires { (book_size ≤ length b.old) × (get_or b.old taken_at 0 < max_ordered)
        × (get_or b.old opens_at 0 ≤ max_open) × (q.0 < max_members)
        × (from + view_size * n ≤ length list.now) × (n ≤ max_views) × (1 ≤ n) }
    ensures { Took q.0 (info_of (views_in list.now from n)) b.old b.new result }
{
    let x = wire::reader::load_view(list, from);
    if n == 1 && b[book_bytes::OPENS] == 0 {
        let own = wire::reader::load_view(b, book_bytes::SETTLED);
        let settled = record_steps::messages::later(x, own);
        wire::writer::store_view(b, book_bytes::SETTLED, settled);
        note(b, book_bytes::INFOS, q);
        return Ok(());
    }
    learn(b, q, x, list, from + sizes::VIEW, n - 1)
}

// The entry is taken; an info's n views lie in other bytes from a place on. 43 where more than 31 would be open then.
pub fn deliver(b: &mut [u8], e: Entry, list: &[u8], from: usize, n: usize) -> Reply
    requires { (bytes_sound b.old ≡ true) × (get_or b.old taken_at 0 < max_ordered)
        × (get_or b.old carrier_at 0 ≡ 1) × (e.sender.0 < max_members)
        × (from + view_size * n ≤ length list.now) × (n ≤ max_views) × (e.message ≡ Info → 1 ≤ n) }
    ensures { (result ≡ reply_of (taking e.sender.0
        (message_of e.message (views_in list.now from n)) (book_in b.old)))
        × (b.new ≡ left (verdict_of (taking e.sender.0
        (message_of e.message (views_in list.now from n)) (book_in b.old)))
        (take_bytes e.sender.0 (message_of e.message (views_in list.now from n)) b.old)
        b.old) }
{
    let q = e.sender;
    match e.message {
        Message::Client(x) => receive(b, q, x),
        Message::Info => inform(b, q, list, from, n)?,
        Message::Registered => note(b, book_bytes::REGISTRATIONS, q),
        Message::Told(k) => {
            b[book_bytes::TOLDS + q.0 as usize] = k;
            count(b);
        }
    }
    Ok(None)
}
