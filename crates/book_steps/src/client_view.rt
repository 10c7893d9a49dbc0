// The steps in the client view, in a sound book's bytes: register, send and tell, which put a message at the end of
// outgoing; each but send changes one byte of the record.
ghost use Rattle.std.specs.Prelude.{◌≡◌, true, ◌+◌, ◌≤◌, ◌<◌, length};
ghost use Rattle.views.specs.Limits.{max_ordered};
ghost use Rattle.views.specs.Refusals.{left};
ghost use Rattle.events.specs.Replies.{reply_of, verdict_of};
ghost use Rattle.rules.specs.Member.{registers, sends, hands, tells, safes};
ghost use Rattle.slots.specs.Columns.{inward_size};
ghost use Rattle.book_bytes.specs.Books.{book_in, bytes_sound, own_in_book, members_in};
ghost use Rattle.book_steps.specs.Parts.{spoken, item_sent};
ghost use Rattle.book_steps.specs.Acts.{register_bytes, send_bytes, hand_bytes, tell_bytes, safe_bytes};

use book_bytes::Current;
use events::{Event, Item, Reply};
use views::{Member, Position, sizes};
use wire::Message;

// What the member says: nothing where the client view is not the carrier view.
fn spoken(h: Current, m: Message) -> Option<Message>
    ensures { result ≡ spoken h m }
{
    if record_steps::client_view::in_step(h) {
        return Some(m);
    }
    None
}

// Noted for the client view; outgoing gains a registered message.
pub fn register(b: &mut [u8]) -> Reply
    requires { bytes_sound b.old ≡ true }
    ensures { (result ≡ reply_of (registers (own_in_book b.old) (book_in b.old)))
        × (b.new ≡ left (verdict_of (registers (own_in_book b.old) (book_in b.old)))
        (register_bytes b.old) b.old) }
{
    let h = book_bytes::load_current(b);
    record_steps::client_view::register(h, b[book_bytes::OUTGOING])?;
    let p = Member(b[book_bytes::SELF]);
    crate::say(b, spoken(h, Message::Registered));
    b[book_bytes::REGISTERED] = 1;
    Ok(h.client.map(|v| Event::Register(p, v.id)))
}

// Outgoing gains a client message; the record stays.
pub fn send(b: &mut [u8], entry: u64) -> Reply
    requires { bytes_sound b.old ≡ true }
    ensures { (result ≡ reply_of (sends (own_in_book b.old) entry (book_in b.old)))
        × (b.new ≡ left (verdict_of (sends (own_in_book b.old) entry (book_in b.old)))
        (send_bytes entry b.old) b.old) }
{
    let h = book_bytes::load_current(b);
    record_steps::client_view::send(h, b[book_bytes::OUTGOING])?;
    let p = Member(b[book_bytes::SELF]);
    crate::say(b, spoken(h, Message::Client(entry)));
    Ok(h.client.map(|v| Event::Send(p, v.id, entry)))
}

// Item k of the inward list with its count at a place.
fn item(b: &[u8], at: usize, k: Position) -> Item
    requires { (at + inward_size ≤ length b.now) × (k.0 < max_ordered) }
    ensures { result ≡ item_sent b.now at k.0 }
{
    let i = k.0 as usize;
    Item {
        sender: Member(b[at + slots::inward::SENDERS + i]),
        entry: numbers::get_number(
            b,
            at + slots::inward::NUMBERS + sizes::NUMBER * i,
            sizes::NUMBER,
        ),
    }
}

// The next of the client view's inward list is given out.
pub fn hand(b: &mut [u8]) -> Reply
    requires { bytes_sound b.old ≡ true }
    ensures { (result ≡ reply_of (hands (own_in_book b.old) (book_in b.old)))
        × (b.new ≡ left (verdict_of (hands (own_in_book b.old) (book_in b.old)))
        (hand_bytes b.old) b.old) }
{
    let h = book_bytes::load_current(b);
    let at = crate::inward(h.side);
    record_steps::client_view::hand(h, b[at])?;
    let p = Member(b[book_bytes::SELF]);
    let x = item(b, at, h.handed);
    b[book_bytes::HANDED] = h.handed.0 + 1;
    Ok(h.client.map(|v| Event::Hand(p, v.id, x)))
}

// Outgoing gains told, with the number handed out in the client view.
pub fn tell(b: &mut [u8]) -> Reply
    requires { bytes_sound b.old ≡ true }
    ensures { (result ≡ reply_of (tells (own_in_book b.old) (book_in b.old)))
        × (b.new ≡ left (verdict_of (tells (own_in_book b.old) (book_in b.old)))
        (tell_bytes b.old) b.old) }
{
    let h = book_bytes::load_current(b);
    record_steps::client_view::tell(h, b[book_bytes::OUTGOING])?;
    crate::say(b, spoken(h, Message::Told(h.handed.0)));
    b[book_bytes::TOLD] = h.handed.0;
    Ok(None)
}

// The next handed message not yet reported is reported, once every member of the view told of it.
pub fn safe(b: &mut [u8]) -> Reply
    requires { bytes_sound b.old ≡ true }
    ensures { (result ≡ reply_of
        (safes (members_in b.old) (own_in_book b.old) (book_in b.old)))
        × (b.new ≡ left
        (verdict_of (safes (members_in b.old) (own_in_book b.old) (book_in b.old)))
        (safe_bytes b.old) b.old) }
{
    let h = book_bytes::load_current(b);
    let at = crate::inward(h.side);
    record_steps::client_view::safe(b[book_bytes::MEMBERS], h, b[at])?;
    let p = Member(b[book_bytes::SELF]);
    let x = item(b, at, h.reported);
    b[book_bytes::REPORTED] = h.reported.0 + 1;
    Ok(h.client.map(|v| Event::Safe(p, v.id, x)))
}
