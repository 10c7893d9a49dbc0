// Deliver: the bytes of a message of the carrier view are asked for the reader's verdict, and the message is taken from
// where it lies.
ghost use Rattle.std.specs.Prelude.{true, ◌≡◌, Some, Ok, IsOk};
ghost use Rattle.views.specs.Refusals.{left};
ghost use Rattle.wire.specs.Reader.{scan_of, frame_in, read_front};
ghost use Rattle.events.specs.Replies.{reply_of, verdict_of};
ghost use Rattle.rules.specs.Alone.{sent_in};
ghost use Rattle.book_bytes.specs.Books.{book_in, bytes_sound, members_in};
ghost use Rattle.book_steps.specs.Acts.{take_bytes};
ghost use Rattle.member.specs.Parts.{frame_answer, sent_as, arriving, Took};
ghost use Rattle.member.specs.Calls.{deliver_bytes, Gave, deliver_call};

use crate::admit;
use book_steps::messages::Entry;
use events::Reply;
use views::refusal::{Refusal, Verdict};
use views::{Member, Position, View, limits, sizes};
use wire::format;

// 7 for any view carried, 41 another view, 42 a sender not in it, 16 after 128 taken.
fn answer(n: u8, v: View, taken: Position, q: Member, bytes: &[u8]) -> Verdict
    requires { scan_of bytes.now ≡ Ok tt }
    ensures { result ≡ frame_answer n v taken.0 q.0 (frame_in bytes.now) }
{
    let count = bytes[format::COUNT_AT] as usize;
    if !book_sound::views_at::all_fit(bytes, format::VIEWS_AT, count, n) {
        return Err(Refusal::SetUnfit);
    }
    let g = numbers::get_number(bytes, format::IDENTIFIER_AT, sizes::IDENTIFIER);
    if g != v.id.0 as u64 {
        return Err(Refusal::AnotherView);
    }
    if !sets::contains(v.set, q) {
        return Err(Refusal::SenderNotInView);
    }
    if limits::ORDERED <= taken.0 {
        return Err(Refusal::OrderFull);
    }
    Ok(())
}

// The message at the front of the bytes is taken, in the carrier view v; 43 comes last.
fn deliver_message(b: &mut [u8], v: View, q: Member, bytes: &[u8]) -> Reply
    requires { (bytes_sound b.old ≡ true) × ((book_in b.old).carrier.view ≡ Some v)
        × IsOk (read_front bytes.now) }
    ensures { (result ≡ reply_of
        (arriving (members_in b.old) v (sent_in (frame_in bytes.now)) q.0
        (book_in b.old)))
        × (b.new ≡ left
        (verdict_of (arriving (members_in b.old) v (sent_in (frame_in bytes.now)) q.0
        (book_in b.old)))
        (take_bytes q.0 (sent_in (frame_in bytes.now)).message b.old) b.old) }
{
    let taken = Position(b[book_bytes::TAKEN]);
    answer(b[book_bytes::MEMBERS], v, taken, q, bytes)?;
    let message = wire::reader::load_message(bytes);
    let e = Entry { sender: q, message };
    let count = bytes[format::COUNT_AT] as usize;
    // The bytes go on as a slice made here: one that came in would be copied whole, and the copy waited for.
    book_steps::messages::deliver(b, e, &bytes[0..bytes.len()], format::VIEWS_AT, count)
}

// The message at the front of the bytes is taken into a sound book, where `read` is the verdict on it: 13, then its own
// refusal.
pub fn deliver_read(b: &mut [u8], bytes: &[u8], read: Verdict, q: Member) -> Verdict
    requires { (bytes_sound b.old ≡ true)
        × (read ≡ Ok tt → IsOk (read_front bytes.now)) }
    ensures { Took (sent_as read (frame_in bytes.now)) q.0 b.old b.new result }
{
    let carrier = book_bytes::load_seat(b, book_bytes::CARRIER).ok_or(Refusal::NoCarrierView)?;
    read?;
    deliver_message(b, carrier, q, bytes)?;
    Ok(())
}

// The bytes of one message from the sender q are taken.
pub fn deliver(b: &mut [u8], bytes: &[u8], q: Member) -> Reply
    ensures { Gave (deliver_call bytes.now q.0 b.old)
        (deliver_bytes bytes.now q.0 b.old) b.old b.new result }
{
    admit(b)?;
    let read = wire::single::verdict(bytes);
    deliver_read(b, bytes, read, q)?;
    Ok(None)
}
