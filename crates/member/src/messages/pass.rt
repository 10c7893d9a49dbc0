// Pass: the first outgoing message is given out in bytes.
ghost use Rattle.std.specs.Prelude.{◌+◌, ◌*◌, ◌≤◌, ◌<◌, length, get_or, true, ◌≡◌};
ghost use Rattle.views.specs.Limits.{max_views};
ghost use Rattle.wire.specs.Writer.{LiesAt, frame_verdict};
ghost use Rattle.slots.specs.Slots.{slot_size, slot_number};
ghost use Rattle.slots.specs.FrameParts.{framed, carried_at, frame_at};
ghost use Rattle.book_bytes.specs.Places.{outgoing_at};
ghost use Rattle.book_bytes.specs.Books.{book_in, bytes_sound};
ghost use Rattle.book_steps.specs.Acts.{pass_bytes};
ghost use Rattle.member.specs.Parts.{SentOut, passing_into};
ghost use Rattle.member.specs.Calls.{GaveOut, pass_call};

use crate::admit;
use views::ViewId;
use views::refusal::Refusal;

// The first outgoing message, in a view, is written into the buffer from its slot, and goes: 39 leaves both.
fn give_out(b: &mut [u8], out: &mut [u8], view: ViewId) -> Result<usize, Refusal>
    requires { (0 < get_or b.old outgoing_at 0)
        × (outgoing_at + 1 + slot_size * get_or b.old outgoing_at 0 ≤ length b.old)
        × (framed b.old (outgoing_at + 1) ≤ max_views)
        × LiesAt (carried_at b.old (outgoing_at + 1)) b.old (outgoing_at + 1 + slot_number)
        × (frame_verdict (frame_at b.old (outgoing_at + 1) view.0) ≡ Ok tt) }
    ensures { SentOut (frame_at b.old (outgoing_at + 1) view.0) b.old b.new
        out.old out.new result }
{
    let at = book_bytes::OUTGOING + 1;
    let m = slots::load_message(b, at);
    let n = slots::carried(b, at);
    let size = wire::writer::write_from(out, view, m, b, at + slots::NUMBER, at + slots::VIEWS, n)?;
    slots::pop(b, book_bytes::OUTGOING, book_bytes::OUTGOING + 1);
    Ok(size)
}

// The first outgoing message of a sound book goes to the buffer: 13, 14, 39.
fn pass_first(b: &mut [u8], out: &mut [u8]) -> Result<usize, Refusal>
    requires { bytes_sound b.old ≡ true }
    ensures { GaveOut (passing_into (length out.old) (book_in b.old))
        (pass_bytes b.old) b.old b.new out.old out.new result }
{
    let carrier = book_bytes::load_seat(b, book_bytes::CARRIER).ok_or(Refusal::NoCarrierView)?;
    if b[book_bytes::OUTGOING] == 0 {
        return Err(Refusal::NoneOutgoing);
    }
    give_out(b, out, carrier.id)
}

// The first outgoing message is given out in bytes, at the front of the buffer.
pub fn pass(b: &mut [u8], out: &mut [u8]) -> Result<usize, Refusal>
    ensures { GaveOut (pass_call (length out.old) b.old) (pass_bytes b.old)
        b.old b.new out.old out.new result }
{
    admit(b)?;
    pass_first(b, out)
}
