// Pass: the first outgoing message of a member goes to the member's waiting in its carrier view.
ghost use Rattle.std.specs.Prelude.{◌≡◌, ◌+◌, ◌≤◌, ◌<◌, ◌*◌, length, get_or, true};
ghost use Rattle.views.specs.Limits.{max_outgoing};
ghost use Rattle.slots.specs.Slots.{slot_size};
ghost use Rattle.book_bytes.specs.Places.{book_size, outgoing_at};
ghost use Rattle.book_steps.specs.Acts.{pass_bytes};
ghost use Rattle.group_bytes.specs.Moves.{slot_added};
ghost use Rattle.group_bytes.specs.Groups.{ranges_sound};
ghost use Rattle.group_steps.specs.CarrierParts.{Passed};

use views::refusal::{Refusal, Verdict};
use views::{Member, limits};

// The slot of another range at a place goes to the end of the queue at c.
fn add(q: &mut [u8], c: usize, from: &[u8], at: usize)
    requires { (c + 1 + slot_size * (get_or q.old c 0 + 1) ≤ length q.old) × (get_or q.old c 0 < 255)
        × (at + slot_size ≤ length from.now) }
    ensures { q.new ≡ slot_added q.old c from.now at }
{
    let n = q[c];
    wire::writer::copy(q, c + 1 + slots::SLOT * (n as usize), from, at, slots::SLOT);
    q[c] = n + 1;
}

// The first outgoing entry of the book b goes to the end of the queue at w.
fn forward(b: &mut [u8], q: &mut [u8], w: usize)
    requires { (length b.old ≡ book_size) × (0 < get_or b.old outgoing_at 0)
        × (get_or b.old outgoing_at 0 ≤ max_outgoing) × (get_or q.old w 0 < 255)
        × (w + 1 + slot_size * (get_or q.old w 0 + 1) ≤ length q.old) }
    ensures { (b.new ≡ pass_bytes b.old)
        × (q.new ≡ slot_added q.old w b.old (outgoing_at + 1)) }
{
    add(q, w, b, book_bytes::OUTGOING + 1);
    slots::pop(b, book_bytes::OUTGOING, book_bytes::OUTGOING + 1);
}

// The first outgoing message of the member p goes to its waiting in its carrier view.
pub fn pass(list: &[u8], all: &mut [u8], queues: &mut [u8], p: Member) -> Verdict
    requires { ranges_sound (record { list = list.now; books = all.old; queues = queues.old }) ≡ true }
    ensures { Passed
        (record { list = list.entry.now; books = all.old; queues = queues.old }) p.0
        all.new queues.new result }
{
    let a = crate::book_at(all, p)?;
    let e = a + book_bytes::SIZE;
    let carrier = book_bytes::load_seat(&all[a..e], book_bytes::CARRIER).ok_or(
        Refusal::NoCarrierView,
    )?;
    if all[a + book_bytes::OUTGOING] == 0 {
        return Err(Refusal::NoneOutgoing);
    }
    let i = group_bytes::place(list, queues[group_bytes::MADE], carrier.id);
    let w = group_bytes::waiting_at(i, p);
    if limits::WAITING <= queues[w] {
        return Err(Refusal::WaitingFull);
    }
    forward(&mut all[a..e], queues, w);
    Ok(())
}
