// Order: the first one waiting goes to the end of the view's order.
ghost use Rattle.std.specs.Prelude.{◌≡◌, ◌+◌, ◌*◌, ◌≤◌, ◌<◌, length, get_or, true};
ghost use Rattle.views.specs.Limits.{max_ordered};
ghost use Rattle.wire.specs.Format.{told_kind};
ghost use Rattle.slots.specs.Slots.{slot_size, slot_fits, kind_in, number_in, message_in};
ghost use Rattle.slots.specs.Columns.{order_size};
ghost use Rattle.slots.specs.Changes.{popped, ordered};
ghost use Rattle.group_bytes.specs.Groups.{ranges_sound};
ghost use Rattle.group_steps.specs.CarrierParts.{Ordered};

use views::refusal::{Refusal, Verdict};
use views::{Member, ViewId, limits};

// The first entry of the queue at w goes to the end of the order at c, which lies below it.
fn forward(q: &mut [u8], c: usize, w: usize)
    requires { (c + order_size ≤ w) × (get_or q.old c 0 < max_ordered) × (0 < get_or q.old w 0)
        × (w + 1 + slot_size * get_or q.old w 0 ≤ length q.old) × (slot_fits q.old (w + 1) ≡ true)
        × (kind_in q.old (w + 1) ≡ told_kind → number_in q.old (w + 1) < 256) }
    ensures { q.new ≡ popped (ordered q.old c (get_or q.old (w + 1) 0)
        (message_in q.old (w + 1))) w (w + 1) }
{
    slots::order::append(q, c, w + 1);
    slots::pop(q, w, w + 1);
}

// The first one waiting for the member p in a view goes to the end of the view's order.
pub fn order(list: &[u8], all: &[u8], queues: &mut [u8], p: Member, id: ViewId) -> Verdict
    requires { ranges_sound (record { list = list.now; books = all.now; queues = queues.old }) ≡ true }
    ensures { Ordered
        (record { list = list.entry.now; books = all.now; queues = queues.old }) p.0 id.0
        queues.new result }
{
    if all[book_bytes::MEMBERS] <= p.0 {
        return Err(Refusal::NoSuchMember);
    }
    let made = queues[group_bytes::MADE];
    let i = group_bytes::place(list, made, id);
    if made <= i {
        return Err(Refusal::NoSuchView);
    }
    let c = group_bytes::order_at(i);
    let w = group_bytes::waiting_at(i, p);
    if queues[w] == 0 {
        return Err(Refusal::NoneWaiting);
    }
    if limits::ORDERED <= queues[c] {
        return Err(Refusal::OrderFull);
    }
    forward(queues, c, w);
    Ok(())
}
