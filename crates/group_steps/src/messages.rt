// The way of a message: pass and order, which are the carrier's, each in a file of its own, and deliver, in which a
// member takes it.
pub mod order;
pub mod pass;

ghost use Rattle.std.specs.Prelude.{◌≡◌, ◌*◌, ◌≤◌, ◌<◌, ◌+◌, length, get_or, true, Some};
ghost use Rattle.views.specs.Limits.{max_views, max_members, max_ordered};
ghost use Rattle.views.specs.Sizes.{view_size};
ghost use Rattle.views.specs.Lists.{is_rising};
ghost use Rattle.wire.specs.Reader.{views_in};
ghost use Rattle.slots.specs.Slots.{fits_kind};
ghost use Rattle.slots.specs.Columns.{order_size, order_sender, order_kind, order_count, order_message};
ghost use Rattle.book_bytes.specs.Places.{members_at, carrier_at, taken_at};
ghost use Rattle.book_bytes.specs.Books.{book_in};
ghost use Rattle.book_bytes.specs.Records.{seat_in};
ghost use Rattle.book_steps.specs.Acts.{taking, take_bytes};
ghost use Rattle.group_bytes.specs.Places.{made_at, order_at, book_bytes};
ghost use Rattle.group_bytes.specs.Groups.{place_of, ranges_sound};
ghost use Rattle.group_steps.specs.OwnParts.{HasBook, of_member, OwnStep};
ghost use Rattle.group_steps.specs.VisitParts.{Delivered};

use book_steps::messages::Entry;
use events::Reply;
use views::refusal::Refusal;
use views::{Member, View, ViewId};

// Where the order of the view with the identifier stands.
fn order_of(list: &[u8], queues: &[u8], g: ViewId) -> usize
    requires { (made_at < length queues.now) × (view_size * get_or queues.now made_at 0 ≤ length list.now)
        × (get_or queues.now made_at 0 ≤ max_views)
        × (is_rising (views_in list.now 0 (get_or queues.now made_at 0)) ≡ true) }
    ensures { result ≡ order_at
        (place_of g.0 (views_in list.now 0 (get_or queues.now made_at 0))) }
{
    let i = group_bytes::place(list, queues[group_bytes::MADE], g);
    group_bytes::order_at(i)
}

// The member p takes entry k of the order at c; an info's views stay where they lie.
fn take_at(all: &mut [u8], queues: &[u8], p: Member, c: usize, k: usize) -> Reply
    requires { HasBook all.old p.0 × (p.0 < get_or all.old members_at 0)
        × (c + order_size ≤ length queues.now) × (k < max_ordered)
        × (fits_kind (get_or queues.now (order_kind c k) 0) (get_or queues.now (order_count c k) 0) ≡ true)
        × (get_or queues.now (order_sender c k) 0 < max_members)
        × (get_or (book_bytes all.old p.0) taken_at 0 < max_ordered)
        × (get_or (book_bytes all.old p.0) carrier_at 0 ≡ 1) }
    ensures { OwnStep p.0 (of_member all.old p.0
        (λ b. taking (get_or queues.now (order_sender c k) 0) (order_message queues.now c k)
        (book_in b)))
        (take_bytes (get_or queues.now (order_sender c k) 0) (order_message queues.now c k))
        all.old all.new result }
{
    let sender = Member(queues[c + slots::order::SENDERS + k]);
    let message = slots::order::load_message(queues, c, k);
    let n = slots::order::carried(queues, c, k);
    let x = Entry { sender, message };
    let a = book_bytes::SIZE * (p.0 as usize);
    let e = a + book_bytes::SIZE;
    let at = c + slots::order::VIEWS + slots::order::CARRIED * k;
    book_steps::messages::deliver(&mut all[a..e], x, queues, at, n)
}

// The member p takes the next message of its carrier view v.
fn next(list: &[u8], all: &mut [u8], queues: &[u8], p: Member, v: View) -> Reply
    requires { (ranges_sound (record { list = list.now; books = all.old; queues = queues.now }) ≡ true)
        × (p.0 < get_or all.old members_at 0)
        × (seat_in (book_bytes all.old p.0) carrier_at ≡ Some v) }
    ensures { Delivered
        (record { list = list.entry.now; books = all.old; queues = queues.now }) p.0
        all.new result }
{
    let c = order_of(list, queues, v.id);
    let k = all[book_bytes::SIZE * (p.0 as usize) + book_bytes::TAKEN];
    if queues[c] <= k {
        return Err(Refusal::NoneToDeliver);
    }
    take_at(all, queues, p, c, k as usize)
}

// The member p takes the next message of its carrier view's order.
pub fn deliver(list: &[u8], all: &mut [u8], queues: &[u8], p: Member) -> Reply
    requires { ranges_sound (record { list = list.now; books = all.old; queues = queues.now }) ≡ true }
    ensures { Delivered
        (record { list = list.entry.now; books = all.old; queues = queues.now }) p.0
        all.new result }
{
    let a = crate::book_at(all, p)?;
    let seat = book_bytes::load_seat(&all[a..a + book_bytes::SIZE], book_bytes::CARRIER);
    next(list, all, queues, p, seat.ok_or(Refusal::NoCarrierView)?)
}
