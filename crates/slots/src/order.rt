// A view's order in lent bytes, by columns: a count, then of all entries the senders, the kinds, the counts, the
// numbers and the views. An order only grows, so that nothing in it moves.
ghost use Rattle.std.specs.Prelude.{◌+◌, ◌≤◌, ◌<◌, true, ◌≡◌, length, get_or};
ghost use Rattle.views.specs.Limits.{max_ordered};
ghost use Rattle.wire.specs.Format.{told_kind};
ghost use Rattle.slots.specs.Slots.{slot_size, slot_fits, kind_in, number_in, message_in};
ghost use Rattle.slots.specs.Columns.{order_size};
ghost use Rattle.slots.specs.Changes.{store_ordered, ordered};
ghost use Rattle.slots.specs.FrameParts.{order_framed, order_carried};

use views::{limits, sizes};
use wire::{Message, format};

// Where the columns stand behind the count. Of an info its count is the number of its views, of a told its count.
pub const SENDERS: usize = 1;

pub const KINDS: usize = SENDERS + limits::ORDERED as usize;

pub const COUNTS: usize = KINDS + limits::ORDERED as usize;

pub const NUMBERS: usize = COUNTS + limits::ORDERED as usize;

pub const VIEWS: usize = NUMBERS + sizes::NUMBER * limits::ORDERED as usize;

// Bytes for the views of one entry, and of an order.
pub const CARRIED: usize = sizes::VIEW * limits::VIEWS;

pub const SIZE: usize = VIEWS + CARRIED * limits::ORDERED as usize;

// The entry in the slot at a place is entry k of the order at c, which lies below it: its sender, its kind, and what
// its kind has. A told's count is the last byte of its number.
fn store(q: &mut [u8], c: usize, k: usize, at: usize)
    requires { (c + order_size ≤ at) × (at + slot_size ≤ length q.old) × (k < max_ordered)
        × (slot_fits q.old at ≡ true) × (kind_in q.old at ≡ told_kind → number_in q.old at < 256) }
    ensures { q.new ≡ store_ordered q.old c k (get_or q.old at 0)
        (message_in q.old at) }
{
    let kind = q[at + crate::KIND];
    q[c + SENDERS + k] = q[at];
    q[c + KINDS + k] = kind;
    match kind {
        format::CLIENT => crate::move_bytes(
            q,
            at + crate::NUMBER,
            c + NUMBERS + sizes::NUMBER * k,
            sizes::NUMBER,
        ),
        format::TOLD => q[c + COUNTS + k] = q[at + crate::NUMBER + sizes::NUMBER - 1],
        format::INFO => {
            let n = q[at + crate::COUNT];
            q[c + COUNTS + k] = n;
            crate::move_bytes(
                q,
                at + crate::VIEWS,
                c + VIEWS + CARRIED * k,
                sizes::VIEW * usize::from(n),
            );
        }
        _ => {}
    }
}

// The entry in the slot at a place goes to the end of the order at c, which lies below it.
pub fn append(q: &mut [u8], c: usize, at: usize)
    requires { (c + order_size ≤ at) × (at + slot_size ≤ length q.old) × (get_or q.old c 0 < max_ordered)
        × (slot_fits q.old at ≡ true) × (kind_in q.old at ≡ told_kind → number_in q.old at < 256) }
    ensures { q.new ≡ ordered q.old c (get_or q.old at 0)
        (message_in q.old at) }
{
    let n = q[c];
    store(q, c, usize::from(n), at);
    q[c] = n + 1;
}

// The message of entry k, without its views.
pub fn load_message(q: &[u8], c: usize, k: usize) -> Message
    requires { (c + order_size ≤ length q.now) × (k < max_ordered) }
    ensures { result ≡ order_carried q.now c k }
{
    let kind = q[c + KINDS + k];
    if kind == format::TOLD {
        Message::Told(q[c + COUNTS + k])
    } else {
        let x = numbers::get_number(q, c + NUMBERS + sizes::NUMBER * k, sizes::NUMBER);
        format::message(kind, x)
    }
}

// How many views it carries: none where it is no info.
pub fn carried(q: &[u8], c: usize, k: usize) -> usize
    requires { (c + order_size ≤ length q.now) × (k < max_ordered) }
    ensures { result ≡ order_framed q.now c k }
{
    if q[c + KINDS + k] == format::INFO {
        usize::from(q[c + COUNTS + k])
    } else {
        0
    }
}
