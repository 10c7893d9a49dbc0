// Queue entries in lent bytes, worked on in place: by rows here, and by columns in orders and inward lists. The places
// are given by whoever lays the records out, and each function asks that what it touches lies within the bytes.
#![tactic(auto)]

pub mod inward;
pub mod order;

ghost use Rattle.std.specs.Prelude.{◌+◌, ◌*◌, ◌≤◌, ◌<◌, ◌⊎◌, ◌≡◌, ◌∷◌, length, get_or};
ghost use Rattle.views.specs.Limits.{max_open};
ghost use Rattle.views.specs.Sizes.{view_size};
ghost use Rattle.wire.specs.Reader.{view_in, views_in};
ghost use Rattle.slots.specs.Changes.{moved, store_short, store_info, popped};
ghost use Rattle.slots.specs.Slots.{slot_size, slot_fits};
ghost use Rattle.slots.specs.FrameParts.{framed, carried_at};

use views::{Member, limits, sizes};
use wire::{Message, format};

// Where the parts of an entry stand in its slot, behind the sender: its kind, its number, the count of its views, and
// the views.
pub const KIND: usize = 1;

pub const NUMBER: usize = KIND + 1;

pub const COUNT: usize = NUMBER + sizes::NUMBER;

pub const VIEWS: usize = COUNT + 1;

// Bytes of an entry's slot.
pub const SLOT: usize = VIEWS + sizes::VIEW * limits::VIEWS;

// The n bytes at `from` go to `to`: down, or up to where none of them stands.
pub fn move_bytes(b: &mut [u8], from: usize, to: usize, n: usize)
    requires { ((to ≤ from) ⊎ (from + n ≤ to)) × (from + n ≤ length b.old) × (to + n ≤ length b.old) }
    ensures { b.new ≡ moved b.old from to n }
{
    // copy_within does the same and is slower here, since it checks first which way the bytes go.
    for i in 0..n {
        b[to + i] = b[from + i];
    }
}

// A message with a kind and a number is stored in the slot at a place.
pub fn store_short(b: &mut [u8], at: usize, q: Member, kind: u8, x: u64)
    requires { at + slot_size ≤ length b.old }
    ensures { b.new ≡ store_short b.old at q.0 kind x }
{
    b[at] = q.0;
    b[at + KIND] = kind;
    numbers::put_number(b, at + NUMBER, sizes::NUMBER, x);
}

// An info is stored in the slot at a place. Its views stand below the slot and are copied: a settled one, then n open
// ones.
pub fn copy_info(b: &mut [u8], at: usize, q: Member, settled: usize, opens: usize, n: usize)
    requires { (at + slot_size ≤ length b.old) × (settled + view_size ≤ at) × (opens + view_size * n ≤ at)
        × (n ≤ max_open) }
    ensures { b.new ≡ store_info b.old at q.0
        (view_in b.old settled ∷ views_in b.old opens n) }
{
    b[at] = q.0;
    b[at + KIND] = format::INFO;
    b[at + COUNT] = (n + 1) as u8;
    move_bytes(b, settled, at + VIEWS, sizes::VIEW);
    move_bytes(b, opens, at + VIEWS + sizes::VIEW, sizes::VIEW * n);
}

// The first entry of the queue with its count at c and its slots from s on goes.
pub fn pop(b: &mut [u8], c: usize, s: usize)
    requires { (c < s) × (0 < get_or b.old c 0) × (s + slot_size * get_or b.old c 0 ≤ length b.old) }
    ensures { b.new ≡ popped b.old c s }
{
    let left = b[c] - 1;
    move_bytes(b, s + SLOT, s, SLOT * usize::from(left));
    b[c] = left;
}

// The slot has an entry of known kind, with its views in their places.
pub fn slot_fits(b: &[u8], at: usize) -> bool
    requires { at + slot_size ≤ length b.now }
    ensures { result ≡ slot_fits b.now at }
{
    let kind = b[at + KIND];
    format::known(kind)
        && (kind != format::INFO || format::views_allowed(kind, usize::from(b[at + COUNT])))
}

// The message in the slot at a place, without its views.
pub fn load_message(b: &[u8], at: usize) -> Message
    requires { at + slot_size ≤ length b.now }
    ensures { result ≡ carried_at b.now at }
{
    let x = numbers::get_number(b, at + NUMBER, sizes::NUMBER);
    format::message(b[at + KIND], x)
}

// How many views it carries: none where it is no info.
pub fn carried(b: &[u8], at: usize) -> usize
    requires { at + slot_size ≤ length b.now }
    ensures { result ≡ framed b.now at }
{
    if b[at + KIND] == format::INFO {
        usize::from(b[at + COUNT])
    } else {
        0
    }
}
