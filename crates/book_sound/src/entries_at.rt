// Queue entries and inward items where they lie in bytes, tested in place. Only what is used is looked at.
ghost use Rattle.std.specs.Prelude.{true, ◌≡◌, ◌+◌, ◌≤◌, ◌<◌, ◌*◌, length, get_or};
ghost use Rattle.views.specs.Limits.{max_ordered};
ghost use Rattle.rules.specs.Member.{all};
ghost use Rattle.rules.specs.Sound.{item_from_member};
ghost use Rattle.slots.specs.Slots.{slot_size, entry_in, slot_fits, slots_fit, entries_in};
ghost use Rattle.slots.specs.Columns.{inward_size, items_in};
ghost use Rattle.book_sound.specs.EntryParts.{entry_sound};

use wire::format;

// An entry: its sender is a member, a told's count and an info's views are within their limits.
pub fn entry_sound(b: &[u8], at: usize, n: u8) -> bool
    requires { (at + slot_size ≤ length b.now) × (slot_fits b.now at ≡ true) }
    ensures { result ≡ entry_sound n (entry_in b.now at) }
{
    if n <= b[at] {
        return false;
    }
    match b[at + slots::KIND] {
        format::INFO => crate::views_at::sound(
            b,
            at + slots::VIEWS,
            b[at + slots::COUNT] as usize,
            n,
        ),
        format::TOLD => wire::in_bytes::told_fits(b, at + slots::NUMBER),
        _ => true,
    }
}

// The slots of a queue have entries of known kind, with their views in their places.
pub fn slots_fit(b: &[u8], at: usize, count: usize) -> bool
    requires { at + slot_size * count ≤ length b.now }
    ensures { result ≡ slots_fit b.now at count }
{
    (0..count).all(|i| slots::slot_fits(b, at + slots::SLOT * i))
}

// Every entry of a queue is sound.
pub fn entries_sound(b: &[u8], at: usize, count: usize, n: u8) -> bool
    requires { (at + slot_size * count ≤ length b.now) × (slots_fit b.now at count ≡ true) }
    ensures { result ≡ all (entry_sound n) (entries_in b.now at count) }
{
    (0..count).all(|i| entry_sound(b, at + slots::SLOT * i, n))
}

// The senders of the inward list at c are members: the highest of them is. A loop without an exit goes 16 at a time.
pub fn items_sound(b: &[u8], c: usize, n: u8) -> bool
    requires { (c + inward_size ≤ length b.now) × (get_or b.now c 0 ≤ max_ordered) × (0 < n) }
    ensures { result ≡ all (item_from_member n) (items_in b.now c) }
{
    let from = c + slots::inward::SENDERS;
    let mut highest = 0;
    for sender in &b[from..from + b[c] as usize] {
        highest = highest.max(*sender);
    }
    highest < n
}
