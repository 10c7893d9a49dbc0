// Inward lists in lent bytes, by columns: a count, the senders of all items, then their entry numbers.
ghost use Rattle.std.specs.Prelude.{◌+◌, ◌≤◌, ◌<◌, ◌≡◌, length, get_or};
ghost use Rattle.views.specs.Limits.{max_ordered};
ghost use Rattle.slots.specs.Columns.{inward_size};
ghost use Rattle.slots.specs.Changes.{gained};

use views::{Member, limits, sizes};

// Where the columns stand behind the count.
pub const SENDERS: usize = 1;

pub const NUMBERS: usize = SENDERS + limits::ORDERED as usize;

// Bytes of an inward list.
pub const SIZE: usize = NUMBERS + sizes::NUMBER * limits::ORDERED as usize;

// The inward list with its count at c gains an item at its end.
pub fn gain(b: &mut [u8], c: usize, q: Member, x: u64)
    requires { (get_or b.old c 0 < max_ordered) × (c + inward_size ≤ length b.old) }
    ensures { b.new ≡ gained b.old c q.0 x }
{
    let n = b[c];
    let k = usize::from(n);
    b[c + SENDERS + k] = q.0;
    numbers::put_number(b, c + NUMBERS + sizes::NUMBER * k, sizes::NUMBER, x);
    b[c] = n + 1;
}
