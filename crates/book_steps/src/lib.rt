// A member's steps in a sound book's bytes. Each loads what it looks at of the small record, decides by value, and
// writes only where it is accepted; attempt and collect turn the whole record, which is lent. Here is what they share.
#![tactic(auto)]

pub mod carrier_view;
pub mod client_view;
mod lent;
pub mod messages;

ghost use Rattle.std.specs.Prelude.{◌≡◌, ◌≤◌, ◌<◌, length, get_or, IsSome};
ghost use Rattle.views.specs.Limits.{max_outgoing};
ghost use Rattle.book_bytes.specs.Places.{book_size, outgoing_at, inward_at};
ghost use Rattle.book_steps.specs.Parts.{short_bytes, said_bytes};

use views::Member;
use wire::{Message, format};

// A message of any kind, without views, goes to the end of outgoing.
pub fn say_short(b: &mut [u8], kind: u8, number: u64)
    requires { (book_size ≤ length b.old) × (get_or b.old outgoing_at 0 < max_outgoing) }
    ensures { b.new ≡ short_bytes kind number b.old }
{
    let n = b[book_bytes::OUTGOING];
    let q = Member(b[book_bytes::SELF]);
    slots::store_short(
        b,
        book_bytes::OUTGOING + 1 + slots::SLOT * (n as usize),
        q,
        kind,
        number,
    );
    b[book_bytes::OUTGOING] = n + 1;
}

// A message without views goes to the end of outgoing, if there is one.
pub fn say(b: &mut [u8], said: Option<Message>)
    requires { (book_size ≤ length b.old) × (IsSome said → get_or b.old outgoing_at 0 < max_outgoing) }
    ensures { b.new ≡ said_bytes said b.old }
{
    if let Some(m) = said {
        say_short(b, format::kind(m), format::number(m));
    }
}

// Where the inward list of a side has its count.
pub fn inward(side: u8) -> usize
    requires { side ≤ 1 }
    ensures { result ≡ inward_at side }
{
    book_bytes::INWARD + book_bytes::APART * (side as usize)
}
