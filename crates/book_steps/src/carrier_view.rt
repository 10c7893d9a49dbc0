// The steps that change which views the member has, in a sound book's bytes: join, attempt, collect.
ghost use Rattle.std.specs.Prelude.{◌≡◌, ◌≤◌, length, get_or, set, true};
ghost use Rattle.views.specs.Limits.{max_open};
ghost use Rattle.views.specs.Sets.{one};
ghost use Rattle.views.specs.Refusals.{left};
ghost use Rattle.events.specs.Replies.{reply_of, verdict_of};
ghost use Rattle.rules.specs.Member.{joins, attempts, collects};
ghost use Rattle.book_bytes.specs.Places.{book_size, carrier_at, side_at, opens_at, inward_at};
ghost use Rattle.book_bytes.specs.Records.{store_seat};
ghost use Rattle.book_bytes.specs.Books.{book_in, bytes_sound, own_in_book, members_in};
ghost use Rattle.book_steps.specs.Acts.{announced, unnoted, join_bytes, few_open, attempt_bytes, collect_bytes};

use crate::lent;
use events::{Event, Reply};
use views::{Member, View};

// The inward list of a carrier view not attempted goes, and outgoing holds one info with what is held, copied as it
// stands.
fn announce(b: &mut [u8])
    requires { (book_size ≤ length b.old) × (get_or b.old side_at 0 ≤ 1) × (get_or b.old opens_at 0 ≤ max_open) }
    ensures { b.new ≡ announced b.old }
{
    let side = b[book_bytes::SIDE];
    let other = 1 - side;
    let own = Member(b[book_bytes::SELF]);
    let n = b[book_bytes::OPENS] as usize;
    empty(b, other);
    slots::copy_info(
        b,
        book_bytes::OUTGOING + 1,
        own,
        book_bytes::SETTLED,
        book_bytes::OPENS + 1,
        n,
    );
    b[book_bytes::OUTGOING] = 1;
}

// The view v is the carrier view, of which nothing was taken and nothing is noted.
fn enter(b: &mut [u8], v: View)
    requires { book_size ≤ length b.old }
    ensures { b.new ≡ unnoted (store_seat b.old carrier_at (Some v)) }
{
    book_bytes::store_seat(b, book_bytes::CARRIER, Some(v));
    b[book_bytes::TAKEN..book_bytes::SIDE].fill(0);
}

// The view v becomes the carrier view.
pub fn join(b: &mut [u8], v: View) -> Reply
    requires { bytes_sound b.old ≡ true }
    ensures { (result ≡ reply_of (joins (own_in_book b.old) v (book_in b.old)))
        × (b.new ≡ left (verdict_of (joins (own_in_book b.old) v (book_in b.old)))
        (join_bytes v b.old) b.old) }
{
    let carrier = book_bytes::load_seat(b, book_bytes::CARRIER);
    record_steps::carrier_view::join(Member(b[book_bytes::SELF]), v, carrier)?;
    announce(b);
    enter(b, v);
    Ok(None)
}

// The inward list of a side goes.
fn empty(b: &mut [u8], side: u8)
    requires { (book_size ≤ length b.old) × (side ≤ 1) }
    ensures { b.new ≡ set b.old (inward_at side) 0 }
{
    b[book_bytes::INWARD + book_bytes::APART * (side as usize)] = 0;
}

// The carrier view becomes open and becomes the client view; the old inward list goes.
pub fn attempt(b: &mut [u8]) -> Reply
    requires { bytes_sound b.old ≡ true }
    ensures { (result ≡ reply_of
        (few_open (attempts one (members_in b.old) (own_in_book b.old) (book_in b.old))))
        × (b.new ≡ left
        (verdict_of (few_open (attempts one (members_in b.old) (own_in_book b.old)
        (book_in b.old)))) (attempt_bytes b.old) b.old) }
{
    let h = book_bytes::load(b);
    let n = b[book_bytes::MEMBERS];
    let step = |h| lent::few_open(record_steps::carrier_view::attempt(n, h)?);
    let next = lent::lend(h, step)?;
    let p = Member(b[book_bytes::SELF]);
    empty(b, h.side);
    book_bytes::store(b, next);
    Ok(h.carrier.map(|v| Event::Attempt(p, v)))
}

// The carrier view becomes settled; only open views above it remain.
pub fn collect(b: &mut [u8]) -> Reply
    requires { bytes_sound b.old ≡ true }
    ensures { (result ≡ reply_of (collects (members_in b.old) (book_in b.old)))
        × (b.new ≡ left (verdict_of (collects (members_in b.old) (book_in b.old)))
        (collect_bytes b.old) b.old) }
{
    let h = book_bytes::load(b);
    let n = b[book_bytes::MEMBERS];
    let next = lent::lend(h, |h| record_steps::carrier_view::collect(n, h))?;
    book_bytes::store(b, next);
    Ok(None)
}
