// When the driver takes its steps: the view is there (10), it is the newest and nobody joined it (44), and its set
// passes the test against every view that one of its servers holds (45). And whether the view is untouched.
ghost use Rattle.std.specs.Prelude.{true, ◌∷◌, ◌≡◌, ◌+◌, ◌≤◌, ◌<◌, suc, eqb, length, get_or};
ghost use Rattle.views.specs.Limits.{max_members, max_views};
ghost use Rattle.views.specs.Lists.{list_of};
ghost use Rattle.views.specs.Sets.{one};
ghost use Rattle.rules.specs.Data.{rank};
ghost use Rattle.rules.specs.Member.{all as every, passes};
ghost use Rattle.book_bytes.specs.Places.{members_at, carrier_at, book_size};
ghost use Rattle.book_bytes.specs.Records.{seat_in, held_in};
ghost use Rattle.group_bytes.specs.Places.{books_size, table_size, order_at, book_bytes};
ghost use Rattle.group_bytes.specs.Groups.{ranges, ranges_sound};
ghost use Rattle.group_form.specs.Parts.{none_at, passes_at, Asks, none_wait, holds_none, none_hold, untouched_at};

use views::refusal::{Refusal, Verdict};
use views::{Member, View, ViewId};

// The book of a member.
fn book(all: &[u8], p: u8) -> &[u8]
    requires { (length all.now ≡ books_size) × (p < max_members) }
    ensures is { result.now ≡ book_bytes all.now p }
    ensures long { length result.now ≡ book_size }
{
    let at = book_bytes::SIZE * (p as usize);
    &all[at..at + book_bytes::SIZE]
}

// The view with the identifier is the carrier view of a book.
fn carries(b: &[u8], id: ViewId) -> bool
    requires { book_size ≤ length b.now }
    ensures { result ≡ eqb (rank (seat_in b.now carrier_at)) (suc id.0) }
{
    match book_bytes::load_seat(b, book_bytes::CARRIER) {
        Some(v) => v.id.0 == id.0,
        None => false,
    }
}

// The view with the identifier is no carrier view of a member.
fn none_joined(all: &[u8], id: ViewId) -> bool
    requires { (length all.now ≡ books_size) × (get_or all.now members_at 0 ≤ max_members) }
    ensures { result ≡ none_at all.now id.0 }
{
    (0..all[book_bytes::MEMBERS]).all(|p| !carries(book(all, p), id))
}

// The view passes the test against every view held in a book.
fn passes_book(b: &[u8], v: View) -> bool
    requires { book_size ≤ length b.now }
    ensures { result
        ≡ every (passes one v) ((held_in b.now).settled ∷ list_of (held_in b.now).opens) }
{
    let h = book_bytes::load_held(b);
    record_steps::tests::passes_all(v, h.settled, h.opens)
}

// The view passes the test against every view that one of its servers holds.
fn passes_held(all: &[u8], v: View) -> bool
    requires { (length all.now ≡ books_size) × (get_or all.now members_at 0 ≤ max_members) }
    ensures { result ≡ passes_at all.now v }
{
    let n = all[book_bytes::MEMBERS];
    (0..n).all(|p| !sets::contains(v.set, Member(p)) || passes_book(book(all, p), v))
}

// Whether the driver takes its steps: 10, 44, 45.
pub fn ask(list: &[u8], all: &[u8], queues: &[u8], id: ViewId) -> Verdict
    requires { ranges_sound (ranges list.now all.now queues.now) ≡ true }
    ensures { Asks (ranges list.now all.now queues.now) id.0 result }
{
    let made = queues[group_bytes::MADE];
    let i = group_bytes::place(list, made, id);
    if made <= i {
        return Err(Refusal::NoSuchView);
    }
    if i + 1 != made {
        return Err(Refusal::ViewNotFresh);
    }
    if !none_joined(all, id) {
        return Err(Refusal::ViewNotFresh);
    }
    let v = wire::reader::load_view(list, group_bytes::VIEW * (i as usize));
    if !passes_held(all, v) {
        return Err(Refusal::FormTestFailed);
    }
    Ok(())
}

// Nothing waits for any of n members in the view at a place.
fn none_wait(queues: &[u8], i: u8, n: u8) -> bool
    requires { (i ≤ max_views) × (n ≤ max_members) × (order_at i + table_size ≤ length queues.now) }
    ensures { result ≡ none_wait queues.now i n }
{
    (0..n).all(|p| queues[group_bytes::waiting_at(i, Member(p))] == 0)
}

// The view with the identifier is not held in a book.
fn holds_none(b: &[u8], id: ViewId) -> bool
    requires { book_size ≤ length b.now }
    ensures { result ≡ holds_none b.now id.0 }
{
    let h = book_bytes::load_held(b);
    let settled = h.settled;
    if settled.id.0 == id.0 {
        return false;
    }
    let found = views::list::find(h.opens, id);
    match found {
        Some(_) => false,
        None => true,
    }
}

// It is not held in any member's book.
fn none_hold(all: &[u8], id: ViewId) -> bool
    requires { (length all.now ≡ books_size) × (get_or all.now members_at 0 ≤ max_members) }
    ensures { result ≡ none_hold all.now id.0 }
{
    (0..all[book_bytes::MEMBERS]).all(|p| holds_none(book(all, p), id))
}

// The view at a place is untouched: nothing is ordered or waits in it, and no member holds it. If steps lead to the
// group, this is so of every view that nobody has joined.
pub fn untouched(all: &[u8], queues: &[u8], id: ViewId, i: u8) -> bool
    requires { (length all.now ≡ books_size) × (get_or all.now members_at 0 ≤ max_members) × (i ≤ max_views)
        × (order_at i + table_size ≤ length queues.now) }
    ensures { result ≡ untouched_at all.now queues.now id.0 i }
{
    queues[group_bytes::order_at(i)] == 0
        && none_wait(queues, i, all[book_bytes::MEMBERS])
        && none_hold(all, id)
}
