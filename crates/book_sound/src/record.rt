// The small record of a book: what is asked of its counts, positions and views.
ghost use Rattle.std.specs.Prelude.{◌≡◌, ◌+◌, ◌≤◌, length, get_or, leb};
ghost use Rattle.views.specs.Limits.{max_ordered, max_open};
ghost use Rattle.rules.specs.Alone.{set_fits_if, limit_if};
ghost use Rattle.rules.specs.Member.{every};
ghost use Rattle.book_sound.specs.Parts.{taken_fits, positions_fit, views_sound, record_sound};
ghost use Rattle.book_bytes.specs.Records.{seat_in, record_in};
ghost use Rattle.book_bytes.specs.Places.{seat_size, book_size, opens_at};

use views::{View, limits, sizes};

// The set of the view at a place, if there is one, fits n members.
fn seat_fits(b: &[u8], at: usize, n: u8) -> bool
    requires { at + seat_size ≤ length b.now }
    ensures { result ≡ set_fits_if n (seat_in b.now at) }
{
    b[at] != 1 || sets::fits(n, b[at + 1 + sizes::IDENTIFIER])
}

// The told counts of n members are within their limit.
fn tolds_fit(n: u8, tolds: [u8; 8]) -> bool
    ensures { result ≡ every n (λ q. leb (get_or tolds q 0) max_ordered) }
{
    // Over all eight places, since a loop of a fixed length is unrolled: every call checks its books here.
    for q in 0..8 {
        if q < usize::from(n) && limits::ORDERED < tolds[q] {
            return false;
        }
    }
    true
}

// A limit that holds only where there is a view; without one it is 0.
fn limit_if(seat: Option<View>, k: u8) -> u8
    ensures { result ≡ limit_if seat k }
{
    if seat.is_some() { k } else { 0 }
}

// The position in the carrier view's order, with so many items in the two inward lists.
fn taken_fits(b: &[u8], own: u8, new: u8) -> bool
    requires { book_size ≤ length b.now }
    ensures { result ≡ taken_fits (record_in b.now) own new }
{
    let carrier = book_bytes::load_seat(b, book_bytes::CARRIER);
    let client = book_bytes::load_seat(b, book_bytes::CLIENT);
    let taken = b[book_bytes::TAKEN];
    let items = if record_steps::tests::same_view(client, carrier) {
        own
    } else {
        new
    };
    taken <= limit_if(carrier, limits::ORDERED) && limit_if(carrier, items) <= taken
}

// The positions in the client view's inward list, which has so many items.
fn positions_fit(b: &[u8], own: u8) -> bool
    requires { book_size ≤ length b.now }
    ensures { result ≡ positions_fit (record_in b.now) own }
{
    let client = book_bytes::load_seat(b, book_bytes::CLIENT);
    let limit = limit_if(client, own);
    b[book_bytes::HANDED] <= limit
        && b[book_bytes::TOLD] <= limit
        && b[book_bytes::REPORTED] <= limit
}

// The views held, the carrier view and the client view.
fn views_sound(b: &[u8], n: u8) -> bool
    requires { (book_size ≤ length b.now) × (get_or b.now opens_at 0 ≤ max_open) }
    ensures { result ≡ views_sound n (record_in b.now) }
{
    let settled = wire::reader::load_view(b, book_bytes::SETTLED);
    let opens = b[book_bytes::OPENS] as usize;
    crate::views_at::set_fits(n, settled)
        && crate::views_at::all_fit(b, book_bytes::OPENS + 1, opens, n)
        && seat_fits(b, book_bytes::CARRIER, n)
        && seat_fits(b, book_bytes::CLIENT, n)
        && wire::in_bytes::rise_above(b, book_bytes::OPENS + 1, opens, settled.id)
}

// The record of a book of n members, with so many items in its two inward lists.
pub fn record_sound(b: &[u8], n: u8, own: u8, new: u8) -> bool
    requires { (book_size ≤ length b.now) × (get_or b.now opens_at 0 ≤ max_open) }
    ensures { result ≡ record_sound n (record_in b.now) own new }
{
    (1..=limits::MEMBERS).contains(&n)
        && tolds_fit(n, book_bytes::load_tolds(b))
        && taken_fits(b, own, new)
        && positions_fit(b, own)
        && views_sound(b, n)
}
