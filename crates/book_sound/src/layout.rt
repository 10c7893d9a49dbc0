// What only bytes can hold: a length, a mark or a count outside its limits, an entry of unknown kind.
ghost use Rattle.std.specs.Prelude.{◌≡◌, ◌≤◌, length};
ghost use Rattle.book_sound.specs.Parts.{marks_fit, counts_fit};
ghost use Rattle.book_bytes.specs.Places.{book_size};
ghost use Rattle.book_bytes.specs.Books.{layout_fits};

use views::limits;

// The marks are 0 or 1.
fn marks_fit(b: &[u8]) -> bool
    requires { book_size ≤ length b.now }
    ensures { result ≡ marks_fit b.now }
{
    b[book_bytes::CARRIER] <= 1
        && b[book_bytes::CLIENT] <= 1
        && b[book_bytes::REGISTERED] <= 1
        && b[book_bytes::SIDE] <= 1
}

// The counts are within their limits.
fn counts_fit(b: &[u8]) -> bool
    requires { book_size ≤ length b.now }
    ensures { result ≡ counts_fit b.now }
{
    b[book_bytes::OPENS] as usize <= limits::OPEN
        && b[book_bytes::OUTGOING] <= limits::OUTGOING
        && b[book_bytes::INWARD] <= limits::ORDERED
        && b[book_bytes::INWARD + book_bytes::APART] <= limits::ORDERED
}

// What only bytes can hold is as the layout says.
pub fn layout_fits(b: &[u8]) -> bool
    ensures { result ≡ layout_fits b.now }
{
    b.len() == book_bytes::SIZE
        && marks_fit(b)
        && counts_fit(b)
        && crate::entries_at::slots_fit(
            b,
            book_bytes::OUTGOING + 1,
            b[book_bytes::OUTGOING] as usize,
        )
}
