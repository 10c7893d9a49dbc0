// Whether no member's client view is above its carrier view. A sound group of this kind stays sound, whatever steps are
// applied to it, so 4 need not be checked before each of them. Every group that steps lead to is of this kind.
ghost use Rattle.std.specs.Prelude.{◌≡◌, ◌≤◌, leb, length, get_or};
ghost use Rattle.views.specs.Limits.{max_members};
ghost use Rattle.rules.specs.Data.{rank};
ghost use Rattle.book_bytes.specs.Places.{members_at, book_size};
ghost use Rattle.group_bytes.specs.Places.{books_size};
ghost use Rattle.group.specs.StaysSoundParts.{not_above, none_above};

use views::View;

// A client view, if there is one, is not above a carrier view.
fn not_above(client: Option<View>, carrier: Option<View>) -> bool
    ensures { result ≡ leb (rank client) (rank carrier) }
{
    match (client, carrier) {
        (Some(v), Some(w)) => v.id.0 <= w.id.0,
        (Some(_), None) => false,
        (None, _) => true,
    }
}

// The client view of a book is not above its carrier view.
fn book_not_above(b: &[u8]) -> bool
    requires { book_size ≤ length b.now }
    ensures { result ≡ not_above b.now }
{
    let client = book_bytes::load_seat(b, book_bytes::CLIENT);
    let carrier = book_bytes::load_seat(b, book_bytes::CARRIER);
    not_above(client, carrier)
}

// No member's client view is above its carrier view.
pub fn none_above(books: &[u8]) -> bool
    requires { (length books.now ≡ books_size) × (get_or books.now members_at 0 ≤ max_members) }
    ensures { result ≡ none_above books.now }
{
    let n = books[book_bytes::MEMBERS] as usize;
    books
        .chunks_exact(book_bytes::SIZE)
        .take(n)
        .all(book_not_above)
}
