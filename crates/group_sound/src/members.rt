// The members' books, each in its place: sound by itself, its member's own, and with nothing that the group does not
// have.
ghost use Rattle.std.specs.Prelude.{true, ◌≡◌, ◌*◌, ◌≤◌, length};
ghost use Rattle.views.specs.Sizes.{view_size};
ghost use Rattle.views.specs.Limits.{max_members};
ghost use Rattle.views.specs.Lists.{is_rising};
ghost use Rattle.wire.specs.Reader.{views_in};
ghost use Rattle.rules.specs.Sound.{listed_if};
ghost use Rattle.rules.specs.Member.{every};
ghost use Rattle.book_bytes.specs.Places.{book_size, client_at};
ghost use Rattle.book_bytes.specs.Records.{seat_in};
ghost use Rattle.book_bytes.specs.Books.{bytes_sound};
ghost use Rattle.group_bytes.specs.Places.{order_at, books_size, book_bytes};
ghost use Rattle.group_bytes.specs.Groups.{place_of};
ghost use Rattle.group_sound.specs.Parts.{seats_known, book_known, member_sound};

use views::{Member, ViewId};

// The client view of a book is listed, if there is one. It is often the view with the identifier w, whose place is i.
fn client_listed(list: &[u8], b: &[u8], made: u8, w: ViewId, i: u8) -> bool
    requires { (view_size * made ≤ length list.now) × (book_size ≤ length b.now)
        × (is_rising (views_in list.now 0 made) ≡ true) × (i ≡ place_of w.0 (views_in list.now 0 made)) }
    ensures { result ≡ listed_if (views_in list.now 0 made) (seat_in b.now client_at) }
{
    let Some(v) = book_bytes::load_seat(b, book_bytes::CLIENT) else {
        return true;
    };
    let j = crate::listed::place_near(list, made, v.id, w, i);
    crate::listed::is_at(list, made, v, j)
}

// The carrier view and the client view of a book are listed, if there are any, and no more was taken than is ordered.
// The carrier view is often the view with the identifier w, whose place is i. Its own place serves for both tests.
fn seats_known(list: &[u8], b: &[u8], queues: &[u8], made: u8, w: ViewId, i: u8) -> bool
    requires { (view_size * made ≤ length list.now) × (book_size ≤ length b.now)
        × (order_at made ≤ length queues.now) × (is_rising (views_in list.now 0 made) ≡ true)
        × (i ≡ place_of w.0 (views_in list.now 0 made)) }
    ensures { result ≡ seats_known (views_in list.now 0 made) queues.now b.now }
{
    let taken = b[book_bytes::TAKEN];
    let Some(v) = book_bytes::load_seat(b, book_bytes::CARRIER) else {
        return taken == 0 && client_listed(list, b, made, w, i);
    };
    let j = crate::listed::place_near(list, made, v.id, w, i);
    crate::listed::is_at(list, made, v, j)
        && taken <= queues[group_bytes::HEAD + group_bytes::TABLE * j as usize]
        && client_listed(list, b, made, v.id, j)
}

// What the group asks of a sound book: its views are listed, and no more was taken than is ordered.
fn book_known(list: &[u8], b: &[u8], queues: &[u8], made: u8) -> bool
    requires { (view_size * made ≤ length list.now) × (bytes_sound b.now ≡ true)
        × (order_at made ≤ length queues.now) × (is_rising (views_in list.now 0 made) ≡ true) }
    ensures { result ≡ book_known (views_in list.now 0 made) queues.now b.now }
{
    let settled = wire::reader::load_view(b, book_bytes::SETTLED);
    let i = group_bytes::place(list, made, settled.id);
    crate::listed::is_at(list, made, settled, i)
        && crate::listed::opens_known(list, b, made)
        && seats_known(list, b, queues, made, settled.id, i)
        && crate::listed::infos_known(
            list,
            b,
            made,
            book_bytes::OUTGOING + 1,
            b[book_bytes::OUTGOING] as usize,
        )
}

// The book of the member p.
fn member_sound(list: &[u8], b: &[u8], queues: &[u8], made: u8, n: u8, p: Member) -> bool
    requires { (view_size * made ≤ length list.now) × (order_at made ≤ length queues.now)
        × (is_rising (views_in list.now 0 made) ≡ true) }
    ensures { result ≡ member_sound (views_in list.now 0 made) queues.now n p.0
        b.now }
{
    book_sound::sound(b)
        && b[book_bytes::MEMBERS] == n
        && b[book_bytes::SELF] == p.0
        && book_known(list, b, queues, made)
}

// The books of n members.
pub fn members_sound(list: &[u8], books: &[u8], queues: &[u8], made: u8, n: u8) -> bool
    requires { (view_size * made ≤ length list.now) × (length books.now ≡ books_size)
        × (order_at made ≤ length queues.now) × (n ≤ max_members)
        × (is_rising (views_in list.now 0 made) ≡ true) }
    ensures { result ≡ every n
        (λ p. member_sound (views_in list.now 0 made) queues.now n p
        (book_bytes books.now p)) }
{
    (0..n)
        .zip(books.chunks_exact(book_bytes::SIZE))
        .all(|(p, b)| member_sound(list, b, queues, made, n, Member(p)))
}
