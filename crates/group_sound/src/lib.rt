// Whether three ranges are a sound group: refusal 4 of the group. Only what is used is looked at, where it lies.
#![tactic(auto)]

mod listed;
mod members;
mod orders;
mod tables;

ghost use Rattle.std.specs.Prelude.{◌≡◌, ◌*◌, ◌≤◌, length};
ghost use Rattle.views.specs.Limits.{max_members, max_views};
ghost use Rattle.views.specs.Sizes.{view_size};
ghost use Rattle.wire.specs.Reader.{views_in};
ghost use Rattle.group_bytes.specs.Places.{books_size, order_at};
ghost use Rattle.group_bytes.specs.Groups.{ranges_sound};
ghost use Rattle.group_sound.specs.Parts.{sizes_fit, numbers_fit, records_sound};

use views::{limits, sizes};

// The lengths of the three ranges.
fn sizes_fit(list: usize, books: usize, queues: usize) -> bool
    ensures { result ≡ sizes_fit list books queues }
{
    let room = list / group_bytes::VIEW;
    list % group_bytes::VIEW == 0
        && (1..=limits::VIEWS).contains(&room)
        && books == group_bytes::BOOKS
        && queues == group_bytes::HEAD + group_bytes::TABLE * room
}

// The layout's number; the number of members and of views made, in a list with this room; no mark past the views made.
fn numbers_fit(layout: u8, n: u8, made: u8, room: usize, marks: u64) -> bool
    requires { room ≤ max_views }
    ensures { result ≡ numbers_fit layout n made room marks }
{
    layout == sizes::LAYOUT
        && (1..=limits::MEMBERS).contains(&n)
        && (1..=room).contains(&(made as usize))
        && marks >> made == 0
}

// The list, the books and the queues, with so many views made.
fn records_sound(list: &[u8], books: &[u8], queues: &[u8], made: u8, n: u8) -> bool
    requires { (view_size * made ≤ length list.now) × (length books.now ≡ books_size)
        × (order_at made ≤ length queues.now) × (n ≤ max_members) }
    ensures { result ≡ records_sound (views_in list.now 0 made) n books.now
        queues.now }
{
    book_sound::views_at::sound(list, 0, made as usize, n)
        && crate::members::members_sound(list, books, queues, made, n)
        && crate::tables::tables_sound(list, queues, made, n)
}

// The ranges are a sound group.
pub fn sound(list: &[u8], books: &[u8], queues: &[u8]) -> bool
    ensures { result ≡ ranges_sound
        (record { list = list.entry.now; books = books.now; queues = queues.now }) }
{
    if !sizes_fit(list.len(), books.len(), queues.len()) {
        return false;
    }
    let n = books[book_bytes::MEMBERS];
    let made = queues[group_bytes::MADE];
    let marks = numbers::get_number(queues, group_bytes::MARKS, group_bytes::MARKS_SIZE);
    let layout = queues[group_bytes::LAYOUT];
    numbers_fit(layout, n, made, list.len() / group_bytes::VIEW, marks)
        && records_sound(list, books, queues, made, n)
}
