// A group's records in three lent ranges, the list, the books and the queues: where they stand. docs/LAYOUT.md has the
// tables.
#![tactic(auto)]

ghost use Rattle.std.specs.Prelude.{◌*◌, ◌+◌, ◌≤◌, true, ◌≡◌, length};
ghost use Rattle.views.specs.Sizes.{view_size};
ghost use Rattle.views.specs.Limits.{max_views, max_members};
ghost use Rattle.views.specs.Lists.{is_rising};
ghost use Rattle.wire.specs.Reader.{views_in};
ghost use Rattle.group_bytes.specs.Groups.{place_of};
ghost use Rattle.group_bytes.specs.Places.{order_at, waiting_at};

use views::{Member, ViewId, limits, sizes};

// Bytes of a view in the list, and of the eight books.
pub const VIEW: usize = sizes::VIEW;

pub const BOOKS: usize = book_bytes::SIZE * limits::MEMBERS as usize;

// In the queues: the number of views made, the marks of the views attempted and how many bytes they take, the number of
// the layout, and the bytes of the group before the first view's queues.
pub const MADE: usize = 0;

pub const MARKS: usize = 1;

pub const MARKS_SIZE: usize = 4;

pub const LAYOUT: usize = MARKS + MARKS_SIZE;

pub const HEAD: usize = 64;

// The bytes of a view's order, of what waits for a member in the view, a count and slots, and of all the view's queues.
pub const ORDER: usize = slots::order::SIZE;

pub const WAITING: usize = 1 + slots::SLOT * limits::WAITING as usize;

pub const TABLE: usize = ORDER + WAITING * limits::MEMBERS as usize;

// The place of the view with the identifier among n views that rise, n if there is none. The view with identifier g
// stands at place g or before it, since identifiers are natural numbers: it is sought downwards from there.
pub fn place(list: &[u8], n: u8, id: ViewId) -> u8
    requires { (view_size * n ≤ length list.now) × (is_rising (views_in list.now 0 n) ≡ true) }
    ensures { result ≡ place_of id.0 (views_in list.now 0 n) }
{
    let end = (id.0 as usize + 1).min(n as usize);
    for i in (0..end).rev() {
        if numbers::get_number(list, VIEW * i, sizes::IDENTIFIER) == id.0 as u64 {
            return i as u8;
        }
    }
    n
}

// Where the order of the view at a place stands.
pub fn order_at(i: u8) -> usize
    requires { i ≤ max_views }
    ensures { result ≡ order_at i }
{
    HEAD + TABLE * (i as usize)
}

// Where what waits there for a member stands.
pub fn waiting_at(i: u8, p: Member) -> usize
    requires { (i ≤ max_views) × (p.0 ≤ max_members) }
    ensures { result ≡ waiting_at i p.0 }
{
    HEAD + TABLE * (i as usize) + ORDER + WAITING * (p.0 as usize)
}
