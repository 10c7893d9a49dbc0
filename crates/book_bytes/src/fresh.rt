// The bytes of a fresh member's book, as a start leaves them.
ghost use Rattle.std.specs.Prelude.{◌≡◌, length, replicate, set, ◌≤◌};
ghost use Rattle.book_bytes.specs.Starts.{fresh_record, start_bytes};
ghost use Rattle.book_bytes.specs.Places.{members_at, self_at, book_size};

use crate::Record;
use views::list::Views;
use views::{Member, Position, View, ViewId, limits};

// The record of the member `own` of a group that has the first view alone.
pub fn record(set: u8, own: Member) -> Record
    ensures { result ≡ fresh_record set own.0 }
{
    let there = sets::contains(set, own);
    let view = View { id: ViewId(0), set };
    let seat = if there { Some(view) } else { None };
    let none = View {
        id: ViewId(0),
        set: 0,
    };
    let opens = Views {
        count: 0,
        at: [none; limits::VIEWS],
    };
    Record {
        settled: view,
        opens,
        carrier: seat,
        client: seat,
        registered: there,
        handed: Position(0),
        told: Position(0),
        reported: Position(0),
        taken: Position(0),
        infos: 0,
        registrations: 0,
        tolds: [0; 8],
        side: 0,
    }
}

// The number of members and the own number.
fn put_numbers(b: &mut [u8], members: u8, own: Member)
    requires { book_size ≤ length b.old }
    ensures { b.new ≡ set (set b.old members_at members) self_at own.0 }
{
    b[crate::MEMBERS] = members;
    b[crate::SELF] = own.0;
}

// The bytes of a fresh member.
pub fn book(b: &mut [u8], members: u8, set: u8, own: Member)
    requires { book_size ≤ length b.old }
    ensures { b.new ≡ start_bytes members set own.0 b.old }
{
    wire::writer::clear(b);
    put_numbers(b, members, own);
    // Where the member is not in the first view, its places have the view all the same.
    let view = View { id: ViewId(0), set };
    wire::writer::store_view(b, crate::CARRIER + 1, view);
    wire::writer::store_view(b, crate::CLIENT + 1, view);
    crate::store(b, record(set, own));
}
