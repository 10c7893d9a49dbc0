// A member's book in lent bytes: its small record, which is stepped by value, and its queues, which stay in the bytes.
#![tactic(auto)]

pub mod fresh;

ghost use Rattle.std.specs.Prelude.{◌+◌, ◌≤◌, ◌≡◌, length, take, drop};
ghost use Rattle.views.specs.Limits.{max_members, max_open};
ghost use Rattle.book_bytes.specs.Places.{seat_size, book_size, tolds_at};
ghost use Rattle.book_bytes.specs.Records.{seat_in, record_in, current_in, held_in, store_seat, store_seats};
ghost use Rattle.book_bytes.specs.Records.{store_counts, store_notes, store_opens, store_held, store_record};

use views::list::Views;
use views::{Position, View, limits, sizes};

// The small record of a book: what is held, the carrier and the client view with what is noted and counted in them.
#[derive(Clone, Copy)]
pub struct Record {
    pub settled: View,
    pub opens: Views,
    pub carrier: Option<View>,
    pub client: Option<View>,
    pub registered: bool,
    pub handed: Position,
    pub told: Position,
    pub reported: Position,
    pub taken: Position,
    pub infos: u8,
    pub registrations: u8,
    pub tolds: [u8; 8],
    // Which of the two inward lists is the client view's: 0 or 1. The other is the carrier view's while it is not
    // attempted.
    pub side: u8,
}

// The small record without the views held.
#[derive(Clone, Copy)]
pub struct Current {
    pub carrier: Option<View>,
    pub client: Option<View>,
    pub registered: bool,
    pub handed: Position,
    pub told: Position,
    pub reported: Position,
    pub taken: Position,
    pub infos: u8,
    pub registrations: u8,
    pub tolds: [u8; 8],
    pub side: u8,
}

// The views held.
#[derive(Clone, Copy)]
pub struct Held {
    pub settled: View,
    pub opens: Views,
}

// Bytes of a view or none: a mark, 1 or 0, then the view.
pub const SEAT: usize = 1 + sizes::VIEW;

// Where each thing stands, behind the one before it: docs/LAYOUT.md has the table.
pub const MEMBERS: usize = 0;

pub const SELF: usize = MEMBERS + 1;

pub const SETTLED: usize = SELF + 1;

pub const CARRIER: usize = SETTLED + sizes::VIEW;

pub const CLIENT: usize = CARRIER + SEAT;

pub const REGISTERED: usize = CLIENT + SEAT;

pub const HANDED: usize = REGISTERED + 1;

pub const TOLD: usize = HANDED + 1;

pub const REPORTED: usize = TOLD + 1;

pub const TAKEN: usize = REPORTED + 1;

pub const INFOS: usize = TAKEN + 1;

pub const REGISTRATIONS: usize = INFOS + 1;

pub const TOLDS: usize = REGISTRATIONS + 1;

pub const SIDE: usize = TOLDS + limits::MEMBERS as usize;

pub const OPENS: usize = SIDE + 1;

pub const OUTGOING: usize = OPENS + 1 + sizes::VIEW * limits::OPEN;

pub const INWARD: usize = OUTGOING + 1 + slots::SLOT * limits::OUTGOING as usize;

// The second inward list stands so far behind the first.
pub const APART: usize = slots::inward::SIZE;

pub const SIZE: usize = INWARD + APART * 2;

// A view or none at a place.
pub fn load_seat(b: &[u8], at: usize) -> Option<View>
    requires { at + seat_size ≤ length b.now }
    ensures { result ≡ seat_in b.now at }
{
    if b[at] == 1 {
        Some(wire::reader::load_view(b, at + 1))
    } else {
        None
    }
}

// The told counts received.
pub fn load_tolds(b: &[u8]) -> [u8; 8]
    requires { book_size ≤ length b.now }
    ensures { result ≡ take max_members (drop tolds_at b.now) }
{
    let mut tolds = [0; 8];
    tolds.copy_from_slice(&b[TOLDS..SIDE]);
    tolds
}

// The small record without the views held.
pub fn load_current(b: &[u8]) -> Current
    requires { book_size ≤ length b.now }
    ensures { result ≡ current_in b.now }
{
    Current {
        carrier: load_seat(b, CARRIER),
        client: load_seat(b, CLIENT),
        registered: b[REGISTERED] == 1,
        handed: Position(b[HANDED]),
        told: Position(b[TOLD]),
        reported: Position(b[REPORTED]),
        taken: Position(b[TAKEN]),
        infos: b[INFOS],
        registrations: b[REGISTRATIONS],
        tolds: load_tolds(b),
        side: b[SIDE],
    }
}

// The views held.
pub fn load_held(b: &[u8]) -> Held
    requires { book_size ≤ length b.now }
    ensures { result ≡ held_in b.now }
{
    let n = usize::from(b[OPENS]).min(limits::OPEN);
    Held {
        settled: wire::reader::load_view(b, SETTLED),
        opens: wire::reader::load_views(b, OPENS + 1, n),
    }
}

// The small record.
pub fn load(b: &[u8]) -> Record
    requires { book_size ≤ length b.now }
    ensures { result ≡ record_in b.now }
{
    let held = load_held(b);
    let h = load_current(b);
    // An array goes from one struct to another by a variable: the borrow checker does not cover the field straight.
    let tolds = h.tolds;
    Record {
        settled: held.settled,
        opens: held.opens,
        carrier: h.carrier,
        client: h.client,
        registered: h.registered,
        handed: h.handed,
        told: h.told,
        reported: h.reported,
        taken: h.taken,
        infos: h.infos,
        registrations: h.registrations,
        tolds,
        side: h.side,
    }
}

// A view or none is stored at a place; without one what is there stays.
pub fn store_seat(b: &mut [u8], at: usize, seat: Option<View>)
    requires { at + seat_size ≤ length b.old }
    ensures { b.new ≡ store_seat b.old at seat }
{
    match seat {
        Some(view) => {
            b[at] = 1;
            wire::writer::store_view(b, at + 1, view);
        }
        None => b[at] = 0,
    }
}

fn store_seats(b: &mut [u8], h: Record)
    requires { book_size ≤ length b.old }
    ensures { b.new ≡ store_seats b.old h }
{
    wire::writer::store_view(b, SETTLED, h.settled);
    store_seat(b, CARRIER, h.carrier);
    store_seat(b, CLIENT, h.client);
}

fn store_counts(b: &mut [u8], h: Record)
    requires { book_size ≤ length b.old }
    ensures { b.new ≡ store_counts b.old h }
{
    b[REGISTERED] = u8::from(h.registered);
    b[HANDED] = h.handed.0;
    b[TOLD] = h.told.0;
    b[REPORTED] = h.reported.0;
    b[TAKEN] = h.taken.0;
}

fn store_notes(b: &mut [u8], h: Record)
    requires { book_size ≤ length b.old }
    ensures { b.new ≡ store_notes b.old h }
{
    b[INFOS] = h.infos;
    b[REGISTRATIONS] = h.registrations;
    b[TOLDS..SIDE].copy_from_slice(&h.tolds);
    b[SIDE] = h.side;
}

// The open views are stored behind their count.
fn store_opens(b: &mut [u8], list: Views)
    requires { (book_size ≤ length b.old) × (list.count ≤ max_open) }
    ensures { b.new ≡ store_opens b.old list }
{
    b[OPENS] = list.count as u8;
    wire::writer::store_views(b, OPENS + 1, list, list.count);
}

// The views held are stored; all else stays as it is.
pub fn store_held(b: &mut [u8], h: Held)
    requires { (book_size ≤ length b.old) × (h.opens.count ≤ max_open) }
    ensures { b.new ≡ store_held b.old h }
{
    let Held { settled, opens } = h;
    wire::writer::store_view(b, SETTLED, settled);
    store_opens(b, opens);
}

// The small record is stored; the queues stay as they are.
pub fn store(b: &mut [u8], h: Record)
    requires { (book_size ≤ length b.old) × (h.opens.count ≤ max_open) }
    ensures { b.new ≡ store_record b.old h }
{
    store_seats(b, h);
    store_counts(b, h);
    store_notes(b, h);
    store_opens(b, h.opens);
}
