// The reader, over any bytes of any length: the message at their front, and how many it took.
ghost use Rattle.std.specs.Prelude.{◌≡◌, ◌+◌, ◌*◌, ◌≤◌, length};
ghost use Rattle.views.specs.Sizes.{view_size};
ghost use Rattle.views.specs.Limits.{max_views};
ghost use Rattle.views.specs.Lists.{placed};
ghost use Rattle.wire.specs.Reader.{kind_in, view_in, views_in, number_in, message_of, frame_in, scan_of, whole_of};
ghost use Rattle.wire.specs.Reader.{read_front, front_of};

use crate::{Frame, Message, NO_VIEW, Reading, format, in_bytes};
use views::list::Views;
use views::refusal::{Refusal, Verdict};
use views::{View, ViewId, limits, sizes};

// The bytes have the shape of a message: 32 to 34 as the bytes come.
pub fn scan(b: &[u8]) -> Verdict
    ensures { result ≡ scan_of b.now }
{
    let size = b.len();
    if size < 1 {
        return Err(Refusal::EndsEarly);
    }
    let kind = b[0];
    if !format::known(kind) {
        return Err(Refusal::UnknownKind);
    }
    if size < format::VIEWS_AT {
        return Err(Refusal::EndsEarly);
    }
    let n = b[format::COUNT_AT] as usize;
    if !format::views_allowed(kind, n) {
        return Err(Refusal::SectionCount);
    }
    let at = format::VIEWS_AT + sizes::VIEW * n;
    if size < at + 1 {
        return Err(Refusal::EndsEarly);
    }
    let m = b[at] as usize;
    if !format::numbers_allowed(kind, m) {
        return Err(Refusal::SectionCount);
    }
    if size < at + 1 + sizes::NUMBER * m {
        return Err(Refusal::EndsEarly);
    }
    Ok(())
}

// The view at a place.
pub fn load_view(b: &[u8], at: usize) -> View
    requires { at + view_size ≤ length b.now }
    ensures { result ≡ view_in b.now at }
{
    View {
        id: ViewId(numbers::get_number(b, at, sizes::IDENTIFIER) as u32),
        set: b[at + sizes::IDENTIFIER],
    }
}

// The n views from a place on.
pub fn load_views(b: &[u8], from: usize, n: usize) -> Views
    requires { (from + view_size * n ≤ length b.now) × (n ≤ max_views) }
    ensures { result ≡ placed (views_in b.now from n) }
{
    let mut at = [NO_VIEW; limits::VIEWS];
    for i in 0..n {
        at[i] = load_view(b, from + sizes::VIEW * i);
    }
    Views { count: n, at }
}

// 35 to 37 of bytes that have the shape of a message. A told carries no views, so its count stands at one place.
fn whole(b: &[u8]) -> Verdict
    requires { scan_of b.now ≡ Ok tt }
    ensures { result ≡ whole_of b.now }
{
    let n = b[format::COUNT_AT] as usize;
    if in_bytes::some_empty(b, format::VIEWS_AT, n) {
        return Err(Refusal::EmptySet);
    }
    if !in_bytes::rising(b, format::VIEWS_AT, n) {
        return Err(Refusal::NotRising);
    }
    if b[0] != format::TOLD {
        return Ok(());
    }
    if !in_bytes::told_fits(b, format::SHORTEST) {
        return Err(Refusal::ToldOutOfRange);
    }
    Ok(())
}

// How many bytes the message at the front of the bytes takes. Nothing is built.
pub fn front(b: &[u8]) -> Result<usize, Refusal>
    ensures { result ≡ front_of b.now }
{
    scan(b)?;
    whole(b)?;
    let at = format::VIEWS_AT + sizes::VIEW * (b[format::COUNT_AT] as usize);
    Ok(at + 1 + sizes::NUMBER * (b[at] as usize))
}

// The number that the message carries, 0 for none.
pub fn load_number(b: &[u8]) -> u64
    requires { scan_of b.now ≡ Ok tt }
    ensures { result ≡ number_in b.now }
{
    let at = format::VIEWS_AT + sizes::VIEW * (b[format::COUNT_AT] as usize);
    if b[at] == 0 {
        0
    } else {
        numbers::get_number(b, at + 1, sizes::NUMBER)
    }
}

// The message that bytes hold, without its views.
pub fn load_message(b: &[u8]) -> Message
    requires { scan_of b.now ≡ Ok tt }
    ensures { result ≡ message_of (kind_in b.now) (number_in b.now) }
{
    format::message(b[0], load_number(b))
}

// The frame that bytes hold.
fn load_frame(b: &[u8]) -> Frame
    requires { scan_of b.now ≡ Ok tt }
    ensures { result ≡ frame_in b.now }
{
    Frame {
        view: ViewId(numbers::get_number(b, format::IDENTIFIER_AT, sizes::IDENTIFIER) as u32),
        message: load_message(b),
        views: load_views(b, format::VIEWS_AT, b[format::COUNT_AT] as usize),
    }
}

// The message at the front of the bytes, and how many bytes it took.
pub fn read_front(b: &[u8]) -> Result<Reading, Refusal>
    ensures { result ≡ read_front b.now }
{
    let taken = front(b)?;
    Ok(Reading {
        taken,
        frame: load_frame(b),
    })
}
