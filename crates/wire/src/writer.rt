// The writer, of any frame into any lent buffer.
ghost use Rattle.std.specs.Prelude.{◌≡◌, ◌++◌, [], ◌∷◌, ◌+◌, ◌*◌, ◌≤◌, length, take, drop, replicate};
ghost use Rattle.std.proofs.Math.Seq.{paste};
ghost use Rattle.views.specs.Limits.{max_views};
ghost use Rattle.views.specs.Sizes.{view_size, identifier_size, number_size};
ghost use Rattle.numbers.specs.Number.{digits};
ghost use Rattle.wire.specs.Writer.{frame_verdict, overwritten, frame_bytes, frame_from, LiesAt};
ghost use Rattle.wire.specs.Writer.{Wrote, store_view};
ghost use Rattle.wire.specs.Format.{views_bytes, numbers_of, numbers_bytes, bytes_of};
ghost use Rattle.wire.specs.Reader.{views_at, views_in, shortest};

use crate::{Frame, Message, format};
use views::list::Views;
use views::refusal::{Refusal, Verdict};
use views::{View, ViewId, sizes};

// The frame can be written: 34 to 37.
pub fn check(f: Frame) -> Verdict
    ensures { result ≡ frame_verdict f }
{
    let m = f.message;
    let list = f.views;
    let kind = format::kind(m);
    if !format::views_allowed(kind, list.count) {
        return Err(Refusal::SectionCount);
    }
    format::content(kind, list, format::number(m))
}

// The first n views of the list are stored from a place on.
pub fn store_views(b: &mut [u8], from: usize, list: Views, n: usize)
    requires { (from + view_size * n ≤ length b.old) × (n ≤ max_views) }
    ensures { b.new ≡ take from b.old
        ++ (views_bytes (take n list.at) ++ drop (from + view_size * n) b.old) }
{
    for (i, v) in list.at[..n].iter().enumerate() {
        store_view(b, from + sizes::VIEW * i, *v);
    }
}

// The front of a message: its kind, the identifier of the view sent in, the count of views.
fn store_front(b: &mut [u8], kind: u8, view: ViewId, n: usize)
    requires { (views_at ≤ length b.old) × (n ≤ max_views) }
    ensures { b.new
        ≡ overwritten ((kind ∷ digits identifier_size view.0) ++ (n ∷ [])) b.old }
{
    b[0] = kind;
    numbers::put_number(b, format::IDENTIFIER_AT, sizes::IDENTIFIER, view.0 as u64);
    b[format::COUNT_AT] = n as u8;
}

// How many numbers the message carries.
fn numbers_in(m: Message) -> u8
    ensures { result ≡ length (numbers_of m) }
{
    match m {
        Message::Client(_) | Message::Told(_) => 1,
        Message::Info | Message::Registered => 0,
    }
}

// The section of numbers is stored at a place.
fn store_numbers(b: &mut [u8], at: usize, m: Message)
    requires { at + 1 + number_size * length (numbers_of m) ≤ length b.old }
    ensures { b.new ≡ take at b.old
        ++ ((length (numbers_of m) ∷ numbers_bytes (numbers_of m))
        ++ drop (at + (1 + number_size * length (numbers_of m))) b.old) }
{
    let count = numbers_in(m);
    b[at] = count;
    if count != 0 {
        numbers::put_number(b, at + 1, sizes::NUMBER, format::number(m));
    }
}

// The frame's bytes are stored at the front of a buffer that has room for them.
fn store_frame(b: &mut [u8], f: Frame)
    requires { (shortest + view_size * f.views.count + number_size * length (numbers_of f.message)
        ≤ length b.old) × (f.views.count ≤ max_views) }
    ensures { b.new ≡ overwritten (frame_bytes f) b.old }
{
    let n = f.views.count;
    store_front(b, format::kind(f.message), f.view, n);
    store_views(b, format::VIEWS_AT, f.views, n);
    store_numbers(b, format::VIEWS_AT + sizes::VIEW * n, f.message);
}

// The frame's bytes are written to the front of the buffer.
pub fn write(b: &mut [u8], f: Frame) -> Result<usize, Refusal>
    ensures { Wrote f b.old b.new result }
{
    check(f)?;
    let size = format::SHORTEST
        + sizes::VIEW * f.views.count
        + sizes::NUMBER * (numbers_in(f.message) as usize);
    if b.len() < size {
        return Err(Refusal::BufferTooShort);
    }
    store_frame(b, f);
    Ok(size)
}

// A view is stored at a place.
pub fn store_view(b: &mut [u8], at: usize, v: View)
    requires { at + view_size ≤ length b.old }
    ensures { b.new ≡ store_view b.old at v }
{
    numbers::put_number(b, at, sizes::IDENTIFIER, v.id.0 as u64);
    b[at + sizes::IDENTIFIER] = v.set;
}

// The n bytes of another range at a place are copied to `to`. Most messages have no views, and to copy none would be a
// call all the same.
pub fn copy(out: &mut [u8], to: usize, from: &[u8], at: usize, n: usize)
    requires { (to + n ≤ length out.old) × (at + n ≤ length from.now) }
    ensures { out.new ≡ paste out.old to (drop at from.now) n }
{
    if n != 0 {
        out[to..to + n].copy_from_slice(&from[at..at + n]);
    }
}

// Every byte is 0.
pub fn clear(b: &mut [u8])
    ensures { b.new ≡ replicate (length b.old) 0 }
{
    b.fill(0);
}

// The section of numbers is stored at a place; the number lies in other bytes, and is copied as it stands.
fn copy_numbers(out: &mut [u8], to: usize, m: Message, from: &[u8], number: usize)
    requires { (to + 1 + number_size * length (numbers_of m) ≤ length out.old)
        × (number + number_size ≤ length from.now) × LiesAt m from.now number }
    ensures { out.new ≡ take to out.old
        ++ ((length (numbers_of m) ∷ numbers_bytes (numbers_of m))
        ++ drop (to + (1 + number_size * length (numbers_of m))) out.old) }
{
    let many = numbers_in(m);
    out[to] = many;
    if many != 0 {
        copy(out, to + 1, from, number, sizes::NUMBER);
    }
}

// The bytes of a message, whose number and n views lie in other bytes, are stored at the front of a buffer that has
// room for them.
fn store_from(
    out: &mut [u8],
    view: ViewId,
    m: Message,
    from: &[u8],
    number: usize,
    at: usize,
    n: usize,
)
    requires { (shortest + view_size * n + number_size * length (numbers_of m) ≤ length out.old) × (n ≤ max_views)
        × (number + number_size ≤ length from.now) × LiesAt m from.now number
        × (at + view_size * n ≤ length from.now) }
    ensures { out.new
        ≡ overwritten (bytes_of view.0 m (views_in from.now at n)) out.old }
{
    store_front(out, format::kind(m), view, n);
    copy(out, format::VIEWS_AT, from, at, sizes::VIEW * n);
    copy_numbers(out, format::VIEWS_AT + sizes::VIEW * n, m, from, number);
}

// A message that can be written, whose number and n views lie in other bytes, is written to the front of the buffer.
pub fn write_from(
    out: &mut [u8],
    view: ViewId,
    m: Message,
    from: &[u8],
    number: usize,
    at: usize,
    n: usize,
) -> Result<usize, Refusal>
    requires { (number + number_size ≤ length from.now) × LiesAt m from.now number
        × (at + view_size * n ≤ length from.now)
        × (frame_verdict (frame_from view m from.now at n) ≡ Ok tt) }
    ensures { Wrote (frame_from view m from.now at n) out.old out.new result }
{
    let length = format::SHORTEST + sizes::VIEW * n + sizes::NUMBER * (numbers_in(m) as usize);
    if out.len() < length {
        return Err(Refusal::BufferTooShort);
    }
    store_from(out, view, m, from, number, at, n);
    Ok(length)
}
