// A message's record, in lent bytes: the C interface gives out and takes messages in it.
ghost use Rattle.std.specs.Prelude.{◌≡◌, true, ◌++◌, ◌+◌, ◌*◌, ◌≤◌, length, get_or, take};
ghost use Rattle.views.specs.Limits.{max_views};
ghost use Rattle.views.specs.Sizes.{view_size};
ghost use Rattle.views.specs.Lists.{places};
ghost use Rattle.views.specs.Refusals.{verdict_given};
ghost use Rattle.wire.specs.Format.{is_known, views_bytes};
ghost use Rattle.wire.specs.Reader.{views_in, frame_in, scan_of, whole_of, read_front, front_of};
ghost use Rattle.wire.specs.Single.{read_one};
ghost use Rattle.wire.specs.Writer.{overwritten, frame_verdict, Wrote};
ghost use Rattle.wire.specs.Records.{record_kind, record_views, record_size, head_bytes, record_bytes};
ghost use Rattle.wire.specs.Records.{frame_of, reading_bytes};

use crate::{format, in_bytes, reader, single, writer};
use views::refusal::{Refusal, Verdict};
use views::{ViewId, limits, sizes};

// Where the parts of a message's record stand: its kind, the identifier of the view sent in, its number, the count of
// its views, and the views.
pub const KIND: usize = 0;

pub const VIEW: usize = KIND + 1;

pub const NUMBER: usize = VIEW + sizes::IDENTIFIER;

pub const COUNT: usize = NUMBER + sizes::NUMBER;

pub const VIEWS: usize = COUNT + 1;

// Bytes of a message's record.
pub const RECORD: usize = VIEWS + sizes::VIEW * limits::VIEWS;

// The kind, the identifier of the view sent in, the number and the count of views.
fn put_head(out: &mut [u8], kind: u8, g: u64, x: u64, n: usize)
    requires { length out.old ≡ record_size }
    ensures { out.new ≡ overwritten (head_bytes kind g x n) out.old }
{
    out[KIND] = kind;
    numbers::put_number(out, VIEW, sizes::IDENTIFIER, g);
    numbers::put_number(out, NUMBER, sizes::NUMBER, x);
    numbers::put_number(out, COUNT, 1, n as u64);
}

// All 32 places of views: n views, which lie in other bytes, as they stand, and 0 behind them.
fn put_views(out: &mut [u8], from: &[u8], at: usize, n: usize)
    requires { (length out.old ≡ record_size) × (n ≤ max_views) × (at + view_size * n ≤ length from.now) }
    ensures { out.new
        ≡ take record_views out.old ++ views_bytes (places (views_in from.now at n)) }
{
    let end = VIEWS + sizes::VIEW * n;
    writer::copy(out, VIEWS, from, at, sizes::VIEW * n);
    writer::clear(&mut out[end..RECORD]);
}

// The record of the message at the front of the bytes.
fn store(out: &mut [u8], bytes: &[u8])
    requires { (length out.old ≡ record_size) × (scan_of bytes.now ≡ Ok tt) × (whole_of bytes.now ≡ Ok tt) }
    ensures { out.new ≡ record_bytes (frame_in bytes.now) }
{
    let g = numbers::get_number(bytes, format::IDENTIFIER_AT, sizes::IDENTIFIER);
    let x = reader::load_number(bytes);
    let n = bytes[format::COUNT_AT] as usize;
    put_head(out, bytes[0], g, x, n);
    put_views(out, bytes, format::VIEWS_AT, n);
}

// The message at the front of the bytes is read into the record; how many bytes it took.
pub fn read_front(bytes: &[u8], out: &mut [u8]) -> Result<usize, Refusal>
    requires { length out.old ≡ record_size }
    ensures { (result ≡ front_of bytes.now) × (out.new
        ≡ reading_bytes (read_front bytes.now) out.old) }
{
    let taken = reader::front(bytes)?;
    store(out, bytes);
    Ok(taken)
}

// One message, which the bytes must be as a whole, is read into the record.
pub fn read(bytes: &[u8], out: &mut [u8]) -> Verdict
    requires { length out.old ≡ record_size }
    ensures { (result ≡ verdict_given (read_one bytes.now)) × (out.new
        ≡ reading_bytes (read_one bytes.now) out.old) }
{
    single::verdict(bytes)?;
    store(out, bytes);
    Ok(())
}

// The message of a record of a known kind can be written: 34 to 37, asked of the record where it lies.
fn check(message: &[u8]) -> Verdict
    requires { (length message.now ≡ record_size) × (is_known (get_or message.now record_kind 0) ≡ true) }
    ensures { result ≡ frame_verdict (frame_of message.now) }
{
    let kind = message[KIND];
    let n = message[COUNT] as usize;
    if !format::views_allowed(kind, n) {
        return Err(Refusal::SectionCount);
    }
    if in_bytes::some_empty(message, VIEWS, n) {
        return Err(Refusal::EmptySet);
    }
    if !in_bytes::rising(message, VIEWS, n) {
        return Err(Refusal::NotRising);
    }
    if kind != format::TOLD {
        return Ok(());
    }
    if !in_bytes::told_fits(message, NUMBER) {
        return Err(Refusal::ToldOutOfRange);
    }
    Ok(())
}

// The message of a record of a known kind is written to the front of the buffer.
pub fn write(message: &[u8], out: &mut [u8]) -> Result<usize, Refusal>
    requires { (length message.now ≡ record_size) × (is_known (get_or message.now record_kind 0) ≡ true) }
    ensures { Wrote (frame_of message.now) out.old out.new result }
{
    check(message)?;
    let g = numbers::get_number(message, VIEW, sizes::IDENTIFIER);
    let x = numbers::get_number(message, NUMBER, sizes::NUMBER);
    let m = format::message(message[KIND], x);
    writer::write_from(
        out,
        ViewId(g as u32),
        m,
        message,
        NUMBER,
        VIEWS,
        message[COUNT] as usize,
    )
}
