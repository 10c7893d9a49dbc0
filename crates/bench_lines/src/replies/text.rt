// Replies as bytes, put together in a scratch text: what counts of it is its first bytes, as many as were put so far.
ghost use Rattle.std.specs.Prelude.{◌≤◌, length};
ghost use Rattle.bench_lines.specs.TextParts.{Put};
ghost use Rattle.bench_lines.specs.ReplyLines.{spoken, event_line, reply_line, longest_reply, Wrote};
ghost use Rattle.bench_lines.specs.Promises.{Sized};

use crate::texts::numerals::put_number;
use crate::texts::{put, words};
use events::{Event, Reply};
use views::refusal::Refusal;

// Room for a word of 8 bytes, four numbers of 20 digits, the spaces between them, and the byte that ends the line.
pub const ROOM: usize = 93;

// A word, numbers with a space before each, and the byte that ends the line.
fn put_spoken(text: &mut [u8], word: &[u8], numbers: &[u64]) -> usize
    requires { (length word.now ≤ 8) × (length numbers.now ≤ 4) × (93 ≤ length text.old) }
    ensures { Put (spoken word.now numbers.now) text.old 0 text.new
        result }
{
    let mut at = put(text, 0, word);
    for x in numbers {
        text[at] = words::SPACE;
        at = put_number(text, at + 1, *x);
    }
    text[at] = words::LINE_FEED;
    at + 1
}

// The line of an outward event. Its numbers are within their types.
fn put_event(text: &mut [u8], e: Event) -> usize
    requires { 93 ≤ length text.old }
    ensures line { Put (event_line e) text.old 0 text.new result }
    ensures sized { Sized e }
{
    match e {
        Event::Attempt(p, v) => put_spoken(
            text,
            b"attempt",
            &[p.0 as u64, v.id.0 as u64, v.set as u64],
        ),
        Event::Register(p, g) => put_spoken(text, b"register", &[p.0 as u64, g.0 as u64]),
        Event::Send(p, g, x) => put_spoken(text, b"send", &[p.0 as u64, g.0 as u64, x]),
        Event::Hand(p, g, x) => put_spoken(
            text,
            b"hand",
            &[p.0 as u64, g.0 as u64, x.sender.0 as u64, x.entry],
        ),
        Event::Safe(p, g, x) => put_spoken(
            text,
            b"safe",
            &[p.0 as u64, g.0 as u64, x.sender.0 as u64, x.entry],
        ),
    }
}

// The line of a reply: its event, `ok` where an accepted step has none, or the refusal's number. No line is longer than
// the longest.
pub fn put_reply(text: &mut [u8], r: Reply) -> usize
    requires { 93 ≤ length text.old }
    ensures line { Put (reply_line r) text.old 0 text.new result }
    ensures fits { length (reply_line r) ≤ longest_reply }
{
    match r {
        Ok(Some(e)) => put_event(text, e),
        Ok(None) => put(text, 0, b"ok\n"),
        Err(x) => put_spoken(text, b"refused", &[x.number() as u64]),
    }
}

// The line goes to the front of a buffer that has room for it.
pub fn put_front(out: &mut [u8], line: &[u8]) -> Result<usize, Refusal>
    ensures { Wrote line.now out.old out.new result }
{
    if out.len() < line.len() {
        return Err(Refusal::BufferTooShort);
    }
    Ok(put(out, 0, line))
}
