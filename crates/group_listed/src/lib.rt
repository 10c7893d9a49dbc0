// The whole group with its list as a slice of records, the books and the queues as lent bytes: its start, and one step
// of any kind. The list is taken by value and put to the group as bytes; what a step or a start does to it is put back.
#![tactic(auto)]

pub mod list;
mod slice;

ghost use Rattle.std.specs.Prelude.{◌≡◌, length, take};
ghost use Rattle.group_listed.specs.Parts.{bytes_in, next_of, view_or, SteppedBy, from_of, BegunBy};
ghost use Rattle.group_listed.specs.Calls.{Went, Began};
ghost use Rattle.group.specs.StepCalls.{asked};

use events::Reply;
use views::list::Views;
use views::refusal::Verdict;
use views::{View, ViewId, limits};

// Bytes of one view record more than a group can have.
const BYTES: usize = group_bytes::VIEW * (limits::VIEWS + 1);

// What a step gives, and the view at the place of the list that it may have filled.
#[derive(Clone, Copy)]
pub struct Stepped {
    pub reply: Reply,
    pub at: usize,
    pub view: View,
}

// What a start gives, and the place of the list from which on it begins with a view.
#[derive(Clone, Copy)]
pub struct Begun {
    pub verdict: Verdict,
    pub at: usize,
    pub view: View,
}

// The list's bytes, and behind them what they need not fill.
fn spread(l: Views) -> [u8; BYTES]
    ensures { take (length (bytes_in l)) result ≡ bytes_in l }
{
    let mut bytes = [0u8; BYTES];
    let n = views::list::used(l.count);
    wire::writer::store_views(&mut bytes, 0, l, n);
    bytes
}

// How many of those bytes are put to the group.
fn long(l: Views) -> usize
    ensures { result ≡ length (bytes_in l) }
{
    if limits::VIEWS < l.count {
        BYTES
    } else {
        group_bytes::VIEW * l.count
    }
}

// The place behind the views made; past the end of a list that is too long for a group.
fn next(n: usize, queues: &[u8]) -> usize
    ensures { result ≡ next_of n queues.now }
{
    if limits::VIEWS < n {
        return n;
    }
    queues
        .get(group_bytes::MADE)
        .map_or(0, |made| *made as usize)
}

// The view at a place of the list's bytes, none past the last.
fn view_in(bytes: &[u8], i: usize) -> View
    ensures { result ≡ view_or bytes.now i }
{
    if bytes.len() / group_bytes::VIEW <= i {
        return slice::NONE;
    }
    wire::reader::load_view(bytes, group_bytes::VIEW * i)
}

// One step, with the list by value.
fn step_by(
    l: Views,
    books: &mut [u8],
    queues: &mut [u8],
    kind: u8,
    first: u32,
    second: u64,
) -> Stepped
    ensures { SteppedBy l books.old queues.old (asked kind first second)
        books.new queues.new result }
{
    let at = next(l.count, queues);
    let mut bytes = spread(l);
    let e = long(l);
    let reply = group::step::step(&mut bytes[..e], books, queues, kind, first, second);
    let view = view_in(&bytes[..e], at);
    Stepped { reply, at, view }
}

// Where a start lays the list from: past every place where it was refused.
fn from(v: Verdict) -> usize
    ensures { result ≡ from_of v }
{
    match v {
        Ok(()) => 0,
        Err(_) => limits::VIEWS,
    }
}

// A start, with the list by value.
fn start_by(l: Views, books: &mut [u8], queues: &mut [u8], members: u8, first: u8) -> Begun
    ensures { BegunBy l books.old queues.old members first books.new
        queues.new result }
{
    let mut bytes = spread(l);
    let e = long(l);
    let verdict = group::start::start(&mut bytes[..e], books, queues, members, first);
    let at = from(verdict);
    let view = View {
        id: ViewId(0),
        set: first,
    };
    Begun { verdict, at, view }
}

// One step of any kind number and any operands, put to any list, books and queues.
pub fn step(
    list: &mut [View],
    books: &mut [u8],
    queues: &mut [u8],
    kind: u8,
    first: u32,
    second: u64,
) -> Reply
    ensures { Went list.old books.old queues.old (asked kind first second)
        list.new books.new queues.new result }
{
    let l = slice::listed(list);
    let s = step_by(l, books, queues, kind, first, second);
    slice::put(list, s.at, s.view);
    s.reply
}

// A group of so many members with a first view begins.
pub fn start(
    list: &mut [View],
    books: &mut [u8],
    queues: &mut [u8],
    members: u8,
    first: u8,
) -> Verdict
    ensures { Began list.old books.old queues.old members first
        list.new books.new queues.new result }
{
    let l = slice::listed(list);
    let s = start_by(l, books, queues, members, first);
    slice::lay(list, s.at, s.view);
    s.verdict
}
