// Runs the whole group over lines of standard input, with a list of as many view records as the script says, and writes
// an answer to each; tests/reference/group_script.py says what the lines mean. A number too large for its place is cut.
#![tactic(auto)]

mod desk;
mod listed;
mod run;
mod word;

use crate::desk::Desk;
use crate::word::Word;
use std::io;
use views::{ViewId, limits};

// How many bytes of standard input are read.
const INPUT: usize = 1048576;

// The queues of the longest list.
pub const QUEUES: usize = group_bytes::HEAD + group_bytes::TABLE * limits::VIEWS;

fn main(rt: HostRuntime) -> io::Result<()> {
    let mut input = [0u8; INPUT];
    let mut books = [0u8; group_bytes::BOOKS];
    let mut queues = [0u8; QUEUES];
    table(&rt, &mut input, &mut books, &mut queues)
}

fn table(
    rt: &(impl Input + Print),
    input: &mut [u8; INPUT],
    books: &mut [u8; group_bytes::BOOKS],
    queues: &mut [u8; QUEUES],
) -> io::Result<()> {
    read(rt, input, books, queues)
}

fn read(
    rt: &(impl Input + Print),
    input: &mut [u8],
    books: &mut [u8],
    queues: &mut [u8],
) -> io::Result<()> {
    let n = test_script::input::read_full(rt, input)?;
    lines(rt, &input[..n], books, queues)
}

// One answer to each line.
fn lines(rt: &impl Print, s: &[u8], books: &mut [u8], queues: &mut [u8]) -> io::Result<()> {
    let mut d = crate::desk::fresh();
    for line in s.split_inclusive(|c| *c == b'\n') {
        d = answer(
            rt,
            line.strip_suffix(b"\n").unwrap_or(line),
            books,
            queues,
            d,
        )?;
    }
    Ok(())
}

fn answer(
    rt: &impl Print,
    line: &[u8],
    books: &mut [u8],
    queues: &mut [u8],
    d: Desk,
) -> io::Result<Desk> {
    let w = crate::word::of(line);
    match w {
        Word::Unknown => {
            test_script::show::unreadable(rt)?;
            Ok(d)
        }
        Word::Comment => {
            test_script::reply::same(rt, line)?;
            Ok(d)
        }
        Word::Lend => {
            test_script::reply::ok(rt)?;
            Ok(crate::desk::lend(d, line))
        }
        Word::List => {
            crate::desk::show(rt, d)?;
            Ok(d)
        }
        Word::Group => start(rt, line, books, queues, d),
        Word::Step => step(rt, line, books, queues, d),
        Word::Put => {
            test_script::reply::ok(rt)?;
            Ok(crate::desk::put(d, line))
        }
        Word::Create => create(rt, line, d),
        Word::Lookup => {
            lookup(rt, line, d)?;
            Ok(d)
        }
        Word::Run => {
            crate::run::run(rt, line, crate::desk::room(d))?;
            Ok(d)
        }
    }
}

// A group of so many members with a first set.
fn start(
    rt: &impl Print,
    line: &[u8],
    books: &mut [u8],
    queues: &mut [u8],
    d: Desk,
) -> io::Result<Desk> {
    let room = crate::desk::room(d);
    let f = crate::run::queues_lent(queues, room);
    let members = test_script::operand::byte(line, 1);
    let first = test_script::operand::byte(line, 2);
    let list = d.list;
    let r = crate::listed::start(list, room, books, &mut queues[..f], members, first);
    let v = r.verdict;
    test_script::reply::reply(rt, group::step::plain(v))?;
    let after = r.list;
    Ok(crate::desk::with_list(d, after))
}

// A step of any kind number and operands.
fn step(
    rt: &impl Print,
    line: &[u8],
    books: &mut [u8],
    queues: &mut [u8],
    d: Desk,
) -> io::Result<Desk> {
    let room = crate::desk::room(d);
    let f = crate::run::queues_lent(queues, room);
    let kind = test_script::operand::byte(line, 1);
    let first = test_script::operand::identifier(line, 2);
    let second = test_script::parse::number(line, 3);
    let list = d.list;
    let r = crate::listed::step(list, room, books, &mut queues[..f], kind, first, second);
    let x = r.reply;
    test_script::reply::reply(rt, x)?;
    let after = r.list;
    Ok(crate::desk::with_list(d, after))
}

// A create of the list by itself.
fn create(rt: &impl Print, line: &[u8], d: Desk) -> io::Result<Desk> {
    let made = test_script::operand::byte(line, 1) as usize;
    let id = ViewId(test_script::operand::identifier(line, 2));
    let set = test_script::operand::byte(line, 3);
    let members = test_script::operand::byte(line, 4);
    let list = d.list;
    let r = crate::listed::create(list, crate::desk::room(d), made, id, set, members);
    let v = r.verdict;
    test_script::reply::reply(rt, group::step::plain(v))?;
    let after = r.list;
    Ok(crate::desk::with_list(d, after))
}

// A lookup in the list by itself: the view that is found.
fn lookup(rt: &impl Print, line: &[u8], d: Desk) -> io::Result<()> {
    let made = test_script::operand::byte(line, 1) as usize;
    let id = ViewId(test_script::operand::identifier(line, 2));
    let list = d.list;
    let l = crate::listed::lookup(list, crate::desk::room(d), made, id);
    match l {
        Some(v) => crate::desk::found(rt, v)?,
        None => {
            rt.write_all(b"missing")?;
        }
    }
    test_script::show::end(rt)
}
