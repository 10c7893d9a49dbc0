// Runs the member by itself over lines of standard input, and writes an answer to each. There are four books, 0 to 3;
// tests/reference/member_script.py says what the lines mean. A number that is too large for its place is cut.
#![tactic(auto)]

mod call;
mod desk;
mod show;
mod word;

ghost use Rattle.std.specs.Prelude.{◌≡◌, length, set, ◌+◌, ◌-◌, ◌*◌, ◌<◌, min};
ghost use Rattle.test_script.specs.ParseParts.{word_number};
ghost use Rattle.test_stories.specs.DeskParts.{room};
ghost use Rattle.test_script.specs.OperandParts.{byte_word};

use crate::desk::{BOOKS, Desk, ROOM, SLIP};
use crate::word::Word;
use std::io;
use views::Member;

// How many bytes of standard input are read.
const INPUT: usize = 1048576;

fn main(rt: HostRuntime) -> io::Result<()> {
    let mut input = [0u8; INPUT];
    let mut books = [0u8; BOOKS * ROOM];
    let mut slips = [0u8; BOOKS * SLIP];
    table(&rt, &mut input, &mut books, &mut slips)
}

// The books lie behind each other, and so do the slips: what each book last passed.
fn table(
    rt: &(impl Input + Print),
    input: &mut [u8; INPUT],
    books: &mut [u8; BOOKS * ROOM],
    slips: &mut [u8; BOOKS * SLIP],
) -> io::Result<()> {
    run(rt, input, books, slips)
}

fn run(
    rt: &(impl Input + Print),
    input: &mut [u8],
    books: &mut [u8],
    slips: &mut [u8],
) -> io::Result<()>
    requires books_len { length books.old ≡ 20960 }
    requires slips_len { length slips.old ≡ 800 }
{
    let n = test_script::input::read_full(rt, input)?;
    lines(rt, &input[..n], books, slips)
}

// One answer to each line.
fn lines(rt: &impl Print, s: &[u8], books: &mut [u8], slips: &mut [u8]) -> io::Result<()>
    requires books_len { length books.old ≡ 20960 }
    requires slips_len { length slips.old ≡ 800 }
{
    let mut d = crate::desk::fresh();
    for line in s.split_inclusive(|c| *c == b'\n') {
        d = answer(
            rt,
            line.strip_suffix(b"\n").unwrap_or(line),
            books,
            slips,
            d,
        )?;
    }
    Ok(())
}

fn answer(
    rt: &impl Print,
    line: &[u8],
    books: &mut [u8],
    slips: &mut [u8],
    d: Desk,
) -> io::Result<Desk>
    requires books_len { length books.old ≡ 20960 }
    requires slips_len { length slips.old ≡ 800 }
{
    let k = crate::word::book(line, 1);
    let w = crate::word::of(line);
    match w {
        Word::Unknown => {
            test_script::show::unreadable(rt)?;
            Ok(d)
        }
        Word::Comment => {
            test_script::reply::same(rt, line)?;
            Ok(d)
        }
        Word::Lend => {
            test_script::reply::ok(rt)?;
            Ok(crate::desk::lend(d, k, line))
        }
        Word::Poke => {
            poke(rt, books, k, line)?;
            Ok(d)
        }
        Word::Start => start(rt, books, k, line, d),
        Word::Pass => pass(rt, books, slips, k, line, d),
        Word::Packet => {
            packet(rt, books, k, line, d)?;
            Ok(d)
        }
        Word::Relay => {
            relay(rt, books, slips, k, line, d)?;
            Ok(d)
        }
        Word::Step(kind) => {
            step(rt, books, k, line, d, kind)?;
            Ok(d)
        }
    }
}

fn poke(rt: &impl Print, books: &mut [u8], k: usize, line: &[u8]) -> io::Result<()>
    requires k_bound { k < 4 }
    requires books_len { length books.old ≡ 20960 }
    ensures { books.new ≡ set books.old
        (k * room + min (word_number line.now 2) (room - 1)) (byte_word line.now 3) }
{
    let at = k * ROOM + test_script::operand::upto(line, 2, ROOM - 1);
    books[at] = test_script::operand::byte(line, 3);
    test_script::reply::ok(rt)
}

fn start(rt: &impl Print, books: &mut [u8], k: usize, line: &[u8], d: Desk) -> io::Result<Desk>
    requires k_bound { k < 4 }
    requires books_len { length books.old ≡ 20960 }
{
    let from = k * ROOM;
    let to = from + crate::desk::lent(d, k);
    let r = crate::call::start(&mut books[from..to], line);
    test_script::reply::reply(rt, r)?;
    Ok(crate::desk::started(d, k, line, r))
}

fn pass(
    rt: &impl Print,
    books: &mut [u8],
    slips: &mut [u8],
    k: usize,
    line: &[u8],
    d: Desk,
) -> io::Result<Desk>
    requires k_bound { k < 4 }
    requires books_len { length books.old ≡ 20960 }
    requires slips_len { length slips.old ≡ 800 }
{
    let from = k * ROOM;
    let to = from + crate::desk::lent(d, k);
    let at = k * SLIP;
    let end = at + test_script::operand::upto(line, 2, SLIP);
    let p = member::messages::pass::pass(&mut books[from..to], &mut slips[at..end]);
    crate::show::passed(rt, p, &slips[at..end])?;
    Ok(crate::desk::passed(d, k, p))
}

// What one book last passed is delivered to another.
fn relay(
    rt: &impl Print,
    books: &mut [u8],
    slips: &mut [u8],
    k: usize,
    line: &[u8],
    d: Desk,
) -> io::Result<()>
    requires k_bound { k < 4 }
    requires books_len { length books.old ≡ 20960 }
    requires slips_len { length slips.old ≡ 800 }
{
    let from = k * ROOM;
    let to = from + crate::desk::lent(d, k);
    let j = crate::word::book(line, 2);
    let at = j * SLIP;
    let end = at + crate::desk::slip(d, j);
    let r = member::messages::deliver::deliver(
        &mut books[from..to],
        &slips[at..end],
        Member(crate::desk::own(d, j)),
    );
    test_script::reply::reply(rt, r)
}

fn step(
    rt: &impl Print,
    books: &mut [u8],
    k: usize,
    line: &[u8],
    d: Desk,
    kind: u8,
) -> io::Result<()>
    requires k_bound { k < 4 }
    requires books_len { length books.old ≡ 20960 }
{
    let from = k * ROOM;
    let to = from + crate::desk::lent(d, k);
    let r = crate::call::step(&mut books[from..to], line, kind);
    test_script::reply::reply(rt, r)
}

fn packet(rt: &impl Print, books: &mut [u8], k: usize, line: &[u8], d: Desk) -> io::Result<()>
    requires k_bound { k < 4 }
    requires books_len { length books.old ≡ 20960 }
{
    let from = k * ROOM;
    let to = from + crate::desk::lent(d, k);
    let r = crate::call::packet(&mut books[from..to], line);
    crate::show::delivered(rt, r)
}
