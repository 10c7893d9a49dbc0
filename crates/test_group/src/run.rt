// A run: a start and steps in records, with an answer to each. The steps may be two lists, the second for the group
// that the first one left. A run has ranges of its own, the list of views as bytes.
ghost use Rattle.std.specs.Prelude.{◌≤◌, min, length, ◌≡◌};
ghost use Rattle.test_script.specs.ParseParts.{IsPrefixLen};
ghost use Rattle.group_bytes.specs.Places.{queues_size};

use crate::QUEUES;
use crate::listed::LONGEST;
use std::io;
use views::refusal::Verdict;

// How many steps a line can have.
const STEPS: usize = 40;

const LIST: usize = group_bytes::VIEW * LONGEST;

// How many bytes of the list are lent where it has so many records.
fn list_lent(b: &[u8], room: usize) -> usize
    requires { room ≤ 33 }
    ensures { IsPrefixLen result b.now }
{
    let n = group_bytes::VIEW * room;
    test_script::parse::front(n as u64, b)
}

// And of the queues: those of as many views, as far as there are any.
pub fn queues_lent(b: &[u8], room: usize) -> usize
    requires { room ≤ 33 }
    ensures prefix_len { IsPrefixLen result b.now }
    ensures value { result ≡ min (queues_size room) (length b.now) }
{
    let n = group_bytes::HEAD + group_bytes::TABLE * room;
    test_script::parse::front(n as u64, b)
}

pub fn run(rt: &impl Print, line: &[u8], room: usize) -> io::Result<()>
    requires { room ≤ 33 }
{
    let mut list = [0u8; LIST];
    let mut books = [0u8; group_bytes::BOOKS];
    let mut queues = [0u8; QUEUES];
    table(rt, line, &mut list, &mut books, &mut queues, room)
}

fn table(
    rt: &impl Print,
    line: &[u8],
    list: &mut [u8; LIST],
    books: &mut [u8; group_bytes::BOOKS],
    queues: &mut [u8; QUEUES],
    room: usize,
) -> io::Result<()>
    requires { room ≤ 33 }
{
    steps(rt, line, list, books, queues, room)
}

// The steps' records are the fifth word, in hexadecimal.
fn steps(
    rt: &impl Print,
    line: &[u8],
    list: &mut [u8],
    books: &mut [u8],
    queues: &mut [u8],
    room: usize,
) -> io::Result<()>
    requires { room ≤ 33 }
{
    let mut steps = [0u8; group_run::STEP * STEPS];
    let n = test_script::parse::unhex(line, test_script::parse::word(line, 4), &mut steps);
    let e = list_lent(list, room);
    let f = queues_lent(queues, room);
    lists(
        rt,
        line,
        &mut list[..e],
        books,
        &mut queues[..f],
        &steps[..n],
    )
}

// The fourth word says how many of the steps are those of the run; the others, if there are any, are the second list.
fn lists(
    rt: &impl Print,
    line: &[u8],
    list: &mut [u8],
    books: &mut [u8],
    queues: &mut [u8],
    steps: &[u8],
) -> io::Result<()> {
    let k = test_script::operand::byte(line, 3);
    let at = test_script::parse::front(k as u64 * group_run::STEP as u64, steps);
    begin(rt, line, list, books, queues, &steps[..at])?;
    then(rt, list, books, queues, &steps[at..])?;
    test_script::show::end(rt)
}

// Room for an answer to each whole record.
fn answers_for(steps: &[u8], b: &[u8]) -> usize
    ensures { IsPrefixLen result b.now }
{
    let n = steps.len() / group_run::STEP;
    test_script::parse::front(n as u64 * group_run::ANSWER as u64, b)
}

fn begin(
    rt: &impl Print,
    line: &[u8],
    list: &mut [u8],
    books: &mut [u8],
    queues: &mut [u8],
    steps: &[u8],
) -> io::Result<()> {
    let mut answers = [0u8; group_run::ANSWER * STEPS];
    let m = answers_for(steps, &answers);
    run_steps(rt, line, list, books, queues, steps, &mut answers[..m])
}

fn run_steps(
    rt: &impl Print,
    line: &[u8],
    list: &mut [u8],
    books: &mut [u8],
    queues: &mut [u8],
    steps: &[u8],
    answers: &mut [u8],
) -> io::Result<()> {
    let members = test_script::operand::byte(line, 1);
    let first = test_script::operand::byte(line, 2);
    let v = group_run::run(list, books, queues, members, first, steps, answers);
    show(rt, v, b"run ", answers)
}

// The second list.
fn then(
    rt: &impl Print,
    list: &mut [u8],
    books: &mut [u8],
    queues: &mut [u8],
    steps: &[u8],
) -> io::Result<()> {
    if steps.is_empty() {
        return Ok(());
    }
    rt.write_all(b" then ")?;
    let mut answers = [0u8; group_run::ANSWER * STEPS];
    let m = answers_for(steps, &answers);
    more_steps(rt, list, books, queues, steps, &mut answers[..m])
}

fn more_steps(
    rt: &impl Print,
    list: &mut [u8],
    books: &mut [u8],
    queues: &mut [u8],
    steps: &[u8],
    answers: &mut [u8],
) -> io::Result<()> {
    let v = group_run::go_on(list, books, queues, steps, answers);
    show(rt, v, b"steps ", answers)
}

// A word and the answers' records in hexadecimal, or the refusal.
fn show(rt: &impl Print, v: Verdict, word: &[u8], answers: &[u8]) -> io::Result<()> {
    match v {
        Err(x) => test_script::show::refused(rt, x),
        Ok(()) => {
            rt.write_all(word)?;
            test_script::show::hex(rt, answers)
        }
    }
}
