// Lists of steps, applied to a group one after another, with an answer to each: after a start, as a run whose contract
// has demand 3 of the answers, and to a group that exists.
#![tactic(auto)]

mod turns;

ghost use Rattle.std.specs.Prelude.{◌≡◌};
ghost use Rattle.group_bytes.specs.Groups.{ranges};
ghost use Rattle.group_run.specs.Runs.{paired, Ran, WentOn};

use views::refusal::{Refusal, Verdict};
use views::sizes;

// Where the operands stand in a step's record, behind its kind: the first as an identifier, the second as an entry
// number.
pub const FIRST: usize = 1;

pub const SECOND: usize = FIRST + sizes::IDENTIFIER;

// Bytes of a step's record.
pub const STEP: usize = SECOND + sizes::NUMBER;

// Where the event stands in an answer's record, behind the verdict's number.
pub const SHOWN: usize = 1;

// Bytes of an answer's record.
pub const ANSWER: usize = SHOWN + c_answers::EVENT;

// Whole records of steps, and room for one answer to each; the lengths in bytes.
fn pair(steps: usize, answers: usize) -> bool
    ensures { result ≡ paired steps answers }
{
    steps % STEP == 0 && answers % ANSWER == 0 && answers / ANSWER == steps / STEP
}

// A group of so many members with a first view begins, and takes every step in turn; each has its answer.
pub fn run(
    list: &mut [u8],
    all: &mut [u8],
    queues: &mut [u8],
    members: u8,
    first: u8,
    steps: &[u8],
    answers: &mut [u8],
) -> Verdict
    ensures { Ran members first (ranges list.old all.old queues.old)
        steps.now answers.old (ranges list.new all.new queues.new)
        answers.new result }
{
    if !pair(steps.len(), answers.len()) {
        return Err(Refusal::RecordsUnsound);
    }
    group::start::start(list, all, queues, members, first)?;
    turns::each(list, all, queues, true, steps, answers);
    Ok(())
}

// A group that exists takes every step in turn; each has its answer. 4 is checked once for the whole list, unless some
// client view is above its carrier view, which no steps lead to: it is then checked in every step.
pub fn go_on(
    list: &mut [u8],
    books: &mut [u8],
    queues: &mut [u8],
    steps: &[u8],
    answers: &mut [u8],
) -> Verdict
    ensures { WentOn (ranges list.old books.old queues.old)
        steps.now answers.old
        (ranges list.new books.new queues.new) answers.new result }
{
    if !pair(steps.len(), answers.len()) {
        return Err(Refusal::RecordsUnsound);
    }
    if !group_sound::sound(list, books, queues) {
        return Err(Refusal::RecordsUnsound);
    }
    let known = group::stays_sound::none_above(books);
    turns::each(list, books, queues, known, steps, answers);
    Ok(())
}
