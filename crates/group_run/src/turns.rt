// The steps of a list: each is read from its record, applied to the group, and answered in its record.
ghost use Rattle.std.specs.Prelude.{◌+◌, ◌/◌, ◌≤◌, ◌*◌, length, true, ◌≡◌};
ghost use Rattle.group_bytes.specs.Groups.{ranges, ranges_sound};
ghost use Rattle.group.specs.StaysSoundParts.{StaysSound};
ghost use Rattle.group_run.specs.Records.{answer_size, step_size, step_at};
ghost use Rattle.group_run.specs.Parts.{Wrote, Asked, Turns};

use events::Reply;
use views::sizes;

// An answer is written into the record at a place: the verdict's number, then the event.
fn put(b: &mut [u8], at: usize, x: Reply)
    requires { at + answer_size ≤ length b.old }
    ensures { Wrote b.old at x b.new }
{
    let (number, happened) = match x {
        Ok(happened) => (0, happened),
        Err(why) => (why.number(), None),
    };
    b[at] = number;
    c_answers::put_event(&mut b[at + crate::SHOWN..at + crate::ANSWER], happened);
}

// The step in the record at a place is applied to the group; 4 is checked unless the group is known to be sound.
fn ask(
    list: &mut [u8],
    all: &mut [u8],
    queues: &mut [u8],
    known: bool,
    steps: &[u8],
    at: usize,
) -> Reply
    requires { (known ≡ true → ranges_sound (ranges list.old all.old queues.old) ≡ true)
        × (at + step_size ≤ length steps.now) }
    ensures { Asked (ranges list.old all.old queues.old)
        (step_at steps.now at) (ranges list.new all.new queues.new) result }
{
    let kind = steps[at];
    let first = numbers::get_number(steps, at + crate::FIRST, sizes::IDENTIFIER) as u32;
    let second = numbers::get_number(steps, at + crate::SECOND, sizes::NUMBER);
    group::step::next(list, all, queues, known, kind, first, second)
}

// Every step in turn. 4 is not checked if the group is known to stay sound.
pub fn each(
    list: &mut [u8],
    all: &mut [u8],
    queues: &mut [u8],
    known: bool,
    steps: &[u8],
    answers: &mut [u8],
)
    requires { (known ≡ true → StaysSound (ranges list.old all.old queues.old))
        × (length answers.old ≡ answer_size * (length steps.now / step_size)) }
    ensures { Turns (ranges list.old all.old queues.old) steps.now
        (ranges list.new all.new queues.new) answers.new }
{
    let n = steps.len() / crate::STEP;
    for i in 0..n {
        let x = ask(list, all, queues, known, steps, crate::STEP * i);
        put(answers, crate::ANSWER * i, x);
    }
}
