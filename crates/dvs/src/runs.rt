// Lists of steps with an answer to each: a whole group's run, from its start, and a list for a group that exists.
ghost use Rattle.group_bytes.specs.Groups.{ranges};
ghost use Rattle.dvs.specs.GroupCalls.{Runs, GoesOn};

// A group of `members` begins with the first view, identifier 0, of `first_set`, and takes every step in turn.
#[unsafe(no_mangle)]
pub extern "C" fn dvs_group_run(
    list: &mut [u8],
    books: &mut [u8],
    queues: &mut [u8],
    members: u32,
    first_set: u32,
    steps: &[u8],
    answers: &mut [u8],
) -> u32
    ensures { Runs members first_set (ranges list.old books.old queues.old)
        steps.now answers.old
        (ranges list.new books.new queues.new) answers.new result }
{
    c_answers::code(group_run::run(
        list,
        books,
        queues,
        c_answers::narrow(members, 0),
        c_answers::narrow(first_set, 0),
        steps,
        answers,
    ))
}

// A group that exists takes every step in turn; each has the answer that `dvs_group_step` would give.
#[unsafe(no_mangle)]
pub extern "C" fn dvs_group_steps(
    list: &mut [u8],
    books: &mut [u8],
    queues: &mut [u8],
    steps: &[u8],
    answers: &mut [u8],
) -> u32
    ensures { GoesOn (ranges list.old books.old queues.old)
        steps.now answers.old
        (ranges list.new books.new queues.new) answers.new result }
{
    c_answers::code(group_run::go_on(list, books, queues, steps, answers))
}
