// A whole group: its start, and one step of any kind.
ghost use Rattle.group_bytes.specs.Groups.{ranges};
ghost use Rattle.group.specs.StepCalls.{asked};
ghost use Rattle.dvs.specs.GroupCalls.{Begins, Steps};

use views::refusal::Refusal;

// A group of `members` begins with the first view, identifier 0, of `first_set`.
#[unsafe(no_mangle)]
pub extern "C" fn dvs_group_start(
    list: &mut [u8],
    books: &mut [u8],
    queues: &mut [u8],
    members: u32,
    first_set: u32,
) -> u32
    ensures { Begins (ranges list.old books.old queues.old) members first_set
        (ranges list.new books.new queues.new) result }
{
    c_answers::code(group::start::start(
        list,
        books,
        queues,
        c_answers::narrow(members, 0),
        c_answers::narrow(first_set, 0),
    ))
}

// One step of any kind with its operands; an accepted step writes the event.
#[unsafe(no_mangle)]
pub extern "C" fn dvs_group_step(
    list: &mut [u8],
    books: &mut [u8],
    queues: &mut [u8],
    kind: u32,
    first: u32,
    second: u64,
    event: &mut [u8],
) -> u32
    ensures { Steps (ranges list.old books.old queues.old)
        (asked kind first second) (ranges list.new books.new queues.new)
        event.old event.new result }
{
    if event.len() != c_answers::EVENT {
        return c_answers::refused(Refusal::RecordsUnsound);
    }
    c_answers::answer(
        event,
        group::step::step(
            list,
            books,
            queues,
            c_answers::narrow(kind, 0),
            first,
            second,
        ),
    )
}
