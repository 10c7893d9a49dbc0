// A list of view records by value, of which the first ones are lent for one call and come back: who calls these holds
// no reference to a record.
ghost use Rattle.std.specs.Prelude.{◌≡◌, ◌≤◌, take, drop};
ghost use Rattle.group.specs.StepCalls.{asked};
ghost use Rattle.group_listed.specs.Calls.{Went, Began};
ghost use Rattle.views.specs.Lists.{find_of};
ghost use Rattle.views.specs.Limits.{max_views};
ghost use Rattle.group_listed.specs.Creates.{made_in, Created};

use events::Reply;
use views::refusal::Verdict;
use views::{View, ViewId, limits};

// The longest list that is lent: one record more than a group can have.
pub const LONGEST: usize = limits::VIEWS + 1;

// The list after a step, and its reply.
#[derive(Clone, Copy)]
pub struct Stepped {
    pub list: [View; LONGEST],
    pub reply: Reply,
}

// The list after a start or a create, and its verdict.
#[derive(Clone, Copy)]
pub struct Ruled {
    pub list: [View; LONGEST],
    pub verdict: Verdict,
}

// One step of the whole group; the records behind those that are lent stay.
pub fn step(
    list: [View; LONGEST],
    room: usize,
    books: &mut [u8],
    queues: &mut [u8],
    kind: u8,
    first: u32,
    second: u64,
) -> Stepped
    requires { room ≤ 33 }
    ensures { Went (take room list) books.old queues.old (asked kind first second)
        (take room result.list) books.new queues.new result.reply
        × (drop room result.list ≡ drop room list) }
{
    let mut at = list;
    let reply = group_listed::step(&mut at[..room], books, queues, kind, first, second);
    Stepped { list: at, reply }
}

// A start, likewise.
pub fn start(
    list: [View; LONGEST],
    room: usize,
    books: &mut [u8],
    queues: &mut [u8],
    members: u8,
    first: u8,
) -> Ruled
    requires { room ≤ 33 }
    ensures { Began (take room list) books.old queues.old members first
        (take room result.list) books.new queues.new result.verdict
        × (drop room result.list ≡ drop room list) }
{
    let mut at = list;
    let verdict = group_listed::start(&mut at[..room], books, queues, members, first);
    Ruled { list: at, verdict }
}

// A create of the list by itself, with so many made.
pub fn create(
    list: [View; LONGEST],
    room: usize,
    made: usize,
    id: ViewId,
    set: u8,
    members: u8,
) -> Ruled
    requires { room ≤ 33 }
    ensures { Created (take room list) made id.0 set members (take room result.list) result.verdict
        × (drop room result.list ≡ drop room list) }
{
    let mut at = list;
    let verdict = group_listed::list::create(&mut at[..room], made, id, set, members);
    Ruled { list: at, verdict }
}

// A lookup in the list by itself, among so many made.
pub fn lookup(list: [View; LONGEST], room: usize, made: usize, id: ViewId) -> Option<View>
    requires { room ≤ 33 }
    ensures { result ≡ find_of id.0 (take max_views (made_in made (take room list))) }
{
    group_listed::list::lookup(&list[..room], made, id)
}
