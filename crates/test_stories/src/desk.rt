// What is remembered about each book: how many of its bytes are lent, the own number of its last accepted start, and
// the length of what it last passed.
ghost use Rattle.std.specs.Prelude.{◌<◌, min, ◌≡◌, get_or};
ghost use Rattle.test_script.specs.ParseParts.{word_number};
ghost use Rattle.test_stories.specs.DeskParts.{room, slip_room, fresh_desk, with_lent, after_start, after_pass};

use events::Reply;
use views::refusal::Refusal;

// How many books there are.
pub const BOOKS: usize = 4;

// How many bytes of a book can be lent: some more than it has.
pub const ROOM: usize = 5240;

// How many bytes can be passed at once: some more than the longest message has.
pub const SLIP: usize = 200;

// How many bytes of a line can be delivered at once: some more than 129 of the shortest messages have.
pub const PACKET: usize = 1024;

#[derive(Clone, Copy)]
pub struct Desk {
    pub lent: [usize; BOOKS],
    pub own: [u8; BOOKS],
    pub slip: [usize; BOOKS],
}

pub fn fresh() -> Desk
    ensures { result ≡ fresh_desk }
{
    Desk {
        lent: [book_bytes::SIZE; BOOKS],
        own: [0; BOOKS],
        slip: [0; BOOKS],
    }
}

pub fn lent(d: Desk, k: usize) -> usize
    requires { k < 4 }
    ensures { result ≡ min (get_or d.lent k 0) room }
{
    d.lent[k].min(ROOM)
}

pub fn own(d: Desk, k: usize) -> u8
    requires { k < 4 }
    ensures { result ≡ get_or d.own k 0 }
{
    d.own[k]
}

pub fn slip(d: Desk, k: usize) -> usize
    requires { k < 4 }
    ensures { result ≡ min (get_or d.slip k 0) slip_room }
{
    d.slip[k].min(SLIP)
}

pub fn lend(d: Desk, k: usize, line: &[u8]) -> Desk
    requires { k < 4 }
    ensures { result ≡ with_lent d k (min (word_number line.now 2) room) }
{
    let mut next = d;
    next.lent[k] = test_script::operand::upto(line, 2, ROOM);
    next
}

// After a start: its own number counts if it was accepted.
pub fn started(d: Desk, k: usize, line: &[u8], r: Reply) -> Desk
    requires { k < 4 }
    ensures { result ≡ after_start r d k line.now }
{
    match r {
        Err(_) => d,
        Ok(_) => {
            let mut next = d;
            next.own[k] = test_script::operand::byte(line, 4);
            next
        }
    }
}

// After a pass: its bytes stay on the slip if it was accepted.
pub fn passed(d: Desk, k: usize, p: Result<usize, Refusal>) -> Desk
    requires { k < 4 }
    ensures { result ≡ after_pass p d k }
{
    match p {
        Err(_) => d,
        Ok(length) => {
            let mut next = d;
            next.slip[k] = length;
            next
        }
    }
}
