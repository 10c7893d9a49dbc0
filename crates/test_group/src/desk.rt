// What is remembered between lines: the list of view records, and how many of them are lent.
ghost use Rattle.std.specs.Prelude.{◌≤◌, min, ◌≡◌};
ghost use Rattle.test_group.specs.DeskParts.{longest, fresh_desk, with_lent, with_view};

use crate::listed::LONGEST;
use std::io;
use views::{View, ViewId};

#[derive(Clone, Copy)]
pub struct Desk {
    pub list: [View; LONGEST],
    pub lent: usize,
}

// No record is lent before the first line that lends one.
pub fn fresh() -> Desk
    ensures { result ≡ fresh_desk }
{
    let none = View {
        id: ViewId(0),
        set: 0,
    };
    Desk {
        list: [none; LONGEST],
        lent: 0,
    }
}

// How many records are lent.
pub fn room(d: Desk) -> usize
    ensures { (result ≤ 33) × (result ≡ min d.lent longest) }
{
    d.lent.min(LONGEST)
}

pub fn lend(d: Desk, line: &[u8]) -> Desk
    ensures { result ≡ with_lent d line.now }
{
    let mut next = d;
    next.lent = test_script::operand::upto(line, 1, LONGEST);
    next
}

// The same with another list.
pub fn with_list(d: Desk, list: [View; LONGEST]) -> Desk
    ensures { result ≡ record { list = list; lent = d.lent } }
{
    Desk { list, lent: d.lent }
}

// A record is filled, whether it is lent or not.
pub fn put(d: Desk, line: &[u8]) -> Desk
    ensures { result ≡ with_view d line.now }
{
    let i = test_script::operand::upto(line, 1, LONGEST - 1);
    let v = View {
        id: ViewId(test_script::operand::identifier(line, 2)),
        set: test_script::operand::byte(line, 3),
    };
    let mut next = d;
    next.list[i] = v;
    next
}

// One record: its identifier and its set.
fn record(rt: &impl Print, v: View) -> io::Result<()> {
    test_script::show::also(rt, v.id.0 as u64)?;
    test_script::show::also(rt, v.set as u64)
}

// The view that a lookup found.
pub fn found(rt: &impl Print, v: View) -> io::Result<()> {
    rt.write_all(b"found")?;
    record(rt, v)
}

// The records that are lent.
pub fn show(rt: &impl Print, d: Desk) -> io::Result<()> {
    rt.write_all(b"list")?;
    for v in &d.list[..room(d)] {
        record(rt, *v)?;
    }
    test_script::show::end(rt)
}
