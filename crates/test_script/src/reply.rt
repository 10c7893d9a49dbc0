// Answers of calls: ok, the event, the refusal; and a comment, which is answered by itself.
use crate::show::{also, end, refused};
use events::{Event, Item, Reply};
use std::io;
use views::{Member, View, ViewId};

// A comment is answered by itself.
pub fn same(rt: &impl Print, line: &[u8]) -> io::Result<()> {
    rt.write_all(line)?;
    end(rt)
}

pub fn ok(rt: &impl Print) -> io::Result<()> {
    rt.write_all(b"ok")?;
    end(rt)
}

// What a call gave.
pub fn reply(rt: &impl Print, r: Reply) -> io::Result<()> {
    match r {
        Ok(Some(e)) => event(rt, e),
        Ok(None) => ok(rt),
        Err(x) => {
            refused(rt, x)?;
            end(rt)
        }
    }
}

fn event(rt: &impl Print, e: Event) -> io::Result<()> {
    match e {
        Event::Attempt(p, v) => attempt(rt, p, v),
        Event::Register(p, g) => {
            whose(rt, b"register", p, g)?;
            end(rt)
        }
        Event::Send(p, g, x) => {
            whose(rt, b"send", p, g)?;
            also(rt, x)?;
            end(rt)
        }
        Event::Hand(p, g, x) => item(rt, b"hand", p, g, x),
        Event::Safe(p, g, x) => item(rt, b"safe", p, g, x),
    }
}

// The event's name, whose event it is, and of which view.
fn whose(rt: &impl Print, name: &[u8], p: Member, g: ViewId) -> io::Result<()> {
    rt.write_all(name)?;
    also(rt, p.0 as u64)?;
    also(rt, g.0 as u64)
}

fn attempt(rt: &impl Print, p: Member, v: View) -> io::Result<()> {
    whose(rt, b"attempt", p, v.id)?;
    also(rt, v.set as u64)?;
    end(rt)
}

fn item(rt: &impl Print, name: &[u8], p: Member, g: ViewId, x: Item) -> io::Result<()> {
    whose(rt, name, p, g)?;
    also(rt, x.sender.0 as u64)?;
    also(rt, x.entry)?;
    end(rt)
}
