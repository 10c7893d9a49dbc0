// Answers: the refusal, or the message in words and decimal numbers.
use std::io;
use test_script::show::{also, number, refused};
use views::View;
use views::list::Views;
use views::refusal::Refusal;
use wire::{Frame, Message, Reading};

fn view(rt: &impl Print, v: View) -> io::Result<()> {
    also(rt, v.id.0 as u64)?;
    rt.write_all(b":")?;
    number(rt, v.set as u64)
}

fn all(rt: &impl Print, list: Views) -> io::Result<()> {
    let n = views::list::used(list.count);
    for v in &list.at[..n] {
        view(rt, *v)?;
    }
    Ok(())
}

fn frame(rt: &impl Print, f: Frame) -> io::Result<()> {
    let g = f.view.0 as u64;
    let list = f.views;
    let m = f.message;
    match m {
        Message::Client(x) => {
            rt.write_all(b"client")?;
            also(rt, g)?;
            also(rt, x)
        }
        Message::Info => {
            rt.write_all(b"info")?;
            also(rt, g)?;
            all(rt, list)
        }
        Message::Registered => {
            rt.write_all(b"registered")?;
            also(rt, g)
        }
        Message::Told(k) => {
            rt.write_all(b"told")?;
            also(rt, g)?;
            also(rt, k as u64)
        }
    }
}

// What reading gave.
pub fn reading(rt: &impl Print, r: Result<Reading, Refusal>) -> io::Result<()> {
    match r {
        Err(x) => {
            refused(rt, x)?;
        }
        Ok(r) => {
            frame(rt, r.frame)?;
            rt.write_all(b" taken")?;
            also(rt, r.taken as u64)?;
        }
    }
    test_script::show::end(rt)
}

// What writing gave, before the buffer.
pub fn written(rt: &impl Print, w: Result<usize, Refusal>) -> io::Result<()> {
    match w {
        Err(x) => {
            refused(rt, x)?;
        }
        Ok(n) => {
            rt.write_all(b"wrote")?;
            also(rt, n as u64)?;
        }
    }
    rt.write_all(b" ")
}
