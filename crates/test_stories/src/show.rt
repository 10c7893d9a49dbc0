// What a pass or a packet gave.
use events::Delivered;
use std::io;
use test_script::show::{also, end, refused};
use views::refusal::{Refusal, Verdict};

// The message stands at the front of the slip.
pub fn passed(rt: &impl Print, p: Result<usize, Refusal>, slip: &[u8]) -> io::Result<()> {
    match p {
        Err(x) => {
            refused(rt, x)?;
        }
        Ok(length) => {
            let n = test_script::parse::front(length as u64, slip);
            rt.write_all(b"pass ")?;
            test_script::show::hex(rt, &slip[..n])?;
        }
    }
    end(rt)
}

// How many messages were taken, and the refusal of the next if there was one.
pub fn delivered(rt: &impl Print, d: Result<Delivered, Refusal>) -> io::Result<()> {
    match d {
        Err(x) => {
            refused(rt, x)?;
        }
        Ok(d) => {
            rt.write_all(b"took")?;
            also(rt, d.count as u64)?;
            stopped(rt, d.stopped)?;
        }
    }
    end(rt)
}

fn stopped(rt: &impl Print, s: Verdict) -> io::Result<()> {
    match s {
        Err(x) => {
            rt.write_all(b" ")?;
            refused(rt, x)
        }
        Ok(()) => Ok(()),
    }
}
