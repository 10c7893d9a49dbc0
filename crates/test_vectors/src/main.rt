// Runs the reader and the writer over lines of standard input, and writes an answer to each:
//   read HEX, front HEX                      the message that the bytes are, or that stands at their front
//   write ROOM KIND I X ID:SET ..            the message of a kind sent in view I with the number X and these views,
//                                            into ROOM bytes (at most 200) that each hold ee before
#![tactic(auto)]

mod parse;
mod show;

ghost use Rattle.std.specs.Prelude.{◌≡◌, length};
ghost use Rattle.views.specs.Refusals.{left};
ghost use Rattle.wire.specs.Writer.{frame_bytes, write_verdict, overwritten};

use std::io;
use wire::Frame;

// How many bytes of standard input are read.
const INPUT: usize = 65536;

fn main(rt: HostRuntime) -> io::Result<()> {
    let mut input = [0u8; INPUT];
    let n = test_script::input::read_full(&rt, &mut input)?;
    run(&rt, &input[..n])
}

// One answer to each line.
fn run(rt: &impl Print, s: &[u8]) -> io::Result<()> {
    for line in s.split_inclusive(|c| *c == b'\n') {
        answer(rt, line.strip_suffix(b"\n").unwrap_or(line))?;
    }
    Ok(())
}

// The first letter tells the word.
fn answer(rt: &impl Print, line: &[u8]) -> io::Result<()> {
    match test_script::parse::byte(line, 0) {
        b'r' => read_line(rt, line),
        b'f' => front_line(rt, line),
        b'w' => write_line(rt, line),
        _ => test_script::show::unreadable(rt),
    }
}

fn read_line(rt: &impl Print, line: &[u8]) -> io::Result<()> {
    let mut bytes = [0u8; 256];
    let n = test_script::parse::unhex(line, 5, &mut bytes);
    let r = wire::single::read(&bytes[..n]);
    crate::show::reading(rt, r)
}

fn front_line(rt: &impl Print, line: &[u8]) -> io::Result<()> {
    let mut bytes = [0u8; 256];
    let n = test_script::parse::unhex(line, 6, &mut bytes);
    let r = wire::reader::read_front(&bytes[..n]);
    crate::show::reading(rt, r)
}

fn write_line(rt: &impl Print, line: &[u8]) -> io::Result<()> {
    let mut xs = [0u64; 640];
    let n = crate::parse::numbers(line, 6, &mut xs);
    let f = crate::parse::frame(&xs, n);
    let mut buffer = [238u8; 200];
    let room = test_script::parse::front(xs[0], &buffer);
    write_frame(rt, &mut buffer[..room], f)
}

// The whole buffer is shown, so that what lies behind the message is seen to stay.
fn write_frame(rt: &impl Print, b: &mut [u8], f: Frame) -> io::Result<()>
    ensures { b.new ≡ left (write_verdict f (length b.old))
        (overwritten (frame_bytes f) b.old) b.old }
{
    let w = wire::writer::write(b, f);
    crate::show::written(rt, w)?;
    test_script::show::hex(rt, b)?;
    test_script::show::end(rt)
}
