// Answers to standard output: numbers, bytes in hexadecimal, refusals.
ghost use Rattle.std.specs.Prelude.{◌<◌, ◌/◌, ◌%◌, ◌≡◌};
ghost use Rattle.test_script.specs.ShowParts.{hex_digit_ascii};

use std::io;
use views::refusal::Refusal;

pub fn number(rt: &impl Print, x: u64) -> io::Result<()> {
    print!(rt; "{x}")
}

// One number more on the line.
pub fn also(rt: &impl Print, x: u64) -> io::Result<()> {
    print!(rt; " {x}")
}

pub fn refused(rt: &impl Print, r: Refusal) -> io::Result<()> {
    rt.write_all(b"refused")?;
    also(rt, r.number() as u64)
}

// No word of the program's.
pub fn unreadable(rt: &impl Print) -> io::Result<()> {
    rt.write_all(b"unreadable")?;
    end(rt)
}

// The line ends.
pub fn end(rt: &impl Print) -> io::Result<()> {
    rt.write_all(b"\n")
}

// The digit of a number below 16.
fn digit(x: u8) -> u8
    requires { x < 16 }
    ensures { result ≡ hex_digit_ascii x }
{
    if x < 10 { b'0' + x } else { b'a' + (x - 10) }
}

// The first digit of a byte, and its second.
fn high(c: u8) -> u8
    ensures { result ≡ hex_digit_ascii (c / 16) }
{
    digit(c / 16)
}

fn low(c: u8) -> u8
    ensures { result ≡ hex_digit_ascii (c % 16) }
{
    digit(c % 16)
}

// Bytes in hexadecimal, by digits of which the contracts speak; of a formatted byte none here would.
pub fn hex(rt: &impl Print, b: &[u8]) -> io::Result<()> {
    for c in b {
        rt.write_all(&[high(*c), low(*c)])?;
    }
    Ok(())
}
