// The bench's lines: what a line of bytes asks, and where a line ends. Reading of the system stays with the caller.
mod names;
mod operands;

ghost use Rattle.std.specs.Prelude.{◌≡◌};
ghost use Rattle.bench_lines.specs.Lines.{line_of, asks_all};
ghost use Rattle.bench_lines.specs.Words.{find_from};

use crate::texts::words;

// The longest line that is read, the byte that ends it not counted.
pub const LONGEST_LINE: usize = 64;

// What a group line asks: the number of members and the first set.
#[derive(Clone, Copy)]
pub struct Start {
    pub members: u8,
    pub set: u8,
}

// What a step's line asks: its kind and its operands in the order of the line, 0 for a second one that it has not.
#[derive(Clone, Copy)]
pub struct Asked {
    pub kind: u8,
    pub first: u32,
    pub second: u64,
}

#[derive(Clone, Copy)]
pub enum Line {
    Group(Start),
    Step(Asked),
}

// What the bytes of a line ask, without the byte 10 that ends it; nothing where they cannot be read.
pub fn read(line: &[u8]) -> Option<Line>
    ensures { result ≡ line_of line.now }
{
    if LONGEST_LINE < line.len() {
        return None;
    }
    let end = words::find(line, 0, words::SPACE);
    let form = crate::lines::names::form_of(&line[..end])?;
    if end == line.len() {
        return None;
    }
    crate::lines::operands::read(&line[end + 1..], form)
}

// Whether the line is `all`, by which the first line of the input asks to see refusals.
pub fn asks_all(line: &[u8]) -> bool
    ensures { result ≡ asks_all line.now }
{
    words::is(line, b"all")
}

// The place of the first byte 10 at or after a place, the length if there is none.
pub fn line_end(s: &[u8], from: usize) -> usize
    ensures { result ≡ find_from 10 s.now from }
{
    words::find(s, from, words::LINE_FEED)
}
