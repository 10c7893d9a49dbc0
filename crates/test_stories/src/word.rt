// What a line says: its word, and which book it is about.
ghost use Rattle.std.specs.Prelude.{◌<◌, ◌≡◌};
ghost use Rattle.test_stories.specs.WordParts.{with_p, with_r, with_s, word_of, book_word};

use events::kinds;

// A step of a book that a call carries out has the number of its kind.
#[derive(Clone, Copy)]
pub enum Word {
    Unknown,
    Comment,
    Start,
    Pass,
    Packet,
    Relay,
    Poke,
    Lend,
    Step(u8),
}

// The first letters tell the word.
pub fn of(line: &[u8]) -> Word
    ensures { result ≡ word_of line.now }
{
    let first = test_script::parse::byte(line, 0);
    let second = test_script::parse::byte(line, 1);
    let third = test_script::parse::byte(line, 2);
    match first {
        b'#' => Word::Comment,
        b'j' => Word::Step(kinds::JOIN),
        b'd' => Word::Step(kinds::DELIVER),
        b'a' => Word::Step(kinds::ATTEMPT),
        b'h' => Word::Step(kinds::HAND),
        b't' => Word::Step(kinds::TELL),
        b'c' => Word::Step(kinds::COLLECT),
        b'l' => Word::Lend,
        b'p' => with_p(third),
        b'r' => with_r(third),
        b's' => with_s(second),
        _ => Word::Unknown,
    }
}

// pass, packet, poke
fn with_p(third: u8) -> Word
    ensures { result ≡ with_p third }
{
    match third {
        b's' => Word::Pass,
        b'c' => Word::Packet,
        b'k' => Word::Poke,
        _ => Word::Unknown,
    }
}

// register, relay
fn with_r(third: u8) -> Word
    ensures { result ≡ with_r third }
{
    match third {
        b'g' => Word::Step(kinds::REGISTER),
        b'l' => Word::Relay,
        _ => Word::Unknown,
    }
}

// start, send, safe
fn with_s(second: u8) -> Word
    ensures { result ≡ with_s second }
{
    match second {
        b't' => Word::Start,
        b'e' => Word::Step(kinds::SEND),
        b'a' => Word::Step(kinds::SAFE),
        _ => Word::Unknown,
    }
}

// An operand that is a book.
pub fn book(line: &[u8], n: usize) -> usize
    ensures { (result < 4) × (result ≡ book_word line.now n) }
{
    (test_script::parse::number(line, n) % 4) as usize
}
