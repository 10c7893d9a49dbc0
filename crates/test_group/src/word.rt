// What a line says: its word.
ghost use Rattle.std.specs.Prelude.{◌≡◌};
ghost use Rattle.test_group.specs.WordParts.{with_l, word_of};

#[derive(Clone, Copy)]
pub enum Word {
    Unknown,
    Comment,
    Lend,
    List,
    Group,
    Step,
    Run,
    Put,
    Create,
    Lookup,
}

// The first letters tell the word.
pub fn of(line: &[u8]) -> Word
    ensures { result ≡ word_of line.now }
{
    let first = test_script::parse::byte(line, 0);
    match first {
        b'#' => Word::Comment,
        b'l' => with_l(test_script::parse::byte(line, 1)),
        b'g' => Word::Group,
        b's' => Word::Step,
        b'r' => Word::Run,
        b'p' => Word::Put,
        b'c' => Word::Create,
        _ => Word::Unknown,
    }
}

// lend, list, lookup
fn with_l(second: u8) -> Word
    ensures { result ≡ with_l second }
{
    match second {
        b'e' => Word::Lend,
        b'i' => Word::List,
        b'o' => Word::Lookup,
        _ => Word::Unknown,
    }
}
