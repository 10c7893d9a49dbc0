// Bytes looked for, and words compared.
ghost use Rattle.std.specs.Prelude.{◌≡◌};
ghost use Rattle.bench_lines.specs.Words.{find_from, same};

// The byte between words, and the byte that ends a line.
pub const SPACE: u8 = 32;

pub const LINE_FEED: u8 = 10;

// The place of the first byte c at or after a place, the length if there is none.
pub fn find(s: &[u8], from: usize, c: u8) -> usize
    ensures { result ≡ find_from c s.now from }
{
    for i in from..s.len() {
        if s[i] == c {
            return i;
        }
    }
    s.len()
}

// The two are the same bytes.
pub fn is(word: &[u8], name: &[u8]) -> bool
    ensures { result ≡ same word.now name.now }
{
    word == name
}
