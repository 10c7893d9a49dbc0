// Decimal numerals.
ghost use Rattle.std.specs.Prelude.{◌≡◌, ◌+◌, ◌≤◌, length};
ghost use Rattle.bench_lines.specs.Numerals.{begun, numeral_of, decimal};
ghost use Rattle.bench_lines.specs.TextParts.{Put};

use crate::texts::put;

// The word is not empty, and `0` is the only one that begins with 0.
fn well_begun(word: &[u8]) -> bool
    ensures { result ≡ begun word.now }
{
    match word {
        [] => false,
        [_] => true,
        [first, ..] => *first != b'0',
    }
}

// The number that the word is, if it is one of at most max.
pub fn read_numeral(word: &[u8], max: u64) -> Option<u64>
    ensures { result ≡ numeral_of max word.now }
{
    if !well_begun(word) {
        return None;
    }
    let mut x: u64 = 0;
    for c in word {
        if !c.is_ascii_digit() {
            return None;
        }
        let d = u64::from(*c - b'0');
        if max < d || (max - d) / 10 < x {
            return None;
        }
        x = x * 10 + d;
    }
    Some(x)
}

// The most digits of a number.
const DIGITS: usize = 20;

// The number is put at a place in decimal, from its last digit to its first, and the place behind it is given.
pub fn put_number(text: &mut [u8], at: usize, x: u64) -> usize
    requires { at + 20 ≤ length text.old }
    ensures { Put (decimal x) text.old at text.new result }
{
    let mut digits = [0u8; DIGITS];
    let mut i: usize = DIGITS - 1;
    let mut rest = x;
    // A digit loop: how many digits there are is known only at its end.
    while 9 < rest {
        digits[i] = b'0' + (rest % 10) as u8;
        rest /= 10;
        i -= 1;
    }
    digits[i] = b'0' + rest as u8;
    put(text, at, &digits[i..])
}
