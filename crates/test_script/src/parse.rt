// Lines taken apart: words with single spaces between them, decimal numbers, bytes in hexadecimal.
ghost use Rattle.std.specs.Prelude.{◌<◌, min, ◌≡◌, length, get_or, drop};
ghost use Rattle.test_script.specs.ParseParts.{word_start, pushed, word_number};
ghost use Rattle.test_script.specs.ParseParts.{nibble_of, unhexed, Fronted, IsPrefixLen};

// The byte at a place, 0 past the end.
pub fn byte(s: &[u8], at: usize) -> u8
    ensures { result ≡ get_or s.now at 0 }
{
    s.get(at).copied().unwrap_or(0)
}

// Where the word of this number starts, the line's first being 0; the line's end if there is none.
pub fn word(line: &[u8], n: usize) -> usize
    ensures { result ≡ word_start n line.now }
{
    let mut left = n;
    for (i, c) in line.iter().enumerate() {
        if left == 0 {
            return i;
        }
        if *c == b' ' {
            left -= 1;
        }
    }
    line.len()
}

// The number that the word of this number is.
pub fn number(line: &[u8], n: usize) -> u64
    ensures { result ≡ word_number line.now n }
{
    let mut x: u64 = 0;
    for c in &line[word(line, n)..] {
        if *c == b' ' {
            break;
        }
        x = push(x, *c);
    }
    x
}

// One more digit behind a number, as far as it fits 8 bytes.
pub fn push(x: u64, c: u8) -> u64
    ensures { result ≡ pushed x c }
{
    if !c.is_ascii_digit() {
        return x;
    }
    let d = u64::from(c - b'0');
    match x.checked_mul(10) {
        Some(y) => y.checked_add(d).unwrap_or(x),
        None => x,
    }
}

// A hexadecimal digit's value.
#[tactic(auto, unfolding(crate::specs::ParseParts::nibble_of))]
fn nibble(c: u8) -> u8
    ensures { (result < 16) × (result ≡ nibble_of c) }
{
    match c {
        b'0'..=b'9' => c - b'0',
        b'a'..=b'f' => c - b'a' + 10,
        _ => 0,
    }
}

// The bytes whose digits stand from `from` on, and how many they are.
pub fn unhex(line: &[u8], from: usize, bytes: &mut [u8]) -> usize
    ensures prefix_len { IsPrefixLen result bytes.new }
    ensures fronted { Fronted (unhexed (length bytes.old) (drop from line.now))
        bytes.old bytes.new result }
{
    let mut rest = line.get(from..).unwrap_or(&[]);
    for n in 0..bytes.len() {
        let [high, low, more @ ..] = rest else {
            return n;
        };
        bytes[n] = nibble(*high) * 16 + nibble(*low);
        rest = more;
    }
    bytes.len()
}

// How many of the bytes are meant by a number: all of them at most.
pub fn front(x: u64, b: &[u8]) -> usize
    ensures prefix_len { IsPrefixLen result b.now }
    ensures value { result ≡ min x (length b.now) }
{
    x.min(b.len() as u64) as usize
}
