// Texts as bytes: words looked for and compared, decimal numerals read and printed, bytes put at a place.
pub mod numerals;
pub mod words;

ghost use Rattle.std.specs.Prelude.{◌+◌, ◌≤◌, length};
ghost use Rattle.bench_lines.specs.TextParts.{Put};

// The bytes are put at a place, and the place behind them is given.
pub fn put(text: &mut [u8], at: usize, s: &[u8]) -> usize
    requires { at + length s.now ≤ length text.old }
    ensures { Put s.now text.old at text.new result }
{
    let end = at + s.len();
    text[at..end].copy_from_slice(s);
    end
}
