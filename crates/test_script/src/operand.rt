// The operands of a line, each cut to what there is room for: a cast may lose nothing, so a remainder comes first.
ghost use Rattle.std.specs.Prelude.{◌≡◌, min};
ghost use Rattle.test_script.specs.ParseParts.{word_number};
ghost use Rattle.test_script.specs.OperandParts.{byte_word, identifier_word};

// An operand of one byte.
pub fn byte(line: &[u8], n: usize) -> u8
    ensures { result ≡ byte_word line.now n }
{
    (crate::parse::number(line, n) % 256) as u8
}

// An operand that is an identifier.
pub fn identifier(line: &[u8], n: usize) -> u32
    ensures { result ≡ identifier_word line.now n }
{
    (crate::parse::number(line, n) % 4294967296) as u32
}

// An operand of at most so much.
pub fn upto(line: &[u8], n: usize, most: usize) -> usize
    ensures { result ≡ min (word_number line.now n) most }
{
    crate::parse::number(line, n).min(most as u64) as usize
}
