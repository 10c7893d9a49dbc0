// The names that begin a line, and what stands behind each.
ghost use Rattle.std.specs.Prelude.{◌≡◌};
ghost use Rattle.bench_lines.specs.Lines.{form, table, form_of};

use crate::texts::words;
use events::kinds;

// The kind of the line besides the steps'.
pub const GROUP: u8 = 0;

// The largest number of each width: an identifier's, an entry number's, any other's.
const IDENTIFIER: u64 = 4294967295;

const ENTRY: u64 = 18446744073709551615;

const OTHER: u64 = 255;

// What a name asks for: the largest number of each operand, 0 for a second operand that it has not.
#[derive(Clone, Copy)]
pub struct Form {
    pub kind: u8,
    pub first: u64,
    pub second: u64,
}

// The kind with these operands.
fn with_operands(kind: u8, first: u64, second: u64) -> Form
    ensures { result ≡ form kind first second }
{
    Form {
        kind,
        first,
        second,
    }
}

// What the name asks for, if there is such a name.
pub fn form_of(word: &[u8]) -> Option<Form>
    ensures { result ≡ form_of table word.now }
{
    // No match on the names: its proof would be of every length and every byte at which one parts from another.
    if words::is(word, b"group") {
        return Some(with_operands(GROUP, OTHER, OTHER));
    }
    if words::is(word, b"create") {
        return Some(with_operands(kinds::CREATE, IDENTIFIER, OTHER));
    }
    if words::is(word, b"join") {
        return Some(with_operands(kinds::JOIN, OTHER, IDENTIFIER));
    }
    if words::is(word, b"pass") {
        return Some(with_operands(kinds::PASS, OTHER, 0));
    }
    if words::is(word, b"order") {
        return Some(with_operands(kinds::ORDER, OTHER, IDENTIFIER));
    }
    if words::is(word, b"deliver") {
        return Some(with_operands(kinds::DELIVER, OTHER, 0));
    }
    if words::is(word, b"attempt") {
        return Some(with_operands(kinds::ATTEMPT, OTHER, 0));
    }
    if words::is(word, b"register") {
        return Some(with_operands(kinds::REGISTER, OTHER, 0));
    }
    if words::is(word, b"send") {
        return Some(with_operands(kinds::SEND, OTHER, ENTRY));
    }
    if words::is(word, b"hand") {
        return Some(with_operands(kinds::HAND, OTHER, 0));
    }
    if words::is(word, b"tell") {
        return Some(with_operands(kinds::TELL, OTHER, 0));
    }
    if words::is(word, b"safe") {
        return Some(with_operands(kinds::SAFE, OTHER, 0));
    }
    if words::is(word, b"collect") {
        return Some(with_operands(kinds::COLLECT, OTHER, 0));
    }
    None
}
