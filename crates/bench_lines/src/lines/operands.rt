// The operands behind a name, and the line that they make.
ghost use Rattle.std.specs.Prelude.{◌≡◌, true};
ghost use Rattle.bench_lines.specs.Lines.{made, with_operands};
ghost use Rattle.bench_lines.specs.LineParts.{fits, fitting};
ghost use Rattle.bench_lines.specs.Words.{words};

use crate::lines::names::Form;
use crate::lines::{Asked, Line, Start, names};
use crate::texts::{numerals, words};

// What a form asks with these operands, each at most its largest number.
fn make(form: Form, first: Option<u64>, second: Option<u64>) -> Option<Line>
    requires { fits form first second ≡ true }
    ensures { result ≡ made form first second }
{
    let x = first?;
    let y = second?;
    if form.kind == names::GROUP {
        return Some(Line::Group(Start {
            members: x as u8,
            set: y as u8,
        }));
    }
    Some(Line::Step(Asked {
        kind: form.kind,
        first: x as u32,
        second: y,
    }))
}

// What a form asks with the operands of the rest of a line.
pub fn read(rest: &[u8], form: Form) -> Option<Line>
    requires { fitting form ≡ true }
    ensures { result ≡ with_operands form (words rest.now) }
{
    if form.second == 0 {
        let only = numerals::read_numeral(rest, form.first);
        return make(form, only, Some(0));
    }
    let end = words::find(rest, 0, words::SPACE);
    if end == rest.len() {
        return None;
    }
    let first = numerals::read_numeral(&rest[..end], form.first);
    let second = numerals::read_numeral(&rest[end + 1..], form.second);
    make(form, first, second)
}
