// The small record lent by `&mut`: attempt and collect turn it in place. The record is one loaded from a sound book,
// and who calls this does the queues' part and stores it.
ghost use Rattle.std.specs.Prelude.{◌≡◌};
ghost use Rattle.book_steps.specs.Parts.{few_opened};
ghost use Rattle.book_steps.specs.LentParts.{Turned};

use book_bytes::Record;
use views::limits;
use views::refusal::{Refusal, Verdict};

// More than 31 open views are refused.
pub fn few_open(h: Record) -> Result<Record, Refusal>
    ensures { result ≡ few_opened h }
{
    if limits::OPEN < h.opens.count {
        return Err(Refusal::TooManyOpen);
    }
    Ok(h)
}

// The step by value on a record that is lent: the record after it, or as it was where the step is refused.
fn turn<F: FnOnce(Record) -> Result<Record, Refusal>>(h: &mut Record, step: F) -> Verdict
    requires { F.pre step h.old }
    ensures { Turned (F.post step h.old) h.old h.new result }
{
    *h = step(*h)?;
    Ok(())
}

// The record is lent for one step and taken back: who calls this holds no reference.
pub fn lend<F: FnOnce(Record) -> Result<Record, Refusal>>(
    h: Record,
    step: F,
) -> Result<Record, Refusal>
    requires { F.pre step h }
    ensures { F.post step h result }
{
    let mut book = h;
    turn(&mut book, step)?;
    Ok(book)
}
