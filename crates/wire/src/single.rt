// Callers that want exactly one message: they test how many bytes the reader took, and give 38 for bytes left over.
ghost use Rattle.std.specs.Prelude.{◌≡◌};
ghost use Rattle.views.specs.Refusals.{verdict_given};
ghost use Rattle.wire.specs.Single.{read_one};

use crate::{Reading, reader};
use views::refusal::{Refusal, Verdict};

// The verdict on the bytes as one message. Nothing is built.
pub fn verdict(b: &[u8]) -> Verdict
    ensures { result ≡ verdict_given (read_one b.now) }
{
    let taken = reader::front(b)?;
    if taken < b.len() {
        return Err(Refusal::BytesLeftOver);
    }
    Ok(())
}

// The bytes as one message.
pub fn read(b: &[u8]) -> Result<Reading, Refusal>
    ensures { result ≡ read_one b.now }
{
    verdict(b)?;
    reader::read_front(b)
}
