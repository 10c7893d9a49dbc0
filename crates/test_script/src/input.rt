// Standard input, read to a buffer.
ghost use Rattle.std.specs.Prelude.{IfOk};
ghost use Rattle.test_script.specs.ParseParts.{IsPrefixLen};

use std::io;
use std::io::Read;

// Reads until the buffer is full or the input ends: how many bytes of the buffer are those that were read.
pub fn read_full(rt: &impl Input, bytes: &mut [u8]) -> io::Result<usize>
    ensures { IfOk result (λ n. IsPrefixLen n bytes.new) }
{
    let mut reader = rt.reader();
    let mut done: usize = 0;
    // Each turn goes on by what the read gave.
    while done < bytes.len() {
        let n = reader.read(&mut bytes[done..])?;
        if n == 0 {
            break;
        }
        done += n;
    }
    Ok(done)
}
