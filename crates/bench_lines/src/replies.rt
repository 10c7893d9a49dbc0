// The bench's replies: the bytes that say a reply. Writing of the system stays with the caller.
mod text;

ghost use Rattle.std.specs.Prelude.{◌≤◌, length};
ghost use Rattle.bench_lines.specs.ReplyLines.{Wrote, reply_line, longest_reply};

use events::Reply;
use views::refusal::Refusal;

// The longest reply, the byte that ends it included: a buffer of this length holds any reply's line.
pub const LONGEST_REPLY: usize = 45;

// The reply's line goes to the front of the buffer, and the number of its bytes is given; a buffer too short for it is
// left alone, and gets refusal 39. A buffer of the longest reply's length has room for any.
pub fn write(out: &mut [u8], r: Reply) -> Result<usize, Refusal>
    ensures wrote { Wrote (reply_line r) out.old out.new result }
    ensures fits { length (reply_line r) ≤ longest_reply }
{
    let mut line = [0u8; crate::replies::text::ROOM];
    let n = crate::replies::text::put_reply(&mut line, r);
    crate::replies::text::put_front(out, &line[..n])
}
