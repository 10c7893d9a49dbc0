// A packet: messages from one sender, one behind the other, are taken one by one up to the first refusal. What a
// message that was taken leaves is a sound book again, so that 4 is asked once.
ghost use Rattle.std.specs.Prelude.{true, ◌≡◌};
ghost use Rattle.book_bytes.specs.Books.{bytes_sound};
ghost use Rattle.member.specs.Calls.{packet_call, packet_bytes, GaveEach};
ghost use Rattle.member.specs.Parts.{GaveFront};

use crate::messages::deliver;
use events::Delivered;
use views::Member;
use views::refusal::Refusal;

// The message at the front of the bytes is taken into a sound book: 6, 13, the reader's refusals, then as deliver has
// them.
fn deliver_front(b: &mut [u8], bytes: &[u8], q: Member) -> Result<usize, Refusal>
    requires { bytes_sound b.old ≡ true }
    ensures { GaveFront bytes.now q.0 b.old b.new result }
{
    if b[book_bytes::MEMBERS] <= b[book_bytes::SELF] {
        return Err(Refusal::NoSuchMember);
    }
    let front = wire::reader::front(bytes);
    deliver::deliver_read(b, bytes, front.map(|_| ()), q)?;
    front
}

// The messages in the bytes, all from the sender q.
pub fn deliver(b: &mut [u8], bytes: &[u8], q: Member) -> Result<Delivered, Refusal>
    ensures { GaveEach (packet_call bytes.now q.0 b.old)
        (packet_bytes bytes.now q.0 b.old) b.old b.new result }
{
    if !book_sound::sound(b) {
        return Err(Refusal::RecordsUnsound);
    }
    let mut at = 0;
    let mut count = 0;
    // A turn goes on after a message, whose length only its reader knows: no iterator cuts the bytes so.
    while at < bytes.len() {
        match deliver_front(b, &bytes[at..], q) {
            Err(r) => {
                let stopped = Err(r);
                return Ok(Delivered { count, stopped });
            }
            Ok(taken) => {
                at += taken;
                count += 1;
            }
        }
    }
    Ok(Delivered {
        count,
        stopped: Ok(()),
    })
}
