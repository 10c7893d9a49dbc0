// The calls of a book, with their operands from a line.
ghost use Rattle.std.specs.Prelude.{◌≡◌};
ghost use Rattle.member.specs.Calls.{Gave, GaveEach, deliver_call, deliver_bytes, packet_call, packet_bytes};
ghost use Rattle.test_script.specs.OperandParts.{byte_word};
ghost use Rattle.test_stories.specs.CallParts.{Started, joined, brought, step_call, step_bytes};

use events::{Delivered, Reply, kinds};
use views::refusal::Refusal;
use views::{Member, View, ViewId};

pub fn start(b: &mut [u8], line: &[u8]) -> Reply
    ensures { Started (byte_word line.now 2) (byte_word line.now 3)
        (byte_word line.now 4) b.old b.new result }
{
    member::start(b, word(line, 2), word(line, 3), Member(word(line, 4)))
}

fn word(line: &[u8], n: usize) -> u8
    ensures { result ≡ byte_word line.now n }
{
    test_script::operand::byte(line, n)
}

// The view of a join: its identifier and its set.
fn view(line: &[u8]) -> View
    ensures { result ≡ joined line.now }
{
    View {
        id: ViewId(test_script::operand::identifier(line, 2)),
        set: word(line, 3),
    }
}

// A step, by the number of its kind.
pub fn step(b: &mut [u8], line: &[u8], kind: u8) -> Reply
    ensures { Gave (step_call kind line.now b.old)
        (step_bytes kind line.now b.old) b.old b.new result }
{
    match kind {
        kinds::JOIN => member::carrier_view::join(b, view(line)),
        kinds::DELIVER => deliver(b, line),
        kinds::ATTEMPT => member::carrier_view::attempt(b),
        kinds::REGISTER => member::client_view::register(b),
        kinds::SEND => member::client_view::send(b, test_script::parse::number(line, 2)),
        kinds::HAND => member::client_view::hand(b),
        kinds::TELL => member::client_view::tell(b),
        kinds::SAFE => member::client_view::safe(b),
        _ => member::carrier_view::collect(b),
    }
}

// The bytes are the fourth word; without one there are none.
fn deliver(b: &mut [u8], line: &[u8]) -> Reply
    ensures { Gave (deliver_call (brought line.now) (byte_word line.now 2) b.old)
        (deliver_bytes (brought line.now) (byte_word line.now 2) b.old)
        b.old b.new result }
{
    let mut bytes = [0u8; crate::desk::PACKET];
    let n = test_script::parse::unhex(line, test_script::parse::word(line, 3), &mut bytes);
    member::messages::deliver::deliver(b, &bytes[..n], Member(word(line, 2)))
}

// The same bytes as a packet.
pub fn packet(b: &mut [u8], line: &[u8]) -> Result<Delivered, Refusal>
    ensures { GaveEach
        (packet_call (brought line.now) (byte_word line.now 2) b.old)
        (packet_bytes (brought line.now) (byte_word line.now 2) b.old)
        b.old b.new result }
{
    let mut bytes = [0u8; crate::desk::PACKET];
    let n = test_script::parse::unhex(line, test_script::parse::word(line, 3), &mut bytes);
    member::messages::packet::deliver(b, &bytes[..n], Member(word(line, 2)))
}
