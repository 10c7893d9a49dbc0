// Messages and the bytes that go over the line: a member gives one out and takes one in, or a packet of them; and any
// message is read into a record and written from one.
ghost use Rattle.events.specs.Replies.{verdict_of};
ghost use Rattle.member.specs.Calls.{deliver_call, deliver_bytes};
ghost use Rattle.dvs.specs.MessageCalls.{Passes, Delivers, Reads, ReadsFront, Writes};
ghost use Rattle.dvs.specs.BookCalls.{Gives};

use views::Member;
use views::refusal::Refusal;
use wire::format;

// The first outgoing message goes to the front of the buffer, and its length to `length`.
#[unsafe(no_mangle)]
pub extern "C" fn dvs_pass(book: &mut [u8], buffer: &mut [u8], length: &mut [u8]) -> u32
    ensures { Passes book.old book.new buffer.old buffer.new
        length.old length.new result }
{
    if length.len() != c_answers::LENGTH {
        return c_answers::refused(Refusal::RecordsUnsound);
    }
    c_answers::measure(length, member::messages::pass::pass(book, buffer))
}

// The next message of the carrier view's order is taken.
#[unsafe(no_mangle)]
pub extern "C" fn dvs_deliver(book: &mut [u8], bytes: &[u8], sender: u32) -> u32
    ensures { Gives (verdict_of (deliver_call bytes.now sender book.old))
        (deliver_bytes bytes.now sender book.old) book.old book.new result }
{
    c_answers::code(member::messages::deliver::deliver(
        book,
        bytes,
        Member(c_answers::narrow(sender, 255)),
    ))
}

// The messages in `bytes`, one behind the other and all from one sender, are taken up to the first refusal. How many
// were taken and what stopped it goes to `delivery`.
#[unsafe(no_mangle)]
pub extern "C" fn dvs_deliver_packet(
    book: &mut [u8],
    bytes: &[u8],
    sender: u32,
    delivery: &mut [u8],
) -> u32
    ensures { Delivers bytes.now sender book.old book.new
        delivery.old delivery.new result }
{
    if delivery.len() != c_answers::DELIVERY {
        return c_answers::refused(Refusal::RecordsUnsound);
    }
    let q = Member(c_answers::narrow(sender, 255));
    c_answers::account(delivery, member::messages::packet::deliver(book, bytes, q))
}

// The message at the front of the bytes is read into the record, and how many bytes it took goes to `length`.
#[unsafe(no_mangle)]
pub extern "C" fn dvs_read_front(bytes: &[u8], message: &mut [u8], length: &mut [u8]) -> u32
    ensures { ReadsFront bytes.now message.old message.new
        length.old length.new result }
{
    if message.len() != wire::record::RECORD {
        return c_answers::refused(Refusal::RecordsUnsound);
    }
    if length.len() != c_answers::LENGTH {
        return c_answers::refused(Refusal::RecordsUnsound);
    }
    c_answers::measure(length, wire::record::read_front(bytes, message))
}

// One message, which the bytes must be as a whole, is read into the record.
#[unsafe(no_mangle)]
pub extern "C" fn dvs_read(bytes: &[u8], message: &mut [u8]) -> u32
    ensures { Reads bytes.now message.old message.new result }
{
    if message.len() != wire::record::RECORD {
        return c_answers::refused(Refusal::RecordsUnsound);
    }
    c_answers::code(wire::record::read(bytes, message))
}

// The record's message goes to the front of the buffer, and its length to `length`.
#[unsafe(no_mangle)]
pub extern "C" fn dvs_write(message: &[u8], buffer: &mut [u8], length: &mut [u8]) -> u32
    ensures { Writes message.now buffer.old buffer.new length.old
        length.new result }
{
    if message.len() != wire::record::RECORD {
        return c_answers::refused(Refusal::RecordsUnsound);
    }
    if length.len() != c_answers::LENGTH {
        return c_answers::refused(Refusal::RecordsUnsound);
    }
    if !format::known(message[wire::record::KIND]) {
        return c_answers::refused(Refusal::UnknownKind);
    }
    c_answers::measure(length, wire::record::write(message, buffer))
}
