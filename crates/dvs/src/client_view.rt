// A member by itself, in its client view: register, send, hand, tell, safe.
ghost use Rattle.events.specs.Replies.{verdict_of};
ghost use Rattle.book_steps.specs.Acts.{register_bytes, send_bytes, hand_bytes, tell_bytes, safe_bytes};
ghost use Rattle.member.specs.Calls.{register_call, send_call, hand_call, tell_call, safe_call};
ghost use Rattle.dvs.specs.EventCalls.{Shows};
ghost use Rattle.dvs.specs.BookCalls.{Gives};

use views::refusal::Refusal;

// The client registers in the client view.
#[unsafe(no_mangle)]
pub extern "C" fn dvs_register(book: &mut [u8], event: &mut [u8]) -> u32
    ensures { Shows (register_call book.old) (register_bytes book.old) book.old
        book.new event.old event.new result }
{
    if event.len() != c_answers::EVENT {
        return c_answers::refused(Refusal::RecordsUnsound);
    }
    c_answers::answer(event, member::client_view::register(book))
}

// The client sends an entry number in the client view.
#[unsafe(no_mangle)]
pub extern "C" fn dvs_send(book: &mut [u8], entry: u64, event: &mut [u8]) -> u32
    ensures { Shows (send_call entry book.old) (send_bytes entry book.old)
        book.old book.new event.old event.new result }
{
    if event.len() != c_answers::EVENT {
        return c_answers::refused(Refusal::RecordsUnsound);
    }
    c_answers::answer(event, member::client_view::send(book, entry))
}

// The next entry of the client view is given to the client.
#[unsafe(no_mangle)]
pub extern "C" fn dvs_hand(book: &mut [u8], event: &mut [u8]) -> u32
    ensures { Shows (hand_call book.old) (hand_bytes book.old) book.old
        book.new event.old event.new result }
{
    if event.len() != c_answers::EVENT {
        return c_answers::refused(Refusal::RecordsUnsound);
    }
    c_answers::answer(event, member::client_view::hand(book))
}

// The others are told how many entries the client has.
#[unsafe(no_mangle)]
pub extern "C" fn dvs_tell(book: &mut [u8]) -> u32
    ensures { Gives (verdict_of (tell_call book.old)) (tell_bytes book.old)
        book.old book.new result }
{
    c_answers::code(member::client_view::tell(book))
}

// The next entry that every client of the view has is reported safe.
#[unsafe(no_mangle)]
pub extern "C" fn dvs_safe(book: &mut [u8], event: &mut [u8]) -> u32
    ensures { Shows (safe_call book.old) (safe_bytes book.old) book.old
        book.new event.old event.new result }
{
    if event.len() != c_answers::EVENT {
        return c_answers::refused(Refusal::RecordsUnsound);
    }
    c_answers::answer(event, member::client_view::safe(book))
}
