// A member by itself: join, attempt, collect.
ghost use Rattle.views.specs.Lists.{view_of};
ghost use Rattle.events.specs.Replies.{verdict_of};
ghost use Rattle.book_steps.specs.Acts.{join_bytes, attempt_bytes, collect_bytes};
ghost use Rattle.member.specs.Calls.{join_call, attempt_call, collect_call};
ghost use Rattle.dvs.specs.BookCalls.{Gives};
ghost use Rattle.dvs.specs.EventCalls.{Shows};

use views::refusal::Refusal;
use views::{View, ViewId};

// The carrier gave this member a view: it becomes the carrier view.
#[unsafe(no_mangle)]
pub extern "C" fn dvs_join(book: &mut [u8], view: u32, set: u32) -> u32
    ensures { Gives (verdict_of (join_call (view_of view set) book.old))
        (join_bytes (view_of view set) book.old) book.old book.new result }
{
    let joined = View {
        id: ViewId(view),
        set: c_answers::narrow(set, 0),
    };
    c_answers::code(member::carrier_view::join(book, joined))
}

// The carrier view is attempted: it becomes the client view.
#[unsafe(no_mangle)]
pub extern "C" fn dvs_attempt(book: &mut [u8], event: &mut [u8]) -> u32
    ensures { Shows (attempt_call book.old) (attempt_bytes book.old) book.old
        book.new event.old event.new result }
{
    if event.len() != c_answers::EVENT {
        return c_answers::refused(Refusal::RecordsUnsound);
    }
    c_answers::answer(event, member::carrier_view::attempt(book))
}

// The carrier view, registered by all its members, becomes settled.
#[unsafe(no_mangle)]
pub extern "C" fn dvs_collect(book: &mut [u8]) -> u32
    ensures { Gives (verdict_of (collect_call book.old)) (collect_bytes book.old)
        book.old book.new result }
{
    c_answers::code(member::carrier_view::collect(book))
}
