// A member by itself: the start of its book.
ghost use Rattle.book_bytes.specs.Starts.{start_bytes};
ghost use Rattle.member.specs.Calls.{start_call};
ghost use Rattle.dvs.specs.BookCalls.{Gives};
ghost use Rattle.events.specs.Replies.{verdict_of};

use views::Member;

// The book of member `own` in a group of `members`, with the first view, identifier 0, of `first_set`.
#[unsafe(no_mangle)]
pub extern "C" fn dvs_start(book: &mut [u8], members: u32, first_set: u32, own: u32) -> u32
    ensures { Gives (verdict_of (start_call members first_set own book.old))
        (start_bytes members first_set own book.old) book.old book.new result }
{
    c_answers::code(member::start(
        book,
        c_answers::narrow(members, 0),
        c_answers::narrow(first_set, 0),
        Member(c_answers::narrow(own, 255)),
    ))
}
