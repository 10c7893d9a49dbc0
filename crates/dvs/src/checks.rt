// Whether bytes are what the calls take: a member's book, the three ranges of a group. Nothing changes.
ghost use Rattle.std.specs.Prelude.{◌≡◌};
ghost use Rattle.views.specs.Refusals.{code_of};
ghost use Rattle.group_bytes.specs.Groups.{ranges};
ghost use Rattle.dvs.specs.BookCalls.{checking};
ghost use Rattle.dvs.specs.GroupCalls.{group_checking};

use views::refusal::Refusal;

// Whether the bytes are a book that every call of the member takes.
#[unsafe(no_mangle)]
pub extern "C" fn dvs_check(book: &[u8]) -> u32
    ensures { result ≡ code_of (checking book.now) }
{
    c_answers::code(member::admit(book))
}

// Whether the three ranges are a group that every step takes.
#[unsafe(no_mangle)]
pub extern "C" fn dvs_group_check(list: &[u8], books: &[u8], queues: &[u8]) -> u32
    ensures { result ≡ code_of
        (group_checking (ranges list.now books.now queues.now)) }
{
    if !group_sound::sound(list, books, queues) {
        return c_answers::refused(Refusal::RecordsUnsound);
    }
    0
}
