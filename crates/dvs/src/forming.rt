// A whole group's driver: one call forms a view.
ghost use Rattle.group_bytes.specs.Groups.{ranges};
ghost use Rattle.dvs.specs.GroupCalls.{Forms};

use views::ViewId;
use views::refusal::Refusal;

// The newest view, `view`, which nobody has joined, is taken from made to settled; `count` gets the number of steps.
#[unsafe(no_mangle)]
pub extern "C" fn dvs_group_form(
    list: &mut [u8],
    books: &mut [u8],
    queues: &mut [u8],
    view: u32,
    count: &mut [u8],
) -> u32
    ensures { Forms (ranges list.old books.old queues.old) «view»
        (ranges list.new books.new queues.new) count.old count.new
        result }
{
    if count.len() != c_answers::LENGTH {
        return c_answers::refused(Refusal::RecordsUnsound);
    }
    let taken = group_form::form(list, books, queues, ViewId(view));
    c_answers::measure(count, taken.map(|steps| steps as usize))
}
