// Which attempted views does a set cross, of which does it hold a majority, and which is the newest before an
// identifier? Nothing of the group changes.
ghost use Rattle.std.specs.Prelude.{true, false};
ghost use Rattle.group_bytes.specs.Groups.{ranges};
ghost use Rattle.dvs.specs.CrossingCalls.{Crosses, Seeks};

use views::ViewId;
use views::refusal::Refusal;

// The identifiers of the views found go to the front of the buffer, newest first, and their number to `count`.
fn cross(
    list: &[u8],
    books: &[u8],
    queues: &[u8],
    hold: bool,
    set: u32,
    views: &mut [u8],
    count: &mut [u8],
) -> u32
    ensures { Crosses (ranges list.now books.now queues.now) hold set
        views.old views.new count.old count.new result }
{
    if count.len() != c_answers::LENGTH {
        return c_answers::refused(Refusal::RecordsUnsound);
    }
    let found = group_crossing::query(list, books, queues, hold, c_answers::narrow(set, 0), views);
    c_answers::measure(count, found)
}

// The attempted views with which the set shares a member.
#[unsafe(no_mangle)]
pub extern "C" fn dvs_group_crossing(
    list: &[u8],
    books: &[u8],
    queues: &[u8],
    set: u32,
    views: &mut [u8],
    count: &mut [u8],
) -> u32
    ensures { Crosses (ranges list.now books.now queues.now) false set
        views.old views.new count.old count.new result }
{
    cross(list, books, queues, false, set, views, count)
}

// The attempted views of which the set holds a majority.
#[unsafe(no_mangle)]
pub extern "C" fn dvs_group_holding(
    list: &[u8],
    books: &[u8],
    queues: &[u8],
    set: u32,
    views: &mut [u8],
    count: &mut [u8],
) -> u32
    ensures { Crosses (ranges list.now books.now queues.now) true set
        views.old views.new count.old count.new result }
{
    cross(list, books, queues, true, set, views, count)
}

// The newest attempted view whose identifier is below `view`: 1 and the view record, or zeros if there is none.
#[unsafe(no_mangle)]
pub extern "C" fn dvs_group_newest_before(
    list: &[u8],
    books: &[u8],
    queues: &[u8],
    view: u32,
    found: &mut [u8],
) -> u32
    ensures { Seeks (ranges list.now books.now queues.now) «view»
        found.old found.new result }
{
    if found.len() != c_answers::FOUND {
        return c_answers::refused(Refusal::RecordsUnsound);
    }
    if !group_sound::sound(list, books, queues) {
        return c_answers::refused(Refusal::RecordsUnsound);
    }
    let f = group_crossing::newest_before(list, books, queues, ViewId(view));
    c_answers::put_found(found, f);
    0
}
