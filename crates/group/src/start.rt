// Start: 4 for ranges not of their lengths, then 1, 2, 3; then every byte is determined.
ghost use Rattle.std.specs.Prelude.{◌≡◌, ◌≤◌, ◌<◌, length, replicate};
ghost use Rattle.views.specs.Sizes.{view_size};
ghost use Rattle.views.specs.Limits.{max_members};
ghost use Rattle.wire.specs.Writer.{store_view};
ghost use Rattle.rules.specs.Group.{first_view};
ghost use Rattle.events.specs.Replies.{verdict_of};
ghost use Rattle.group_bytes.specs.Places.{layout_at, books_size};
ghost use Rattle.group_bytes.specs.Starts.{start_books, start_queues};
ghost use Rattle.group_bytes.specs.Steps.{start_result};
ghost use Rattle.group_bytes.specs.Groups.{ranges};
ghost use Rattle.group.specs.StartParts.{long_for};
ghost use Rattle.group.specs.StartCalls.{Began};

use views::refusal::{Refusal, Verdict};
use views::{Member, View, ViewId, limits, sizes};

// The first view alone is listed.
fn lay_list(list: &mut [u8], first: u8)
    requires { view_size ≤ length list.old }
    ensures { list.new ≡ store_view (replicate (length list.old) 0) 0 (first_view first) }
{
    wire::writer::clear(list);
    let view = View {
        id: ViewId(0),
        set: first,
    };
    wire::writer::store_view(list, 0, view);
}

// One view is made and marked as attempted, the layout has its number, and every queue is empty.
fn lay_queues(queues: &mut [u8])
    requires { layout_at < length queues.old }
    ensures { queues.new ≡ start_queues (length queues.old) }
{
    wire::writer::clear(queues);
    queues[group_bytes::MADE] = 1;
    numbers::put_number(queues, group_bytes::MARKS, group_bytes::MARKS_SIZE, 1);
    queues[group_bytes::LAYOUT] = sizes::LAYOUT;
}

// Each of n members has a fresh book; the others have none.
fn lay_books(all: &mut [u8], members: u8, first: u8)
    requires { (length all.old ≡ books_size) × (members ≤ max_members) }
    ensures { all.new ≡ start_books members first members all.old }
{
    wire::writer::clear(all);
    for p in 0..members {
        let a = book_bytes::SIZE * p as usize;
        book_bytes::fresh::book(&mut all[a..a + book_bytes::SIZE], members, first, Member(p));
    }
}

// The length of a list that has room for 1 to 32 views goes with the queues' length.
fn long(list: usize, all: usize, queues: usize) -> bool
    ensures { result ≡ long_for list all queues }
{
    if list % group_bytes::VIEW != 0 || all != group_bytes::BOOKS {
        return false;
    }
    let room = list / group_bytes::VIEW;
    !(1..=limits::VIEWS).contains(&room) || queues == group_bytes::HEAD + group_bytes::TABLE * room
}

// The verdict of a start.
fn startable(list: &[u8], all: &[u8], queues: &[u8], members: u8, first: u8) -> Verdict
    ensures { result ≡ verdict_of
        (start_result members first (ranges list.now all.now queues.now)) }
{
    if !long(list.len(), all.len(), queues.len()) {
        return Err(Refusal::RecordsUnsound);
    }
    if members < 1 {
        return Err(Refusal::MembersOutOfRange);
    }
    if limits::MEMBERS < members {
        return Err(Refusal::MembersOutOfRange);
    }
    let view = View {
        id: ViewId(0),
        set: first,
    };
    if !book_sound::views_at::set_fits(members, view) {
        return Err(Refusal::FirstSetUnfit);
    }
    let room = list.len() / group_bytes::VIEW;
    if room < 1 {
        return Err(Refusal::ListLength);
    }
    if limits::VIEWS < room {
        return Err(Refusal::ListLength);
    }
    Ok(())
}

// A group of so many members with a first view begins.
pub fn start(list: &mut [u8], all: &mut [u8], queues: &mut [u8], members: u8, first: u8) -> Verdict
    ensures { Began (ranges list.old all.old queues.old) members first
        (ranges list.new all.new queues.new) result }
{
    startable(list, all, queues, members, first)?;
    lay_list(list, first);
    lay_books(all, members, first);
    lay_queues(queues);
    Ok(())
}
