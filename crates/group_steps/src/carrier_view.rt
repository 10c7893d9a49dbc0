// The steps that change which views there are and which a member has: create and attempt, each in a file of its own,
// join, collect. Collect is the member's own, on its book among the eight: 6, then the step.
pub mod attempt;
pub mod create;

ghost use Rattle.std.specs.Prelude.{◌+◌, ◌*◌, ◌≤◌, ◌<◌, length, get_or, true, ◌≡◌};
ghost use Rattle.views.specs.Sizes.{view_size};
ghost use Rattle.wire.specs.Reader.{view_in};
ghost use Rattle.rules.specs.Member.{joins, collects};
ghost use Rattle.book_bytes.specs.Places.{members_at};
ghost use Rattle.book_bytes.specs.Books.{book_in, own_in_book, members_in};
ghost use Rattle.book_steps.specs.Acts.{join_bytes, collect_bytes};
ghost use Rattle.group_bytes.specs.Groups.{ranges_sound};
ghost use Rattle.group_steps.specs.OwnParts.{HasBook, of_member, OwnStep};
ghost use Rattle.group_steps.specs.VisitParts.{Joined};

use events::Reply;
use views::refusal::Refusal;
use views::{Member, ViewId};

// The view at a place of the list becomes the carrier view of the member p.
fn enter(list: &[u8], all: &mut [u8], p: Member, i: u8) -> Reply
    requires { HasBook all.old p.0 × (p.0 < get_or all.old members_at 0)
        × (view_size * i + view_size ≤ length list.now) }
    ensures { OwnStep p.0
        (of_member all.old p.0
        (λ b. joins (own_in_book b) (view_in list.now (view_size * i)) (book_in b)))
        (join_bytes (view_in list.now (view_size * i))) all.old all.new result }
{
    let v = wire::reader::load_view(list, group_bytes::VIEW * (i as usize));
    let a = book_bytes::SIZE * (p.0 as usize);
    let e = a + book_bytes::SIZE;
    book_steps::carrier_view::join(&mut all[a..e], v)
}

// The view with the identifier becomes the carrier view of the member p.
pub fn join(list: &[u8], all: &mut [u8], queues: &[u8], p: Member, id: ViewId) -> Reply
    requires { ranges_sound (record { list = list.now; books = all.old; queues = queues.now }) ≡ true }
    ensures { Joined
        (record { list = list.entry.now; books = all.old; queues = queues.now }) p.0 id.0
        all.new result }
{
    if all[book_bytes::MEMBERS] <= p.0 {
        return Err(Refusal::NoSuchMember);
    }
    let made = queues[group_bytes::MADE];
    let i = group_bytes::place(list, made, id);
    if made <= i {
        return Err(Refusal::NoSuchView);
    }
    enter(list, all, p, i)
}

// The carrier view becomes settled; only open views above it remain.
pub fn collect(all: &mut [u8], p: Member) -> Reply
    requires { HasBook all.old p.0 }
    ensures { OwnStep p.0 (of_member all.old p.0 (λ b. collects (members_in b) (book_in b)))
        collect_bytes all.old all.new result }
{
    let a = crate::book_at(all, p)?;
    book_steps::carrier_view::collect(&mut all[a..a + book_bytes::SIZE])
}
