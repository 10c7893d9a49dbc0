// Attempt: the member's own step, on its book among the eight, 6 first. Its view is then marked in the head of the
// queues.
ghost use Rattle.std.specs.Prelude.{true, ◌≡◌, ◌+◌, ◌*◌, ◌≤◌, length, get_or};
ghost use Rattle.views.specs.Limits.{max_views};
ghost use Rattle.views.specs.Sizes.{view_size};
ghost use Rattle.views.specs.Sets.{one};
ghost use Rattle.views.specs.Lists.{is_rising};
ghost use Rattle.wire.specs.Reader.{views_in};
ghost use Rattle.rules.specs.Member.{attempts};
ghost use Rattle.book_bytes.specs.Books.{book_in, own_in_book, members_in};
ghost use Rattle.book_steps.specs.Acts.{few_open, attempt_bytes};
ghost use Rattle.group_bytes.specs.Places.{made_at, marks_at, marks_size};
ghost use Rattle.group_bytes.specs.Groups.{place_of, ranges_sound};
ghost use Rattle.group_bytes.specs.Moves.{marked};
ghost use Rattle.group_steps.specs.OwnParts.{HasBook, of_member, OwnStep, Attempted};

use events::{Event, Reply};
use views::{Member, ViewId};

// The carrier view becomes open and becomes the client view, in the member's book.
fn own(all: &mut [u8], p: Member) -> Reply
    requires { HasBook all.old p.0 }
    ensures { OwnStep p.0
        (of_member all.old p.0 (λ b. few_open (attempts one (members_in b) (own_in_book b) (book_in b))))
        attempt_bytes all.old all.new result }
{
    let a = crate::book_at(all, p)?;
    book_steps::carrier_view::attempt(&mut all[a..a + book_bytes::SIZE])
}

// Marks the view with the identifier as attempted.
fn mark(list: &[u8], queues: &mut [u8], id: ViewId)
    requires { (marks_at + marks_size ≤ length queues.old) × (get_or queues.old made_at 0 ≤ max_views)
        × (view_size * get_or queues.old made_at 0 ≤ length list.now)
        × (is_rising (views_in list.now 0 (get_or queues.old made_at 0)) ≡ true) }
    ensures { queues.new ≡ marked queues.old
        (place_of id.0 (views_in list.now 0 (get_or queues.old made_at 0))) }
{
    let i = group_bytes::place(list, queues[group_bytes::MADE], id);
    let marks = numbers::get_number(queues, group_bytes::MARKS, group_bytes::MARKS_SIZE);
    numbers::put_number(
        queues,
        group_bytes::MARKS,
        group_bytes::MARKS_SIZE,
        marks | (1u64 << i),
    );
}

// The carrier view becomes open, becomes the client view and is marked as attempted.
pub fn attempt(list: &[u8], all: &mut [u8], queues: &mut [u8], p: Member) -> Reply
    requires { ranges_sound (record { list = list.now; books = all.old; queues = queues.old }) ≡ true }
    ensures { Attempted
        (record { list = list.entry.now; books = all.old; queues = queues.old }) p.0
        all.new queues.new result }
{
    let happened = own(all, p)?;
    if let Some(Event::Attempt(_, view)) = happened {
        mark(list, queues, view.id);
    }
    Ok(happened)
}
