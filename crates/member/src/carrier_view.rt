// The calls that change the views that the member holds: attempt and collect as the member's steps stand, where 4 and 6
// let them, and join, where 7 does too.
ghost use Rattle.std.specs.Prelude.{true, ◌≡◌};
ghost use Rattle.views.specs.Refusals.{left};
ghost use Rattle.events.specs.Replies.{reply_of, verdict_of};
ghost use Rattle.book_bytes.specs.Books.{book_in, bytes_sound, members_in, own_in_book};
ghost use Rattle.book_steps.specs.Acts.{join_bytes, attempt_bytes, collect_bytes};
ghost use Rattle.member.specs.Parts.{joining};
ghost use Rattle.member.specs.Calls.{Gave, join_call, attempt_call, collect_call};

use crate::admit;
use events::Reply;
use views::View;
use views::refusal::Refusal;

// The view v becomes the carrier view of a sound book: 7, 11, 12.
fn join_view(b: &mut [u8], v: View) -> Reply
    requires { bytes_sound b.old ≡ true }
    ensures { (result ≡ reply_of
        (joining (members_in b.old) (own_in_book b.old) v (book_in b.old)))
        × (b.new ≡ left
        (verdict_of (joining (members_in b.old) (own_in_book b.old) v (book_in b.old)))
        (join_bytes v b.old) b.old) }
{
    if !book_sound::views_at::set_fits(b[book_bytes::MEMBERS], v) {
        return Err(Refusal::SetUnfit);
    }
    book_steps::carrier_view::join(b, v)
}

// The view becomes the carrier view.
pub fn join(b: &mut [u8], v: View) -> Reply
    ensures { Gave (join_call v b.old) (join_bytes v b.old) b.old
        b.new result }
{
    admit(b)?;
    join_view(b, v)
}

// The carrier view becomes open and becomes the client view.
pub fn attempt(b: &mut [u8]) -> Reply
    ensures { Gave (attempt_call b.old) (attempt_bytes b.old) b.old
        b.new result }
{
    admit(b)?;
    book_steps::carrier_view::attempt(b)
}

// The carrier view becomes settled; only open views above it remain.
pub fn collect(b: &mut [u8]) -> Reply
    ensures { Gave (collect_call b.old) (collect_bytes b.old) b.old
        b.new result }
{
    admit(b)?;
    book_steps::carrier_view::collect(b)
}
