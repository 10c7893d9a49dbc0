// The steps of a group on its three lent ranges, where they are sound.
#![tactic(auto)]

pub mod carrier_view;
pub mod client_view;
pub mod messages;

ghost use Rattle.std.specs.Prelude.{◌≡◌, ◌<◌, length};
ghost use Rattle.book_bytes.specs.Places.{members_at};
ghost use Rattle.group_steps.specs.OwnParts.{book_place};

use views::Member;
use views::refusal::Refusal;

// Where the book of the member p begins among the eight, or 6.
fn book_at(all: &[u8], p: Member) -> Result<usize, Refusal>
    requires { members_at < length all.now }
    ensures { result ≡ book_place all.now p.0 }
{
    if all[book_bytes::MEMBERS] <= p.0 {
        return Err(Refusal::NoSuchMember);
    }
    Ok(book_bytes::SIZE * p.0 as usize)
}
