// The member by itself: a host lends its book and calls start, then the member's steps, on any bytes. What is no sound
// book gets 4 before anything else.
#![tactic(auto)]

pub mod carrier_view;
pub mod client_view;
pub mod messages;

ghost use Rattle.std.specs.Prelude.{◌≡◌};
ghost use Rattle.views.specs.Refusals.{left};
ghost use Rattle.events.specs.Replies.{verdict_of};
ghost use Rattle.book_bytes.specs.Starts.{start_bytes};
ghost use Rattle.member.specs.Parts.{admitted};
ghost use Rattle.member.specs.Calls.{start_call, start_reply};

pub use events::Delivered;
use events::Reply;
use views::refusal::{Refusal, Verdict};
use views::{Member, View, ViewId, limits};

// 4 for bytes that are no sound book, then 6 for an own number not below the members.
pub fn admit(b: &[u8]) -> Verdict
    ensures { result ≡ admitted b.now }
{
    if !book_sound::sound(b) {
        return Err(Refusal::RecordsUnsound);
    }
    if b[book_bytes::MEMBERS] <= b[book_bytes::SELF] {
        return Err(Refusal::NoSuchMember);
    }
    Ok(())
}

// 4 for a book not of its length, then 1, 2, 6.
fn startable(b: &[u8], members: u8, set: u8, own: Member) -> Verdict
    ensures { result ≡ verdict_of (start_call members set own.0 b.now) }
{
    if b.len() != book_bytes::SIZE {
        return Err(Refusal::RecordsUnsound);
    }
    if !(1..=limits::MEMBERS).contains(&members) {
        return Err(Refusal::MembersOutOfRange);
    }
    let view = View { id: ViewId(0), set };
    if !book_sound::views_at::set_fits(members, view) {
        return Err(Refusal::FirstSetUnfit);
    }
    if members <= own.0 {
        return Err(Refusal::NoSuchMember);
    }
    Ok(())
}

// The member is given the members, the first set and its number.
pub fn start(b: &mut [u8], members: u8, set: u8, own: Member) -> Reply
    ensures { (result ≡ start_reply (start_call members set own.0 b.old))
        × (b.new ≡ left (verdict_of (start_call members set own.0 b.old))
        (start_bytes members set own.0 b.old) b.old) }
{
    startable(b, members, set, own)?;
    book_bytes::fresh::book(b, members, set, own);
    Ok(None)
}
