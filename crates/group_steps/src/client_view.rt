// The steps in a member's client view, on its book among the eight: 6, then the step.
ghost use Rattle.rules.specs.Member.{registers, sends, hands, tells, safes};
ghost use Rattle.book_bytes.specs.Books.{book_in, own_in_book, members_in};
ghost use Rattle.book_steps.specs.Acts.{register_bytes, send_bytes, hand_bytes, tell_bytes, safe_bytes};
ghost use Rattle.group_steps.specs.OwnParts.{HasBook, of_member, OwnStep};

use events::Reply;
use views::Member;

// Noted for the client view; outgoing gains a registered message.
pub fn register(all: &mut [u8], p: Member) -> Reply
    requires { HasBook all.old p.0 }
    ensures { OwnStep p.0 (of_member all.old p.0 (λ b. registers (own_in_book b) (book_in b)))
        register_bytes all.old all.new result }
{
    let a = crate::book_at(all, p)?;
    book_steps::client_view::register(&mut all[a..a + book_bytes::SIZE])
}

// Outgoing gains a client message.
pub fn send(all: &mut [u8], p: Member, entry: u64) -> Reply
    requires { HasBook all.old p.0 }
    ensures { OwnStep p.0 (of_member all.old p.0 (λ b. sends (own_in_book b) entry (book_in b)))
        (send_bytes entry) all.old all.new result }
{
    let a = crate::book_at(all, p)?;
    book_steps::client_view::send(&mut all[a..a + book_bytes::SIZE], entry)
}

// The next of the client view's inward list is given out.
pub fn hand(all: &mut [u8], p: Member) -> Reply
    requires { HasBook all.old p.0 }
    ensures { OwnStep p.0 (of_member all.old p.0 (λ b. hands (own_in_book b) (book_in b))) hand_bytes
        all.old all.new result }
{
    let a = crate::book_at(all, p)?;
    book_steps::client_view::hand(&mut all[a..a + book_bytes::SIZE])
}

// Outgoing gains told, with the number handed out in the client view.
pub fn tell(all: &mut [u8], p: Member) -> Reply
    requires { HasBook all.old p.0 }
    ensures { OwnStep p.0 (of_member all.old p.0 (λ b. tells (own_in_book b) (book_in b))) tell_bytes
        all.old all.new result }
{
    let a = crate::book_at(all, p)?;
    book_steps::client_view::tell(&mut all[a..a + book_bytes::SIZE])
}

// The next handed message not yet reported is reported.
pub fn safe(all: &mut [u8], p: Member) -> Reply
    requires { HasBook all.old p.0 }
    ensures { OwnStep p.0
        (of_member all.old p.0 (λ b. safes (members_in b) (own_in_book b) (book_in b))) safe_bytes
        all.old all.new result }
{
    let a = crate::book_at(all, p)?;
    book_steps::client_view::safe(&mut all[a..a + book_bytes::SIZE])
}
