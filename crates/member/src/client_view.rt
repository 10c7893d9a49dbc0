// The calls in the member's client view, which are its steps as they stand, where 4 and 6 let them.
ghost use Rattle.book_steps.specs.Acts.{register_bytes, send_bytes, hand_bytes, tell_bytes, safe_bytes};
ghost use Rattle.member.specs.Calls.{Gave, register_call, send_call, hand_call, tell_call, safe_call};

use crate::admit;
use events::Reply;

// Noted for the client view; outgoing gains a registered message.
pub fn register(b: &mut [u8]) -> Reply
    ensures { Gave (register_call b.old) (register_bytes b.old) b.old
        b.new result }
{
    admit(b)?;
    book_steps::client_view::register(b)
}

// Outgoing gains a client message.
pub fn send(b: &mut [u8], entry: u64) -> Reply
    ensures { Gave (send_call entry b.old) (send_bytes entry b.old) b.old
        b.new result }
{
    admit(b)?;
    book_steps::client_view::send(b, entry)
}

// The next of the client view's inward list is given out.
pub fn hand(b: &mut [u8]) -> Reply
    ensures { Gave (hand_call b.old) (hand_bytes b.old) b.old b.new
        result }
{
    admit(b)?;
    book_steps::client_view::hand(b)
}

// Outgoing gains told, with the number handed out in the client view.
pub fn tell(b: &mut [u8]) -> Reply
    ensures { Gave (tell_call b.old) (tell_bytes b.old) b.old b.new
        result }
{
    admit(b)?;
    book_steps::client_view::tell(b)
}

// The next handed message not yet reported is reported, once every member of the view told of it.
pub fn safe(b: &mut [u8]) -> Reply
    ensures { Gave (safe_call b.old) (safe_bytes b.old) b.old b.new
        result }
{
    admit(b)?;
    book_steps::client_view::safe(b)
}
