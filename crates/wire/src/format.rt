// The kinds of messages, where the parts of a message stand, and what the format allows, by kind.
ghost use Rattle.std.specs.Prelude.{◌≡◌};
ghost use Rattle.views.specs.Lists.{list_of};
ghost use Rattle.wire.specs.Format.{kind_of, is_known, views_allowed, numbers_allowed, some_empty, told_fits};
ghost use Rattle.wire.specs.Format.{content_of};
ghost use Rattle.wire.specs.Writer.{number_of};
ghost use Rattle.wire.specs.Reader.{message_of};

use crate::Message;
use views::list::Views;
use views::refusal::{Refusal, Verdict};
use views::{limits, list, sizes};

pub const CLIENT: u8 = 1;

pub const INFO: u8 = 2;

pub const REGISTERED: u8 = 3;

pub const TOLD: u8 = 4;

// The identifier of the view sent in stands behind the kind, the count of views behind that, and then the views.
pub const IDENTIFIER_AT: usize = 1;

pub const COUNT_AT: usize = IDENTIFIER_AT + sizes::IDENTIFIER;

pub const VIEWS_AT: usize = COUNT_AT + 1;

// Bytes of a message without views and numbers, the count of numbers the last of them.
pub const SHORTEST: usize = VIEWS_AT + 1;

// The message's kind.
pub fn kind(m: Message) -> u8
    ensures { result ≡ kind_of m }
{
    match m {
        Message::Client(_) => CLIENT,
        Message::Info => INFO,
        Message::Registered => REGISTERED,
        Message::Told(_) => TOLD,
    }
}

// The number that the message carries, 0 for none.
pub fn number(m: Message) -> u64
    ensures { result ≡ number_of m }
{
    match m {
        Message::Client(x) => x,
        Message::Info | Message::Registered => 0,
        Message::Told(k) => k as u64,
    }
}

// The message of a kind with a number.
#[tactic(auto, unfolding(crate::specs::Reader::message_of))]
pub fn message(kind: u8, x: u64) -> Message
    ensures { result ≡ message_of kind x }
{
    match kind {
        CLIENT => Message::Client(x),
        INFO => Message::Info,
        REGISTERED => Message::Registered,
        // A cast has to lose nothing, and x may be any number.
        _ => Message::Told((x % 256) as u8),
    }
}

#[tactic(auto, unfolding(crate::specs::Format::is_known))]
pub fn known(kind: u8) -> bool
    ensures { result ≡ is_known kind }
{
    (CLIENT..=TOLD).contains(&kind)
}

// A message of the kind may carry n views.
#[tactic(auto, unfolding(crate::specs::Format::views_allowed))]
pub fn views_allowed(kind: u8, n: usize) -> bool
    ensures { result ≡ views_allowed kind n }
{
    if kind == INFO {
        (1..=limits::VIEWS).contains(&n)
    } else {
        n == 0
    }
}

// A message of the kind may carry n numbers.
#[tactic(auto, unfolding(crate::specs::Format::numbers_allowed))]
pub fn numbers_allowed(kind: u8, n: usize) -> bool
    ensures { result ≡ numbers_allowed kind n }
{
    match kind {
        CLIENT | TOLD => n == 1,
        _ => n == 0,
    }
}

// Some listed set is empty.
pub fn some_empty(list: Views) -> bool
    ensures { result ≡ some_empty (list_of list) }
{
    list.at[..list::used(list.count)].iter().any(|v| v.set == 0)
}

// A told's count is 1 to 128.
#[tactic(auto, unfolding(crate::specs::Format::told_fits))]
pub fn told_fits(kind: u8, x: u64) -> bool
    ensures { result ≡ told_fits kind x }
{
    kind != TOLD || (1..=limits::ORDERED as u64).contains(&x)
}

// What is asked of a whole message: no empty set, rising identifiers, a told's count.
pub fn content(kind: u8, list: Views, x: u64) -> Verdict
    ensures { result ≡ content_of kind (list_of list) x }
{
    if some_empty(list) {
        return Err(Refusal::EmptySet);
    }
    if !list::rising(list) {
        return Err(Refusal::NotRising);
    }
    if !told_fits(kind, x) {
        return Err(Refusal::ToldOutOfRange);
    }
    Ok(())
}
