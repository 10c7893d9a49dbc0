// What a step says to the outside: its outward event, where it has one, or its refusal.
#![tactic(auto)]

pub mod kinds;

use views::refusal::{Refusal, Verdict};
use views::{Member, View, ViewId};

// An entry of a view: the member that sent it, and its number.
#[derive(Clone, Copy, Debug, PartialEq, Eq)]
pub struct Item {
    pub sender: Member,
    pub entry: u64,
}

// An outward event: the member, its view, and what the event is about.
#[derive(Clone, Copy, Debug, PartialEq, Eq)]
pub enum Event {
    Attempt(Member, View),
    Register(Member, ViewId),
    Send(Member, ViewId, u64),
    Hand(Member, ViewId, Item),
    Safe(Member, ViewId, Item),
}

// What a call gives: the event of an accepted step that has one, or the refusal.
pub type Reply = Result<Option<Event>, Refusal>;

// What a packet's delivery gives: how many of its messages were delivered, and the verdict on the next, which stopped
// it, if there is a next one.
#[derive(Clone, Copy, Debug, PartialEq, Eq)]
pub struct Delivered {
    pub count: usize,
    pub stopped: Verdict,
}
