// Messages as bytes: a kind, the identifier of the view sent in, a section of views and a section of numbers.
#![tactic(auto)]

pub mod format;
pub mod in_bytes;
pub mod merging;
pub mod reader;
pub mod record;
pub mod single;
pub mod writer;

use views::list::Views;
use views::{View, ViewId};

// What is in a place without a view.
const NO_VIEW: View = View {
    id: ViewId(0),
    set: 0,
};

// The four messages. An info's views stand beside it.
#[derive(Clone, Copy)]
pub enum Message {
    Client(u64),
    Info,
    Registered,
    Told(u8),
}

// A message with the identifier of the view sent in, and an info's views: settled first, then open, identifiers rising.
#[derive(Clone, Copy)]
pub struct Frame {
    pub view: ViewId,
    pub message: Message,
    pub views: Views,
}

// What reading gives of the message at the front of bytes: how many bytes it took, and its frame.
#[derive(Clone, Copy)]
pub struct Reading {
    pub taken: usize,
    pub frame: Frame,
}
