// The limits, each once.
use crate::sizes;

// Members of a group.
pub const MEMBERS: u8 = 8;

// Views in a group's life, the first included; views in an info message.
pub const VIEWS: usize = 32;

// Open views of a member: every view but the settled one.
pub const OPEN: usize = VIEWS - 1;

// Messages outgoing in a member.
pub const OUTGOING: u8 = 16;

// Messages of a member waiting in a view.
pub const WAITING: u8 = 8;

// Messages ordered in a view, and so what a member takes in it and tells of it.
pub const ORDERED: u8 = 128;

// Bytes of the longest message, an info of 32 views: its kind, the identifier of the view sent in, the count of views
// and the views, and the count of numbers, of which it has none.
pub const LONGEST: usize = 1 + sizes::IDENTIFIER + 1 + sizes::VIEW * VIEWS + 1;
