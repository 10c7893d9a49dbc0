// How many bytes the parts of messages and of lent records take, each once. Every size and place is made of these and
// of the limits. And the number of the layout that these places make.
// A view identifier.
pub const IDENTIFIER: usize = 4;

// A view: its identifier, then its set.
pub const VIEW: usize = IDENTIFIER + 1;

// A number: an entry number, or a told's count.
pub const NUMBER: usize = 8;

// The number of the layout. It rises when a byte of a book or of a group gets another place or another meaning, so that
// bytes kept from before are refused and not misread.
pub const LAYOUT: u8 = 1;
