// The member by itself: its messages, given out as bytes and taken in from them. What is no sound book gets 4 before
// anything else.
pub mod deliver;
pub mod packet;
pub mod pass;
