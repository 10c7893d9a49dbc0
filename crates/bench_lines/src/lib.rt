// The bench's language: lines read and replies written, as bytes.
#![tactic(auto)]

pub mod lines;
pub mod replies;
pub mod texts;
