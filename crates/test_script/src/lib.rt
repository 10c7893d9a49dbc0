// What the programs that run a script share: lines of standard input taken apart, answers written.
#![tactic(auto)]

pub mod input;
pub mod operand;
pub mod parse;
pub mod reply;
pub mod show;
