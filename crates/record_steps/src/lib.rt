// A member's steps on its small record, by value: what each gives, beside the definitions and the laws that each is the
// rule.
#![tactic(auto)]

pub mod carrier_view;
pub mod client_view;
pub mod messages;
pub mod tests;
