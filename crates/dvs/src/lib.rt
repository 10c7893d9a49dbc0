// The C interface: plain numbers and byte ranges, 0 for accepted or the refusal's number. docs/LAYOUT.md has the bytes
// of what a call gives out, and include/dvs.h says the same to a C or C++ host. Numbers come in 32 bits, so that
// nothing is cut off silently.
#![tactic(auto)]

pub mod carrier_view;
pub mod checks;
pub mod client_view;
pub mod crossing;
pub mod forming;
pub mod library;
pub mod messages;
pub mod runs;
pub mod start;
pub mod whole_group;
