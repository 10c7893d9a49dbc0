// The whole group on three lent ranges: its start, one step of any kind, and whether it stays sound whatever the steps.
#![tactic(auto)]

pub mod start;
pub mod stays_sound;
pub mod step;
