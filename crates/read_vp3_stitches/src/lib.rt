// The stitches of a VP3 block: what a step does, how much they add to the answers, and the answers themselves.
#![tactic(auto)]

pub mod count;
pub mod fill;
pub mod follow;
pub mod steps;
