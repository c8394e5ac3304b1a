// The pages and the plans, and how a plan is played on any bench.
#![tactic(auto)]

pub mod pages;
pub mod plays;
pub mod runs;
pub mod tables;
