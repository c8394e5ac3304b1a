// Scheduling, sealing and opening in every lane, on any bench.
#![tactic(auto)]

pub mod calls;
