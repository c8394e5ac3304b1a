// Scripts of calls on a bench: what a line says, what it does, and what is answered.
#![tactic(auto)]

pub mod answers;
pub mod benchlines;
pub mod commands;
pub mod memory;
pub mod performs;
pub mod readers;
pub mod runs;
pub mod setups;
pub mod verbs;
pub mod writers;
