// The archive: a text from which blocks can be recovered by hand, with every page, plan and number in it.
#![tactic(auto)]

pub mod archives;
mod cursors;
mod examples;
mod lines;
pub mod listings;
mod names;
mod planlists;
mod prose;
mod steps;
pub mod traces;
