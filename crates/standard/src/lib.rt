// The cipher of FIPS 197 as definitions (specs/), and what is shown of it for every key and block.
#![tactic(auto)]

pub mod cipher;
pub mod expansion;
pub mod field;
pub mod steps;
pub mod undoing;
