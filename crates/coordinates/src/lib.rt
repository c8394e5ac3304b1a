// The coordinates of bytes (specs/), and what is shown of them.
#![tactic(auto)]

pub mod basis;
pub mod carried;
pub mod tower;
