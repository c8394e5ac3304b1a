// The text of scripts, on bytes: lines, words, numbers and bytes in hexadecimal digits.
#![tactic(auto)]

pub mod lines;
pub mod reads;
pub mod words;
pub mod writes;
