// Scripts of calls on a unit: what a line says, what the unit answers, and what is written.
//
//   verbs     the words that name a call
//   readers   reading a line that writes a call
//   turns     what a script gives: calls, and lines that cannot be read
//   scripts   reading the lines of a script
//   writers   writing answers
//   runs      a whole script, on one unit or on two
#![tactic(auto)]

pub mod readers;
pub mod runs;
pub mod scripts;
pub mod turns;
pub mod verbs;
pub mod writers;
