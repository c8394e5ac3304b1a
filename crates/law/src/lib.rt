// The law over every list of calls on a unit.
//
//   calls   calls and questions in a list, each with its answer
//   run     a list performed on a unit, and the law
#![tactic(auto)]

pub mod calls;
pub mod run;
