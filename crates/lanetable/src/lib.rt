// What a unit records of its lanes.
//
//   records   what is recorded of one lane
//   table     the records of all lanes
#![tactic(auto)]

pub mod records;
pub mod table;
