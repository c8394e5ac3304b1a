// The cipher unit: keys, blocks and plans over the lanes of any bench.
#![tactic(auto)]

pub mod unit;
