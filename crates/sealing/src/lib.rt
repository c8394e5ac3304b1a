// Blocks sealed under one key, as text: the input's bytes in, lines of hexadecimal digits out.
//
//   digits   a line of text for sixteen bytes
//   lanes    the key and the blocks in the lanes of a unit, and the lines read back from them
//   texts    the whole text of an input
#![tactic(auto)]

pub mod digits;
pub mod lanes;
pub mod texts;
