// One gate: a kind, a target and two operands, by the numbers of a page or by registers.
use crate::kinds::Kind;

#[derive(Clone, Copy, Debug, PartialEq, Eq)]
pub struct Gate {
    pub kind: Kind,
    pub target: u16,
    pub first: u16,
    pub second: u16,
}
