// The six kinds of a gate: their numbers, and what each does.
ghost use Rattle.std.specs.Prelude.{◌≡◌};
ghost use Rattle.bench.specs.Kinds.{Named, gate_result};
ghost use Rattle.bench.specs.Word.{combined};

use crate::bits::test_bit;

#[derive(Clone, Copy, Debug, PartialEq, Eq)]
pub enum Kind {
    Xor,
    And,
    Or,
    Xnor,
    Nand,
    Nor,
}

// A number that names no kind.
#[derive(Clone, Copy, Debug, PartialEq, Eq)]
pub struct UnknownKind(pub u8);

impl TryFrom<u8> for Kind {
    type Error = UnknownKind;

    ghost try_from_gives = { Named };

    // The kind that a number from 0 to 5 names.
    fn try_from(number: u8) -> Result<Kind, UnknownKind> {
        match number {
            0 => Ok(Kind::Xor),
            1 => Ok(Kind::And),
            2 => Ok(Kind::Or),
            3 => Ok(Kind::Xnor),
            4 => Ok(Kind::Nand),
            5 => Ok(Kind::Nor),
            _ => Err(UnknownKind(number)),
        }
    }
}

impl Kind {
    // The kind's result on two words, bit by bit.
    pub fn on_words(self, x: u64, y: u64) -> u64
        ensures { result ≡ combined self x y }
    {
        match self {
            Kind::Xor => x ^ y,
            Kind::And => x & y,
            Kind::Or => x | y,
            Kind::Xnor => !(x ^ y),
            Kind::Nand => !(x & y),
            Kind::Nor => !(x | y),
        }
    }

    // The kind's result on two bits.
    pub fn on_bits(self, x: bool, y: bool) -> bool
        ensures { result ≡ gate_result self x y }
    {
        test_bit(self.on_words(x as u64, y as u64), 0)
    }
}
