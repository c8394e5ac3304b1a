// The inverse of a byte by the tower's formula, from the two parts of the byte.
ghost use Rattle.std.specs.Prelude.{◌≡◌, bit_xor};
ghost use Rattle.standard.specs.Field.{mul, inverse};
ghost use Rattle.coordinates.specs.Tower.{power16, first_of, second_of, over, g_of, InverseByTower, EveryByteOnce};

use standard::field;

fn middle_power(y: u8) -> u8
    ensures { result ≡ power16 y }
{
    let y2 = field::mul(y, y);
    let y4 = field::mul(y2, y2);
    let y8 = field::mul(y4, y4);
    field::mul(y8, y8)
}

// The sum of a byte and its sixteenth power, each times a byte of its own. Inlined, so that the products are by constants.
#[inline(always)]
fn part(of_byte: u8, of_power: u8, u: u8) -> u8
    ensures { result ≡ bit_xor (mul of_byte u) (mul of_power (power16 u)) }
{
    field::mul(of_byte, u) ^ field::mul(of_power, middle_power(u))
}

// The two parts of a byte: it is first·1b + second·fa.
pub fn first_of(u: u8) -> u8
    ensures { result ≡ first_of u }
{
    part(0x2a, 0x27, u)
}

pub fn second_of(u: u8) -> u8
    ensures { result ≡ second_of u }
{
    part(0x27, 0x2a, u)
}

fn over(p: u8, q: u8) -> u8
    ensures { result ≡ over p q }
{
    field::mul(p, 0x1b) ^ field::mul(q, 0xfa)
}

fn norm(p: u8, q: u8) -> u8
    ensures { result ≡ g_of p q }
{
    let sum = p ^ q;
    field::mul(0x5c, field::mul(p, q)) ^ field::mul(0xbd, field::mul(sum, sum))
}

// The inverse of a byte, with one inverse in the middle field; 00 stays.
pub fn inverse_by_tower(u: u8) -> u8
    ensures is { result ≡ inverse u }
    ensures zero { u ≡ 0 → result ≡ 0 }
    ensures formula { InverseByTower }
    ensures once { EveryByteOnce }
{
    let p = first_of(u);
    let q = second_of(u);
    let g = field::inverse(norm(p, q));
    over(field::mul(g, q), field::mul(g, p))
}
