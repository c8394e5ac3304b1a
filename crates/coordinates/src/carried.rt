// The rules of the rounds between coordinates.
ghost use Rattle.std.specs.Prelude.{◌≡◌, ℕ, ◌<◌, bit_xor};
ghost use Rattle.standard.specs.Field.{mul, affine, inv_affine};
ghost use Rattle.standard.specs.KeyExpansion.{Rcon};
ghost use Rattle.coordinates.specs.Coordinates.{from_coordinates, to_coordinates};
ghost use Rattle.coordinates.specs.Carried.{carried_affine, carried_inv_affine, carried_times, carried_rcon};

use crate::basis::{from_coordinates, to_coordinates};
use standard::expansion::rcon;
use standard::field;

// A rule on bytes, between coordinates.
fn carried<F: FnOnce(u8) -> u8>(rule: F, c: u8) -> u8
    requires { F.pre rule (from_coordinates c) }
    ensures { (b : ℕ) × F.post rule (from_coordinates c) b × result ≡ to_coordinates b }
{
    to_coordinates(rule(from_coordinates(c)))
}

// The affine rule of SubBytes.
pub fn affine_carried(c: u8) -> u8
    ensures is { result ≡ carried_affine c }
    ensures carries { (b : ℕ) → b < 256 → c ≡ to_coordinates b → result ≡ to_coordinates (affine b) }
{
    carried(field::affine, c)
}

// Its inverse.
pub fn inv_affine_carried(c: u8) -> u8
    ensures is { result ≡ carried_inv_affine c }
    ensures carries { (b : ℕ) → b < 256 → c ≡ to_coordinates b → result ≡ to_coordinates (inv_affine b) }
{
    carried(field::inv_affine, c)
}

// The product by a byte, as 02 and 03 of MixColumns and 09, 0b, 0d and 0e of its inverse.
pub fn times_carried(m: u8, c: u8) -> u8
    ensures is { result ≡ carried_times m c }
    ensures carries { (b : ℕ) → b < 256 → c ≡ to_coordinates b → result ≡ to_coordinates (mul m b) }
{
    carried(|byte| field::mul(m, byte), c)
}

// A round constant added.
pub fn round_constant_added(n: u8, c: u8) -> u8
    ensures is { result ≡ bit_xor c (carried_rcon n) }
    ensures carries { (b : ℕ) → c ≡ to_coordinates b → result ≡ to_coordinates (bit_xor b (Rcon n)) }
{
    c ^ to_coordinates(rcon(n))
}
