// The steps of the cipher's rounds, on a state of sixteen bytes.
ghost use Rattle.std.specs.Prelude.{◌≡◌, ◌+◌, ◌*◌, ◌/◌, ◌%◌, ◌<◌, map, slice_index};
ghost use Rattle.std.specs.List.{range_with_len};
ghost use Rattle.standard.specs.Cipher.{SubBytes, ShiftRows, MixColumns, AddRoundKey, InvSubBytes, InvShiftRows, InvMixColumns};
ghost use Rattle.standard.specs.Columns.{entry, row_of, by_columns};

use crate::field::{inv_sbox, mul, sbox};
use std::array;

pub fn sub_bytes(state: &[u8; 16]) -> [u8; 16]
    ensures { result ≡ SubBytes state.now }
{
    state.map(sbox)
}

pub fn inv_sub_bytes(state: &[u8; 16]) -> [u8; 16]
    ensures { result ≡ InvSubBytes state.now }
{
    state.map(inv_sbox)
}

// Place i takes the byte at stride·i mod 16.
fn strided(state: &[u8; 16], stride: usize) -> [u8; 16]
    requires { stride < 16 }
    ensures { result ≡ map (λ j. slice_index state.now ((stride * j) % 16)) (range_with_len 0 16) }
{
    array::from_fn(|i| state[stride * i % 16])
}

pub fn shift_rows(state: &[u8; 16]) -> [u8; 16]
    ensures { result ≡ ShiftRows state.now }
{
    strided(state, 5)
}

pub fn inv_shift_rows(state: &[u8; 16]) -> [u8; 16]
    ensures { result ≡ InvShiftRows state.now }
{
    strided(state, 13)
}

// The entry of a matrix that turns its first row.
fn entry(first: &[u8; 4], row: usize, column: usize) -> u8
    requires { (row < 4) × (column < 4) }
    ensures { result ≡ entry first.now row column }
{
    first[(column + 4 - row) % 4]
}

// Byte i of a state of which each column went through a matrix.
fn column_byte(first: &[u8; 4], state: &[u8; 16], i: usize) -> u8
    requires { i < 16 }
    ensures { result ≡ row_of first.now (i % 4)
        (slice_index state.now (4 * (i / 4)))
        (slice_index state.now (4 * (i / 4) + 1))
        (slice_index state.now (4 * (i / 4) + 2))
        (slice_index state.now (4 * (i / 4) + 3)) }
{
    let row = i % 4;
    let at = 4 * (i / 4);
    let a = mul(entry(first, row, 0), state[at]);
    let b = mul(entry(first, row, 1), state[at + 1]);
    let c = mul(entry(first, row, 2), state[at + 2]);
    let d = mul(entry(first, row, 3), state[at + 3]);
    a ^ (b ^ (c ^ d))
}

fn by_columns(first: &[u8; 4], state: &[u8; 16]) -> [u8; 16]
    ensures { result ≡ by_columns first.now state.now }
{
    array::from_fn(|i| column_byte(first, state, i))
}

pub fn mix_columns(state: &[u8; 16]) -> [u8; 16]
    ensures { result ≡ MixColumns state.now }
{
    by_columns(&[0x02, 0x03, 0x01, 0x01], state)
}

pub fn inv_mix_columns(state: &[u8; 16]) -> [u8; 16]
    ensures { result ≡ InvMixColumns state.now }
{
    by_columns(&[0x0e, 0x0b, 0x0d, 0x09], state)
}

pub fn add_round_key(state: &[u8; 16], key: &[u8; 16]) -> [u8; 16]
    ensures { result ≡ AddRoundKey state.now key.now }
{
    array::from_fn(|i| state[i] ^ key[i])
}
