// The cipher and the inverse cipher of FIPS 197 under eleven round keys, which stand one after another.
ghost use Rattle.std.specs.Prelude.{◌≡◌, ◌<◌};
ghost use Rattle.standard.specs.Cipher.{Round, AddRoundKey, InvSubBytes, InvShiftRows, InvMixColumns};
ghost use Rattle.standard.specs.Kinds.{aes128, key_in, ciphered, deciphered, encrypted, decrypted};

use crate::expansion::key_expansion;
use crate::steps::{
    add_round_key, inv_mix_columns, inv_shift_rows, inv_sub_bytes, mix_columns, shift_rows,
    sub_bytes,
};
use std::array;

fn key_in(keys: &[u8; 176], n: usize) -> [u8; 16]
    requires { n < 11 }
    ensures { result ≡ key_in keys.now n }
{
    array::from_fn(|i| keys[16 * n + i])
}

fn round(state: &[u8; 16], keys: &[u8; 176], n: usize) -> [u8; 16]
    requires { n < 11 }
    ensures { result ≡ Round state.now (key_in keys.now n) }
{
    let mixed = mix_columns(&shift_rows(&sub_bytes(state)));
    add_round_key(&mixed, &key_in(keys, n))
}

// The cipher, and that the inverse cipher undoes it.
pub fn cipher(block: &[u8; 16], keys: &[u8; 176]) -> [u8; 16]
    ensures is { result ≡ ciphered aes128 keys.now block.now }
    ensures undone { deciphered aes128 keys.now result ≡ block.now }
{
    let mut state = add_round_key(block, &key_in(keys, 0));
    for n in 1..10 {
        state = round(&state, keys, n);
    }
    let shifted = shift_rows(&sub_bytes(&state));
    add_round_key(&shifted, &key_in(keys, 10))
}

fn inv_round(state: &[u8; 16], keys: &[u8; 176], n: usize) -> [u8; 16]
    requires { n < 11 }
    ensures { result ≡ InvMixColumns (AddRoundKey (InvSubBytes (InvShiftRows state.now)) (key_in keys.now n)) }
{
    let subbed = inv_sub_bytes(&inv_shift_rows(state));
    let added = add_round_key(&subbed, &key_in(keys, n));
    inv_mix_columns(&added)
}

// The inverse cipher, and that the cipher undoes it.
pub fn inv_cipher(block: &[u8; 16], keys: &[u8; 176]) -> [u8; 16]
    ensures is { result ≡ deciphered aes128 keys.now block.now }
    ensures undone { ciphered aes128 keys.now result ≡ block.now }
{
    let mut state = add_round_key(block, &key_in(keys, 10));
    for n in (1..10).rev() {
        state = inv_round(&state, keys, n);
    }
    let subbed = inv_sub_bytes(&inv_shift_rows(&state));
    add_round_key(&subbed, &key_in(keys, 0))
}

// The cipher of a block under a key, and that it comes back.
pub fn encrypt(key: &[u8; 16], block: &[u8; 16]) -> [u8; 16]
    ensures is { result ≡ encrypted aes128 key.now block.now }
    ensures undone { decrypted aes128 key.now result ≡ block.now }
{
    cipher(block, &key_expansion(key))
}

// The inverse cipher of a block under a key, and that it comes back.
pub fn decrypt(key: &[u8; 16], block: &[u8; 16]) -> [u8; 16]
    ensures is { result ≡ decrypted aes128 key.now block.now }
    ensures undone { encrypted aes128 key.now result ≡ block.now }
{
    inv_cipher(block, &key_expansion(key))
}
