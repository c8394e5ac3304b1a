// The key expansion of FIPS 197 for a key of sixteen bytes, byte by byte.
ghost use Rattle.std.specs.Prelude.{◌≡◌, ℕ, ◌-◌, ◌/◌, ◌%◌, ◌<◌, ◌≤◌, slice_index};
ghost use Rattle.standard.specs.KeyExpansion.{Rcon, temp, key_word};
ghost use Rattle.standard.specs.Kinds.{aes128, byte_at, key_in, round_key};

use crate::field::{sbox, xtime};

// Round constant n: 01 times 02, n - 1 times.
pub fn rcon(n: u8) -> u8
    ensures { result ≡ Rcon n }
{
    if n == 0 {
        return 0;
    }
    (1..n).fold(1, |power, _| xtime(power))
}

// Byte j of the standard's temp for word i, from the words before.
fn temp_byte(words: &[u8; 176], i: usize, j: usize) -> u8
    requires { (4 ≤ i) × ((i < 44) × (j < 4)) }
    ensures { result ≡ slice_index (temp 4 i (key_word (byte_at words.now) (i - 1))) j }
{
    let last = 4 * (i - 1);
    if i % 4 != 0 {
        return words[last + j];
    }
    let turned = sbox(words[last + (j + 1) % 4]);
    if j == 0 {
        return turned ^ rcon((i / 4) as u8);
    }
    turned
}

// The eleven round keys, one after another.
pub fn key_expansion(key: &[u8; 16]) -> [u8; 176]
    ensures { (n : ℕ) → n < 11 → key_in result n ≡ round_key aes128 key.now n }
{
    let mut words = [0; 176];
    words[..16].copy_from_slice(key);
    // By index, since each byte is made of bytes before it.
    for p in 16..176 {
        words[p] = words[p - 16] ^ temp_byte(&words, p / 4, p % 4);
    }
    words
}
