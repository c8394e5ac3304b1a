// Writing: each function appends to what `out` holds.
ghost use Rattle.std.specs.Prelude.{◌≡◌, ◌/◌, ◌%◌, ◌<◌, [], ◌∷◌, ◌++◌, Some, OnOk};
ghost use Rattle.text.specs.Text.{number_in, decimal, hex_digit, hex_text};

use std::alloc::AllocError;

// Appends the text as it stands.
pub fn push_text(out: &mut Vec<u8>, text: &[u8]) -> Result<(), AllocError>
    ensures { OnOk result (out.new.items ≡ out.old.items ++ text.now) }
{
    out.extend_from_slice(text)
}

// Appends the decimal digits of `n`, by recursion: `write!` into bytes does not tell lack of memory from other errors.
pub fn push_number(out: &mut Vec<u8>, n: u64) -> Result<(), AllocError>
    ensures appends { OnOk result (out.new.items ≡ out.old.items ++ decimal n) }
    ensures reads_back { number_in (decimal n) ≡ Some n }
{
    if n >= 10 {
        push_number(out, n / 10)?;
    }
    out.push(b'0' + (n % 10) as u8)?;
    Ok(())
}

// Not `from_digit`, which gives a `char` and may give none.
fn hex_digit(digit: u8) -> u8
    requires { digit < 16 }
    ensures { result ≡ hex_digit digit }
{
    if digit < 10 {
        b'0' + digit
    } else {
        b'a' + (digit - 10)
    }
}

// The two hexadecimal digits of a byte.
pub fn hex_digits(byte: u8) -> [u8; 2]
    ensures { result ≡ hex_digit (byte / 16) ∷ hex_digit (byte % 16) ∷ [] }
{
    [hex_digit(byte / 16), hex_digit(byte % 16)]
}

// Appends two hexadecimal digits for each byte, or `-` where there is none.
pub fn push_hex(out: &mut Vec<u8>, bytes: &[u8]) -> Result<(), AllocError>
    ensures { OnOk result (out.new.items ≡ out.old.items ++ hex_text bytes.now) }
{
    if bytes.is_empty() {
        return push_text(out, b"-");
    }
    for byte in bytes {
        out.extend_from_slice(&hex_digits(*byte))?;
    }
    Ok(())
}
