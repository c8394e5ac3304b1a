// A line of text for sixteen bytes.
ghost use Rattle.std.specs.Prelude.{◌≡◌};
ghost use Rattle.sealing.specs.Sealed.{hex_line};

use std::array;
use text::reads::LINE_END;
use text::writes::hex_digits;

pub const LINE: usize = 33;

// Two hexadecimal digits for each byte, and a line end.
pub(crate) fn hex_line(bytes: &[u8; 16]) -> [u8; 33]
    ensures { result ≡ hex_line bytes.now }
{
    let digits: [u8; 32] = array::from_fn(|place| hex_digits(bytes[place / 2])[place % 2]);
    let mut line = [LINE_END; LINE];
    line[..LINE - 1].copy_from_slice(&digits);
    line
}
