// From bytes to coordinates and back.
ghost use Rattle.std.specs.Prelude.{◌≡◌};
ghost use Rattle.coordinates.specs.Coordinates.{combine, from_coordinates, to_coordinates, OnlyCoordinates, XorInCoordinates};
ghost use Rattle.coordinates.specs.Tower.{BasisIsProducts};

// The chosen bytes, and the coordinates of 01, 02, 04, .., 80.
const CHOSEN: [u8; 8] = [0x66, 0x7d, 0x4c, 0xc9, 0x36, 0xcc, 0x11, 0x98];

const BITS: [u8; 8] = [0x99, 0x3e, 0xb1, 0x7d, 0xd9, 0x46, 0xc8, 0x24];

// The XOR of those bytes whose bit of v is set.
fn combined(bytes: &[u8; 8], v: u8) -> u8
    ensures { result ≡ combine bytes.now 0 v }
{
    let mut sum = 0;
    for (i, byte) in bytes.iter().enumerate() {
        if (v >> i) % 2 == 1 {
            sum ^= *byte;
        }
    }
    sum
}

// The coordinates of a byte.
pub fn to_coordinates(byte: u8) -> u8
    ensures is { result ≡ to_coordinates byte }
    ensures back { from_coordinates result ≡ byte }
    ensures only { OnlyCoordinates }
    ensures sums { XorInCoordinates }
{
    combined(&BITS, byte)
}

// The byte that has the coordinates c.
pub fn from_coordinates(c: u8) -> u8
    ensures is { result ≡ from_coordinates c }
    ensures back { to_coordinates result ≡ c }
    ensures products { BasisIsProducts }
{
    combined(&CHOSEN, c)
}
