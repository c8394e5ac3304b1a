// The field of FIPS 197 and the substitution of a byte, as the standard's definitions compute them.
ghost use Rattle.std.specs.Prelude.{◌≡◌, ◌<◌, ◌≢◌};
ghost use Rattle.standard.specs.Laws.{ProductLaws};
ghost use Rattle.standard.specs.Field.{xtime, mul, inverse, affine, inv_affine, SBox, InvSBox};

// A byte times 02.
pub fn xtime(a: u8) -> u8
    ensures { result ≡ xtime a }
{
    if a >= 128 { (a << 1) ^ 0x1b } else { a << 1 }
}

// The product of two bytes, by the bits of the second.
pub fn mul(a: u8, b: u8) -> u8
    ensures { result ≡ mul a b }
{
    let mut product = 0;
    let mut power = a;
    let mut rest = b;
    // A loop, since a fold over the three values would be no plainer.
    for _i in 0..8u8 {
        if rest % 2 == 1 {
            product ^= power;
        }
        power = xtime(power);
        rest /= 2;
    }
    product
}

// The laws of the product.
pub fn product_laws()
    ensures { ProductLaws }
{}

// The inverse of a byte, its 254th power; 00 stays.
pub fn inverse(a: u8) -> u8
    ensures is { result ≡ inverse a }
    ensures inverts { (a ≢ 0) → mul a result ≡ 1 }
    ensures zero { a ≡ 0 → result ≡ 0 }
{
    let a2 = mul(a, a);
    let a4 = mul(a2, a2);
    let a8 = mul(a4, a4);
    let a16 = mul(a8, a8);
    let a32 = mul(a16, a16);
    let a64 = mul(a32, a32);
    let a128 = mul(a64, a64);
    mul(a2, mul(a4, mul(a8, mul(a16, mul(a32, mul(a64, a128))))))
}

// The affine rule of SubBytes.
pub fn affine(b: u8) -> u8
    ensures { result ≡ affine b }
{
    b ^ b.rotate_left(1) ^ b.rotate_left(2) ^ b.rotate_left(3) ^ b.rotate_left(4) ^ 0x63
}

pub fn inv_affine(b: u8) -> u8
    ensures { result ≡ inv_affine b }
{
    b.rotate_left(1) ^ b.rotate_left(3) ^ b.rotate_left(6) ^ 0x05
}

// The substitution of a byte, and that the other undoes it.
pub fn sbox(a: u8) -> u8
    ensures is { result ≡ SBox a }
    ensures undone { InvSBox result ≡ a }
{
    affine(inverse(a))
}

pub fn inv_sbox(a: u8) -> u8
    ensures is { result ≡ InvSBox a }
    ensures undone { SBox result ≡ a }
{
    inverse(inv_affine(a))
}
