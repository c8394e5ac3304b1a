// Bytes in the registers of one lane: placed, read and zeroed, on any bench.
//
// Bit i of byte j lies in register base + 8·j + i, bit 0 the lowest.
#![tactic(auto)]

ghost use Rattle.std.specs.Prelude.{◌≡◌, ℕ, ◌+◌, ◌*◌, ◌^◌, ◌<◌, ◌≤◌, Bool, false, length, min, OnOk};
ghost use Rattle.standard.specs.Bits.{byte_of};
ghost use Rattle.bench.specs.Benches.{meaning};
ghost use Rattle.bench.specs.Model.{after};
ghost use Rattle.lane.specs.Spans.{bits_of, laid, laid_in, shown_at, span_answer, zeroed, zeroed_in};

use bench::benches::Bench;
use bench::bits::test_bit;
use bench::faults::Fault;

// Bits to lay into registers, by their numbers.
trait Bits {
    ghost bits: { Self → ℕ → Bool };

    fn bit(&self, at: u16) -> bool
        ensures { result ≡ bits self.now at };
}

// The bits of bytes, eight a byte, and zeros after them.
#[derive(Clone, Copy)]
struct ByteBits<'a>(&'a [u8]);

impl<'a> Bits for ByteBits<'a> {
    ghost bits = { λ s. bits_of s.0.now };

    fn bit(&self, at: u16) -> bool {
        let byte = self.0.get((at / 8) as usize).copied().unwrap_or(0);
        test_bit(byte as u64, at % 8)
    }
}

#[derive(Clone, Copy)]
struct NoBits;

impl Bits for NoBits {
    ghost bits = { λ _ _. false };

    fn bit(&self, _at: u16) -> bool {
        false
    }
}

// Asks whether the bench has `count` registers from `base` on, and then for the lane.
#[inline(always)]
fn ask_span<B: Bench>(bench: &B, base: u16, count: usize, lane: u16) -> Result<(), Fault>
    requires { count ≤ 65536 }
    ensures answer { result ≡ span_answer (meaning B.Bench bench.now) base count lane }
    ensures has { OnOk result ((base + count ≤ B.registers bench.now) × (lane < B.lanes bench.now)) }
{
    let registers = bench.registers();
    if base as usize + count > registers as usize {
        return Err(Fault::register(base.max(registers)));
    }
    if lane >= bench.lanes() {
        return Err(Fault::lane(lane));
    }
    Ok(())
}

// How many registers so many bytes take, at most one more than any bench has, so that the product fits.
fn registers_of(bytes: usize) -> usize
    ensures { result ≡ 8 * min bytes 8192 }
{
    8 * bytes.min(8_192)
}

// Writes the first bits into the lane's registers from `base` on. Inlined, with what calls it and what it asks: called, its
// loop reads the bench's fields again for each register.
#[inline(always)]
fn lay<B: Bench, S: Bits>(
    bench: &mut B,
    base: u16,
    count: usize,
    lane: u16,
    source: &S,
) -> Result<(), Fault>
    requires { count ≤ 65536 }
    ensures answer { result ≡ span_answer (meaning B.Bench bench.old) base count lane }
    ensures leaves { meaning B.Bench bench.new ≡ after result (laid base count lane (S.bits source.now) (meaning B.Bench bench.old)) (meaning B.Bench bench.old) }
    ensures beneath { B.beneath bench.new ≡ after result (laid_in base count lane (S.bits source.now) (B.beneath bench.old)) (B.beneath bench.old) }
{
    ask_span(bench, base, count, lane)?;
    // By number, since a bench's registers have numbers and nothing else.
    for i in 0..count as u16 {
        bench.set(base + i, lane, source.bit(i))?;
    }
    Ok(())
}

// Writes the bytes into the lane's registers from `base` on.
#[inline(always)]
pub fn place_bytes<B: Bench>(bench: &mut B, base: u16, lane: u16, bytes: &[u8]) -> Result<(), Fault>
    ensures answer { result ≡ span_answer (meaning B.Bench bench.old) base (8 * length bytes.now) lane }
    ensures leaves { meaning B.Bench bench.new ≡ after result (laid base (8 * length bytes.now) lane (bits_of bytes.now) (meaning B.Bench bench.old)) (meaning B.Bench bench.old) }
    ensures beneath { B.beneath bench.new ≡ after result (laid_in base (8 * length bytes.now) lane (bits_of bytes.now) (B.beneath bench.old)) (B.beneath bench.old) }
{
    lay(
        bench,
        base,
        registers_of(bytes.len()),
        lane,
        &ByteBits(bytes),
    )
}

// Zeroes the lane's first `count` registers.
#[inline(always)]
pub fn clear_lane<B: Bench>(bench: &mut B, lane: u16, count: u16) -> Result<(), Fault>
    ensures answer { result ≡ span_answer (meaning B.Bench bench.old) 0 count lane }
    ensures leaves { meaning B.Bench bench.new ≡ after result (zeroed count lane (meaning B.Bench bench.old)) (meaning B.Bench bench.old) }
    ensures beneath { B.beneath bench.new ≡ after result (zeroed_in count lane (B.beneath bench.old)) (B.beneath bench.old) }
{
    lay(bench, 0, count as usize, lane, &NoBits)
}

// The byte that eight registers show.
fn byte_at<B: Bench>(bench: &B, base: u16, lane: u16) -> u8
    requires { (base + 8 ≤ B.registers bench.now) × (lane < B.lanes bench.now) }
    ensures { result ≡ byte_of (λ x. (B.shows bench.now).bit x lane) base }
{
    let mut byte = 0u8;
    // No fold: that the sum fits a byte needs the loop's invariant, and the closure of a fold has none.
    for i in (0..8u16).rev() {
        byte = 2 * byte + bit_at(bench, base + i, lane) as u8;
    }
    byte
}

// A bit of a register and a lane that the bench has.
fn bit_at<B: Bench>(bench: &B, register: u16, lane: u16) -> bool
    requires { (register < B.registers bench.now) × (lane < B.lanes bench.now) }
    ensures { result ≡ (B.shows bench.now).bit register lane }
{
    bench.show(register, lane).unwrap_or(false)
}

// Reads the lane's registers from `base` on into the buffer.
pub fn read_bytes<B: Bench>(bench: &B, base: u16, lane: u16, buffer: &mut [u8]) -> Result<(), Fault>
    ensures answer { result ≡ span_answer (meaning B.Bench bench.now) base (8 * length buffer.old) lane }
    ensures bytes { buffer.new ≡ after result (shown_at (meaning B.Bench bench.now) base lane (length buffer.old)) buffer.old }
{
    ask_span(bench, base, registers_of(buffer.len()), lane)?;
    for (j, byte) in buffer.iter_mut().enumerate() {
        *byte = byte_at(bench, base + 8 * j as u16, lane);
    }
    Ok(())
}
