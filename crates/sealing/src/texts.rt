// The text of an input: its blocks sealed under its key, or a refusal.
ghost use Rattle.std.specs.Prelude.{◌≡◌, ℕ, ◌*◌, ◌<◌, ◌≤◌, [], ◌++◌, length, drop, IfOk, if◌then◌else◌, Ok, Err, nat_eq, slice_index, slice_index_or};
ghost use Rattle.standard.specs.Kinds.{aes128, encrypted};
ghost use Rattle.bench.specs.declared.faults.Question.TheVariants.{Sixteen};
ghost use Rattle.bench.specs.declared.faults.Part.TheVariants.{Unit as UnitPart};
ghost use Rattle.bench.specs.Faults.{fault};
ghost use Rattle.sealing.specs.Sealed.{lines_to, sealed_text};

use crate::digits::LINE;
use crate::lanes::{seal_all, write_all};
use bench::faults::{Fault, Part, Question};
use bench::word::{MOST_GATES, WordBench};
use unit::unit::CipherUnit;

// The length of the buffer for a text.
pub const TEXT: usize = 2_112;

const BLOCK: usize = 16;

const MOST_BLOCKS: usize = 64;

const REFUSED: [u8; 10] = *b"refused 6\n";

// Writes the lines of the blocks, sealed under the key on a bench of zeros.
fn seal_lines(key: &[u8; 16], blocks: &[[u8; 16]], out: &mut [u8])
    requires fits { (1 ≤ length blocks.now) × (length blocks.now ≤ 64) × (33 * length blocks.now ≤ length out.old) }
    requires bytes { (i j : ℕ) → slice_index (slice_index_or blocks.now i []) j < 256 }
    ensures text { out.new ≡ lines_to (λ i. encrypted aes128 key.now (slice_index_or blocks.now i [])) (length blocks.now) ++ drop (33 * length blocks.now) out.old }
    ensures size { length (lines_to (λ i. encrypted aes128 key.now (slice_index_or blocks.now i [])) (length blocks.now)) ≡ 33 * length blocks.now }
{
    let mut words = [0u64; 2_048];
    let mut unit = CipherUnit::new(WordBench::new(&mut words, MOST_GATES));
    seal_all(&mut unit, key, blocks);
    write_all(&unit, blocks.len(), out);
}

// Writes the text of the input: a line for each of its blocks, sealed under its first sixteen bytes, or the refusal.
pub fn seal_text(input: &[u8], out: &mut [u8]) -> Result<usize, Fault>
    ensures answer { result ≡ (if nat_eq (length out.old) 2112 then Ok (length (sealed_text input.now)) else Err (fault Sixteen UnitPart (length out.old))) }
    ensures text { out.new ≡ (if nat_eq (length out.old) 2112 then sealed_text input.now ++ drop (length (sealed_text input.now)) out.old else out.old) }
    ensures within { IfOk result (λ n. n ≤ 2112) }
{
    if out.len() != TEXT {
        return Err(Fault::new(Question::Sixteen, Part::Unit, out.len() as u64));
    }
    match input.as_chunks::<BLOCK>() {
        ([key, blocks @ ..], []) if !blocks.is_empty() && blocks.len() <= MOST_BLOCKS => {
            seal_lines(key, blocks, out);
            Ok(LINE * blocks.len())
        }
        _ => {
            out[..REFUSED.len()].copy_from_slice(&REFUSED);
            Ok(REFUSED.len())
        }
    }
}
