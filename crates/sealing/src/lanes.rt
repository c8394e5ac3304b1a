// The key and the blocks in the lanes of a unit, and the lines read back from them.
ghost use Rattle.std.specs.Prelude.{◌≡◌, ℕ, ◌*◌, ◌<◌, ◌≤◌, [], ◌++◌, length, drop, None, slice_index_or};
ghost use Rattle.unit.specs.Held.{view, shape_of};
ghost use Rattle.unit.specs.Lanes.{state_of};
ghost use Rattle.unit.specs.Answers.{reading};
ghost use Rattle.sealing.specs.Sealed.{lines_to};
ghost use Rattle.sealing.specs.Steps.{filled, turned};

use crate::digits::{LINE, hex_line};
use bench::benches::Bench;
use unit::unit::CipherUnit;

// Places the key, and a block, in a lane for each block.
fn place_all<B: Bench>(unit: &mut CipherUnit<B>, key: &[u8; 16], blocks: &[[u8; 16]])
    ensures { view B.Bench unit.new ≡ filled (view B.Bench unit.old) key.now (λ i. slice_index_or blocks.now i []) (length blocks.now) }
{
    // The answers are let go, here and below: the definitions say what is left after a refusal too.
    for (lane, block) in blocks.iter().enumerate() {
        let _ = unit.place_key(lane, key);
        let _ = unit.place_block(lane, block);
    }
}

// Seals the blocks under the key, each in a lane of its own.
pub(crate) fn seal_all<B: Bench>(unit: &mut CipherUnit<B>, key: &[u8; 16], blocks: &[[u8; 16]])
    ensures { view B.Bench unit.new ≡ turned (filled (view B.Bench unit.old) key.now (λ i. slice_index_or blocks.now i []) (length blocks.now)) }
{
    place_all(unit, key, blocks);
    let _ = unit.schedule();
    let _ = unit.seal();
}

// Writes a line for the block of each lane below `count`.
pub(crate) fn write_all<B: Bench>(unit: &CipherUnit<B>, count: usize, out: &mut [u8])
    requires fits { (33 * count ≤ length out.old) × (count ≤ 64) }
    requires readable { (l : ℕ) → l < count → reading (shape_of B.Bench unit.now) l 16 ≡ None }
    ensures { out.new ≡ lines_to (state_of (view B.Bench unit.now).model) count ++ drop (33 * count) out.old }
{
    // By the lane's number, since `as_chunks_mut` says nothing of what the buffer then holds.
    for lane in 0..count {
        let mut bytes = [0; 16];
        let _ = unit.read(lane, &mut bytes);
        out[LINE * lane..LINE * lane + LINE].copy_from_slice(&hex_line(&bytes));
    }
}
