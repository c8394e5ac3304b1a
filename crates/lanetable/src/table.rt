// The lane table: a record for each of the 128 lanes that a unit may have.
ghost use Rattle.std.specs.Prelude.{◌≡◌, map, replicate, slice_index_or, slice_set};
ghost use Rattle.lanetable.specs.Records.{empty, promotes, any_placed, any_block, lowest_unready};

use crate::records::{KeyState, LaneRecord};

pub const MOST_LANES: usize = 128;

#[derive(Clone, Copy)]
pub struct LaneTable {
    records: [LaneRecord; 128],
}

impl LaneTable {
    // All records empty.
    pub fn new() -> LaneTable
        ensures { result.records ≡ replicate 128 empty }
    {
        LaneTable {
            records: [LaneRecord::default(); MOST_LANES],
        }
    }

    // A lane's record, and the empty one past the last.
    pub fn record(&self, lane: usize) -> LaneRecord
        ensures { result ≡ slice_index_or self.now.records lane empty }
    {
        self.records.get(lane).copied().unwrap_or_default()
    }

    // Puts a lane's record; past the last lane there is none to put.
    pub fn put(&mut self, lane: usize, entry: LaneRecord)
        ensures { self.new.records ≡ slice_set self.old.records lane entry }
    {
        // By index: a proof learns nothing of the element that an array's `get_mut` gives.
        if lane < self.records.len() {
            self.records[lane] = entry;
        }
    }

    // Every placed key becomes scheduled. Not inlined, nor are the three below: a unit's calls stand in one function for each
    // bench, and where that grows too large a row bench's loops over one lane cost up to three times as much.
    #[inline(never)]
    pub fn schedule(&mut self)
        ensures { self.new.records ≡ map promotes self.old.records }
    {
        for record in &mut self.records {
            *record = record.promoted();
        }
    }

    // Whether some lane has a key that waits to be scheduled.
    #[inline(never)]
    pub fn has_placed(&self) -> bool
        ensures { result ≡ any_placed self.now.records }
    {
        self.records.iter().any(|r| r.key == KeyState::Placed)
    }

    // Whether some lane holds a block.
    #[inline(never)]
    pub fn has_block(&self) -> bool
        ensures { result ≡ any_block self.now.records }
    {
        self.records.iter().any(|r| r.block)
    }

    // The lowest lane that holds a block without a scheduled key, if any.
    #[inline(never)]
    pub fn unready(&self) -> Option<usize>
        ensures { result ≡ lowest_unready self.now.records }
    {
        self.records.iter().position(LaneRecord::is_unready)
    }
}
