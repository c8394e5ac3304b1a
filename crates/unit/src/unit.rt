// The unit over any bench: it holds the bench by value, and a table of the lanes.
//
// Registers 0 to 127 of a lane are its state, and round key n has the 128 registers from 128·(n + 1) on; bit or
// coordinate i of byte j is at 8·j + i. Registers from 1,536 up are scratch.
ghost use Rattle.std.specs.Prelude.{◌≡◌, ℕ, ◌+◌, ◌*◌, ◌<◌, ◌≤◌, length, None, slice_index, slice_index_or};
ghost use Rattle.standard.specs.Kinds.{key_bytes};
ghost use Rattle.bench.specs.declared.faults.Question.TheVariants.{Size, Gates};
ghost use Rattle.lanetable.specs.Records.{empty, lowest_unready};
ghost use Rattle.unit.specs.Works.{kind, K, S, O};
ghost use Rattle.unit.specs.View.{made, key_placed, block_placed, cleared, scheduled, sealed, opened};
ghost use Rattle.unit.specs.Held.{meaning, view, shape_of};
ghost use Rattle.unit.specs.Lanes.{state_of, Expanded, Enciphered, Deciphered, Staged, EveryLane};
ghost use Rattle.unit.specs.Answers.{unit_fault, ask, fits, enough, naming, placing, reading, scheduling, working, given, settled};

use bench::asks::ask_gates;
use bench::benches::Bench;
use bench::faults::{Fault, Part, Question};
use cipher::calls::{run, sized};
use lane::{clear_lane, place_bytes, read_bytes};
use lanetable::records::{KeyState, LaneRecord};
use lanetable::table::LaneTable;
use plans::tables::Plan;

const STATE: u16 = 0;

const KEY: u16 = 128;

const SCRATCH: u16 = 1_536;

#[derive(Drop)]
pub struct CipherUnit<B> {
    bench: B,
    table: LaneTable,
}

// The gates of the three plans.
#[derive(Clone, Copy)]
pub struct Counts {
    pub schedule: u32,
    pub seal: u32,
    pub open: u32,
}

fn refuse(question: Question, place: usize) -> Fault
    ensures { result ≡ unit_fault question place }
{
    Fault::new(question, Part::Unit, place as u64)
}

impl<B: Bench> CipherUnit<B> {
    // A unit with all records empty, whatever the bench's registers show.
    pub fn new(bench: B) -> CipherUnit<B>
        ensures empty { view B.Bench result ≡ made (meaning B.Bench bench) (B.Bench.beneath bench) }
        ensures same { result.bench ≡ bench }
    {
        CipherUnit {
            bench,
            table: LaneTable::new(),
        }
    }

    // The bench again, as the unit leaves it.
    pub fn finish(self) -> B
        ensures { result ≡ self.bench }
    {
        let CipherUnit { bench, table: _ } = self;
        bench
    }

    fn ready(&self) -> Result<(), Fault>
        ensures { result ≡ given tt (ask (fits (shape_of B.Bench self.now)) (unit_fault Size 0) None) }
    {
        if !sized(self.bench.registers(), self.bench.lanes()) {
            return Err(refuse(Question::Size, 0));
        }
        Ok(())
    }

    fn may_name(&self, lane: usize) -> Result<(), Fault>
        ensures { result ≡ given tt (naming (shape_of B.Bench self.now) lane) }
    {
        self.ready()?;
        if lane >= self.bench.lanes() as usize {
            return Err(refuse(Question::Lane, lane));
        }
        Ok(())
    }

    fn may_place(&self, want: usize, lane: usize, n: usize) -> Result<(), Fault>
        ensures { result ≡ given tt (placing want (shape_of B.Bench self.now) lane n) }
    {
        self.may_name(lane)?;
        if n != want {
            return Err(refuse(Question::Sixteen, n));
        }
        Ok(())
    }

    fn may_read(&self, lane: usize, n: usize) -> Result<(), Fault>
        ensures { result ≡ given tt (reading (shape_of B.Bench self.now) lane n) }
    {
        self.may_place(16, lane, n)?;
        if !self.table.record(lane).block {
            return Err(refuse(Question::Block, lane));
        }
        Ok(())
    }

    fn may_schedule(&self) -> Result<(), Fault>
        ensures { result ≡ given tt (scheduling (shape_of B.Bench self.now)) }
    {
        self.ready()?;
        if !self.table.has_placed() {
            return Err(refuse(Question::Work, 0));
        }
        ask_gates(Part::Unit, Plan::Schedule.gates(), self.left())
    }

    fn may_work(&self, cost: u32) -> Result<(), Fault>
        ensures { result ≡ given tt (working (shape_of B.Bench self.now) cost) }
    {
        self.ready()?;
        if !self.table.has_block() {
            return Err(refuse(Question::Work, 0));
        }
        if let Some(lane) = self.unready() {
            return Err(refuse(Question::Scheduled, lane));
        }
        ask_gates(Part::Unit, cost, self.left())
    }

    // Writes the lane's round key 0; its key is then placed.
    pub fn place_key(&mut self, lane: usize, bytes: &[u8]) -> Result<(), Fault>
        ensures answer { result ≡ given tt (placing (key_bytes kind) (shape_of B.Bench self.old) lane (length bytes.now)) }
        ensures after { view B.Bench self.new ≡ settled (placing (key_bytes kind) (shape_of B.Bench self.old) lane (length bytes.now)) (key_placed (view B.Bench self.old) lane bytes.now) (view B.Bench self.old) }
        ensures bytes { (j : ℕ) → slice_index bytes.now j < 256 }
    {
        self.may_place(16, lane, bytes.len())?;
        place_bytes(&mut self.bench, KEY, lane as u16, bytes)?;
        let block = self.table.record(lane).block;
        self.table.put(
            lane,
            LaneRecord {
                key: KeyState::Placed,
                block,
            },
        );
        Ok(())
    }

    // Writes the lane's state; the lane then holds a block. Apart from `place_key`: with the base and the change of the record
    // as arguments one function would be no plainer than the two.
    pub fn place_block(&mut self, lane: usize, bytes: &[u8]) -> Result<(), Fault>
        ensures answer { result ≡ given tt (placing 16 (shape_of B.Bench self.old) lane (length bytes.now)) }
        ensures after { view B.Bench self.new ≡ settled (placing 16 (shape_of B.Bench self.old) lane (length bytes.now)) (block_placed (view B.Bench self.old) lane bytes.now) (view B.Bench self.old) }
        ensures bytes { (j : ℕ) → slice_index bytes.now j < 256 }
    {
        self.may_place(16, lane, bytes.len())?;
        place_bytes(&mut self.bench, STATE, lane as u16, bytes)?;
        let key = self.table.record(lane).key;
        self.table.put(lane, LaneRecord { key, block: true });
        Ok(())
    }

    // Zeroes the lane's registers below the scratch, and empties its record.
    pub fn clear(&mut self, lane: usize) -> Result<(), Fault>
        ensures answer { result ≡ given tt (naming (shape_of B.Bench self.old) lane) }
        ensures after { view B.Bench self.new ≡ settled (naming (shape_of B.Bench self.old) lane) (cleared (view B.Bench self.old) lane) (view B.Bench self.old) }
    {
        self.may_name(lane)?;
        clear_lane(&mut self.bench, lane as u16, SCRATCH)?;
        self.table.put(lane, LaneRecord::default());
        Ok(())
    }

    // Runs the scheduling's plan; every placed key becomes scheduled.
    pub fn schedule(&mut self) -> Result<(), Fault>
        ensures answer { result ≡ given tt (scheduling (shape_of B.Bench self.old)) }
        ensures after { view B.Bench self.new ≡ settled (scheduling (shape_of B.Bench self.old)) (scheduled (view B.Bench self.old)) (view B.Bench self.old) }
        ensures expanded { EveryLane (scheduling (shape_of B.Bench self.old)) (view B.Bench self.old).model (Expanded (view B.Bench self.old).model (view B.Bench self.new).model) }
    {
        self.may_schedule()?;
        run(&mut self.bench, Plan::Schedule)?;
        self.table.schedule();
        Ok(())
    }

    // Runs the sealing's plan in all lanes.
    pub fn seal(&mut self) -> Result<(), Fault>
        ensures answer { result ≡ given tt (working (shape_of B.Bench self.old) S) }
        ensures after { view B.Bench self.new ≡ settled (working (shape_of B.Bench self.old) S) (sealed (view B.Bench self.old)) (view B.Bench self.old) }
        ensures enciphered { EveryLane (working (shape_of B.Bench self.old) S) (view B.Bench self.old).model (Enciphered (view B.Bench self.old).model (view B.Bench self.new).model) }
        ensures staged { EveryLane (working (shape_of B.Bench self.old) S) (view B.Bench self.old).model (Staged (view B.Bench self.old).model) }
    {
        self.may_work(Plan::Seal.gates())?;
        run(&mut self.bench, Plan::Seal)
    }

    // Runs the opening's plan in all lanes. Apart from `seal`: of each lane the two say different things.
    pub fn open(&mut self) -> Result<(), Fault>
        ensures answer { result ≡ given tt (working (shape_of B.Bench self.old) O) }
        ensures after { view B.Bench self.new ≡ settled (working (shape_of B.Bench self.old) O) (opened (view B.Bench self.old)) (view B.Bench self.old) }
        ensures deciphered { EveryLane (working (shape_of B.Bench self.old) O) (view B.Bench self.old).model (Deciphered (view B.Bench self.old).model (view B.Bench self.new).model) }
    {
        self.may_work(Plan::Open.gates())?;
        run(&mut self.bench, Plan::Open)
    }

    // Reads the lane's state into the buffer, and keeps the block.
    pub fn read(&self, lane: usize, buffer: &mut [u8]) -> Result<(), Fault>
        ensures answer { result ≡ given tt (reading (shape_of B.Bench self.now) lane (length buffer.old)) }
        ensures bytes { buffer.new ≡ settled (reading (shape_of B.Bench self.now) lane (length buffer.old)) (state_of (view B.Bench self.now).model lane) buffer.old }
    {
        self.may_read(lane, buffer.len())?;
        read_bytes(&self.bench, STATE, lane as u16, buffer)
    }

    // The gates of the three plans.
    pub fn counts(&self) -> Counts
        ensures plans { (result.schedule ≡ K) × (result.seal ≡ S) × (result.open ≡ O) }
        ensures bounds { (result.schedule ≤ 20000) × (result.seal ≤ 40000) × (result.open ≤ 60000) }
    {
        Counts {
            schedule: Plan::Schedule.gates(),
            seal: Plan::Seal.gates(),
            open: Plan::Open.gates(),
        }
    }

    // The gates left.
    pub fn left(&self) -> u32
        ensures { result ≡ (view B.Bench self.now).model.left }
    {
        self.bench.left()
    }

    // A lane's record.
    pub fn record(&self, lane: usize) -> Result<LaneRecord, Fault>
        ensures { result ≡ given (slice_index_or (view B.Bench self.now).records lane empty) (naming (shape_of B.Bench self.now) lane) }
    {
        self.may_name(lane)?;
        Ok(self.table.record(lane))
    }

    // The lowest lane that holds a block without a scheduled key, if any.
    pub fn unready(&self) -> Option<usize>
        ensures { result ≡ lowest_unready (view B.Bench self.now).records }
    {
        self.table.unready()
    }
}
