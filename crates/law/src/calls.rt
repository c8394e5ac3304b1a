// Calls and questions in a list, each with its answer.
use bench::faults::Fault;
use lanetable::records::LaneRecord;
use unit::unit::Counts;

// One call or question, with the bytes that it brings or the buffer that it is to fill.
#[derive(Drop)]
pub enum Call {
    PlaceKey(usize, Vec<u8>),
    PlaceBlock(usize, Vec<u8>),
    Clear(usize),
    Schedule,
    Seal,
    Open,
    Read(usize, Vec<u8>),
    Counts,
    Left,
    Record(usize),
    Unready,
}

// What the unit tells where it accepts a call.
#[derive(Clone, Copy)]
pub enum Reply {
    Done,
    Counts(Counts),
    Left(u32),
    Record(LaneRecord),
    Unready(Option<usize>),
}

// A call, and its answer once it is performed: a reply, or the fault for which it is refused.
#[derive(Drop)]
pub struct Entry {
    pub call: Call,
    pub answer: Option<Result<Reply, Fault>>,
}
