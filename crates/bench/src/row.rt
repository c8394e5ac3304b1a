// The row bench, over the caller's bytes: lane l is the row of `width` bytes from byte l·width on, and register r is
// bit r mod 8, lowest first, of byte r / 8 of that row. Bytes beyond the last whole row of the first 64 are never touched.
ghost use Rattle.std.specs.Prelude.{◌≡◌, ◌+◌, ◌*◌, ◌/◌, ◌^◌, ◌<◌, ◌≤◌, min, [], ◌∷◌, length, refl};
ghost use Rattle.bench.specs.Model.{part};
ghost use Rattle.bench.specs.Word.{put_bit};
ghost use Rattle.bench.specs.Row.{fit, row_lanes, row_bit, row_model, rest, row_step, rows_done, row_lawful};

use crate::asks::{ask_gate, ask_spot};
use crate::benches::Bench;
use crate::bits::{put_bit, test_bit};
use crate::faults::Fault;
use crate::gates::Gate;
use crate::word::MOST_GATES;

pub const MOST_WIDTH: usize = 8_191;

pub const MOST_ROWS: usize = 64;

#[derive(Drop)]
pub struct RowBench<'a> {
    bytes: &'a mut [u8],
    width: usize,
    left: u32,
}

impl<'a> RowBench<'a> {
    // A width of 0, or above the most, gives a bench of no registers and no lanes. Made, idle and finished as a word bench is;
    // what the clauses name is another memory, so they are no one function.
    pub fn new(bytes: &'a mut [u8], width: usize, allotment: u32) -> RowBench<'a>
        ensures meaning { row_model result.bytes.now result.width result.left ≡ row_model bytes.old width allotment }
        ensures same { result.bytes.ghost_name ≡ bytes.entry.ghost_name }
        ensures untouched { result.bytes.now ≡ bytes.old }
        ensures wide { result.width ≡ width }
    {
        RowBench {
            bytes,
            width,
            left: allotment.min(MOST_GATES),
        }
    }

    // A bench of no bytes, to stand in a bench's place while that is held elsewhere.
    pub fn idle() -> RowBench<'a>
        ensures { row_model result.bytes.now result.width result.left ≡ row_model [] 0 0 }
    {
        RowBench {
            bytes: &mut [],
            width: 0,
            left: 0,
        }
    }

    // The caller's bytes again, as the bench leaves them.
    pub fn finish(self) -> &'a mut [u8]
        ensures value { result.now ≡ self.entry.bytes.now }
        ensures same { result.ghost_name ≡ self.entry.bytes.ghost_name }
    {
        let RowBench {
            bytes,
            width: _,
            left: _,
        } = self;
        bytes
    }

    fn row(&self) -> usize
        ensures { result ≡ fit self.now.width }
    {
        if self.width > MOST_WIDTH {
            0
        } else {
            self.width
        }
    }

    fn rows(&self) -> usize
        ensures { result ≡ row_lanes (length self.now.bytes.now) (fit self.now.width) }
    {
        let row = self.row();
        if row == 0 {
            0
        } else {
            (self.bytes.len() / row).min(MOST_ROWS)
        }
    }
}

// A byte with one of its bits put.
fn put_byte(byte: u8, at: u16, bit: bool) -> u8
    requires { at < 8 }
    ensures { result ≡ put_bit byte at bit }
{
    put_bit(byte as u64, at, bit) as u8
}

// One gate in the row that begins at `base`.
fn gate_row(bytes: &mut [u8], base: usize, gate: Gate)
    requires { (base + gate.target / 8 < length bytes.old) × ((base + gate.first / 8 < length bytes.old) × (base + gate.second / 8 < length bytes.old)) }
    ensures { bytes.new ≡ row_step gate.kind gate.target gate.first gate.second base bytes.old }
{
    let x = test_bit(
        bytes[base + (gate.first / 8) as usize] as u64,
        gate.first % 8,
    );
    let y = test_bit(
        bytes[base + (gate.second / 8) as usize] as u64,
        gate.second % 8,
    );
    let at = base + (gate.target / 8) as usize;
    bytes[at] = put_byte(bytes[at], gate.target % 8, gate.kind.on_bits(x, y));
}

// One gate in each of the first rows.
fn gate_rows(bytes: &mut [u8], row: usize, rows: usize, gate: Gate)
    requires { (rows * row ≤ length bytes.old) × ((gate.target / 8 < row) × ((gate.first / 8 < row) × (gate.second / 8 < row))) }
    ensures { bytes.new ≡ rows_done gate.kind gate.target gate.first gate.second row rows bytes.old }
{
    // By number: over `chunks_exact_mut` the proof stayed open, since it knows the rows only chunk by chunk.
    for lane in 0..rows {
        gate_row(bytes, lane * row, gate);
    }
}

// Where the byte of a register lies in a lane.
fn place(row: usize, register: u16, lane: u16) -> usize
    requires { lane * row + register / 8 < 2 ^ 64 }
    ensures { result ≡ lane * row + register / 8 }
{
    lane as usize * row + (register / 8) as usize
}

impl<'a> Bench for RowBench<'a> {
    ghost registers = { λ s. 8 * fit s.width };

    ghost lanes = { λ s. row_lanes (length s.bytes.now) (fit s.width) };

    ghost left = { λ s. min s.left 1000000000 };

    ghost shows = { λ s. record { bit = row_bit s.bytes.now (fit s.width) } };

    ghost beneath = { λ s. part s.bytes.ghost_name (s.width ∷ rest s.bytes.now s.width) (row_model s.bytes.now s.width s.left) };

    ghost tied = { λ s. refl };

    ghost lawful = { λ s. row_lawful s.bytes.now s.width s.left };

    fn registers(&self) -> u16 {
        8 * self.row() as u16
    }

    fn lanes(&self) -> u16 {
        self.rows() as u16
    }

    fn left(&self) -> u32 {
        self.left.min(MOST_GATES)
    }

    fn show(&self, register: u16, lane: u16) -> Result<bool, Fault> {
        ask_spot(self.registers(), self.lanes(), register, lane)?;
        let at = place(self.row(), register, lane);
        Ok(test_bit(self.bytes[at] as u64, register % 8))
    }

    fn set(&mut self, register: u16, lane: u16, value: bool) -> Result<(), Fault> {
        ask_spot(self.registers(), self.lanes(), register, lane)?;
        let at = place(self.row(), register, lane);
        self.bytes[at] = put_byte(self.bytes[at], register % 8, value);
        Ok(())
    }

    fn gate(&mut self, gate: Gate) -> Result<(), Fault> {
        ask_gate(self.registers(), self.left(), gate)?;
        let row = self.row();
        let rows = self.rows();
        gate_rows(self.bytes, row, rows, gate);
        self.left = self.left() - 1;
        Ok(())
    }
}
