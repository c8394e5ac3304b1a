// The word bench, over the caller's words: word r is register r, and bit l of it, counted from the lowest, is lane l.
// Words beyond the first 65,535 are never touched.
ghost use Rattle.std.specs.Prelude.{◌≡◌, ◌<◌, min, [], refl};
ghost use Rattle.bench.specs.Model.{part};
ghost use Rattle.bench.specs.Word.{word_model, word_count, word_bit, beyond, word_lawful, combined, put_bit, test_bit};

use crate::asks::{ask_gate, ask_spot};
use crate::benches::Bench;
use crate::bits::{put_bit, test_bit};
use crate::faults::Fault;
use crate::gates::Gate;

pub const MOST_REGISTERS: usize = 65_535;

pub const MOST_GATES: u32 = 1_000_000_000;

#[derive(Drop)]
pub struct WordBench<'a> {
    words: &'a mut [u64],
    left: u32,
}

impl<'a> WordBench<'a> {
    // An allotment above the most gates counts as the most.
    pub fn new(words: &'a mut [u64], allotment: u32) -> WordBench<'a>
        ensures meaning { word_model result.words.now result.left ≡ word_model words.old allotment }
        ensures same { result.words.ghost_name ≡ words.entry.ghost_name }
        ensures untouched { result.words.now ≡ words.old }
    {
        WordBench {
            words,
            left: allotment.min(MOST_GATES),
        }
    }

    // A bench of no words, to stand in a bench's place while that is held elsewhere.
    pub fn idle() -> WordBench<'a>
        ensures { word_model result.words.now result.left ≡ word_model [] 0 }
    {
        WordBench {
            words: &mut [],
            left: 0,
        }
    }

    // The caller's words again, as the bench leaves them.
    pub fn finish(self) -> &'a mut [u64]
        ensures value { result.now ≡ self.entry.words.now }
        ensures same { result.ghost_name ≡ self.entry.words.ghost_name }
    {
        let WordBench { words, left: _ } = self;
        words
    }
}

impl<'a> Bench for WordBench<'a> {
    ghost registers = { λ s. word_count s.words.now };

    ghost lanes = { λ s. 64 };

    ghost left = { λ s. min s.left 1000000000 };

    ghost shows = { λ s. record { bit = word_bit s.words.now } };

    ghost beneath = { λ s. part s.words.ghost_name (beyond s.words.now) (word_model s.words.now s.left) };

    ghost tied = { λ s. refl };

    ghost lawful = { λ s. word_lawful s.words.now s.left };

    fn registers(&self) -> u16 {
        self.words.len().min(MOST_REGISTERS) as u16
    }

    fn lanes(&self) -> u16 {
        64
    }

    fn left(&self) -> u32 {
        self.left.min(MOST_GATES)
    }

    fn show(&self, register: u16, lane: u16) -> Result<bool, Fault> {
        ask_spot(self.registers(), self.lanes(), register, lane)?;
        Ok(test_bit(self.words[register as usize], lane))
    }

    fn set(&mut self, register: u16, lane: u16, value: bool) -> Result<(), Fault> {
        ask_spot(self.registers(), self.lanes(), register, lane)?;
        let word = self.words[register as usize];
        self.words[register as usize] = put_bit(word, lane, value);
        Ok(())
    }

    fn gate(&mut self, gate: Gate) -> Result<(), Fault> {
        ask_gate(self.registers(), self.left(), gate)?;
        let x = self.words[gate.first as usize];
        let y = self.words[gate.second as usize];
        self.words[gate.target as usize] = gate.kind.on_words(x, y);
        self.left = self.left() - 1;
        Ok(())
    }
}
