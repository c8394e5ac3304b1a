// Two benches side by side, held by value: the first one's lanes come first, and each gate is done on both.
ghost use Rattle.std.specs.Prelude.{◌≡◌, min};
ghost use Rattle.std.proofs.Common.{ap₂};
ghost use Rattle.bench.specs.Benches.{meaning};
ghost use Rattle.bench.specs.Model.{both};
ghost use Rattle.bench.specs.Side.{side_lanes, side_bit, side_lawful};

use crate::asks::{ask_gate, ask_lane, ask_register, ask_spot};
use crate::benches::Bench;
use crate::faults::Fault;
use crate::gates::Gate;

#[derive(Drop)]
pub struct SideBySide<F, S> {
    pub first: F,
    pub second: S,
}

impl<F: Bench, S: Bench> Bench for SideBySide<F, S> {
    ghost registers = { λ s. min (F.Bench.registers s.first) (S.Bench.registers s.second) };

    ghost lanes = { λ s. side_lanes (F.Bench.lanes s.first) (S.Bench.lanes s.second) };

    ghost left = { λ s. min (F.Bench.left s.first) (S.Bench.left s.second) };

    ghost shows = { λ s. record { bit = side_bit (meaning F.Bench s.first) (meaning S.Bench s.second) } };

    ghost beneath = { λ s. both (F.Bench.beneath s.first) (S.Bench.beneath s.second) };

    ghost tied = { λ s. ap₂ side_lanes (F.Bench.tied s.first) (S.Bench.tied s.second) };

    ghost lawful = { λ s. side_lawful (meaning F.Bench s.first) (meaning S.Bench s.second) (F.Bench.lawful s.first) (S.Bench.lawful s.second) };

    fn registers(&self) -> u16 {
        self.first.registers().min(self.second.registers())
    }

    fn lanes(&self) -> u16 {
        (self.first.lanes() as u32 + self.second.lanes() as u32).min(65_535) as u16
    }

    fn left(&self) -> u32 {
        self.first.left().min(self.second.left())
    }

    fn show(&self, register: u16, lane: u16) -> Result<bool, Fault> {
        ask_spot(self.registers(), self.lanes(), register, lane)?;
        let inner = self.first.lanes();
        if lane < inner {
            self.first.show(register, lane)
        } else {
            self.second.show(register, lane - inner)
        }
    }

    // Inlined, so that a loop over one lane is one loop.
    #[inline(always)]
    fn set(&mut self, register: u16, lane: u16, value: bool) -> Result<(), Fault> {
        // One by one: of a register that is there a row bench's lanes need not be reckoned twice.
        ask_register(self.registers(), register)?;
        ask_lane(self.lanes(), lane)?;
        let inner = self.first.lanes();
        if lane < inner {
            self.first.set(register, lane, value)
        } else {
            self.second.set(register, lane - inner, value)
        }
    }

    fn gate(&mut self, gate: Gate) -> Result<(), Fault> {
        ask_gate(self.registers(), self.left(), gate)?;
        self.first.gate(gate)?;
        self.second.gate(gate)
    }
}
