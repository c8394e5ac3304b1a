// The questions that every bench asks of a call, in their order. Each takes the bench's numbers: a method cannot pass its own
// type to a function with the same bound.
ghost use Rattle.std.specs.Prelude.{◌≡◌, ◌<◌, ◌≤◌, Ok, OnOk};
ghost use Rattle.bench.specs.Model.{within, in_lane, gates_answer, spot_answer, step_answer};

use crate::faults::{Fault, Part};
use crate::gates::Gate;

pub(crate) fn ask_register(registers: u16, register: u16) -> Result<(), Fault>
    ensures answer { result ≡ within registers register (Ok tt) }
    ensures has { OnOk result (register < registers) }
{
    if register < registers {
        Ok(())
    } else {
        Err(Fault::register(register))
    }
}

pub(crate) fn ask_lane(lanes: u16, lane: u16) -> Result<(), Fault>
    ensures answer { result ≡ in_lane lanes lane (Ok tt) }
    ensures has { OnOk result (lane < lanes) }
{
    if lane < lanes {
        Ok(())
    } else {
        Err(Fault::lane(lane))
    }
}

// Asks, for `part`, whether `needed` gates are left.
pub fn ask_gates(part: Part, needed: u32, left: u32) -> Result<(), Fault>
    ensures answer { result ≡ gates_answer part needed left }
    ensures has { OnOk result (needed ≤ left) }
{
    if left < needed {
        Err(Fault::gates(part, needed - left))
    } else {
        Ok(())
    }
}

// The register, and then the lane.
pub(crate) fn ask_spot(registers: u16, lanes: u16, register: u16, lane: u16) -> Result<(), Fault>
    ensures answer { result ≡ spot_answer registers lanes register lane }
    ensures has { OnOk result ((register < registers) × (lane < lanes)) }
{
    ask_register(registers, register)?;
    ask_lane(lanes, lane)
}

// The target, the operands, and then whether a gate is left.
pub(crate) fn ask_gate(registers: u16, left: u32, gate: Gate) -> Result<(), Fault>
    ensures answer { result ≡ step_answer registers left gate.target gate.first gate.second }
    ensures has { OnOk result ((gate.target < registers) × ((gate.first < registers) × ((gate.second < registers) × (0 < left)))) }
{
    ask_register(registers, gate.target)?;
    ask_register(registers, gate.first)?;
    ask_register(registers, gate.second)?;
    ask_gates(Part::Bench, 1, left)
}
