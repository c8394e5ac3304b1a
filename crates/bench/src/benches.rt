// What every bench answers and leaves.
//
// A bench has registers and lanes, both numbered from 0, and a number of gates left; in each lane each register shows
// one bit. The ghost members say this whole meaning, and whatever stands above a bench is proved from them alone.
ghost use Rattle.std.specs.Prelude.{◌≡◌, ℕ};
ghost use Rattle.bench.specs.Model.{Shown, told, Lawful, Memory, lanes_in, show_answer, set_answer, gate_answer, written, gated, written_in, gated_in, after};

use crate::faults::Fault;
use crate::gates::Gate;

pub trait Bench {
    ghost registers: { Self → ℕ };

    ghost lanes: { Self → ℕ };

    ghost left: { Self → ℕ };

    // The bit of each register in each lane.
    ghost shows: { Self → Shown };

    // The bottom benches beneath, each with its memory.
    ghost beneath: { Self → Memory };

    // Shown by each `impl`: the lanes are those beneath, and the meaning keeps its bounds.
    ghost tied: { (s : Self) → lanes_in (beneath s) ≡ lanes s };

    ghost lawful: { (s : Self) → Lawful (told registers lanes left shows s) };

    fn registers(&self) -> u16
        ensures { result ≡ registers self.now };

    fn lanes(&self) -> u16
        ensures { result ≡ lanes self.now };

    fn left(&self) -> u32
        ensures { result ≡ left self.now };

    // The bit of a register in a lane.
    fn show(&self, register: u16, lane: u16) -> Result<bool, Fault>
        ensures { result ≡ show_answer (told registers lanes left shows self.now) register lane };

    // Alters one bit, and takes no gate.
    fn set(&mut self, register: u16, lane: u16, value: bool) -> Result<(), Fault>
        ensures answer { result ≡ set_answer (told registers lanes left shows self.old) register lane }
        ensures leaves { told registers lanes left shows self.new ≡ after result (written register lane value (told registers lanes left shows self.old)) (told registers lanes left shows self.old) }
        ensures beneath { beneath self.new ≡ after result (written_in register lane value (beneath self.old)) (beneath self.old) };

    // In every lane the target then shows the kind's result on what the operands showed before, for one gate.
    fn gate(&mut self, gate: Gate) -> Result<(), Fault>
        ensures answer { result ≡ gate_answer (told registers lanes left shows self.old) gate.target gate.first gate.second }
        ensures leaves { told registers lanes left shows self.new ≡ after result (gated gate.kind gate.target gate.first gate.second (told registers lanes left shows self.old)) (told registers lanes left shows self.old) }
        ensures beneath { beneath self.new ≡ after result (gated_in gate.kind gate.target gate.first gate.second (beneath self.old)) (beneath self.old) };
}
