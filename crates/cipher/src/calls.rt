// Scheduling, sealing and opening in every lane, on any bench.
ghost use Rattle.std.specs.Prelude.{◌≡◌};
ghost use Rattle.standard.specs.Kinds.{aes128};
ghost use Rattle.bench.specs.Benches.{meaning};
ghost use Rattle.bench.specs.Model.{after};
ghost use Rattle.plans.specs.Pages.{own_inverter};
ghost use Rattle.plans.specs.Plays.{planned, planned_in, plan_gates};
ghost use Rattle.plans.specs.Plans.{plays_of};
ghost use Rattle.cipher.specs.Claims.{sized as sized_by, plan_answer, Given, Fallen, StagesStand, Does};

use bench::asks::ask_gates;
use bench::benches::Bench;
use bench::faults::{Fault, Part, Question};
use plans::plays::own_inverter;
use plans::runs::play_plan;
use plans::tables::{Plan, least_registers};

// Whether so many registers and lanes are enough, and not too many.
pub fn sized(registers: u16, lanes: u16) -> bool
    ensures { result ≡ sized_by aes128 registers lanes }
{
    registers >= least_registers() && lanes >= 1 && lanes <= 128
}

// Asks whether the bench has the size, and then whether enough gates are left; then plays the plan. In each lane the
// key becomes its round keys, the block its cipher under them, or the block its inverse cipher.
pub fn run<B: Bench>(bench: &mut B, plan: Plan) -> Result<(), Fault>
    ensures answer { result ≡ plan_answer own_inverter aes128 (plays_of plan aes128) (meaning B.Bench bench.old) }
    ensures leaves { meaning B.Bench bench.new ≡ after result (planned own_inverter (plays_of plan aes128) (meaning B.Bench bench.old)) (meaning B.Bench bench.old) }
    ensures beneath { B.beneath bench.new ≡ after result (planned_in own_inverter (plays_of plan aes128) (B.beneath bench.old)) (B.beneath bench.old) }
    ensures fallen { Given (Fallen (plan_gates own_inverter (plays_of plan aes128))) result (meaning B.Bench bench.old) (meaning B.Bench bench.new) }
    ensures stages { StagesStand own_inverter aes128 (meaning B.Bench bench.old) }
    ensures does { Given (Does aes128 plan) result (meaning B.Bench bench.old) (meaning B.Bench bench.new) }
{
    if !sized(bench.registers(), bench.lanes()) {
        return Err(Fault::new(Question::Size, Part::Unit, 0));
    }
    ask_gates(Part::Unit, plan.gates(), bench.left())?;
    play_plan(bench, own_inverter(), plan.plays())
}
