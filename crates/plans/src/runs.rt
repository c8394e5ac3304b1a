// A plan played on any bench.
ghost use Rattle.std.specs.Prelude.{◌≡◌, ℕ};
ghost use Rattle.bench.specs.Benches.{meaning};
ghost use Rattle.plans.specs.Plays.{do_play, do_play_in, plays_answer, carried};

use crate::plays::Play;
use bench::benches::Bench;
use bench::faults::Fault;
use player::plays::play;

// Plays each play in order, with the given inverter, and stops at the first that is refused.
pub fn play_plan<B: Bench>(bench: &mut B, inverter: &[u8], plan: &[Play]) -> Result<(), Fault>
    ensures answer { result ≡ plays_answer inverter.now plan.now (meaning B.Bench bench.old) }
    ensures leaves { meaning B.Bench bench.new ≡ carried inverter.now (do_play inverter.now) plan.now (meaning B.Bench bench.old) (meaning B.Bench bench.old) }
    ensures beneath { B.beneath bench.new ≡ carried inverter.now (do_play_in inverter.now) plan.now (meaning B.Bench bench.old) (B.beneath bench.old) }
{
    for p in plan {
        play(bench, p.page(inverter), p.bases())?;
    }
    Ok(())
}
