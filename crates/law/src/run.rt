// Lists of calls on a unit, and the law over them.
ghost use Rattle.std.specs.Prelude.{◌≡◌};
ghost use Rattle.unit.specs.View.{made};
ghost use Rattle.unit.specs.Held.{meaning, view};
ghost use Rattle.law.specs.Calls.{replied, lines, asks, asked, performed, next, log as logged, ran};
ghost use Rattle.law.specs.Law.{Lawful, Isolated};
ghost use Rattle.law.specs.Sound.{Sound, AllSound};

use crate::calls::{Call, Entry, Reply};
use bench::benches::Bench;
use bench::faults::Fault;
use unit::unit::CipherUnit;

// Performs one call on the unit, and gives its answer; a reading fills its buffer.
fn perform<B: Bench>(unit: &mut CipherUnit<B>, call: &mut Call) -> Result<Reply, Fault>
    ensures said { replied (asked call.new) result ≡ performed (view B.Bench unit.old) (asked call.old) }
    ensures became { view B.Bench unit.new ≡ next (view B.Bench unit.old) (asked call.old) }
    ensures sound { Sound (asked call.old) }
{
    match call {
        Call::PlaceKey(lane, bytes) => unit.place_key(*lane, bytes.as_slice())?,
        Call::PlaceBlock(lane, bytes) => unit.place_block(*lane, bytes.as_slice())?,
        Call::Clear(lane) => unit.clear(*lane)?,
        Call::Schedule => unit.schedule()?,
        Call::Seal => unit.seal()?,
        Call::Open => unit.open()?,
        Call::Read(lane, buffer) => unit.read(*lane, buffer.as_mut_slice())?,
        Call::Counts => return Ok(Reply::Counts(unit.counts())),
        Call::Left => return Ok(Reply::Left(unit.left())),
        Call::Record(lane) => return Ok(Reply::Record(unit.record(*lane)?)),
        Call::Unready => return Ok(Reply::Unready(unit.unready())),
    }
    Ok(Reply::Done)
}

// Makes a unit, performs the calls in order, and writes each answer into its entry.
pub fn run<B: Bench>(bench: B, log: &mut [Entry]) -> CipherUnit<B>
    ensures log { lines log.new ≡ logged (made (meaning B.Bench bench) (B.Bench.beneath bench)) (asks log.old) }
    ensures unit { view B.Bench result ≡ ran (made (meaning B.Bench bench) (B.Bench.beneath bench)) (asks log.old) }
    ensures law { Lawful (B.Bench.left bench) (lines log.new) (B.Bench.left result.bench) }
    ensures sound { AllSound (asks log.old) }
{
    let mut unit = CipherUnit::new(bench);
    for entry in log.iter_mut() {
        entry.answer = Some(perform(&mut unit, &mut entry.call));
    }
    unit
}

// Two runs, each on a unit of its own.
pub fn run_both<P: Bench, Q: Bench>(
    one: P,
    two: Q,
    first: &mut [Entry],
    second: &mut [Entry],
) -> (CipherUnit<P>, CipherUnit<Q>)
    ensures logs { (lines first.new ≡ logged (made (meaning P.Bench one) (P.Bench.beneath one)) (asks first.old)) × (lines second.new ≡ logged (made (meaning Q.Bench two) (Q.Bench.beneath two)) (asks second.old)) }
    ensures units { (view P.Bench result.0 ≡ ran (made (meaning P.Bench one) (P.Bench.beneath one)) (asks first.old)) × (view Q.Bench result.1 ≡ ran (made (meaning Q.Bench two) (Q.Bench.beneath two)) (asks second.old)) }
    ensures laws { (Lawful (P.Bench.left one) (lines first.new) (P.Bench.left result.0.bench)) × (Lawful (Q.Bench.left two) (lines second.new) (Q.Bench.left result.1.bench)) }
    ensures isolated { Isolated (meaning P.Bench one) (meaning Q.Bench two) (asks first.old) (asks second.old) (lines first.new) (lines second.new) (P.Bench.left result.0.bench) (Q.Bench.left result.1.bench) }
{
    let a = run(one, first);
    let b = run(two, second);
    (a, b)
}
