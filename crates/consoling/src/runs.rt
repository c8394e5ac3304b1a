// A whole script, on one unit or on two.
ghost use Rattle.std.specs.Prelude.{◌≡◌, [], ◌∷◌, ◌++◌, IfOk, codes, OnOk};
ghost use Rattle.playing.specs.Setups.{opens};
ghost use Rattle.unit.specs.Held.{meaning};
ghost use Rattle.law.specs.Calls.{asks, lines, log as logged};
ghost use Rattle.consoling.specs.Runs.{unit_on, answers_text, beside_text, both_text, console_text, Ran, RanBoth, RanOn, LawOne, LawTwo, LawParted, LawBoth, ConsoleLaw};

use crate::scripts::read_body;
use crate::turns::{Body, Script};
use crate::writers::push_answers;
use bench::benches::Bench;
use bench::either::EitherBench;
use law::calls::Entry;
use law::run::{run, run_both};
use playing::benchlines::find_bench;
use playing::memory::SetupMemory;
use playing::on_bench;
use playing::setups::Setup;
use playing::writers::push_answer;
use std::alloc::{AllocError, Global};
use text::lines::Lines;
use text::writes::push_text;

// Performs the calls on a unit over the bench.
fn run_script<B: Bench + Drop>(bench: B, log: &mut [Entry])
    ensures { Ran (meaning B.Bench bench) (asks log.old) (lines log.new) }
{
    let _unit = run(bench, log);
}

// Performs two lists of calls, each on a unit of its own.
fn run_scripts<P: Bench + Drop, Q: Bench + Drop>(
    one: P,
    two: Q,
    first: &mut [Entry],
    second: &mut [Entry],
)
    ensures { RanBoth (meaning P.Bench one) (meaning Q.Bench two) (asks first.old) (asks second.old) (lines first.new) (lines second.new) }
{
    let _units = run_both(one, two, first, second);
}

// Performs the calls on a unit over the bench, and the second ones, if any, on a unit over a bench of their own.
fn run_on<B: Bench + Drop>(
    heap: Global,
    bench: B,
    other: Option<Setup>,
    first: &mut [Entry],
    second: &mut [Entry],
) -> Result<(), AllocError>
    ensures { OnOk result (RanOn (meaning B.Bench bench) other (asks first.old) (asks second.old) (lines first.new) (lines second.new)) }
{
    let Some(other) = other else {
        run_script(bench, first);
        return Ok(());
    };
    let mut memory = SetupMemory::zeros(heap, other)?;
    on_bench!(memory.bench(), two => run_scripts(bench, two, first, second));
    Ok(())
}

// The same over the benches of the setups, over memory of zeros.
fn run_setups(
    heap: Global,
    setup: Setup,
    other: Option<Setup>,
    first: &mut [Entry],
    second: &mut [Entry],
) -> Result<(), AllocError>
    ensures { OnOk result (RanOn (opens setup) other (asks first.old) (asks second.old) (lines first.new) (lines second.new)) }
{
    let mut memory = SetupMemory::zeros(heap, setup)?;
    on_bench!(memory.bench(), bench => run_on(heap, bench, other, first, second))
}

// Performs a script that has no second one, and appends its answers.
fn answer_alone(
    heap: Global,
    setup: Setup,
    mut script: Script,
    out: &mut Vec<u8>,
) -> Result<(), AllocError>
    ensures text { OnOk result (out.new.items ≡ out.old.items ++ answers_text script.turns.items (logged (unit_on setup) (asks script.log.items))) }
    ensures law { OnOk result (LawOne setup (asks script.log.items)) }
{
    run_setups(heap, setup, None, script.log.as_mut_slice(), &mut [])?;
    push_answers(out, script.turns.as_slice(), script.log.as_slice())
}

// Performs two scripts, and appends the answers of both.
fn answer_both(
    heap: Global,
    setup: Setup,
    other: Setup,
    mut one: Script,
    mut two: Script,
    out: &mut Vec<u8>,
) -> Result<(), AllocError>
    ensures text { OnOk result (out.new.items ≡ out.old.items ++ (answers_text one.turns.items (logged (unit_on setup) (asks one.log.items)) ++ ((codes "beside" ++ (10 ∷ [])) ++ answers_text two.turns.items (logged (unit_on other) (asks two.log.items))))) }
    ensures law { OnOk result (LawTwo setup other (asks one.log.items) (asks two.log.items)) }
{
    run_setups(
        heap,
        setup,
        Some(other),
        one.log.as_mut_slice(),
        two.log.as_mut_slice(),
    )?;
    push_answers(out, one.turns.as_slice(), one.log.as_slice())?;
    push_text(out, b"beside\n")?;
    push_answers(out, two.turns.as_slice(), two.log.as_slice())
}

// A script, and the lines after a line `beside`.
fn answer_beside(
    heap: Global,
    setup: Setup,
    script: Script,
    rest: Lines<'_>,
    out: &mut Vec<u8>,
) -> Result<(), AllocError>
    ensures text { OnOk result (out.new.items ≡ out.old.items ++ (answers_text script.turns.items (logged (unit_on setup) (asks script.log.items)) ++ beside_text (Some rest.entry))) }
    ensures law { OnOk result (LawParted setup (asks script.log.items) (Some rest.entry)) }
{
    match find_bench(rest) {
        Ok(None) => {
            answer_alone(heap, setup, script, out)?;
            push_text(out, b"beside\n")
        }
        Ok(Some((other, rest))) => {
            let body = read_body(heap, rest, false)?;
            answer_both(heap, setup, other, script, body.script, out)
        }
        Err(refusal) => {
            answer_alone(heap, setup, script, out)?;
            push_text(out, b"beside\n")?;
            push_answer(out, Err(refusal))
        }
    }
}

// The lines after the bench line.
fn answer_script(
    heap: Global,
    setup: Setup,
    rest: Lines<'_>,
    out: &mut Vec<u8>,
) -> Result<(), AllocError>
    ensures text { OnOk result (out.new.items ≡ out.old.items ++ both_text setup rest.entry.next rest.entry.lines) }
    ensures law { OnOk result (LawBoth setup rest.entry.next rest.entry.lines) }
{
    let Body { script, beside } = read_body(heap, rest, true)?;
    match beside {
        None => answer_alone(heap, setup, script, out),
        Some(rest) => answer_beside(heap, setup, script, rest, out),
    }
}

// What is written for a whole script.
pub fn console_script(heap: Global, script: &[u8]) -> Result<Vec<u8>, AllocError>
    ensures text { IfOk result (λ v. v.items ≡ console_text script.now) }
    ensures law { OnOk result (ConsoleLaw script.now) }
{
    let mut out = Vec::new(heap);
    match find_bench(Lines::of(script)) {
        Ok(None) => {}
        Ok(Some((setup, rest))) => answer_script(heap, setup, rest, &mut out)?,
        Err(refusal) => push_answer(&mut out, Err(refusal))?,
    }
    Ok(out)
}
