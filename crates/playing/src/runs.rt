// A whole script.
ghost use Rattle.std.specs.Prelude.{◌≡◌, Bool, [], ◌∷◌, ◌++◌, IfOk, codes, OnOk};
ghost use Rattle.bench.specs.Benches.{meaning};
ghost use Rattle.playing.specs.Setups.{opens};
ghost use Rattle.playing.specs.Runs.{answers, Answered, Stepped, Wrote, script_text};

use crate::answers::{Answer, Refusal};
use crate::benchlines::find_bench;
use crate::memory::SetupMemory;
use crate::on_bench;
use crate::performs::perform;
use crate::readers::{is_silent, read_command};
use crate::setups::Setup;
use crate::writers::push_answer;
use bench::benches::Bench;
use bench::either::EitherBench;
use std::alloc::{AllocError, Global};
use text::lines::{Line, Lines};
use text::writes::push_text;

// The answer to a line that is not silent.
fn respond<B: Bench>(
    heap: Global,
    bench: &mut B,
    kept: &mut Vec<u8>,
    line: Line<'_>,
) -> Result<Answer, AllocError>
    ensures { IfOk result (λ a. Answered (meaning B.Bench bench.old) kept.old.items line.entry.number line.entry.text.now a (meaning B.Bench bench.new) kept.new.items) }
{
    match read_command(heap, line.text)? {
        Some(command) => Ok(perform(bench, kept, command)),
        None => Ok(Err(Refusal::Unreadable(line.number))),
    }
}

// Does one line, and appends its answer, if it has one.
fn answer_line<B: Bench>(
    heap: Global,
    bench: &mut B,
    kept: &mut Vec<u8>,
    line: Line<'_>,
    out: &mut Vec<u8>,
) -> Result<(), AllocError>
    ensures { OnOk result (Stepped (meaning B.Bench bench.old) kept.old.items line.entry.number line.entry.text.now out.old.items out.new.items (meaning B.Bench bench.new) kept.new.items) }
{
    if is_silent(line.text) {
        return Ok(());
    }
    let answer = respond(heap, bench, kept, line)?;
    push_answer(out, answer)
}

// Answers the lines.
fn run<B: Bench>(
    heap: Global,
    bench: &mut B,
    lines: Lines<'_>,
    out: &mut Vec<u8>,
) -> Result<(), AllocError>
    ensures { OnOk result (out.new.items ≡ out.old.items ++ answers (meaning B.Bench bench.old) [] lines.entry.next lines.entry.lines) }
{
    let mut page = Vec::new(heap);
    for line in lines {
        answer_line(heap, bench, &mut page, line, out)?;
    }
    Ok(())
}

fn push_no_memory(out: &mut Vec<u8>) -> Result<(), AllocError>
    ensures { OnOk result (out.new.items ≡ out.old.items ++ (codes "no memory" ++ (10 ∷ []))) }
{
    push_text(out, b"no memory\n")
}

// Answers the lines on the bench of the setup, over memory of zeros.
fn run_setup(
    heap: Global,
    setup: Setup,
    lines: Lines<'_>,
    out: &mut Vec<u8>,
) -> Result<(), AllocError>
    ensures { OnOk result (Wrote (opens setup) lines.entry.next lines.entry.lines out.old.items out.new.items) }
{
    let Ok(mut memory) = SetupMemory::zeros(heap, setup) else {
        return push_no_memory(out);
    };
    on_bench!(memory.bench(), mut bench => run(heap, &mut bench, lines, out))
}

// What is written for a whole script.
pub fn play_script(heap: Global, script: &[u8]) -> Result<Vec<u8>, AllocError>
    ensures { IfOk result (λ v. (room : Bool) × (v.items ≡ script_text room script.now)) }
{
    let mut out = Vec::new(heap);
    match find_bench(Lines::of(script)) {
        Ok(None) => {}
        Ok(Some((setup, lines))) => run_setup(heap, setup, lines, &mut out)?,
        Err(refusal) => push_answer(&mut out, Err(refusal))?,
    }
    Ok(out)
}
