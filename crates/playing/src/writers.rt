// Writing an answer, by functions that append bytes and not as `Display`: that writes to a `String` first, and needs a proof
// for each number that the library's digits are the `decimal` of the specs, where these need none.
ghost use Rattle.std.specs.Prelude.{◌≡◌, ◌++◌, OnOk};
ghost use Rattle.playing.specs.Answers.{spaced, part_name, reply_text, refusal_text, answer_line};

use crate::answers::{Answer, Refusal, Reply};
use bench::faults::{Fault, Part};
use std::alloc::AllocError;
use text::writes::{push_number, push_text};

// Appends the numbers, each with a space before it.
fn push_spaced(out: &mut Vec<u8>, numbers: &[u64]) -> Result<(), AllocError>
    ensures { OnOk result (out.new.items ≡ out.old.items ++ spaced numbers.now) }
{
    for n in numbers {
        push_text(out, b" ")?;
        push_number(out, *n)?;
    }
    Ok(())
}

fn push_counts(out: &mut Vec<u8>, label: &[u8], numbers: &[u64]) -> Result<(), AllocError>
    ensures { OnOk result (out.new.items ≡ out.old.items ++ (label.now ++ spaced numbers.now)) }
{
    push_text(out, label)?;
    push_spaced(out, numbers)
}

fn push_part(out: &mut Vec<u8>, part: Part) -> Result<(), AllocError>
    ensures { OnOk result (out.new.items ≡ out.old.items ++ part_name part) }
{
    match part {
        Part::Bench => push_text(out, b"bench"),
        Part::Player => push_text(out, b"player"),
        Part::Unit => push_text(out, b"unit"),
        Part::Reader => push_text(out, b"reader"),
    }
}

fn push_fault(out: &mut Vec<u8>, fault: Fault) -> Result<(), AllocError>
    ensures { OnOk result (out.new.items ≡ out.old.items ++ refusal_text (Refusal.Fault fault)) }
{
    push_counts(out, b"refused", &[fault.number() as u64])?;
    push_text(out, b" ")?;
    push_part(out, fault.part)?;
    push_spaced(out, &[fault.place])
}

fn push_refusal(out: &mut Vec<u8>, refusal: Refusal) -> Result<(), AllocError>
    ensures { OnOk result (out.new.items ≡ out.old.items ++ refusal_text refusal) }
{
    match refusal {
        Refusal::Fault(fault) => push_fault(out, fault),
        Refusal::Unreadable(line) => push_counts(out, b"unreadable", &[line]),
    }
}

fn push_reply(out: &mut Vec<u8>, reply: Reply) -> Result<(), AllocError>
    ensures { OnOk result (out.new.items ≡ out.old.items ++ reply_text reply) }
{
    match reply {
        Reply::Done => push_text(out, b"ok"),
        Reply::Registers(n) => push_counts(out, b"registers", &[n as u64]),
        Reply::Lanes(n) => push_counts(out, b"lanes", &[n as u64]),
        Reply::Left(n) => push_counts(out, b"left", &[n as u64]),
        Reply::Bit(bit) => push_counts(out, b"bit", &[bit as u64]),
        Reply::Page {
            gates,
            sockets,
            scratch,
        } => push_counts(
            out,
            b"page",
            &[gates as u64, sockets as u64, scratch as u64],
        ),
    }
}

// Appends the answer and the end of its line.
pub fn push_answer(out: &mut Vec<u8>, answer: Answer) -> Result<(), AllocError>
    ensures { OnOk result (out.new.items ≡ out.old.items ++ answer_line answer) }
{
    match answer {
        Ok(reply) => push_reply(out, reply)?,
        Err(refusal) => push_refusal(out, refusal)?,
    }
    push_text(out, b"\n")
}
