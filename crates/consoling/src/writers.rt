// Writing answers, by functions and not by Display, since `write!` says what a String then holds, and these bytes are a Vec.
ghost use Rattle.std.specs.Prelude.{◌≡◌, ◌++◌, OnOk};
ghost use Rattle.law.specs.Calls.{asked, line, lines};
ghost use Rattle.consoling.specs.Answers.{counts_text, key_name, block_name, record_text, unready_text, reading_text, done_text, reply_text, answer_text};
ghost use Rattle.consoling.specs.Runs.{answers_text};

use crate::turns::Turn;
use lanetable::records::{KeyState, LaneRecord};
use law::calls::{Call, Entry, Reply};
use playing::answers::{Refusal, Reply as Plain};
use playing::writers::push_answer as push_plain;
use std::alloc::AllocError;
use text::writes::{push_hex, push_number, push_text};
use unit::unit::Counts;

fn push_counts(out: &mut Vec<u8>, counts: Counts) -> Result<(), AllocError>
    ensures { OnOk result (out.new.items ≡ out.old.items ++ counts_text counts) }
{
    push_text(out, b"counts ")?;
    push_number(out, u64::from(counts.schedule))?;
    push_text(out, b" ")?;
    push_number(out, u64::from(counts.seal))?;
    push_text(out, b" ")?;
    push_number(out, u64::from(counts.open))?;
    push_text(out, b"\n")
}

fn push_key(out: &mut Vec<u8>, key: KeyState) -> Result<(), AllocError>
    ensures { OnOk result (out.new.items ≡ out.old.items ++ key_name key) }
{
    match key {
        KeyState::Absent => push_text(out, b"none"),
        KeyState::Placed => push_text(out, b"placed"),
        KeyState::Scheduled => push_text(out, b"scheduled"),
    }
}

fn push_block(out: &mut Vec<u8>, block: bool) -> Result<(), AllocError>
    ensures { OnOk result (out.new.items ≡ out.old.items ++ block_name block) }
{
    push_text(out, if block { b"block" } else { b"empty" })
}

fn push_record(out: &mut Vec<u8>, record: LaneRecord) -> Result<(), AllocError>
    ensures { OnOk result (out.new.items ≡ out.old.items ++ record_text «record») }
{
    push_text(out, b"record ")?;
    push_key(out, record.key)?;
    push_text(out, b" ")?;
    push_block(out, record.block)?;
    push_text(out, b"\n")
}

fn push_unready(out: &mut Vec<u8>, lane: Option<usize>) -> Result<(), AllocError>
    ensures { OnOk result (out.new.items ≡ out.old.items ++ unready_text lane) }
{
    match lane {
        Some(lane) => {
            push_text(out, b"unready ")?;
            push_number(out, lane as u64)?;
            push_text(out, b"\n")
        }
        None => push_text(out, b"unready none\n"),
    }
}

fn push_reading(out: &mut Vec<u8>, bytes: &[u8]) -> Result<(), AllocError>
    ensures { OnOk result (out.new.items ≡ out.old.items ++ reading_text bytes.now) }
{
    push_text(out, b"ok ")?;
    push_hex(out, bytes)?;
    push_text(out, b"\n")
}

fn push_done(out: &mut Vec<u8>, call: &Call) -> Result<(), AllocError>
    ensures { OnOk result (out.new.items ≡ out.old.items ++ done_text (asked call.now)) }
{
    match call {
        Call::Read(_, bytes) => push_reading(out, bytes.as_slice()),
        _ => push_plain(out, Ok(Plain::Done)),
    }
}

fn push_reply(out: &mut Vec<u8>, reply: Reply, call: &Call) -> Result<(), AllocError>
    ensures { OnOk result (out.new.items ≡ out.old.items ++ reply_text reply (asked call.now)) }
{
    match reply {
        Reply::Done => push_done(out, call),
        Reply::Counts(counts) => push_counts(out, counts),
        Reply::Left(gates) => push_plain(out, Ok(Plain::Left(gates))),
        Reply::Record(record) => push_record(out, record),
        Reply::Unready(lane) => push_unready(out, lane),
    }
}

// Appends the answer of an entry and the end of its line.
pub fn push_answer(out: &mut Vec<u8>, entry: &Entry) -> Result<(), AllocError>
    ensures { OnOk result (out.new.items ≡ out.old.items ++ answer_text (line entry.now)) }
{
    match entry.answer {
        None => push_text(out, b"pending\n"),
        Some(Ok(reply)) => push_reply(out, reply, &entry.call),
        Some(Err(fault)) => push_plain(out, Err(Refusal::Fault(fault))),
    }
}

// Appends what the turns give, with the answers of the entries in order.
pub fn push_answers(out: &mut Vec<u8>, turns: &[Turn], log: &[Entry]) -> Result<(), AllocError>
    ensures { OnOk result (out.new.items ≡ out.old.items ++ answers_text turns.now (lines log.now)) }
{
    let mut entries = log.iter();
    for turn in turns {
        match turn {
            Turn::Unreadable(number) => push_plain(out, Err(Refusal::Unreadable(*number)))?,
            Turn::Call => {
                if let Some(entry) = entries.next() {
                    push_answer(out, entry)?;
                }
            }
        }
    }
    Ok(())
}
