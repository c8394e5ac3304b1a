// Reading a line that writes a call.
ghost use Rattle.std.specs.Prelude.{◌≡◌, ◌<◌, ◌≤◌, IfOk, vec_items};
ghost use Rattle.std.specs.Option.{option_map};
ghost use Rattle.text.specs.Text.{words_in};
ghost use Rattle.playing.specs.Calls.{Call, meant};
ghost use Rattle.playing.specs.Commands.{silent, verb_in, short_in, shorts_in, alone_in, set_in, show_in, gate_in, called, page_in, command_in};

use crate::commands::Command;
use crate::verbs::{VERBS, Verb};
use bench::gates::Gate;
use bench::kinds::Kind;
use std::alloc::{AllocError, Global};
use text::reads::{hex_bytes, lookup, number, split_word};
use text::words::Words;

const COMMENT: u8 = b'#';

// Whether a line is one that is not answered.
pub fn is_silent(line: &[u8]) -> bool
    ensures { result ≡ silent line.now }
{
    // The `#` first, so that a comment is not read for a word.
    matches!(line, [COMMENT, ..]) || split_word(line).0.is_empty()
}

fn read_verb(word: &[u8]) -> Option<Verb>
    ensures { result ≡ verb_in word.now }
{
    lookup(&VERBS, word)
}

fn read_short(word: &[u8]) -> Option<u16>
    ensures { result ≡ short_in word.now }
{
    u16::try_from(number(word)?).ok()
}

// All the words of the line, as numbers.
fn read_shorts(heap: Global, line: &[u8]) -> Result<Option<Vec<u16>>, AllocError>
    ensures { IfOk result (λ o. option_map vec_items o ≡ shorts_in (words_in line.now)) }
{
    let mut numbers = Vec::new(heap);
    for word in Words::of(line) {
        let Some(value) = read_short(word) else {
            return Ok(None);
        };
        numbers.push(value)?;
    }
    Ok(Some(numbers))
}

fn set_command(numbers: &[u16]) -> Option<Command>
    ensures { option_map meant result ≡ set_in numbers.now }
{
    let [register, lane, bit @ 0..=1] = *numbers else {
        return None;
    };
    Some(Command::Set {
        register,
        lane,
        bit: bit == 1,
    })
}

fn show_command(numbers: &[u16]) -> Option<Command>
    ensures { option_map meant result ≡ show_in numbers.now }
{
    let [register, lane] = *numbers else {
        return None;
    };
    Some(Command::Show { register, lane })
}

fn gate_command(numbers: &[u16]) -> Option<Command>
    ensures { option_map meant result ≡ gate_in numbers.now }
{
    let [kind @ 0..=5, target, first, second] = *numbers else {
        return None;
    };
    let kind = Kind::try_from(kind as u8).ok()?;
    Some(Command::Gate(Gate {
        kind,
        target,
        first,
        second,
    }))
}

// The command itself where no number follows it.
fn alone(command: Command, numbers: &[u16]) -> Option<Command>
    ensures { option_map meant result ≡ alone_in (meant command) numbers.now }
{
    numbers.is_empty().then_some(command)
}

fn command_of(verb: Verb, numbers: Vec<u16>) -> Option<Command>
    ensures { option_map meant result ≡ called verb numbers.items }
{
    match verb {
        Verb::Registers => alone(Command::Registers, numbers.as_slice()),
        Verb::Lanes => alone(Command::Lanes, numbers.as_slice()),
        Verb::Left => alone(Command::Left, numbers.as_slice()),
        Verb::Set => set_command(numbers.as_slice()),
        Verb::Show => show_command(numbers.as_slice()),
        Verb::Gate => gate_command(numbers.as_slice()),
        Verb::Page => None,
        Verb::Play => Some(Command::Play(numbers)),
    }
}

fn page_command(heap: Global, line: &[u8]) -> Result<Option<Command>, AllocError>
    ensures { IfOk result (λ o. option_map meant o ≡ page_in (words_in line.now)) }
{
    let (word, after) = split_word(line);
    let (extra, _) = split_word(after);
    if !extra.is_empty() {
        return Ok(None);
    }
    Ok(hex_bytes(heap, word)?.map(Command::Page))
}

// The call that a line writes.
pub fn read_command(heap: Global, line: &[u8]) -> Result<Option<Command>, AllocError>
    ensures { IfOk result (λ o. option_map meant o ≡ command_in line.now) }
{
    let (name, rest) = split_word(line);
    let Some(verb) = read_verb(name) else {
        return Ok(None);
    };
    match verb {
        Verb::Page => page_command(heap, rest),
        _ => Ok(read_shorts(heap, rest)?.and_then(|numbers| command_of(verb, numbers))),
    }
}
