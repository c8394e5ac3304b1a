// Reading a line that writes a call.
ghost use Rattle.std.specs.Prelude.{◌≡◌, IfOk, vec_items};
ghost use Rattle.std.specs.Option.{option_map, option_zip};
ghost use Rattle.text.specs.Text.{number_in, bytes_in};
ghost use Rattle.law.specs.Calls.{asked};
ghost use Rattle.consoling.specs.Lines.{verb_in, alone_in, lane_in, reading, call_of, call_in};

use crate::verbs::{VERBS, Verb};
use law::calls::Call;
use std::alloc::{AllocError, Global};
use text::reads::{hex_bytes, lookup, number, split_word};

#[tactic(auto, unfolding(crate::specs::Lines::verb_in))]
fn read_verb(word: &[u8]) -> Option<Verb>
    ensures { result ≡ verb_in word.now }
{
    lookup(&VERBS, word)
}

// The call itself where no word follows it.
fn alone(call: Call, first: &[u8]) -> Option<Call>
    ensures { option_map asked result ≡ alone_in (asked call) first.now }
{
    first.is_empty().then_some(call)
}

fn lane_number(word: &[u8]) -> Option<usize>
    ensures { result ≡ number_in word.now }
{
    number(word).map(|lane| lane as usize)
}

// The lane, where no word follows it.
fn lane_alone(lane: &[u8], second: &[u8]) -> Option<usize>
    ensures { result ≡ lane_in lane.now second.now }
{
    if second.is_empty() {
        lane_number(lane)
    } else {
        None
    }
}

// A lane, and the bytes that are given for it.
fn given(heap: Global, lane: &[u8], bytes: &[u8]) -> Result<Option<(usize, Vec<u8>)>, AllocError>
    ensures { IfOk result (λ o. option_map (λ p. (p.0, vec_items p.1)) o ≡ option_zip (number_in lane.now) (bytes_in bytes.now)) }
{
    let Some(lane) = lane_number(lane) else {
        return Ok(None);
    };
    Ok(hex_bytes(heap, bytes)?.map(|bytes| (lane, bytes)))
}

// A reading, with a buffer of zeros.
fn reading_call(heap: Global, lane: &[u8], length: &[u8]) -> Result<Option<Call>, AllocError>
    ensures { IfOk result (λ o. option_map asked o ≡ reading (number_in lane.now) (number_in length.now)) }
{
    let Some((lane, length)) = lane_number(lane).zip(number(length)) else {
        return Ok(None);
    };
    let buffer = vec![in heap; 0u8; length as usize]?;
    Ok(Some(Call::Read(lane, buffer)))
}

// The call of a verb and the two words after it, empty where there is none.
fn call_of(
    heap: Global,
    verb: Verb,
    first: &[u8],
    second: &[u8],
) -> Result<Option<Call>, AllocError>
    ensures { IfOk result (λ o. option_map asked o ≡ call_of verb first.now second.now) }
{
    Ok(match verb {
        Verb::Key => given(heap, first, second)?.map(|(lane, bytes)| Call::PlaceKey(lane, bytes)),
        Verb::Block => given(heap, first, second)?.map(|(lane, bytes)| Call::PlaceBlock(
            lane, bytes,
        )),
        Verb::Clear => lane_alone(first, second).map(Call::Clear),
        Verb::Schedule => alone(Call::Schedule, first),
        Verb::Seal => alone(Call::Seal, first),
        Verb::Open => alone(Call::Open, first),
        Verb::Read => reading_call(heap, first, second)?,
        Verb::Counts => alone(Call::Counts, first),
        Verb::Left => alone(Call::Left, first),
        Verb::Record => lane_alone(first, second).map(Call::Record),
        Verb::Unready => alone(Call::Unready, first),
    })
}

// The call that a line writes.
pub fn read_call(heap: Global, line: &[u8]) -> Result<Option<Call>, AllocError>
    ensures { IfOk result (λ o. option_map asked o ≡ call_in line.now) }
{
    let (name, rest) = split_word(line);
    let (first, rest) = split_word(rest);
    let (second, rest) = split_word(rest);
    let (extra, _) = split_word(rest);
    if !extra.is_empty() {
        return Ok(None);
    }
    let Some(verb) = read_verb(name) else {
        return Ok(None);
    };
    call_of(heap, verb, first, second)
}
