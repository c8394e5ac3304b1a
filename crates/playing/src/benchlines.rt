// Reading the line that writes the bench.
ghost use Rattle.std.specs.Prelude.{◌≡◌, min, drop, Some, None, MatchOption};
ghost use Rattle.text.specs.Text.{number_in, word_of, after_word, words_in};
ghost use Rattle.playing.specs.Setups.{words_of, single_in, past_bench, joined_in, bench_in, opening_in};

use crate::answers::Refusal;
use crate::readers::is_silent;
use crate::setups::{Setup, Single};
use bench::word::MOST_GATES;
use text::lines::Lines;
use text::reads::{is_word, number, split_word};

fn capped(allotment: u64) -> u32
    ensures { result ≡ min allotment 1000000000 }
{
    allotment.min(MOST_GATES as u64) as u32
}

// The number that the line begins with, and what follows it.
fn next_number(line: &[u8]) -> Option<(u64, &[u8])>
    ensures { MatchOption result (number_in (word_of line.now) ≡ None) (λ p. (number_in (word_of line.now) ≡ Some p.0) × (p.1.now ≡ after_word line.now)) }
{
    let (word, rest) = split_word(line);
    Some((number(word)?, rest))
}

// One bench, without the word `bench`, and what follows it.
fn read_single(line: &[u8]) -> Option<(Single, &[u8])>
    ensures { MatchOption result (single_in (words_in line.now) ≡ None) (λ p. (single_in (words_in line.now) ≡ Some p.0) × (words_in p.1.now ≡ drop (words_of p.0) (words_in line.now))) }
{
    let (kind, rest) = split_word(line);
    if is_word(kind, b"word") {
        let (registers, rest) = next_number(rest)?;
        let (allotment, rest) = next_number(rest)?;
        let single = Single::Word {
            registers: registers as usize,
            allotment: capped(allotment),
        };
        return Some((single, rest));
    }
    if is_word(kind, b"row") {
        let (width, rest) = next_number(rest)?;
        let (bytes, rest) = next_number(rest)?;
        let (allotment, rest) = next_number(rest)?;
        let single = Single::Row {
            width: width as usize,
            bytes: bytes as usize,
            allotment: capped(allotment),
        };
        return Some((single, rest));
    }
    None
}

// The line after the word `bench`, where it begins with that.
fn past_bench(line: &[u8]) -> &[u8]
    ensures { words_in result.now ≡ past_bench (words_in line.now) }
{
    let (word, rest) = split_word(line);
    if is_word(word, b"bench") { rest } else { line }
}

// What follows the first bench: nothing, or `+` and the second.
fn read_joined(first: Single, line: &[u8]) -> Option<Setup>
    ensures { result ≡ joined_in first (words_in line.now) }
{
    let (plus, rest) = split_word(line);
    if plus.is_empty() {
        return Some(Setup {
            first,
            second: None,
        });
    }
    if !is_word(plus, b"+") {
        return None;
    }
    let (second, rest) = read_single(past_bench(rest))?;
    let (extra, _) = split_word(rest);
    if !extra.is_empty() {
        return None;
    }
    Some(Setup {
        first,
        second: Some(second),
    })
}

// The bench that a line writes.
pub fn read_bench(line: &[u8]) -> Option<Setup>
    ensures { result ≡ bench_in line.now }
{
    let (word, rest) = split_word(line);
    if !is_word(word, b"bench") {
        return None;
    }
    let (first, rest) = read_single(rest)?;
    read_joined(first, rest)
}

// The bench of the first line that is not silent, and the lines after it.
pub fn find_bench(mut lines: Lines<'_>) -> Result<Option<(Setup, Lines<'_>)>, Refusal>
    ensures { result ≡ opening_in lines.entry.next lines.entry.lines }
{
    // Not `find`: the check leaves open what it passed, and answers would go through its run by induction.
    while let Some(line) = lines.next() {
        if !is_silent(line.text) {
            let setup = read_bench(line.text).ok_or(Refusal::Unreadable(line.number))?;
            return Ok(Some((setup, lines)));
        }
    }
    Ok(None)
}
