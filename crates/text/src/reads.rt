// Reading: lines, words, numbers and bytes.
ghost use Rattle.std.specs.Prelude.{◌≡◌, ◌+◌, ◌-◌, ◌*◌, ◌^◌, ◌<◌, ◌≤◌, not, length, IfOk, if◌then◌else◌, Some, None, vec_items, ◌==◌, nat_eq, nat_lt};
ghost use Rattle.std.specs.Option.{option_map};
ghost use Rattle.std.specs.List.{prefix_len, position};
ghost use Rattle.std.specs.Str.{bytes_eq};
ghost use Rattle.text.specs.Tables.{named};
ghost use Rattle.text.specs.Text.{before, line_of, after_line, word_of, after_word, is_digit, number_in, hex_value, pair_value, pairs_in, bytes_in};

use std::alloc::{AllocError, Global};

pub const LINE_END: u8 = b'\n';

const SPACE: u8 = b' ';

// Where the first `stop` stands, if there is one.
fn find(bytes: &[u8], stop: u8) -> Option<usize>
    ensures { result ≡ position (λ b. b == stop) bytes.now }
{
    // A `for`: over `position` each byte costs an instruction more, and most bytes of a script are passed here.
    for (i, byte) in bytes.iter().enumerate() {
        if *byte == stop {
            return Some(i);
        }
    }
    None
}

// Where the first byte other than `passed` stands, if there is one. With the test as a closure the two would be one, but
// their clauses would speak of its calls.
fn find_other(bytes: &[u8], passed: u8) -> Option<usize>
    ensures { result ≡ position (λ b. not (b == passed)) bytes.now }
{
    bytes.iter().position(|byte| *byte != passed)
}

// How many bytes stand before the first `stop`.
fn count_before(bytes: &[u8], stop: u8) -> usize
    ensures value { result ≡ before stop bytes.now }
    ensures within { result ≤ length bytes.now }
{
    find(bytes, stop).unwrap_or(bytes.len())
}

// How many spaces it begins with.
fn count_spaces(bytes: &[u8]) -> usize
    ensures value { result ≡ prefix_len (λ b. nat_eq b 32) bytes.now }
    ensures within { result ≤ length bytes.now }
{
    find_other(bytes, SPACE).unwrap_or(bytes.len())
}

// The first line, and what follows it.
pub fn split_line(text: &[u8]) -> (&[u8], &[u8])
    ensures line { result.0.now ≡ line_of text.now }
    ensures rest { result.1.now ≡ after_line text.now }
{
    match find(text, LINE_END) {
        Some(end) => (&text[..end], &text[end + 1..]),
        None => (text, &[]),
    }
}

// The first word, and what follows it.
pub fn split_word(line: &[u8]) -> (&[u8], &[u8])
    ensures word { result.0.now ≡ word_of line.now }
    ensures rest { result.1.now ≡ after_word line.now }
{
    let (_, from_word) = line.split_at(count_spaces(line));
    from_word.split_at(count_before(from_word, SPACE))
}

// Whether a word is the given text: `==`, under a name of its own for the scripts' readers.
pub fn is_word(word: &[u8], text: &[u8]) -> bool
    ensures { result ≡ bytes_eq word.now text.now }
{
    word == text
}

// What the table has for the word, at the first entry that names it.
pub fn lookup<T: Copy>(table: &[(&[u8], T)], word: &[u8]) -> Option<T>
    ensures { result ≡ named table.now word.now }
{
    // A `for`: from `find` and `map` the readers' definitions, which go from word to word, did not follow.
    for (name, value) in table {
        if is_word(word, name) {
            return Some(*value);
        }
    }
    None
}

// One digit more at the end of a number.
fn with_digit(value: u64, digit: u8) -> Option<u64>
    ensures { result ≡ (if nat_lt (value * 10 + (digit - 48)) (2 ^ 64) then Some (value * 10 + (digit - 48)) else None) }
{
    value
        .checked_mul(10)?
        .checked_add(u64::from(digit.saturating_sub(b'0')))
}

// The number that decimal digits write, if it has 64 bits or fewer. Not `parse`, which takes a sign too.
pub fn number(word: &[u8]) -> Option<u64>
    ensures { result ≡ number_in word.now }
{
    if word.is_empty() {
        return None;
    }
    let mut value = 0;
    for digit in word {
        if !digit.is_ascii_digit() {
            return None;
        }
        value = with_digit(value, *digit)?;
    }
    Some(value)
}

// Not `to_digit`, which takes capital letters too.
fn hex_value(byte: u8) -> Option<u8>
    ensures { result ≡ hex_value byte }
{
    match byte {
        b'0'..=b'9' => Some(byte - b'0'),
        b'a'..=b'f' => Some(byte - b'a' + 10),
        _ => None,
    }
}

// The byte of two digits.
fn hex_byte(high: u8, low: u8) -> Option<u8>
    ensures { result ≡ pair_value (hex_value high) (hex_value low) }
{
    let high = hex_value(high)?;
    let low = hex_value(low)?;
    Some(high * 16 + low)
}

// The bytes of digits that stand in pairs.
fn hex_pairs(heap: Global, word: &[u8]) -> Result<Option<Vec<u8>>, AllocError>
    ensures { IfOk result (λ o. option_map vec_items o ≡ pairs_in word.now) }
{
    let (pairs, rest) = word.as_chunks::<2>();
    if !rest.is_empty() {
        return Ok(None);
    }
    let mut bytes = Vec::new(heap);
    for [high, low] in pairs {
        let Some(byte) = hex_byte(*high, *low) else {
            return Ok(None);
        };
        bytes.push(byte)?;
    }
    Ok(Some(bytes))
}

// The bytes that pairs of hexadecimal digits write; `-` writes none.
pub fn hex_bytes(heap: Global, word: &[u8]) -> Result<Option<Vec<u8>>, AllocError>
    ensures { IfOk result (λ o. option_map vec_items o ≡ bytes_in word.now) }
{
    match word {
        [] => Ok(None),
        [b'-'] => Ok(Some(Vec::new(heap))),
        _ => hex_pairs(heap, word),
    }
}
