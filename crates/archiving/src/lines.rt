// Single lines: each function appends to what `out` holds, and none is a Display, since `write!` says what a String then
// holds, and these bytes are a Vec.
ghost use Rattle.std.specs.Prelude.{◌≡◌, ℕ, ◌<◌, ◌≤◌, [], ◌∷◌, ◌++◌, OnOk};
ghost use Rattle.archiving.specs.Lines.{spaces, padded, kind_text, gate_text, low_text, mark_text, mask_line, words_text, column_line, bases_text, play_line};

use crate::names::name_of;
use bench::gates::Gate;
use bench::kinds::Kind;
use plans::plays::Play;
use std::alloc::AllocError;
use text::writes::{push_hex, push_number, push_text};

fn spaces_before(n: u64) -> &'static [u8]
    ensures { result.now ≡ spaces n }
{
    if n < 10 {
        b"    "
    } else if n < 100 {
        b"   "
    } else if n < 1000 {
        b"  "
    } else {
        b" "
    }
}

// A number in four places, behind a space.
#[tactic(auto, unfolding(crate::specs::Lines::padded))]
fn push_padded(out: &mut Vec<u8>, n: u64) -> Result<(), AllocError>
    ensures { OnOk result (out.new.items ≡ out.old.items ++ padded n) }
{
    push_text(out, spaces_before(n))?;
    push_number(out, n)
}

fn kind_name(kind: Kind) -> &'static [u8]
    ensures { result.now ≡ kind_text kind }
{
    match kind {
        Kind::Xor => b"  XOR ",
        Kind::And => b"  AND ",
        Kind::Or => b"  OR  ",
        Kind::Xnor => b"  XNOR",
        Kind::Nand => b"  NAND",
        Kind::Nor => b"  NOR ",
    }
}

// A gate's index, kind, target and operands.
#[tactic(auto, unfolding(crate::specs::Lines::gate_text))]
fn push_gate(out: &mut Vec<u8>, at: u64, gate: Gate) -> Result<(), AllocError>
    ensures { OnOk result (out.new.items ≡ out.old.items ++ gate_text at gate) }
{
    push_padded(out, at)?;
    push_text(out, kind_name(gate.kind))?;
    push_padded(out, u64::from(gate.target))?;
    push_padded(out, u64::from(gate.first))?;
    push_padded(out, u64::from(gate.second))?;
    push_text(out, b"   ")
}

// The lowest `count` bytes of a word, the highest of them first.
fn push_low(out: &mut Vec<u8>, word: u64, count: u16) -> Result<(), AllocError>
    requires { count ≤ 8 }
    ensures { OnOk result (out.new.items ≡ out.old.items ++ low_text word count) }
{
    // Byte by byte, since `push_hex` of the word's last bytes would write `-` where these are none.
    for j in (0..count).rev() {
        push_hex(out, &[((word >> (8 * j)) % 256) as u8])?;
    }
    Ok(())
}

// The mark of a complemented sum.
fn mark(blank: u64) -> &'static [u8]
    ensures { result.now ≡ mark_text blank }
{
    if blank % 2 == 1 { b" +1" } else { b"" }
}

// A gate, and which inputs its target then sums: those that turn it when they alone are 1.
#[tactic(auto, unfolding(crate::specs::Lines::mask_line))]
pub(crate) fn push_mask_line(
    out: &mut Vec<u8>,
    at: u64,
    gate: Gate,
    sockets: u16,
    word: u64,
    blank: u64,
) -> Result<(), AllocError>
    requires { sockets ≤ 8 }
    ensures { OnOk result (out.new.items ≡ out.old.items ++ mask_line at gate sockets word blank) }
{
    push_gate(out, at, gate)?;
    push_low(out, word ^ blank, sockets)?;
    push_text(out, mark(blank))?;
    push_text(out, b"\n")
}

fn push_words(out: &mut Vec<u8>, words: &[u64]) -> Result<(), AllocError>
    ensures { OnOk result (out.new.items ≡ out.old.items ++ words_text words.now) }
{
    for word in words {
        push_low(out, *word, 8)?;
    }
    Ok(())
}

// A gate, and its target's column, given by the words of its four quarters, the highest of them first.
#[tactic(auto, unfolding(crate::specs::Lines::column_line))]
pub(crate) fn push_column_line(
    out: &mut Vec<u8>,
    at: u64,
    gate: Gate,
    column: &[u64; 4],
) -> Result<(), AllocError>
    ensures { OnOk result (out.new.items ≡ out.old.items ++ column_line at gate column.now) }
{
    push_gate(out, at, gate)?;
    push_words(out, column)?;
    push_text(out, b"\n")
}

fn push_bases(out: &mut Vec<u8>, bases: &[u16]) -> Result<(), AllocError>
    ensures { OnOk result (out.new.items ≡ out.old.items ++ bases_text bases.now) }
{
    for base in bases {
        push_padded(out, u64::from(*base))?;
    }
    Ok(())
}

// A play's index, page and bases.
#[tactic(auto, unfolding(crate::specs::Lines::play_line))]
pub(crate) fn push_play(out: &mut Vec<u8>, at: u64, play: &Play) -> Result<(), AllocError>
    ensures { OnOk result (out.new.items ≡ out.old.items ++ play_line at play.now) }
{
    push_padded(out, at)?;
    push_text(out, b"  ")?;
    push_text(out, name_of(play))?;
    push_bases(out, play.bases())?;
    push_text(out, b"\n")
}
