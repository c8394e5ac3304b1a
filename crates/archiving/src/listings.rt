// Pages gate by gate, and plans play by play: each function appends to what `out` holds.
ghost use Rattle.std.specs.Prelude.{◌≡◌, ℕ, ◌+◌, ◌-◌, ◌*◌, ◌^◌, ◌<◌, ◌≤◌, ◌++◌, map, length, drop, IfOk, OnOk, vec_items, if◌then◌else◌};
ghost use Rattle.player.specs.Pages.{gates_from};
ghost use Rattle.archiving.specs.Traces.{made_by, stepped, unit_word, unit_words, input_word, input_words};
ghost use Rattle.archiving.specs.Listings.{sums, only_sums, mask_lines, column_lines, masks_text, columns_text, sizes_text, checks_text, listed_text, gates_text, play_lines};

use crate::lines::{push_column_line, push_mask_line, push_play};
use crate::traces::do_gate;
use bench::gates::Gate;
use bench::kinds::Kind;
use plans::plays::Play;
use player::pages::Page;
use std::alloc::{AllocError, Global};
use text::writes::{push_number, push_text};

// Whether a gate's target holds a sum of what its operands hold.
fn is_sum(gate: Gate) -> bool
    ensures { result ≡ sums gate.kind gate.first gate.second }
{
    match gate.kind {
        Kind::Xor | Kind::Xnor => true,
        Kind::And => gate.first == gate.second,
        Kind::Or | Kind::Nand | Kind::Nor => false,
    }
}

fn only_sums(gates: &[Gate]) -> bool
    ensures { result ≡ only_sums gates.now }
{
    gates.iter().all(|gate| is_sum(*gate))
}

// The word of number n whose case i has input i alone at 1.
fn unit_word(inputs: usize, n: usize) -> u64
    ensures { result ≡ unit_word inputs n }
{
    if n < inputs && n < 64 { 1u64 << n } else { 0 }
}

fn unit_words(heap: Global, inputs: usize, count: usize) -> Result<Vec<u64>, AllocError>
    ensures { IfOk result (λ v. v.items ≡ unit_words inputs count) }
{
    (0..count).map(|n| unit_word(inputs, n)).collect(heap)
}

fn filled_by(bit: bool) -> u64
    ensures { result ≡ (if bit then 2 ^ 64 - 1 else 0) }
{
    if bit { u64::MAX } else { 0 }
}

// Bit n of the bytes 64 * quarter, 64 * quarter + 1, .., 64 * quarter + 63.
fn input_word(quarter: u8, n: usize) -> u64
    ensures { result ≡ input_word quarter n }
{
    match n {
        0 => 0xaaaa_aaaa_aaaa_aaaa,
        1 => 0xcccc_cccc_cccc_cccc,
        2 => 0xf0f0_f0f0_f0f0_f0f0,
        3 => 0xff00_ff00_ff00_ff00,
        4 => 0xffff_0000_ffff_0000,
        5 => 0xffff_ffff_0000_0000,
        6 => filled_by(quarter % 2 == 1),
        7 => filled_by(quarter / 2 % 2 == 1),
        _ => 0,
    }
}

fn input_words(heap: Global, quarter: u8, count: usize) -> Result<Vec<u64>, AllocError>
    ensures { IfOk result (λ v. v.items ≡ input_words quarter count) }
{
    (0..count).map(|n| input_word(quarter, n)).collect(heap)
}

fn push_mask_lines(
    out: &mut Vec<u8>,
    gates: &[Gate],
    sockets: u16,
    units: &mut [u64],
    blanks: &mut [u64],
) -> Result<(), AllocError>
    requires { sockets ≤ 8 }
    ensures { OnOk result (out.new.items ≡ out.old.items ++ mask_lines sockets 0 units.old blanks.old gates.now) }
{
    for (i, gate) in gates.iter().enumerate() {
        let word = do_gate(units, *gate);
        let blank = do_gate(blanks, *gate);
        push_mask_line(out, i as u64, *gate, sockets, word, blank)?;
    }
    Ok(())
}

// One gate done in each quarter, and what its target then holds there.
fn do_in_quarters(quarters: &mut [Vec<u64>; 4], gate: Gate) -> [u64; 4]
    ensures value { result ≡ map (made_by gate) (map vec_items quarters.old) }
    ensures leaves { map vec_items quarters.new ≡ map (stepped gate) (map vec_items quarters.old) }
{
    let mut column = [0; 4];
    for (k, words) in quarters.iter_mut().enumerate() {
        column[k] = do_gate(words.as_mut_slice(), gate);
    }
    column
}

fn push_column_lines(
    out: &mut Vec<u8>,
    gates: &[Gate],
    quarters: &mut [Vec<u64>; 4],
) -> Result<(), AllocError>
    ensures { OnOk result (out.new.items ≡ out.old.items ++ column_lines 0 (map vec_items quarters.old) gates.now) }
{
    for (i, gate) in gates.iter().enumerate() {
        let column = do_in_quarters(quarters, *gate);
        push_column_line(out, i as u64, *gate, &column)?;
    }
    Ok(())
}

fn push_masks(
    heap: Global,
    out: &mut Vec<u8>,
    gates: &[Gate],
    sockets: u16,
    count: usize,
) -> Result<(), AllocError>
    requires { sockets ≤ 8 }
    ensures { OnOk result (out.new.items ≡ out.old.items ++ masks_text sockets count gates.now) }
{
    let mut units = unit_words(heap, 8 * sockets as usize, count)?;
    let mut blanks = unit_words(heap, 0, count)?;
    push_text(out, b" gate  kind    t    a    b   mask\n")?;
    push_mask_lines(
        out,
        gates,
        sockets,
        units.as_mut_slice(),
        blanks.as_mut_slice(),
    )
}

fn push_columns(
    heap: Global,
    out: &mut Vec<u8>,
    gates: &[Gate],
    count: usize,
) -> Result<(), AllocError>
    ensures { OnOk result (out.new.items ≡ out.old.items ++ columns_text count gates.now) }
{
    let mut quarters = [
        input_words(heap, 3, count)?,
        input_words(heap, 2, count)?,
        input_words(heap, 1, count)?,
        input_words(heap, 0, count)?,
    ];
    push_text(out, b" gate  kind    t    a    b   column\n")?;
    push_column_lines(out, gates, &mut quarters)
}

fn push_sizes(out: &mut Vec<u8>, gates: usize, sockets: u16, scratch: u16) -> Result<(), AllocError>
    ensures { OnOk result (out.new.items ≡ out.old.items ++ sizes_text gates sockets scratch) }
{
    push_text(out, b"G = ")?;
    push_number(out, gates as u64)?;
    push_text(out, b", Q = ")?;
    push_number(out, u64::from(sockets))?;
    push_text(out, b", C = ")?;
    push_number(out, u64::from(scratch))?;
    push_text(out, b"\n")
}

fn push_checks(
    heap: Global,
    out: &mut Vec<u8>,
    gates: &[Gate],
    sockets: u16,
    scratch: u16,
) -> Result<(), AllocError>
    ensures { OnOk result (out.new.items ≡ out.old.items ++ checks_text sockets scratch gates.now) }
{
    // casts, and not `usize::from`: the answers speak of the sockets themselves
    let count = 8 * sockets as usize + scratch as usize;
    if sockets <= 8 && only_sums(gates) {
        push_masks(heap, out, gates, sockets, count)
    } else {
        push_columns(heap, out, gates, count)
    }
}

fn list_gates(heap: Global, page: &Page<'_>) -> Result<Vec<Gate>, AllocError>
    ensures { IfOk result (λ v. v.items ≡ gates_from page.now.kinds.now page.now.places.now) }
{
    let mut gates = Vec::new(heap);
    for gate in page.gates() {
        gates.push(gate)?;
    }
    Ok(gates)
}

fn push_listed(heap: Global, out: &mut Vec<u8>, page: &Page<'_>) -> Result<(), AllocError>
    ensures { OnOk result (out.new.items ≡ out.old.items ++ listed_text page.now.kinds.now page.now.places.now page.now.sockets page.now.scratch) }
{
    let gates = list_gates(heap, page)?;
    push_sizes(out, page.kinds.len(), page.sockets, page.scratch)?;
    push_checks(heap, out, gates.as_slice(), page.sockets, page.scratch)
}

// The sizes of a page and its gates, each with its check.
pub fn push_gates(heap: Global, out: &mut Vec<u8>, bytes: &[u8]) -> Result<(), AllocError>
    ensures { OnOk result (out.new.items ≡ out.old.items ++ gates_text bytes.now) }
{
    let Ok(page) = Page::read(bytes) else {
        return push_text(out, b"These bytes are no whole page.\n");
    };
    push_listed(heap, out, &page)
}

// A line for each play from index `from` on.
pub fn push_plays(out: &mut Vec<u8>, plan: &[Play], from: usize) -> Result<(), AllocError>
    ensures { OnOk result (out.new.items ≡ out.old.items ++ play_lines from (drop from plan.now)) }
{
    // By index, which is written too: with `enumerate` and `skip` the proof did not close.
    for i in from..plan.len() {
        push_play(out, i as u64, &plan[i])?;
    }
    Ok(())
}
