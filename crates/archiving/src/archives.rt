// The whole archive.
ghost use Rattle.std.specs.Prelude.{[], ◌∷◌, ◌++◌, IfOk, OnOk};
ghost use Rattle.archiving.specs.Parts.{Holds, Extends, page_part, page_parts, every_page, every_play};

use crate::examples::push_example;
use crate::listings::push_gates;
use crate::names::{PAGES, name_of, purpose_of};
use crate::planlists::push_plans;
use crate::prose::{
    AFTER_COORDINATES, COORDINATES, COUNTS, EXAMPLE, PLANS, TITLE, TO_COORDINATES, WORDS,
};
use coordinates::basis::{from_coordinates, to_coordinates};
use plans::pages::INVERT;
use plans::plays::Play;
use plans::tables::Plan;
use std::alloc::{AllocError, Global};
use text::reads::split_word;
use text::writes::{push_hex, push_number, push_text};

fn push_coordinates(out: &mut Vec<u8>) -> Result<(), AllocError> {
    push_text(out, COORDINATES)?;
    // By number, here and below, since the number of the bit is written too.
    for i in 0..8u8 {
        push_text(out, b"  c")?;
        push_number(out, u64::from(i))?;
        push_text(out, b"                ")?;
        push_hex(out, &[from_coordinates(1 << i)])?;
        push_text(out, b"\n")?;
    }
    push_text(out, TO_COORDINATES)?;
    for i in 0..8u8 {
        push_text(out, b"  ")?;
        push_number(out, u64::from(i))?;
        push_text(out, b"     ")?;
        push_hex(out, &[1 << i])?;
        push_text(out, b"           ")?;
        push_hex(out, &[to_coordinates(1 << i)])?;
        push_text(out, b"\n")?;
    }
    push_text(out, AFTER_COORDINATES)
}

// A page: its name, what it does, its sizes and its gates.
fn push_page(
    heap: Global,
    out: &mut Vec<u8>,
    inverter: &[u8],
    play: &Play,
) -> Result<(), AllocError>
    ensures { OnOk result (Extends (page_part inverter.now play.now ∷ []) out.old.items out.new.items) }
{
    let (name, _) = split_word(name_of(play));
    push_text(out, b"\nPAGE ")?;
    push_text(out, name)?;
    push_text(out, b"\n")?;
    push_text(out, purpose_of(play))?;
    push_text(out, b"\n")?;
    push_gates(heap, out, play.page(inverter))?;
    Ok(())
}

fn push_pages(
    heap: Global,
    out: &mut Vec<u8>,
    inverter: &[u8],
    plays: &[Play],
) -> Result<(), AllocError>
    ensures { OnOk result (Extends (page_parts inverter.now plays.now) out.old.items out.new.items) }
{
    for play in plays {
        push_page(heap, out, inverter, play)?;
    }
    Ok(())
}

fn push_count(out: &mut Vec<u8>, name: &[u8], gates: u32) -> Result<(), AllocError> {
    push_text(out, name)?;
    push_number(out, u64::from(gates))?;
    push_text(out, b"\n")
}

fn push_counts(out: &mut Vec<u8>) -> Result<(), AllocError> {
    push_text(out, COUNTS)?;
    push_count(out, b"  K, scheduling: ", Plan::Schedule.gates())?;
    push_count(out, b"  S, sealing:    ", Plan::Seal.gates())?;
    push_count(out, b"  O, opening:    ", Plan::Open.gates())
}

// What stands before the pages.
fn front_text(heap: Global) -> Result<Vec<u8>, AllocError> {
    let mut out = Vec::new(heap);
    push_text(&mut out, TITLE)?;
    push_text(&mut out, WORDS)?;
    push_coordinates(&mut out)?;
    push_text(&mut out, crate::prose::PAGES)?;
    Ok(out)
}

// What stands after the plans.
fn back_text(heap: Global) -> Result<Vec<u8>, AllocError> {
    let mut out = Vec::new(heap);
    push_counts(&mut out)?;
    push_text(&mut out, EXAMPLE)?;
    push_example(heap, &mut out)?;
    Ok(out)
}

// The text of the archive: it holds the listing of every page, and then every play of the three plans, in order.
pub fn archive_text(heap: Global) -> Result<Vec<u8>, AllocError>
    ensures { IfOk result (λ v. Holds (every_page ++ every_play) v.items) }
{
    let front = front_text(heap)?;
    let back = back_text(heap)?;
    let mut out = Vec::new(heap);
    push_text(&mut out, front.as_slice())?;
    push_pages(heap, &mut out, &INVERT, &PAGES)?;
    push_text(&mut out, PLANS)?;
    push_plans(&mut out)?;
    push_text(&mut out, back.as_slice())?;
    Ok(out)
}
