// Section 6: a key and a block, and what the registers show as the plans are played.
use bench::benches::Bench;
use bench::faults::Fault;
use bench::word::{MOST_GATES, WordBench};
use coordinates::basis::from_coordinates;
use lane::{place_bytes, read_bytes};
use plans::pages::INVERT;
use plans::runs::play_plan;
use plans::tables::Plan;
use std::alloc::{AllocError, Global};
use text::writes::{push_hex, push_number, push_text};

const KEY: [u8; 16] = [0, 1, 2, 3, 4, 5, 6, 7, 8, 9, 10, 11, 12, 13, 14, 15];

const BLOCK: [u8; 16] = [
    0x00, 0x11, 0x22, 0x33, 0x44, 0x55, 0x66, 0x77, 0x88, 0x99, 0xaa, 0xbb, 0xcc, 0xdd, 0xee, 0xff,
];

const ROOM: usize = 2048;

// The plays of each stage of the sealing's plan.
const STAGE_PLAYS: [usize; 11] = [32, 36, 36, 36, 36, 36, 36, 36, 36, 36, 48];

// What the sixteen bytes from a register on show in lane 0.
fn shown<B: Bench>(bench: &B, base: u16) -> Result<[u8; 16], Fault> {
    let mut bytes = [0u8; 16];
    read_bytes(bench, base, 0, &mut bytes)?;
    Ok(bytes)
}

fn plain(coordinates: &[u8; 16]) -> [u8; 16] {
    coordinates.map(from_coordinates)
}

// The round keys as the registers show them, after the scheduling's plan.
fn round_keys<B: Bench>(bench: &mut B, key: &[u8; 16]) -> Result<[[u8; 16]; 11], Fault> {
    let mut keys = [[0u8; 16]; 11];
    place_bytes(bench, 128, 0, key)?;
    play_plan(bench, &INVERT, Plan::Schedule.plays())?;
    for (n, key) in keys.iter_mut().enumerate() {
        *key = shown(bench, 128 * (n as u16 + 1))?;
    }
    Ok(keys)
}

// The state after each stage of the sealing's plan.
fn stages<B: Bench>(bench: &mut B, block: &[u8; 16]) -> Result<[[u8; 16]; 11], Fault> {
    let mut states = [[0u8; 16]; 11];
    place_bytes(bench, 0, 0, block)?;
    let mut rest = Plan::Seal.plays();
    for (plays, state) in STAGE_PLAYS.iter().zip(states.iter_mut()) {
        let (stage, later) = rest.split_at(rest.len().min(*plays));
        play_plan(bench, &INVERT, stage)?;
        *state = shown(bench, 0)?;
        rest = later;
    }
    Ok(states)
}

#[derive(Drop)]
struct Worked {
    keys: [[u8; 16]; 11],
    states: [[u8; 16]; 11],
    opened: [u8; 16],
}

fn play_example(words: &mut [u64]) -> Result<Worked, Fault> {
    let mut bench = WordBench::new(words, MOST_GATES);
    let keys = round_keys(&mut bench, &KEY)?;
    let states = stages(&mut bench, &BLOCK)?;
    play_plan(&mut bench, &INVERT, Plan::Open.plays())?;
    let opened = shown(&bench, 0)?;
    Ok(Worked {
        keys,
        states,
        opened,
    })
}

fn push_named(out: &mut Vec<u8>, name: &[u8], bytes: &[u8]) -> Result<(), AllocError> {
    push_text(out, name)?;
    push_hex(out, bytes)?;
    push_text(out, b"\n")
}

// A number, sixteen bytes as they stand, and the plain bytes.
fn push_pair(
    out: &mut Vec<u8>,
    n: u64,
    shown: &[u8; 16],
    plain: &[u8; 16],
) -> Result<(), AllocError> {
    push_text(out, if n < 10 { b"   " } else { b"  " })?;
    push_number(out, n)?;
    push_text(out, b"  ")?;
    push_hex(out, shown)?;
    push_text(out, b"  ")?;
    push_hex(out, plain)?;
    push_text(out, b"\n")
}

fn push_rows(
    out: &mut Vec<u8>,
    rows: &[[u8; 16]; 11],
    plain_first: bool,
) -> Result<(), AllocError> {
    for (n, row) in rows.iter().enumerate() {
        if n == 10 || (plain_first && n == 0) {
            push_pair(out, n as u64, row, row)?;
        } else {
            push_pair(out, n as u64, row, &plain(row))?;
        }
    }
    Ok(())
}

fn push_worked(out: &mut Vec<u8>, worked: &Worked) -> Result<(), AllocError> {
    push_named(out, b"key           ", &KEY)?;
    push_named(out, b"block         ", &BLOCK)?;
    push_text(
        out,
        b"\nRound key n after scheduling\n   n  as the registers show it          plain bytes\n",
    )?;
    push_rows(out, &worked.keys, true)?;
    push_text(
        out,
        b"\nState after stage n of sealing\n   n  as the registers show it          plain bytes\n",
    )?;
    push_rows(out, &worked.states, false)?;
    push_text(out, b"\n")?;
    push_named(out, b"sealed block  ", &worked.states[10])?;
    push_named(out, b"opened again  ", &worked.opened)
}

pub(crate) fn push_example(heap: Global, out: &mut Vec<u8>) -> Result<(), AllocError> {
    let mut words = vec![in heap; 0u64; ROOM]?;
    let Ok(worked) = play_example(words.as_mut_slice()) else {
        return push_text(out, b"The bench refused.\n");
    };
    push_worked(out, &worked)
}
