// The player: a page's gates, done in order on any bench.
ghost use Rattle.std.specs.Prelude.{◌≡◌, ℕ, ◌+◌, ◌*◌, ◌<◌, ◌≤◌, Some, None, Ok, Err, IfOk};
ghost use Rattle.std.proofs.Props.{props};
ghost use Rattle.bench.specs.Benches.{meaning};
ghost use Rattle.bench.specs.Model.{after};
ghost use Rattle.player.specs.Plays.{Within, register_of, placed, bases_at, ask_bases, play_answer, played, played_in};

use crate::pages::Page;
use bench::asks::ask_gates;
use bench::benches::Bench;
use bench::faults::{Fault, Part, Question};
use bench::gates::Gate;

// The place of the fault where the number of bases is wrong; no base has it.
const WRONG_COUNT: u64 = 17;

fn misfit(place: u64) -> Fault
    ensures { Err result ≡ ask_bases (Some place) (Ok tt) }
{
    Fault::new(Question::Bases, Part::Player, place)
}

// One base for each socket of a page and one for its scratch, all within the registers of a bench.
#[derive(Clone, Copy)]
struct Bases<'a> {
    sockets: u16,
    scratch: u16,
    registers: u16,
    bases: &'a [u16],
    ghost few: { sockets ≤ 16 },
    ghost fit: { bases_at registers sockets scratch bases.now ≡ None } by { Prim.hlevel props },
}

impl<'a> Bases<'a> {
    fn fitting(page: &Page<'_>, registers: u16, bases: &'a [u16]) -> Result<Bases<'a>, Fault>
        ensures asked { elim result [ Ok b ↦ bases_at registers page.now.sockets page.now.scratch bases.now ≡ None | Err f ↦ ask_bases (bases_at registers page.now.sockets page.now.scratch bases.now) (Ok tt) ≡ Err f ] }
        ensures kept { IfOk result (λ b. (b.sockets ≡ page.now.sockets) × ((b.scratch ≡ page.now.scratch) × ((b.registers ≡ registers) × (b.bases.now ≡ bases.now)))) }
    {
        if bases.len() != page.sockets as usize + 1 {
            return Err(misfit(WRONG_COUNT));
        }
        for (i, base) in bases.iter().enumerate() {
            let span = if i < page.sockets as usize {
                8
            } else {
                page.scratch
            };
            if *base as u32 + span as u32 > registers as u32 {
                return Err(misfit(i as u64));
            }
        }
        Ok(Bases {
            sockets: page.sockets,
            scratch: page.scratch,
            registers,
            bases,
        })
    }

    // The register that a number of the page stands for.
    fn register(&self, number: u16) -> u16
        requires { number < 8 * self.now.sockets + self.now.scratch }
        ensures is { result ≡ register_of self.now.sockets self.now.bases.now number }
        ensures below { result < self.now.registers }
    {
        if number < 8 * self.sockets {
            self.bases[(number / 8) as usize] + number % 8
        } else {
            self.bases[self.sockets as usize] + (number - 8 * self.sockets)
        }
    }

    // A gate of the page, by registers.
    fn place(&self, gate: Gate) -> Gate
        requires { Within (8 * self.now.sockets + self.now.scratch) gate }
        ensures is { result ≡ placed self.now.sockets self.now.bases.now gate }
        ensures below { Within self.now.registers result }
    {
        Gate {
            kind: gate.kind,
            target: self.register(gate.target),
            first: self.register(gate.first),
            second: self.register(gate.second),
        }
    }
}

pub fn play<B: Bench>(bench: &mut B, page: &[u8], bases: &[u16]) -> Result<(), Fault>
    ensures answer { result ≡ play_answer (meaning B.Bench bench.old) page.now bases.now }
    ensures leaves { meaning B.Bench bench.new ≡ after result (played page.now bases.now (meaning B.Bench bench.old)) (meaning B.Bench bench.old) }
    ensures beneath { B.beneath bench.new ≡ after result (played_in page.now bases.now (B.beneath bench.old)) (B.beneath bench.old) }
{
    let page = Page::read(page)?;
    let bases = Bases::fitting(&page, bench.registers(), bases)?;
    ask_gates(Part::Player, page.kinds.len() as u32, bench.left())?;
    for gate in page.gates() {
        bench.gate(bases.place(gate))?;
    }
    Ok(())
}
