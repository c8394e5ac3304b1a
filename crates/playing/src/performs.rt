// Doing a call on a bench.
ghost use Rattle.std.specs.Prelude.{◌≡◌};
ghost use Rattle.bench.specs.Benches.{meaning};
ghost use Rattle.playing.specs.Calls.{page, meant, page_answer, call_answer, call_leaves, call_beneath, call_keeps};

use crate::answers::{Answer, Reply};
use crate::commands::Command;
use bench::benches::Bench;
use player::pages::Page;
use player::plays::play;

// Keeps the page in place of the one before, if it is whole.
fn keep_page(kept: &mut Vec<u8>, bytes: Vec<u8>) -> Answer
    ensures answer { result ≡ page_answer bytes.items }
    ensures keeps { kept.new.items ≡ call_keeps kept.old.items (page bytes.items) }
{
    let page = Page::read(bytes.as_slice())?;
    let reply = Reply::Page {
        gates: page.kinds.len() as u16,
        sockets: page.sockets,
        scratch: page.scratch,
    };
    *kept = bytes;
    Ok(reply)
}

// Does the call on the bench, with the page that is kept.
pub fn perform<B: Bench>(bench: &mut B, kept: &mut Vec<u8>, command: Command) -> Answer
    ensures answer { result ≡ call_answer (meaning B.Bench bench.old) kept.old.items (meant command) }
    ensures leaves { meaning B.Bench bench.new ≡ call_leaves (meaning B.Bench bench.old) kept.old.items (meant command) }
    ensures beneath { B.beneath bench.new ≡ call_beneath (meaning B.Bench bench.old) kept.old.items (meant command) (B.beneath bench.old) }
    ensures keeps { kept.new.items ≡ call_keeps kept.old.items (meant command) }
{
    match command {
        Command::Registers => Ok(Reply::Registers(bench.registers())),
        Command::Lanes => Ok(Reply::Lanes(bench.lanes())),
        Command::Left => Ok(Reply::Left(bench.left())),
        Command::Set {
            register,
            lane,
            bit,
        } => {
            bench.set(register, lane, bit)?;
            Ok(Reply::Done)
        }
        Command::Show { register, lane } => Ok(Reply::Bit(bench.show(register, lane)?)),
        Command::Gate(gate) => {
            bench.gate(gate)?;
            Ok(Reply::Done)
        }
        Command::Page(bytes) => keep_page(kept, bytes),
        Command::Play(bases) => {
            play(bench, kept.as_slice(), bases.as_slice())?;
            Ok(Reply::Done)
        }
    }
}
