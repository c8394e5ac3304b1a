// What is answered to a line: the reply of a call that is done, or why none is.
ghost use Rattle.std.specs.Prelude.{◌≡◌};

use bench::faults::Fault;

#[derive(Clone, Copy)]
pub enum Reply {
    Done,
    Registers(u16),
    Lanes(u16),
    Left(u32),
    Bit(bool),
    Page {
        gates: u16,
        sockets: u16,
        scratch: u16,
    },
}

#[derive(Clone, Copy)]
pub enum Refusal {
    Fault(Fault),
    // The line of this number cannot be read.
    Unreadable(u64),
}

impl From<Fault> for Refusal {
    ghost use Rattle.playing.specs.declared.answers.Refusal.TheVariants as refusal;

    ghost from_gives = { λ f r. r ≡ refusal.Fault f };

    fn from(fault: Fault) -> Refusal {
        Refusal::Fault(fault)
    }
}

pub type Answer = Result<Reply, Refusal>;
