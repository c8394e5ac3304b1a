// The memory of the benches that a script asks for.
ghost use Rattle.std.specs.Prelude.{◌≡◌, IfOk};
ghost use Rattle.std.specs.Option.{option_map};
ghost use Rattle.bench.specs.Benches.{meaning};
ghost use Rattle.playing.specs.Setups.{opens_one, opens};
ghost use Rattle.playing.specs.Memory.{holds, holds_beside, holds_both};

use crate::setups::{Setup, Single};
use bench::benches::Bench;
use bench::either::EitherBench;
use bench::row::RowBench;
use bench::side::SideBySide;
use bench::word::WordBench;
use std::alloc::{AllocError, Global};

pub type SingleBench<'a> = EitherBench<WordBench<'a>, RowBench<'a>>;

// A bench alone, or with a second one beside it.
pub type JoinedBench<'a, F> = EitherBench<
    F,
    EitherBench<SideBySide<F, WordBench<'a>>, SideBySide<F, RowBench<'a>>>,
>;

pub type SetupBench<'a> = EitherBench<
    JoinedBench<'a, WordBench<'a>>,
    JoinedBench<'a, RowBench<'a>>,
>;

// Does `$run` with the bench as the type that it has: asking at each gate which one is there takes up to three fifths more
// time.
#[macro_export]
macro_rules! on_bench {
    ($of_setup:expr, $bench:pat => $run:expr) => {
        match $of_setup {
            EitherBench::Left(EitherBench::Left($bench)) => $run,
            EitherBench::Left(EitherBench::Right(EitherBench::Left($bench))) => $run,
            EitherBench::Left(EitherBench::Right(EitherBench::Right($bench))) => $run,
            EitherBench::Right(EitherBench::Left($bench)) => $run,
            EitherBench::Right(EitherBench::Right(EitherBench::Left($bench))) => $run,
            EitherBench::Right(EitherBench::Right(EitherBench::Right($bench))) => $run,
        }
    };
}

// The memory of one bench, and its allotment.
#[derive(Drop)]
enum SingleMemory {
    Word {
        words: Vec<u64>,
        allotment: u32,
    },
    Row {
        width: usize,
        bytes: Vec<u8>,
        allotment: u32,
    },
}

impl SingleMemory {
    // Memory of zeros.
    fn zeros(heap: Global, single: Single) -> Result<SingleMemory, AllocError>
        ensures { IfOk result (λ m. holds m ≡ opens_one single) }
    {
        match single {
            Single::Word {
                registers,
                allotment,
            } => {
                let words = vec![in heap; 0u64; registers]?;
                Ok(SingleMemory::Word { words, allotment })
            }
            Single::Row {
                width,
                bytes,
                allotment,
            } => {
                let bytes = vec![in heap; 0u8; bytes]?;
                Ok(SingleMemory::Row {
                    width,
                    bytes,
                    allotment,
                })
            }
        }
    }

    // The bench over that memory.
    fn bench(&mut self) -> SingleBench<'_>
        ensures { meaning ⟦<SingleBench<'static> as Bench>⟧ result ≡ holds self.old }
    {
        match self {
            SingleMemory::Word { words, allotment } => {
                EitherBench::Left(WordBench::new(words.as_mut_slice(), *allotment))
            }
            SingleMemory::Row {
                width,
                bytes,
                allotment,
            } => EitherBench::Right(RowBench::new(bytes.as_mut_slice(), *width, *allotment)),
        }
    }
}

// The bench, with one over the second memory beside it, if any.
fn join<'a, F: Bench>(first: F, second: Option<&'a mut SingleMemory>) -> JoinedBench<'a, F>
    ensures { meaning ⟦<JoinedBench<'static, F> as Bench>⟧ result ≡ holds_beside (meaning F.Bench first) (option_map (λ m. m.now) second.entry) }
{
    let Some(memory) = second else {
        return EitherBench::Left(first);
    };
    EitherBench::Right(match memory.bench() {
        EitherBench::Left(second) => EitherBench::Left(SideBySide { first, second }),
        EitherBench::Right(second) => EitherBench::Right(SideBySide { first, second }),
    })
}

// The memory of one bench, or of two side by side.
#[derive(Drop)]
pub struct SetupMemory {
    first: SingleMemory,
    second: Option<SingleMemory>,
}

impl SetupMemory {
    // Memory of zeros.
    pub fn zeros(heap: Global, setup: Setup) -> Result<SetupMemory, AllocError>
        ensures { IfOk result (λ m. holds_both m ≡ opens setup) }
    {
        let first = SingleMemory::zeros(heap, setup.first)?;
        let second = match setup.second {
            Some(single) => Some(SingleMemory::zeros(heap, single)?),
            None => None,
        };
        Ok(SetupMemory { first, second })
    }

    // The bench over that memory.
    pub fn bench(&mut self) -> SetupBench<'_>
        ensures { meaning ⟦<SetupBench<'static> as Bench>⟧ result ≡ holds_both self.old }
    {
        match self.first.bench() {
            EitherBench::Left(words) => EitherBench::Left(join(words, self.second.as_mut())),
            EitherBench::Right(rows) => EitherBench::Right(join(rows, self.second.as_mut())),
        }
    }
}
