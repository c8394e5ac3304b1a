// A bench of one of two types: each call goes to the one that is there. Neither is a failure, so it is no `Result`; and the two
// types are known, so it is no `dyn`.
ghost use Rattle.bench.specs.Either.{of_either};
ghost use Rattle.bench.specs.declared.either.EitherBench.TheVariants.{Left, Right};

use crate::benches::Bench;
use crate::faults::Fault;
use crate::gates::Gate;

#[derive(Drop)]
pub enum EitherBench<L, R> {
    Left(L),
    Right(R),
}

impl<L: Bench, R: Bench> Bench for EitherBench<L, R> {
    ghost registers = { of_either L.Bench.registers R.Bench.registers };

    ghost lanes = { of_either L.Bench.lanes R.Bench.lanes };

    ghost left = { of_either L.Bench.left R.Bench.left };

    ghost shows = { of_either L.Bench.shows R.Bench.shows };

    ghost beneath = { of_either L.Bench.beneath R.Bench.beneath };

    ghost tied = { elim [ Left x ↦ L.Bench.tied x | Right y ↦ R.Bench.tied y ] };

    ghost lawful = { elim [ Left x ↦ L.Bench.lawful x | Right y ↦ R.Bench.lawful y ] };

    fn registers(&self) -> u16 {
        match self {
            EitherBench::Left(bench) => bench.registers(),
            EitherBench::Right(bench) => bench.registers(),
        }
    }

    fn lanes(&self) -> u16 {
        match self {
            EitherBench::Left(bench) => bench.lanes(),
            EitherBench::Right(bench) => bench.lanes(),
        }
    }

    fn left(&self) -> u32 {
        match self {
            EitherBench::Left(bench) => bench.left(),
            EitherBench::Right(bench) => bench.left(),
        }
    }

    fn show(&self, register: u16, lane: u16) -> Result<bool, Fault> {
        match self {
            EitherBench::Left(bench) => bench.show(register, lane),
            EitherBench::Right(bench) => bench.show(register, lane),
        }
    }

    fn set(&mut self, register: u16, lane: u16, value: bool) -> Result<(), Fault> {
        match self {
            EitherBench::Left(bench) => bench.set(register, lane, value),
            EitherBench::Right(bench) => bench.set(register, lane, value),
        }
    }

    fn gate(&mut self, gate: Gate) -> Result<(), Fault> {
        match self {
            EitherBench::Left(bench) => bench.gate(gate),
            EitherBench::Right(bench) => bench.gate(gate),
        }
    }
}
