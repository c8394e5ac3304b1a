// One call of a script.
use bench::gates::Gate;

#[derive(Drop)]
pub enum Command {
    Registers,
    Lanes,
    Left,
    Set { register: u16, lane: u16, bit: bool },
    Show { register: u16, lane: u16 },
    Gate(Gate),
    Page(Vec<u8>),
    Play(Vec<u16>),
}
