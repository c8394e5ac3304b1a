// The bench that a script asks for: its memory and its allotment.
#[derive(Clone, Copy)]
pub enum Single {
    Word {
        registers: usize,
        allotment: u32,
    },
    Row {
        width: usize,
        bytes: usize,
        allotment: u32,
    },
}

#[derive(Clone, Copy)]
pub struct Setup {
    pub first: Single,
    pub second: Option<Single>,
}
