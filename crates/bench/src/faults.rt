// The numbered questions, and what a no reports: the question, the part that asked, and the place of the fault.
ghost use Rattle.std.specs.Prelude.{◌≡◌};
ghost use Rattle.bench.specs.Faults.{number_of, fault};

#[derive(Clone, Copy, Debug, PartialEq, Eq)]
pub enum Question {
    // at least 2,048 registers, and 1 to 128 lanes
    Size,
    // the page is whole
    Whole,
    // one base for each socket and one for the scratch, all within the registers
    Bases,
    // the register is below the number of registers
    Register,
    // the lane is below the number of lanes
    Lane,
    // the caller's bytes are exactly sixteen
    Sixteen,
    // the lane holds a block
    Block,
    // there is a placed key to schedule, or a block to seal or open
    Work,
    // every lane that holds a block has a scheduled key
    Scheduled,
    // enough gates are left
    Gates,
}

impl From<Question> for u8 {
    ghost from_gives = { λ question number. number ≡ number_of question };

    // The question's number.
    fn from(question: Question) -> u8 {
        match question {
            Question::Size => 1,
            Question::Whole => 2,
            Question::Bases => 3,
            Question::Register => 4,
            Question::Lane => 5,
            Question::Sixteen => 6,
            Question::Block => 7,
            Question::Work => 8,
            Question::Scheduled => 9,
            Question::Gates => 10,
        }
    }
}

#[derive(Clone, Copy, Debug, PartialEq, Eq)]
pub enum Part {
    Bench,
    Player,
    Unit,
    Reader,
}

#[derive(Clone, Copy, Debug, PartialEq, Eq)]
pub struct Fault {
    pub question: Question,
    pub part: Part,
    pub place: u64,
}

impl Fault {
    pub fn new(question: Question, part: Part, place: u64) -> Fault
        ensures { result ≡ fault question part place }
    {
        Fault {
            question,
            part,
            place,
        }
    }

    // A register that the bench does not have.
    pub fn register(register: u16) -> Fault
        ensures { result ≡ fault Question.Register Part.Bench register }
    {
        Fault::new(Question::Register, Part::Bench, u64::from(register))
    }

    // A lane that the bench does not have.
    pub fn lane(lane: u16) -> Fault
        ensures { result ≡ fault Question.Lane Part.Bench lane }
    {
        Fault::new(Question::Lane, Part::Bench, u64::from(lane))
    }

    // So many gates too few.
    pub fn gates(part: Part, missing: u32) -> Fault
        ensures { result ≡ fault Question.Gates part missing }
    {
        Fault::new(Question::Gates, part, u64::from(missing))
    }

    // The number of the question.
    pub fn number(&self) -> u8
        ensures { result ≡ number_of self.now.question }
    {
        u8::from(self.question)
    }
}
