// What is recorded of a lane.
ghost use Rattle.std.specs.Prelude.{◌≡◌};
ghost use Rattle.lanetable.specs.Records.{promotes, unready};

// Whether a lane has a key, and whether its round keys are there.
#[derive(Clone, Copy, PartialEq, Eq, Default)]
pub enum KeyState {
    #[default]
    Absent,
    Placed,
    Scheduled,
}

#[derive(Clone, Copy, PartialEq, Eq, Default)]
pub struct LaneRecord {
    pub key: KeyState,
    pub block: bool,
}

impl LaneRecord {
    // The record after a scheduling: a placed key is then scheduled.
    pub(crate) fn promoted(self) -> LaneRecord
        ensures { result ≡ promotes self }
    {
        match self.key {
            KeyState::Placed => LaneRecord {
                key: KeyState::Scheduled,
                ..self
            },
            KeyState::Absent | KeyState::Scheduled => self,
        }
    }

    // Whether there is a block without a scheduled key.
    pub(crate) fn is_unready(&self) -> bool
        ensures { result ≡ unready self.now }
    {
        self.block && self.key != KeyState::Scheduled
    }
}
