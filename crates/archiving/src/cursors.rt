// A plan that is being listed, and the steps that it is listed by.
ghost use Rattle.std.specs.Prelude.{◌≡◌, ℕ, ◌≤◌, length};

use plans::plays::Play;

// Plays that belong together: what they do, and how many they are.
pub(crate) struct Step {
    pub(crate) what: &'static [u8],
    pub(crate) count: usize,
}

// A plan, of which the plays before index `at` are written.
#[derive(Drop)]
pub(crate) struct Listing<'a> {
    pub(crate) plan: &'a [Play],
    pub(crate) at: usize,
    ghost within: { at ≤ length plan.now },
}

impl<'a> Listing<'a> {
    pub(crate) fn new(plan: &'a [Play]) -> Listing<'a>
        ensures plan { result.plan.now ≡ plan.now }
        ensures start { result.at ≡ 0 }
    {
        Listing { plan, at: 0 }
    }
}
