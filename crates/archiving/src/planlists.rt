// Section 4: the three plans, step by step.
ghost use Rattle.std.specs.Prelude.{◌≡◌, [], ◌++◌, drop, OnOk};
ghost use Rattle.archiving.specs.Listings.{play_lines};
ghost use Rattle.archiving.specs.Parts.{Extends, Listed, lines_of, every_play};

use crate::cursors::{Listing, Step};
use crate::listings::push_plays;
use crate::prose::{OPENING, SCHEDULING, SEALING};
use crate::steps::{
    OPEN_FIRST, OPEN_LAST, OPEN_ROUND, SCHEDULE_END, SCHEDULE_KEY, SCHEDULE_START, SEAL_FIRST,
    SEAL_LAST, SEAL_ROUND,
};
use plans::plays::Play;
use plans::tables::Plan;
use std::alloc::AllocError;
use std::ops::Range;
use text::writes::{push_number, push_text};

fn push_head(out: &mut Vec<u8>, what: &[u8], n: u64) -> Result<(), AllocError>
    ensures { OnOk result (Extends [] out.old.items out.new.items) }
{
    push_text(out, b"\n")?;
    push_text(out, what)?;
    push_number(out, n)?;
    push_text(out, b"\n")?;
    Ok(())
}

impl Listing<'_> {
    fn push_step(&mut self, out: &mut Vec<u8>, step: &Step) -> Result<(), AllocError>
        ensures { OnOk result (Listed self.old self.new out.old.items out.new.items) }
    {
        let end = self.at.saturating_add(step.count).min(self.plan.len());
        push_text(out, step.what)?;
        push_plays(out, &self.plan[..end], self.at)?;
        self.at = end;
        Ok(())
    }

    fn push_steps(&mut self, out: &mut Vec<u8>, steps: &[Step]) -> Result<(), AllocError>
        ensures { OnOk result (Listed self.old self.new out.old.items out.new.items) }
    {
        for step in steps {
            self.push_step(out, step)?;
        }
        Ok(())
    }

    // The steps for each of the numbers, under a heading.
    fn push_groups(
        &mut self,
        out: &mut Vec<u8>,
        what: &[u8],
        numbers: Range<u64>,
        steps: &[Step],
    ) -> Result<(), AllocError>
        ensures { OnOk result (Listed self.old self.new out.old.items out.new.items) }
    {
        for n in numbers {
            push_head(out, what, n)?;
            self.push_steps(out, steps)?;
        }
        Ok(())
    }

    // The plays that no step has written.
    fn push_rest(&self, out: &mut Vec<u8>) -> Result<(), AllocError>
        ensures { OnOk result (out.new.items ≡ out.old.items ++ play_lines self.now.at (drop self.now.at self.now.plan.now)) }
    {
        push_plays(out, self.plan, self.at)
    }
}

// A plan of a first stage, nine rounds and a last stage; what these leave over would follow.
fn push_rounds(
    out: &mut Vec<u8>,
    plan: &[Play],
    first: &[Step],
    round: &[Step],
    last: &[Step],
) -> Result<(), AllocError>
    ensures { OnOk result (Extends (lines_of 0 plan.now) out.old.items out.new.items) }
{
    let mut listing = Listing::new(plan);
    listing.push_groups(out, b"Stage ", 0..1, first)?;
    listing.push_groups(out, b"Stage ", 1..10, round)?;
    listing.push_groups(out, b"Stage ", 10..11, last)?;
    listing.push_rest(out)?;
    Ok(())
}

fn push_schedule(out: &mut Vec<u8>, plan: &[Play]) -> Result<(), AllocError>
    ensures { OnOk result (Extends (lines_of 0 plan.now) out.old.items out.new.items) }
{
    let mut listing = Listing::new(plan);
    listing.push_groups(out, b"Round key ", 0..1, &SCHEDULE_START)?;
    listing.push_groups(out, b"Round key ", 1..11, &SCHEDULE_KEY)?;
    listing.push_steps(out, &SCHEDULE_END)?;
    listing.push_rest(out)?;
    Ok(())
}

// The three plans, play by play.
pub(crate) fn push_plans(out: &mut Vec<u8>) -> Result<(), AllocError>
    ensures { OnOk result (Extends every_play out.old.items out.new.items) }
{
    push_text(out, SCHEDULING)?;
    push_schedule(out, Plan::Schedule.plays())?;
    push_text(out, SEALING)?;
    push_rounds(
        out,
        Plan::Seal.plays(),
        &SEAL_FIRST,
        &SEAL_ROUND,
        &SEAL_LAST,
    )?;
    push_text(out, OPENING)?;
    push_rounds(
        out,
        Plan::Open.plays(),
        &OPEN_FIRST,
        &OPEN_ROUND,
        &OPEN_LAST,
    )?;
    Ok(())
}
