// What the plans do to every lane, in the words of FIPS 197, whatever page is played as the inverter.
#![tactic(auto)]

ghost use Rattle.std.specs.Prelude.{ℕ, List};
ghost use Rattle.standard.specs.Kinds.{KeyKind};
ghost use Rattle.plans.specs.Pages.{own_inverter};
ghost use Rattle.circuit.specs.Claims.{Inverts, SealStands, ScheduleStands, OpenStands};

// The repository's own inverter page inverts.
pub fn inverter_stands()
    ensures { Inverts own_inverter }
{}

// Stage by stage the sealing's plan does the cipher of FIPS 197.
pub fn seal_stands()
    ensures { (inv : List ℕ) → Inverts inv → (κ : KeyKind) → SealStands inv κ }
{}

// The scheduling's plan gives the round keys of FIPS 197.
pub fn schedule_stands()
    ensures { (inv : List ℕ) → Inverts inv → (κ : KeyKind) → ScheduleStands inv κ }
{}

// The opening's plan does the inverse cipher of FIPS 197.
pub fn open_stands()
    ensures { (inv : List ℕ) → Inverts inv → (κ : KeyKind) → OpenStands inv κ }
{}
