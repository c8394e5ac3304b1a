// Worked values, as one table.
#![tactic(auto)]

ghost use Rattle.worked.specs.Values.{ValuesStand};

pub fn values_stand()
    ensures { ValuesStand }
{}
