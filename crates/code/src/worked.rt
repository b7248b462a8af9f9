// The worked cases.
ghost use Rattle.code.specs.Worked.{Worked};

// Its contract is that they hold.
#[tactic(auto, using(crate::proofs::Cases::worked))]
pub fn worked_cases()
    ensures { Worked }
{}
