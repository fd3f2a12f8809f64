// Theorems on runs, each on the contract of a function that is named after what it says.
ghost use Rattle.runs.specs.Laws.{HalfAsManyRecordsSuffice, SameGranulesSameRuns};

#[tactic(auto, using(crate::proofs::Turns::few_runs))]
pub fn half_as_many_records_suffice()
    ensures { HalfAsManyRecordsSuffice }
{}

#[tactic(auto, using(crate::proofs::Lawful::same_runs))]
pub fn same_granules_same_runs()
    ensures { SameGranulesSameRuns }
{}
