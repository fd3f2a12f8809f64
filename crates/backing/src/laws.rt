// Theorems on every backing, each on the contract of a function that is named after what it says.
ghost use Rattle.backing.specs.Laws.{RefusalsChangeNothing, AnswersAreCountChanges, CallsTurnTheirStretch};
ghost use Rattle.backing.specs.Laws.{CallsKeepBackingsSound, FullAllowanceNeverRefuses, LimitersJoin};

#[tactic(auto, unfolding(crate::specs::Meaning::commit_after, crate::specs::Meaning::release_after, crate::specs::Replies::commit_reply, crate::specs::Replies::release_reply))]
pub fn refusals_change_nothing()
    ensures { RefusalsChangeNothing }
{}

#[tactic(auto, using(crate::proofs::Lawful::commit_counted, crate::proofs::Lawful::release_counted))]
pub fn answers_are_count_changes()
    ensures { AnswersAreCountChanges }
{}

#[tactic(auto, unfolding(crate::specs::Meaning::commit_after, crate::specs::Meaning::release_after, crate::specs::Replies::commit_reply, crate::specs::Replies::release_reply))]
pub fn calls_turn_their_stretch()
    ensures { CallsTurnTheirStretch }
{}

#[tactic(auto, using(crate::proofs::Lawful::calls_keep_backings_sound_lem))]
pub fn calls_keep_backings_sound()
    ensures { CallsKeepBackingsSound }
{}

#[tactic(auto, using(crate::proofs::Lawful::all_affordable), unfolding(crate::specs::Replies::commit_reply))]
pub fn full_allowance_never_refuses()
    ensures { FullAllowanceNeverRefuses }
{}

pub fn limiters_join()
    ensures { LimitersJoin }
{}
