// A backing that allows no more than its limit of the backing below it.
ghost use Rattle.std.specs.Prelude.{◌≡◌, ◌+◌, ◌≤◌, IfOk, IfErr, OnErr, MatchResult};
ghost use Rattle.backing.specs.Meaning.{count, missing, commit_after};
ghost use Rattle.backing.specs.Replies.{told, commit_reply};
ghost use Rattle.backing.specs.Makings.{making, limiter_making};
ghost use Rattle.backing.specs.Limits.{limit_of, limiter_means};
ghost use Rattle.backing.specs.Soundness.{limiter_sound};

use crate::interface::Backing;
use crate::refusals::{Refusal, Refused};
use crate::stretches::Stretch;

// It keeps what the limit leaves, and not the limit: so no more than the limit can be committed, whatever stands below.
#[derive(Debug, Drop)]
pub struct Limiter<B> {
    below: B,
    // How many more granules the limit allows.
    left: u32,
}

impl<B: Backing> Limiter<B> {
    /// A limiter on top of a backing that has no more committed than the limit.
    pub fn new(below: B, limit: u32) -> Result<Limiter<B>, Refused<B>>
        ensures answer { making (limiter_means B.Backing.means) result ≡ limiter_making limit (B.Backing.means below) }
        ensures holds { MatchResult result (λ l. (l.below ≡ below) × (limit_of B.Backing.means l ≡ limit)) (λ e. e.back ≡ below) }
    {
        let count = below.count();
        if limit < count {
            return Err(Refused {
                why: Refusal::LimitBelowCount,
                back: below,
            });
        }
        let left = limit - count;
        Ok(Limiter { below, left })
    }

    /// The backing below, with the limit taken off.
    pub fn into_below(self) -> B
        ensures { result ≡ self.below }
    {
        let Limiter { below, left: _ } = self;
        below
    }

    // Refuses a commit that the limit alone stands against.
    #[tactic(auto, using(crate::specs::Soundness::tally_le), unfolding(crate::specs::Meaning::commit_after, crate::specs::Replies::commit_reply, crate::specs::Replies::missing_reply))]
    fn check_limit(&self, stretch: Stretch) -> Result<(), Refusal>
        ensures fits { IfOk result (λ _. count (B.Backing.means self.now.below) + missing (B.Backing.means self.now.below) stretch.first stretch.count ≤ limit_of B.Backing.means self.now) }
        ensures answer { IfErr result (λ e. told e ≡ commit_reply (limiter_means B.Backing.means self.now) stretch.first stretch.count) }
        ensures stays { OnErr result (limiter_means B.Backing.means self.now ≡ commit_after (limiter_means B.Backing.means self.now) stretch.first stretch.count) }
    {
        let left = self.left;
        if stretch.count > left {
            let wanted = self.missing(stretch)?;
            if wanted > left {
                let left = left.min(self.below.room());
                return Err(Refusal::OverAllowance { wanted, left });
            }
        }
        Ok(())
    }
}

impl<B: Backing> Backing for Limiter<B> {
    ghost means = { limiter_means B.Backing.means };

    ghost sound = { λ l. limiter_sound B.Backing.means l (B.Backing.sound l.below) };

    ghost Spare = { B.Backing.Spare };

    ghost spare = { λ l. B.Backing.spare l.below };

    fn size(&self) -> u32 {
        self.below.size()
    }

    fn allowance(&self) -> u32 {
        self.count() + self.room()
    }

    fn count(&self) -> u32 {
        self.below.count()
    }

    fn held(&self, granule: u32) -> bool {
        self.below.held(granule)
    }

    fn room(&self) -> u32 {
        self.left.min(self.below.room())
    }

    #[tactic(auto, using(crate::proofs::Limiting::left_committed), unfolding(crate::specs::Meaning::commit_after, crate::specs::Replies::commit_reply))]
    fn commit(&mut self, stretch: Stretch) -> Result<u32, Refusal> {
        self.check_limit(stretch)?;
        let added = self.below.commit(stretch)?;
        self.left -= added;
        Ok(added)
    }

    #[tactic(auto, unfolding(crate::specs::Meaning::release_after, crate::specs::Replies::release_reply))]
    fn release(&mut self, stretch: Stretch) -> Result<u32, Refusal> {
        let removed = self.below.release(stretch)?;
        self.left = self.left.saturating_add(removed);
        Ok(removed)
    }

    #[tactic(auto, unfolding(crate::specs::Replies::missing_reply))]
    fn missing(&self, stretch: Stretch) -> Result<u32, Refusal> {
        self.below.missing(stretch)
    }
}
