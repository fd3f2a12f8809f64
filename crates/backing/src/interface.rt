// What every backing promises.
ghost use Rattle.std.specs.Prelude.{◌≡◌};
ghost use Rattle.backing.specs.Meaning.{Meaning, Sound, count, room, commit_after, release_after};
ghost use Rattle.backing.specs.Replies.{reply, missing_reply, commit_reply, release_reply};

use crate::refusals::Refusal;
use crate::stretches::Stretch;

/// A set of committed granules, by what it means.
pub trait Backing {
    // its granules, its allowance, and what is committed
    ghost means: { Self → Meaning };

    // what holds of every backing
    ghost sound: { (x : Self) → Sound (means x) };

    // the memory lent beyond what the backing needs
    ghost Spare: { Type 0 };

    ghost spare: { Self → Spare };

    /// How many granules it has.
    fn size(&self) -> u32
        ensures { result ≡ (means self.now).size };

    /// How many granules may be committed.
    fn allowance(&self) -> u32
        ensures { result ≡ (means self.now).allowance };

    /// How many granules are committed.
    fn count(&self) -> u32
        ensures { result ≡ count (means self.now) };

    /// Whether a granule is committed; none is from the size on.
    fn held(&self, granule: u32) -> bool
        ensures { result ≡ (means self.now).held granule };

    /// Commits the granules of a stretch, and answers how many of them were not.
    fn commit(&mut self, stretch: Stretch) -> Result<u32, Refusal>
        ensures answer { reply result ≡ commit_reply (means self.old) stretch.first stretch.count }
        ensures after { means self.new ≡ commit_after (means self.old) stretch.first stretch.count }
        ensures spares { spare self.new ≡ spare self.old };

    /// Releases the granules of a stretch, and answers how many of them were committed.
    fn release(&mut self, stretch: Stretch) -> Result<u32, Refusal>
        ensures answer { reply result ≡ release_reply (means self.old) stretch.first stretch.count }
        ensures after { means self.new ≡ release_after (means self.old) stretch.first stretch.count }
        ensures spares { spare self.new ≡ spare self.old };

    /// How many more granules may be committed.
    fn room(&self) -> u32
        ensures { result ≡ room (means self.now) }
    {
        self.allowance() - self.count()
    }

    /// How many granules of a stretch are not committed.
    #[tactic(auto, unfolding(crate::specs::Replies::missing_reply))]
    fn missing(&self, stretch: Stretch) -> Result<u32, Refusal>
        ensures { reply result ≡ missing_reply (means self.now) stretch.first stretch.count }
    {
        let span = stretch.within(self.size())?;
        let mut wanted = 0;
        for g in span.first..span.end {
            if !self.held(g) {
                wanted += 1;
            }
        }
        Ok(wanted)
    }
}
