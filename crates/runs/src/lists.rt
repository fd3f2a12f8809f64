// A backing in records that the caller lends: a sorted list of runs.
ghost use Rattle.std.specs.Prelude.{List};
ghost use Rattle.runs.specs.declared.rows.Run.{Run};
ghost use Rattle.runs.specs.Rows.{RunListOk};
ghost use Rattle.runs.specs.Parts.{ListParts};

use crate::lent::LentVec;
use crate::ordered::Ordered;
use crate::rows::{Reach, Run};
use backing::{Backing, Refusal, Refused, Span, Stretch, enough};
use std::marker::Model;

#[derive(Debug, Drop)]
pub struct RunList<'a> {
    rows: LentVec<'a, Run>,
    size: u32,
    count: u32,
    pub ghost ok: { RunListOk rows.places.now rows.len size count },
}

// A clause sees every field. It is for functions that take a list by value, change it and let it go: by the ghost field alone they get no proof.
impl<'a> Model for RunList<'a> {
    ghost Value = { ListParts };

    ghost view = { λ l. record { rows = l.rows; size = l.size; count = l.count; ok = l.ok } };
}

impl<'a> RunList<'a> {
    ghost use Rattle.std.specs.Prelude.{◌≡◌, ℕ, ◌+◌, ◌<◌, ◌≤◌, length, MatchResult, slice_index_or};
    ghost use Rattle.backing.specs.Makings.{making};
    ghost use Rattle.runs.specs.Rows.{Apart, Longest};
    ghost use Rattle.runs.specs.Reach.{Reaches};
    ghost use Rattle.runs.specs.Lists.{runs_of, list_means, list_making};

    /// A run list of `size` granules, none committed, in the first of the records.
    pub fn new(records: &'a mut [Run], size: u32) -> Result<RunList<'a>, Refused<&'a mut [Run]>>
        ensures answer { making list_means result ≡ list_making size (length records.old) }
        ensures spares { MatchResult result (λ l. l.rows.places.now ≡ records.old) (λ e. e.back.now ≡ records.old) }
    {
        let records = enough(records, size, size.div_ceil(2) as usize)?;
        Ok(RunList {
            rows: LentVec::new(records),
            size,
            count: 0,
        })
    }

    /// The records, as the list leaves them.
    pub fn into_records(self) -> &'a mut [Run]
        ensures { result.now ≡ self.entry.rows.places.now }
    {
        self.rows.into_places()
    }

    /// The runs, in order.
    pub fn runs(&self) -> &[Run]
        ensures value { result.now ≡ runs_of self.now }
        ensures order { Apart 0 (self.now.size + 1) result.now }
        ensures longest { (k : ℕ) (d : Run) → k < length result.now → Longest (list_means self.now).held (slice_index_or result.now k d) }
    {
        self.rows.as_slice()
    }

    // The runs, with their order in the type.
    #[tactic(auto, using(crate::proofs::Order::apart_high))]
    fn ordered(&self) -> Ordered<'_>
        ensures { result.runs.now ≡ runs_of self.now }
    {
        Ordered { runs: self.runs() }
    }

    // What a span reaches.
    fn look(&self, span: Span) -> Reach
        requires { span.end ≤ self.now.size }
        ensures { Reaches (runs_of self.now) span.first span.end result }
    {
        self.ordered().look(span)
    }
}

impl Backing for RunList<'_> {
    ghost use Rattle.runs.specs.Lists.{list_means, spare_records};
    ghost use Rattle.runs.specs.Soundness.{list_sound};

    ghost means = { list_means };

    ghost sound = { list_sound };

    ghost Spare = { List Run };

    ghost spare = { λ l. spare_records l.size l.rows.places.now };

    fn size(&self) -> u32 {
        self.size
    }

    fn allowance(&self) -> u32 {
        self.size
    }

    fn count(&self) -> u32 {
        self.count
    }

    fn held(&self, granule: u32) -> bool {
        self.ordered().holds(granule)
    }

    #[tactic(auto, using(backing::specs::Soundness::tally_le), unfolding(backing::specs::Meaning::commit_after, backing::specs::Replies::commit_reply))]
    fn commit(&mut self, stretch: Stretch) -> Result<u32, Refusal> {
        let span = stretch.within(self.size)?;
        let reach = self.look(span);
        let added = span.count() - reach.held;
        reach.merge(&mut self.rows);
        self.count += added;
        Ok(added)
    }

    #[tactic(auto, using(backing::specs::Soundness::tally_le), unfolding(backing::specs::Meaning::release_after, backing::specs::Replies::release_reply))]
    fn release(&mut self, stretch: Stretch) -> Result<u32, Refusal> {
        let span = stretch.within(self.size)?;
        let reach = self.look(span);
        reach.cut(&mut self.rows, span);
        self.count -= reach.held;
        Ok(reach.held)
    }

    #[tactic(auto, using(backing::specs::Soundness::tally_le, backing::proofs::Tallies::tally_both), unfolding(backing::specs::Replies::missing_reply))]
    fn missing(&self, stretch: Stretch) -> Result<u32, Refusal> {
        let span = stretch.within(self.size)?;
        Ok(span.count() - self.look(span).held)
    }
}
