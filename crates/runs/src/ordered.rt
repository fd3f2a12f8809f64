// Runs whose order is in their type, for reading.
ghost use Rattle.std.specs.Prelude.{◌≡◌, ◌+◌, ◌≤◌, Bool, true, false, length};
ghost use Rattle.std.specs.Fn.{ComputesKey};
ghost use Rattle.std.specs.List.Sorted.{IsPartitionedBy, IsPartitionPoint};
ghost use Rattle.backing.specs.Meaning.{most_granules};
ghost use Rattle.runs.specs.Rows.{in_order, in_runs};
ghost use Rattle.runs.specs.Reach.{Reaches};

use crate::rows::{Reach, Run};
use backing::Span;

// Runs in order and apart, none empty, and none past the last granule of the largest backing.
#[derive(Clone, Copy, Debug)]
pub(crate) struct Ordered<'a> {
    pub(crate) runs: &'a [Run],
    ghost apart: { in_order 0 (most_granules + 1) runs.now ≡ true },
}

impl Ordered<'_> {
    // Whether a granule lies in one of the runs: in the last that begins at it or before.
    pub(crate) fn holds(&self, granule: u32) -> bool
        ensures { result ≡ in_runs self.now.runs.now granule }
    {
        let past = passing(self.runs, |run| run.first <= granule);
        let last = self.runs[..past].last();
        last.is_some_and(|run| run.covers(granule))
    }

    // What a span reaches.
    pub(crate) fn look(&self, span: Span) -> Reach
        requires { span.end ≤ most_granules }
        ensures { Reaches self.now.runs.now span.first span.end result }
    {
        let at = passing(self.runs, |run| run.ends_before(span.first));
        let rest = &self.runs[at..];
        let met = passing(rest, |run| run.first <= span.end);
        let mut low = span.first;
        let mut high = span.end;
        let mut held = 0;
        for run in &rest[..met] {
            low = low.min(run.first);
            high = high.max(run.end());
            held += run.end().min(span.end) - run.first.max(span.first);
        }
        Reach {
            at,
            past: at + met,
            low,
            high,
            held,
        }
    }
}

// How many runs at the front are tried one by one.
const NEAR: usize = 8;

// How many runs at the front pass a test that none passes after one that fails it: near the front at once, else by halves.
fn passing<F: Fn(&Run) -> bool>(runs: &[Run], test: F) -> usize
    requires { F.IsAlwaysCallable test }
    ensures bound { result ≤ length runs.now }
    ensures partitioned { (p : Run → Bool) → ComputesKey F.FnMut p test → IsPartitionedBy p runs.now → IsPartitionPoint (λ y. p y ≡ true) (λ y. p y ≡ false) runs.now result }
{
    if runs.is_empty() || !test(&runs[0]) {
        return 0;
    }
    if runs.len() > NEAR && test(&runs[NEAR]) {
        let far = NEAR + 1;
        return far + runs[far..].partition_point(test);
    }
    let mut near = 1;
    while near < runs.len() && test(&runs[near]) {
        near += 1;
    }
    near
}
