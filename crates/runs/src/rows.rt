// Runs, and what is done to a row of them.
ghost use Rattle.std.specs.Prelude.{◌≡◌, ◌+◌, ◌-◌, ◌^◌, ◌<◌, ◌≤◌, min, max, length, drop, nat_lt};
ghost use Rattle.runs.specs.Rows.{covers, end_of, row};

use crate::lent::LentVec;
use backing::Span;

/// A row of committed granules: `count` of them, from `first` on.
#[derive(Clone, Copy, Debug, PartialEq, Eq)]
pub struct Run {
    pub first: u32,
    pub count: u32,
}

impl Run {
    // The granules from `low` up to `high`.
    fn between(low: u32, high: u32) -> Run
        requires { low ≤ high }
        ensures { result ≡ row low high }
    {
        Run {
            first: low,
            count: high - low,
        }
    }

    // The granule right after the run.
    pub(crate) fn end(&self) -> u32
        requires { end_of self.now < 2 ^ 32 }
        ensures { result ≡ end_of self.now }
    {
        self.first + self.count
    }

    // By differences, here and below: a sum of any two numbers need not fit.
    pub(crate) fn covers(&self, granule: u32) -> bool
        ensures { result ≡ covers self.now granule }
    {
        self.first <= granule && granule - self.first < self.count
    }

    pub(crate) fn ends_before(&self, granule: u32) -> bool
        ensures { result ≡ nat_lt (end_of self.now) granule }
    {
        self.first < granule && self.count < granule - self.first
    }
}

// The runs that a span meets or lies right beside: those from `at` up to `past`.
#[derive(Clone, Copy, Debug)]
pub(crate) struct Reach {
    pub(crate) at: usize,
    pub(crate) past: usize,
    // They and the span are the granules from `low` up to `high`.
    pub(crate) low: u32,
    pub(crate) high: u32,
    // How many granules of the span they hold.
    pub(crate) held: u32,
    pub(crate) ghost order: { at ≤ past },
    pub(crate) ghost some: { low < high },
}

impl Reach {
    ghost use Rattle.runs.specs.Reach.{merged, parted};
    ghost use Rattle.runs.specs.Lent.{items_of};

    // Puts one run in the place of those that are reached.
    pub(crate) fn merge(self, runs: &mut LentVec<'_, Run>)
        requires within { self.past ≤ runs.old.len }
        requires fits { length (merged (items_of runs.old) self) ≤ length runs.old.places.now }
        ensures runs { items_of runs.new ≡ merged (items_of runs.old) self }
        ensures count { runs.new.len ≡ length (merged (items_of runs.old) self) }
        ensures rest { drop runs.new.len runs.new.places.now ≡ drop runs.new.len runs.old.places.now }
    {
        runs.splice(self.at..self.past, &[Run::between(self.low, self.high)]);
    }

    // Takes a span out of the runs that it reaches.
    pub(crate) fn cut(self, runs: &mut LentVec<'_, Run>, span: Span)
        requires within { self.past ≤ runs.old.len }
        requires from { self.low ≤ span.first }
        requires to { span.end ≤ self.high }
        requires fits { length (parted (items_of runs.old) self span.first span.end) ≤ length runs.old.places.now }
        ensures runs { items_of runs.new ≡ parted (items_of runs.old) self span.first span.end }
        ensures count { runs.new.len ≡ length (parted (items_of runs.old) self span.first span.end) }
        ensures rest { drop runs.new.len runs.new.places.now ≡ drop runs.new.len runs.old.places.now }
    {
        let sides = [
            Run::between(self.low, span.first),
            Run::between(span.end, self.high),
        ];
        // A side without a granule is left out.
        let from = usize::from(self.low == span.first);
        let to = 1 + usize::from(span.end < self.high);
        runs.splice(self.at..self.past, &sides[from..to]);
    }
}
