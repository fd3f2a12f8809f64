// A vector in places that the caller lends, changed in place.
ghost use Rattle.std.specs.Prelude.{◌≡◌, ◌+◌, ◌-◌, ◌≤◌, length, drop};
ghost use Rattle.std.proofs.Math.Seq.{paste};

use std::ops::Range;

#[derive(Debug, Drop)]
pub(crate) struct LentVec<'a, T> {
    pub(crate) places: &'a mut [T],
    // How many places hold an item.
    pub(crate) len: usize,
    ghost used: { len ≤ length places.now },
}

impl<'a, T: Copy + Drop> LentVec<'a, T> {
    ghost use Rattle.runs.specs.Rows.{spliced};
    ghost use Rattle.runs.specs.Lent.{items_of};

    // No item, in these places.
    pub(crate) fn new(places: &'a mut [T]) -> LentVec<'a, T>
        ensures len { result.len ≡ 0 }
        ensures places { result.places.now ≡ places.old }
    {
        LentVec { places, len: 0 }
    }

    // The places, as the vector leaves them.
    pub(crate) fn into_places(self) -> &'a mut [T]
        ensures { result.now ≡ self.entry.places.now }
    {
        self.places
    }

    pub(crate) fn as_slice(&self) -> &[T]
        ensures { result.now ≡ items_of self.now }
    {
        &self.places[..self.len]
    }

    // Puts `new` in the place of the items of a range.
    pub(crate) fn splice(&mut self, range: Range<usize>, new: &[T])
        requires order { range.start ≤ range.end }
        requires within { range.end ≤ self.old.len }
        requires fits { range.start + length new.now + (self.old.len - range.end) ≤ length self.old.places.now }
        ensures len { self.new.len ≡ range.start + length new.now + (self.old.len - range.end) }
        ensures items { items_of self.new ≡ spliced (items_of self.old) range.start range.end new.now }
        ensures rest { drop self.new.len self.new.places.now ≡ drop self.new.len self.old.places.now }
    {
        let to = range.start + new.len();
        let len = to + (self.len - range.end);
        shift(self.places, range.end..self.len, to);
        put(self.places, range.start, new);
        self.len = len;
    }
}

// Moves the items of a range to the place `to`, unless they stand there.
#[tactic(auto, using(crate::proofs::Splices::shifted_none))]
fn shift<T: Copy>(places: &mut [T], range: Range<usize>, to: usize)
    requires order { range.start ≤ range.end }
    requires used { range.end ≤ length places.old }
    requires fits { to + (range.end - range.start) ≤ length places.old }
    ensures { places.new ≡ paste places.old to (drop range.start places.old) (range.end - range.start) }
{
    // Copied onto itself, a long tail takes as long as moved.
    if to != range.start {
        places.copy_within(range, to);
    }
}

// Writes items from the place `at` on.
fn put<T: Copy>(places: &mut [T], at: usize, new: &[T])
    requires { at + length new.now ≤ length places.old }
    ensures { places.new ≡ paste places.old at new.now (length new.now) }
{
    places[at..at + new.len()].copy_from_slice(new);
}
