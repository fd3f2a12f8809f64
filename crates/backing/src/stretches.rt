// Stretches of granules, as they are asked for and as they lie in a backing.
ghost use Rattle.std.specs.Prelude.{◌≡◌, ◌+◌, ◌<◌, IfOk};

use crate::refusals::Refusal;

/// The granules that a caller asks for: `count` of them, from `first` on.
#[derive(Clone, Copy, Debug, PartialEq, Eq)]
pub struct Stretch {
    pub first: u32,
    pub count: u32,
}

/// The granules from `first` up to `end`: one or more.
#[derive(Clone, Copy, Debug, PartialEq, Eq)]
pub struct Span {
    pub first: u32,
    pub end: u32,
    pub ghost some: { first < end },
}

impl Stretch {
    ghost use Rattle.backing.specs.Replies.{span_end, stretch_end};

    /// The granules of a stretch, where it has some and none lies past the last of a backing of this size.
    pub fn within(self, size: u32) -> Result<Span, Refusal>
        ensures end { span_end result ≡ stretch_end size self.first self.count }
        ensures first { IfOk result (λ span. span.first ≡ self.first) }
    {
        let first = self.first;
        match first.checked_add(self.count) {
            Some(end) if self.count > 0 && end <= size => Ok(Span { first, end }),
            _ => Err(Refusal::OutsideBacking),
        }
    }
}

impl Span {
    /// How many granules there are.
    pub fn count(self) -> u32
        ensures { result + self.first ≡ self.end }
    {
        self.end - self.first
    }
}
