// A backing in bytes that the caller lends, one bit a granule.
ghost use Rattle.std.specs.Prelude.{ℕ, List};
ghost use Rattle.backing.specs.Bits.{MaskOk};
ghost use Rattle.backing.specs.Parts.{MaskParts};

use crate::bits;
use crate::interface::Backing;
use crate::makings::enough;
use crate::refusals::{Refusal, Refused};
use crate::stretches::{Span, Stretch};
use std::marker::Model;

#[derive(Debug, Drop)]
pub struct Mask<'a> {
    bytes: &'a mut [u8],
    size: u32,
    count: u32,
    pub ghost ok: { MaskOk bytes.now size count },
}

// A clause sees every field. It is for functions that take a mask by value, change it and let it go: by the ghost field alone they get no proof.
impl<'a> Model for Mask<'a> {
    ghost Value = { MaskParts };

    ghost view = { λ m. record { bytes = m.bytes; size = m.size; count = m.count; ok = m.ok } };
}

impl<'a> Mask<'a> {
    ghost use Rattle.std.specs.Prelude.{◌≡◌, ◌-◌, ◌≤◌, length, MatchResult};
    ghost use Rattle.backing.specs.Makings.{making, mask_making};
    ghost use Rattle.backing.specs.Masks.{mask_means, spare_bytes};
    ghost use Rattle.backing.specs.Meaning.{present};

    /// A mask of `size` granules, none committed, in the first of the bytes.
    pub fn new(bytes: &'a mut [u8], size: u32) -> Result<Mask<'a>, Refused<&'a mut [u8]>>
        ensures answer { making mask_means result ≡ mask_making size (length bytes.old) }
        ensures spares { MatchResult result (λ m. spare_bytes size m.bytes.now ≡ spare_bytes size bytes.old) (λ e. e.back.now ≡ bytes.old) }
    {
        let needed = size.div_ceil(8) as usize;
        let bytes = enough(bytes, size, needed)?;
        bytes[..needed].fill(0);
        Ok(Mask {
            bytes,
            size,
            count: 0,
        })
    }

    /// The bytes, as the mask leaves them.
    pub fn into_bytes(self) -> &'a mut [u8]
        ensures { result.now ≡ self.entry.bytes.now }
    {
        self.bytes
    }

    // How many granules of a span are committed.
    #[tactic(auto, using(crate::proofs::Marks::bits_present))]
    fn present(&self, span: Span) -> u32
        requires { span.end ≤ self.now.size }
        ensures { result ≡ present (mask_means self.now) span.first (span.end - span.first) }
    {
        bits::count_set(self.bytes, span)
    }
}

impl Backing for Mask<'_> {
    ghost use Rattle.backing.specs.Masks.{mask_means, spare_bytes};
    ghost use Rattle.backing.specs.Soundness.{mask_sound};

    ghost means = { mask_means };

    ghost sound = { mask_sound };

    ghost Spare = { List ℕ };

    ghost spare = { λ m. spare_bytes m.size m.bytes.now };

    fn size(&self) -> u32 {
        self.size
    }

    fn allowance(&self) -> u32 {
        self.size
    }

    fn count(&self) -> u32 {
        self.count
    }

    fn held(&self, granule: u32) -> bool {
        granule < self.size && bits::is_set(self.bytes, granule)
    }

    #[tactic(auto, using(crate::specs::Soundness::tally_le), unfolding(crate::specs::Meaning::commit_after, crate::specs::Replies::commit_reply))]
    fn commit(&mut self, stretch: Stretch) -> Result<u32, Refusal> {
        let span = stretch.within(self.size)?;
        let added = span.count() - self.present(span);
        bits::set(self.bytes, span);
        self.count += added;
        Ok(added)
    }

    #[tactic(auto, using(crate::specs::Soundness::tally_le), unfolding(crate::specs::Meaning::release_after, crate::specs::Replies::release_reply))]
    fn release(&mut self, stretch: Stretch) -> Result<u32, Refusal> {
        let span = stretch.within(self.size)?;
        let removed = self.present(span);
        bits::clear(self.bytes, span);
        self.count -= removed;
        Ok(removed)
    }

    #[tactic(auto, using(crate::specs::Soundness::tally_le, crate::proofs::Tallies::tally_both), unfolding(crate::specs::Replies::missing_reply))]
    fn missing(&self, stretch: Stretch) -> Result<u32, Refusal> {
        let span = stretch.within(self.size)?;
        Ok(span.count() - self.present(span))
    }
}
