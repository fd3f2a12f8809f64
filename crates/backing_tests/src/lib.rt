//! Tests of the backings at their edges.
#![tactic(auto)]

#[cfg(test)]
mod run_lists;

#[cfg(test)]
mod tests {
    use backing::{Backing, Limiter, MOST_GRANULES, Mask, Refusal, Stretch, enough};
    use std::process::Abort;
    use std::test::Fail;

    // A backing that keeps the bodies that the trait gives.
    #[derive(Drop)]
    struct Plain<B>(B);

    impl<B: Backing> Backing for Plain<B> {
        ghost means = { λ x. B.Backing.means x.0 };

        ghost sound = { λ x. B.Backing.sound x.0 };

        ghost Spare = { B.Backing.Spare };

        ghost spare = { λ x. B.Backing.spare x.0 };

        fn size(&self) -> u32 {
            self.0.size()
        }

        fn allowance(&self) -> u32 {
            self.0.allowance()
        }

        fn count(&self) -> u32 {
            self.0.count()
        }

        fn held(&self, granule: u32) -> bool {
            self.0.held(granule)
        }

        fn commit(&mut self, stretch: Stretch) -> Result<u32, Refusal> {
            self.0.commit(stretch)
        }

        fn release(&mut self, stretch: Stretch) -> Result<u32, Refusal> {
            self.0.release(stretch)
        }
    }

    pub(crate) const OUTSIDE: Result<u32, Refusal> = Err(Refusal::OutsideBacking);

    pub(crate) fn stretch(first: u32, count: u32) -> Stretch {
        Stretch { first, count }
    }

    #[test]
    fn one_granule(rt: HostRuntime) -> Result<(), Fail> {
        let mut bytes = [0xff];
        let mut mask = Mask::new(&mut bytes, 1)?;
        assert_eq!(rt; mask.held(0), false);
        assert_eq!(rt; mask.commit(stretch(0, 1)), Ok(1));
        assert_eq!(rt; mask.held(0), true);
        assert_eq!(rt; mask.held(1), false);
        assert_eq!(rt; mask.commit(stretch(1, 1)), OUTSIDE);
        assert_eq!(rt; mask.release(stretch(0, 1)), Ok(1));
        assert_eq!(rt; mask.count(), 0);
        Ok(())
    }

    #[test]
    fn most_granules(rt: HostRuntime) -> Result<(), Fail> {
        let mut bytes = [0; 128];
        let mut mask = Mask::new(&mut bytes, 1024)?;
        assert_eq!(rt; mask.commit(stretch(1023, 1)), Ok(1));
        assert_eq!(rt; mask.missing(stretch(0, 1024)), Ok(1023));
        assert_eq!(rt; mask.commit(stretch(0, 1024)), Ok(1023));
        assert_eq!(rt; mask.room(), 0);
        assert_eq!(rt; mask.commit(stretch(0, 1025)), OUTSIDE);
        assert_eq!(rt; mask.release(stretch(1, 1023)), Ok(1023));
        assert_eq!(rt; mask.held(0), true);
        Ok(())
    }

    #[test]
    fn sums_do_not_wrap(rt: HostRuntime) -> Result<(), Fail> {
        let mut bytes = [0; 1];
        let mut mask = Mask::new(&mut bytes, 8)?;
        assert_eq!(rt; mask.commit(stretch(u32::MAX, u32::MAX)), OUTSIDE);
        assert_eq!(rt; mask.commit(stretch(1, u32::MAX)), OUTSIDE);
        assert_eq!(rt; mask.release(stretch(u32::MAX, 1)), OUTSIDE);
        assert_eq!(rt; mask.missing(stretch(2, u32::MAX - 1)), OUTSIDE);
        assert_eq!(rt; mask.commit(stretch(3, 0)), OUTSIDE);
        assert_eq!(rt; mask.held(u32::MAX), false);
        assert_eq!(rt; mask.count(), 0);
        Ok(())
    }

    #[test]
    fn spare_bytes_stay(rt: HostRuntime) -> Result<(), Fail> {
        let mut bytes = [0xaa; 4];
        let mut mask = Mask::new(&mut bytes, 10)?;
        assert_eq!(rt; mask.commit(stretch(7, 3)), Ok(3));
        assert_eq!(rt; mask.commit(stretch(7, 4)), OUTSIDE);
        assert_eq!(rt; mask.release(stretch(8, 1)), Ok(1));
        let left: &[u8] = mask.into_bytes();
        assert_eq!(rt; left, [0x80, 0x02, 0xaa, 0xaa].as_slice());
        Ok(())
    }

    // Takes a mask by value, changes it and lets it go.
    fn spend(mut mask: Mask<'_>, committing: bool) -> u32 {
        if committing {
            let _ = mask.commit(stretch(2, 3));
        }
        mask.count()
    }

    #[test]
    fn masks_taken_by_value(rt: HostRuntime) -> Result<(), Fail> {
        let mut bytes = [0xff; 2];
        assert_eq!(rt; spend(Mask::new(&mut bytes, 12)?, true), 3);
        assert_eq!(rt; bytes, [0x1c, 0]);
        assert_eq!(rt; spend(Mask::new(&mut bytes, 12)?, false), 0);
        assert_eq!(rt; bytes, [0, 0]);
        Ok(())
    }

    // No mask of this size fits into two bytes. The run list has its own: a function over either's memory has no proof.
    fn leaves_two_bytes(rt: &impl Abort, size: u32) -> Result<(), Fail> {
        let mut bytes = [0xaa; 2];
        match Mask::new(&mut bytes, size) {
            Ok(_) => Err(Fail::new("made")),
            Err(refused) => {
                assert_eq!(rt; refused.why, Refusal::BadMaking);
                let back: &[u8] = refused.back;
                assert_eq!(rt; back, [0xaa, 0xaa].as_slice());
                Ok(())
            }
        }
    }

    #[test]
    fn refused_masks_leave_the_bytes(rt: HostRuntime) -> Result<(), Fail> {
        for size in [0, 17, 1024, 1025, u32::MAX] {
            leaves_two_bytes(&rt, size)?;
        }
        assert!(rt; Mask::new(&mut [0xaa; 2], 16).is_ok());
        Ok(())
    }

    #[test]
    fn bodies_of_the_trait(rt: HostRuntime) -> Result<(), Fail> {
        let mut bytes = [0; 3];
        let mut mask = Mask::new(&mut bytes, 20)?;
        assert_eq!(rt; mask.commit(stretch(5, 9)), Ok(9));
        let plain = Plain(mask);
        assert_eq!(rt; plain.missing(stretch(0, 20)), Ok(11));
        assert_eq!(rt; plain.missing(stretch(4, 3)), Ok(1));
        assert_eq!(rt; plain.missing(stretch(13, 8)), OUTSIDE);
        assert_eq!(rt; plain.missing(stretch(7, 0)), OUTSIDE);
        assert_eq!(rt; plain.room(), 11);
        Ok(())
    }

    #[test]
    fn limit_of_none(rt: HostRuntime) -> Result<(), Fail> {
        let mut bytes = [0; 1];
        let mask = Mask::new(&mut bytes, 8)?;
        let mut limiter = Limiter::new(mask, 0)?;
        let over = Refusal::OverAllowance { wanted: 1, left: 0 };
        assert_eq!(rt; limiter.commit(stretch(7, 1)), Err(over));
        assert_eq!(rt; limiter.release(stretch(0, 8)), Ok(0));
        assert_eq!(rt; limiter.into_below().commit(stretch(7, 1)), Ok(1));
        Ok(())
    }

    #[test]
    fn limit_below_the_count(rt: HostRuntime) -> Result<(), Fail> {
        let mut bytes = [0; 1];
        let mut mask = Mask::new(&mut bytes, 8)?;
        assert_eq!(rt; mask.commit(stretch(2, 3)), Ok(3));
        match Limiter::new(mask, 2) {
            Ok(_) => Err(Fail::new("made")),
            Err(refused) => {
                assert_eq!(rt; refused.why, Refusal::LimitBelowCount);
                assert_eq!(rt; refused.back.missing(stretch(0, 8)), Ok(5));
                Ok(())
            }
        }
    }

    #[test]
    fn refused_in_a_held_stretch(rt: HostRuntime) -> Result<(), Fail> {
        let mut bytes = [0; 2];
        let mut mask = Mask::new(&mut bytes, 12)?;
        assert_eq!(rt; mask.commit(stretch(3, 2)), Ok(2));
        let lower = Limiter::new(mask, 4)?;
        let mut upper = Limiter::new(lower, 9)?;
        assert_eq!(rt; upper.allowance(), 4);
        let over = Refusal::OverAllowance { wanted: 4, left: 2 };
        assert_eq!(rt; upper.commit(stretch(2, 6)), Err(over));
        assert_eq!(rt; upper.missing(stretch(2, 6)), Ok(4));
        assert_eq!(rt; upper.commit(stretch(4, 3)), Ok(2));
        assert_eq!(rt; upper.count(), 4);
        Ok(())
    }

    #[test]
    fn spans_of_stretches(rt: HostRuntime) -> Result<(), Fail> {
        let span = stretch(3, 4).within(7)?;
        assert_eq!(rt; span.first, 3);
        assert_eq!(rt; span.end, 7);
        assert_eq!(rt; span.count(), 4);
        assert_eq!(rt; stretch(3, 4).within(6).err(), OUTSIDE.err());
        assert_eq!(rt; stretch(0, 0).within(6).err(), OUTSIDE.err());
        Ok(())
    }

    #[test]
    fn memory_for_a_backing(rt: HostRuntime) {
        let mut places = [7; 200];
        assert!(rt; enough(&mut places, 1, 1).is_ok());
        assert!(rt; enough(&mut places, MOST_GRANULES, 200).is_ok());
        assert!(rt; enough(&mut places, MOST_GRANULES, 201).is_err());
        assert!(rt; enough(&mut places, MOST_GRANULES + 1, 128).is_err());
        assert!(rt; enough(&mut places, 0, 0).is_err());
    }

    #[test]
    fn refused_makings_by_their_reason(rt: HostRuntime) -> Result<(), Fail> {
        let mut bytes = [0; 1];
        let Err(refused) = Mask::new(&mut bytes, 9) else {
            return Err(Fail::new("made"));
        };
        assert_eq!(rt; refused.to_string(rt.alloc())?.as_str(), "no 6");
        assert_eq!(rt; Refusal::from(refused), Refusal::BadMaking);
        Ok(())
    }

    fn limited_to_ten() -> Result<u32, Refusal> {
        let mut bytes = [0; 8];
        let mask = Mask::new(&mut bytes, 64)?;
        let mut backing = Limiter::new(mask, 10)?;
        backing.commit(stretch(0, 8))?;
        backing.commit(stretch(20, 4))
    }

    #[test]
    fn refused_makings_become_refusals(rt: HostRuntime) {
        let over = Refusal::OverAllowance { wanted: 4, left: 2 };
        assert_eq!(rt; limited_to_ten(), Err(over));
    }

    #[test]
    fn refusals_in_writing(rt: HostRuntime) -> Result<(), Fail> {
        let over = Refusal::OverAllowance {
            wanted: 40,
            left: 7,
        };
        assert_eq!(rt; over.to_string(rt.alloc())?.as_str(), "no 21 40 7");
        let outside = Refusal::OutsideBacking;
        assert_eq!(rt; outside.to_string(rt.alloc())?.as_str(), "no 20");
        assert_eq!(rt; Refusal::BadMaking.number(), 6);
        assert_eq!(rt; Refusal::LimitBelowCount.number(), 5);
        Ok(())
    }
}
