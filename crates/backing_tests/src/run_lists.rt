// Tests of the run list: runs that join, split and end at the edges.
use crate::tests::{OUTSIDE, stretch};
use backing::{Backing, Limiter, Refusal};
use runs::{Run, RunList};
use std::process::Abort;
use std::test::Fail;

const UNUSED: Run = Run { first: 9, count: 7 };

fn run(first: u32, count: u32) -> Run {
    Run { first, count }
}

#[test]
fn split_into_the_last_record(rt: HostRuntime) -> Result<(), Fail> {
    let mut records = [UNUSED; 4];
    let mut list = RunList::new(&mut records, 7)?;
    assert_eq!(rt; list.commit(stretch(0, 7)), Ok(7));
    assert_eq!(rt; list.release(stretch(3, 1)), Ok(1));
    assert_eq!(rt; list.release(stretch(5, 1)), Ok(1));
    assert_eq!(rt; list.release(stretch(1, 1)), Ok(1));
    assert_eq!(rt;
        list.runs(),
        [run(0, 1), run(2, 1), run(4, 1), run(6, 1)].as_slice()
    );
    assert_eq!(rt; list.count(), 4);
    Ok(())
}

#[test]
fn full_records(rt: HostRuntime) -> Result<(), Fail> {
    let mut records = [UNUSED; 3];
    let mut list = RunList::new(&mut records, 6)?;
    assert_eq!(rt; list.commit(stretch(4, 2)), Ok(2));
    assert_eq!(rt; list.commit(stretch(0, 1)), Ok(1));
    assert_eq!(rt; list.commit(stretch(2, 1)), Ok(1));
    assert_eq!(rt; list.release(stretch(4, 1)), Ok(1));
    assert_eq!(rt; list.runs(), [run(0, 1), run(2, 1), run(5, 1)].as_slice());
    assert_eq!(rt; list.commit(stretch(3, 2)), Ok(2));
    assert_eq!(rt; list.runs(), [run(0, 1), run(2, 4)].as_slice());
    Ok(())
}

#[test]
fn joined_with_both_neighbours(rt: HostRuntime) -> Result<(), Fail> {
    let mut records = [UNUSED; 5];
    let mut list = RunList::new(&mut records, 10)?;
    assert_eq!(rt; list.commit(stretch(1, 2)), Ok(2));
    assert_eq!(rt; list.commit(stretch(5, 2)), Ok(2));
    assert_eq!(rt; list.commit(stretch(8, 1)), Ok(1));
    assert_eq!(rt; list.commit(stretch(3, 2)), Ok(2));
    assert_eq!(rt; list.runs(), [run(1, 6), run(8, 1)].as_slice());
    assert_eq!(rt; list.missing(stretch(0, 10)), Ok(3));
    assert_eq!(rt; list.commit(stretch(2, 3)), Ok(0));
    assert_eq!(rt; list.runs(), [run(1, 6), run(8, 1)].as_slice());
    Ok(())
}

#[test]
fn one_commit_over_many_runs(rt: HostRuntime) -> Result<(), Fail> {
    let mut records = [UNUSED; 10];
    let mut list = RunList::new(&mut records, 20)?;
    for k in 0..6 {
        assert_eq!(rt; list.commit(stretch(3 * k, 2)), Ok(2));
    }
    assert_eq!(rt; list.commit(stretch(4, 9)), Ok(3));
    assert_eq!(rt; list.runs(), [run(0, 2), run(3, 11), run(15, 2)].as_slice());
    assert_eq!(rt; list.release(stretch(1, 15)), Ok(13));
    assert_eq!(rt; list.runs(), [run(0, 1), run(16, 1)].as_slice());
    Ok(())
}

#[test]
fn every_second_granule(rt: HostRuntime) -> Result<(), Fail> {
    let mut records = [UNUSED; 512];
    let mut list = RunList::new(&mut records, 1024)?;
    for k in 0..512 {
        assert_eq!(rt; list.commit(stretch(2 * k, 1)), Ok(1));
    }
    assert_eq!(rt; list.runs().len(), 512);
    assert_eq!(rt; list.held(1022), true);
    assert_eq!(rt; list.held(1023), false);
    assert_eq!(rt; list.commit(stretch(0, 1024)), Ok(512));
    assert_eq!(rt; list.runs(), [run(0, 1024)].as_slice());
    assert_eq!(rt; list.release(stretch(0, 1024)), Ok(1024));
    assert_eq!(rt; list.runs(), [].as_slice());
    Ok(())
}

#[test]
fn first_and_last(rt: HostRuntime) -> Result<(), Fail> {
    let mut records = [UNUSED; 512];
    let mut list = RunList::new(&mut records, 1024)?;
    assert_eq!(rt; list.commit(stretch(1023, 1)), Ok(1));
    assert_eq!(rt; list.commit(stretch(0, 1)), Ok(1));
    assert_eq!(rt; list.runs(), [run(0, 1), run(1023, 1)].as_slice());
    assert_eq!(rt; list.held(1024), false);
    assert_eq!(rt; list.commit(stretch(1023, 2)), OUTSIDE);
    assert_eq!(rt; list.commit(stretch(u32::MAX, u32::MAX)), OUTSIDE);
    assert_eq!(rt; list.release(stretch(0, 0)), OUTSIDE);
    assert_eq!(rt; list.release(stretch(0, 1)), Ok(1));
    assert_eq!(rt; list.release(stretch(1, 1023)), Ok(1));
    assert_eq!(rt; list.count(), 0);
    Ok(())
}

#[test]
fn spare_records_stay(rt: HostRuntime) -> Result<(), Fail> {
    let mut records = [UNUSED; 4];
    let mut list = RunList::new(&mut records, 3)?;
    assert_eq!(rt; list.commit(stretch(0, 1)), Ok(1));
    assert_eq!(rt; list.commit(stretch(2, 1)), Ok(1));
    let left: &[Run] = list.into_records();
    assert_eq!(rt; left, [run(0, 1), run(2, 1), UNUSED, UNUSED].as_slice());
    Ok(())
}

// Takes a run list by value, changes it in a loop and lets it go.
fn spend_in_a_loop(mut list: RunList<'_>, times: u32) -> usize {
    for _ in 0..times {
        let _ = list.commit(stretch(1, 2));
        let _ = list.commit(stretch(5, 1));
    }
    list.runs().len()
}

// Takes the records back on one way out, and lets the list go on the other.
fn taken_back(mut list: RunList<'_>, wanted: bool) -> Option<&mut [Run]> {
    let _ = list.commit(stretch(4, 2));
    if wanted {
        return Some(list.into_records());
    }
    None
}

#[test]
fn lists_taken_by_value(rt: HostRuntime) -> Result<(), Fail> {
    let mut records = [UNUSED; 3];
    assert_eq!(rt; spend_in_a_loop(RunList::new(&mut records, 6)?, 2), 2);
    assert_eq!(rt; spend_in_a_loop(RunList::new(&mut records, 6)?, 0), 0);
    assert!(rt; taken_back(RunList::new(&mut records, 6)?, false).is_none());
    let Some(back) = taken_back(RunList::new(&mut records, 6)?, true) else {
        return Err(Fail::new("let go"));
    };
    assert_eq!(rt; back.first(), Some(&run(4, 2)));
    Ok(())
}

// No run list of this size fits into two records.
fn leaves_two_records(rt: &impl Abort, size: u32) -> Result<(), Fail> {
    let mut records = [UNUSED; 2];
    match RunList::new(&mut records, size) {
        Ok(_) => Err(Fail::new("made")),
        Err(refused) => {
            assert_eq!(rt; refused.why, Refusal::BadMaking);
            let back: &[Run] = refused.back;
            assert_eq!(rt; back, [UNUSED, UNUSED].as_slice());
            Ok(())
        }
    }
}

#[test]
fn refused_lists_leave_the_records(rt: HostRuntime) -> Result<(), Fail> {
    for size in [0, 5, 1024, 1025, u32::MAX] {
        leaves_two_records(&rt, size)?;
    }
    assert!(rt; RunList::new(&mut [UNUSED; 2], 4).is_ok());
    Ok(())
}

#[test]
fn under_a_limiter(rt: HostRuntime) -> Result<(), Fail> {
    let mut records = [UNUSED; 4];
    let list = RunList::new(&mut records, 8)?;
    let mut limiter = Limiter::new(list, 3)?;
    assert_eq!(rt; limiter.commit(stretch(2, 2)), Ok(2));
    let over = Refusal::OverAllowance { wanted: 2, left: 1 };
    assert_eq!(rt; limiter.commit(stretch(1, 4)), Err(over));
    assert_eq!(rt; limiter.into_below().runs(), [run(2, 2)].as_slice());
    Ok(())
}
