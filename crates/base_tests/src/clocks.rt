// The readings of each clock, up to the greatest.
use aq_clock::{Clock, ListClock, StepClock, SystemClock};
use std::alloc::{AllocError, Global};

fn reads<C: Clock>(clock: &mut C, wanted: &[u64]) -> bool {
    for reading in wanted {
        if clock.now() != *reading {
            return false;
        }
    }
    true
}

fn is_listed(alloc: Global) -> Result<bool, AllocError> {
    let mut clock = ListClock::of([18_446_744_073_709_551_614].to_vec(alloc)?);
    let greatest = 18_446_744_073_709_551_615;
    Ok(reads(
        &mut clock,
        &[18_446_744_073_709_551_614, greatest, greatest],
    ))
}

fn is_stepped() -> bool {
    let mut clock = StepClock::from(4_611_686_018_427_387_902);
    let greatest = 4_611_686_018_427_387_904;
    reads(&mut clock, &[4_611_686_018_427_387_903, greatest, greatest])
}

#[test]
fn clocks_are_read(rt: HostRuntime) -> Result<(), AllocError> {
    assert!(rt; is_listed(rt.alloc())?);
    assert!(rt; is_stepped());
    Ok(())
}

#[test]
fn the_machine_reads_this_century(rt: HostRuntime) -> Result<(), AllocError> {
    let reading = SystemClock::new(rt.clone()?).now();
    assert!(rt; 1_700_000_000 < reading && reading < 4_100_000_000);
    Ok(())
}
