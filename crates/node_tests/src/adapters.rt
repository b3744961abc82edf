//! The clock of this machine, and programs that are started as children.
use node_links::{ChildSpawner, Clock, Spawner, SystemClock};
use std::test::*;
use xt_base::Words;

/// 2020 began so many milliseconds after 1970.
const IN_2020: u64 = 1_577_836_800_000;

#[test]
fn the_clock_of_this_machine_moves(rt: HostRuntime) {
    let mut clock = SystemClock::new(&rt);
    let first = clock.now().unwrap_or(0);
    assert!(rt; first > IN_2020);
    let mut later = first;
    // A reading takes far less than a millisecond.
    for _turn in 0..50_000_000 {
        if later != first {
            break;
        }
        later = clock.now().unwrap_or(0);
    }
    assert!(rt; later > first);
    assert_eq!(rt; clock.faults(), 0);
}

#[test]
fn a_child_ends_and_another_is_stopped(rt: HostRuntime) -> Result<(), Fail> {
    let alloc = rt.alloc();
    let program = format!(in alloc; "/bin/sleep")?;
    let mut spawner = ChildSpawner::new(alloc, &rt, program);
    let mut short = Words::new(alloc);
    short.push(alloc, "0")?;
    let mut long = Words::new(alloc);
    long.push(alloc, "30")?;
    assert_eq!(rt; spawner.spawn(&short).ok(), Some(1));
    assert_eq!(rt; spawner.spawn(&long).ok(), Some(2));
    assert_eq!(rt; spawner.wait(1).ok(), Some(0));
    assert!(rt; spawner.stop(2).is_ok());
    assert_eq!(rt; spawner.wait(2).ok(), Some(-1));
    assert_eq!(rt; spawner.faults(), 0);
    assert!(rt; spawner.wait(3).is_err());
    assert_eq!(rt; spawner.faults(), 1);
    Ok(())
}
