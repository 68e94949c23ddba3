//! What is recovered of log files with void bodies.

use money::Cents;
use std::test::Fail;
use tests_log_files::{Recovery, declare, disks, outcome_of};

#[test]
fn void_bodies_in_both_files_leave_what_counted(rt: HostRuntime) -> Result<(), Fail> {
    let mut disks = disks(rt.alloc(), 1)?;
    let lengths = (declare(&mut disks, 0), declare(&mut disks, 1));
    assert_eq!(rt; lengths, (Ok(255), Ok(723)));
    let expected = Recovery {
        durable: 8,
        commits: 2,
    };
    assert_eq!(rt;
        outcome_of(rt.alloc(), &mut disks),
        Ok((expected, Some(Cents::new(20_200))))
    );
    Ok(())
}

#[test]
fn a_void_body_in_one_file_counts_for_both(rt: HostRuntime) -> Result<(), Fail> {
    let mut disks = disks(rt.alloc(), 1)?;
    assert_eq!(rt; declare(&mut disks, 0), Ok(255));
    let expected = Recovery {
        durable: 7,
        commits: 2,
    };
    assert_eq!(rt;
        outcome_of(rt.alloc(), &mut disks),
        Ok((expected, Some(Cents::new(20_200))))
    );
    Ok(())
}
