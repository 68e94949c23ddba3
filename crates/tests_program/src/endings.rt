//! Exit statuses, and the lines of refusals.

use conditions::Report;
use money::Refusal;
use program::finish;
use std::test::Fail;
use tables::Scale;

#[test]
fn statuses_and_lines(rt: HostRuntime) -> Result<(), Fail> {
    let good = Report::default();
    let mut broken = good;
    broken.condition_8 = Some(1);
    let few_orders = Scale::new(1, 2, 10, 20, 9, 1_000).map(|_| &good);
    let outcomes = [
        (Ok(&good), 0, ""),
        (Ok(&broken), 1, ""),
        (few_orders, 2, "13 BadScale\n"),
        (Err(Refusal::Device), 1, "9 Device\n"),
        (Err(Refusal::OutOfMemory), 1, "1 OutOfMemory\n"),
    ];
    for (outcome, status, line) in outcomes {
        let mut errors = Vec::new(rt.alloc());
        assert_eq!(rt; finish(outcome, &mut errors), status, "on {line:?}");
        assert_eq!(rt; errors.as_slice(), line.as_bytes());
    }
    Ok(())
}
