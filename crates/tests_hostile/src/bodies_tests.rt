//! Bodies behind an open gate that break one rule.

use crate::stated::{DAMAGED, Refused, Stated, Written, file_of, refusals_of};
use money::Refusal;
use std::test::Fail;

/// W_YTD of warehouse 1.
const WAREHOUSE: Written = Written {
    table: 1,
    place: 0,
    kind: 1,
    columns: [20_000, 0, 0, 0],
    count: 1,
};

/// The stock of item 1, with S_QUANTITY 10.
const STOCK: Written = Written {
    table: 9,
    columns: [10, 0, 0, 0],
    count: 4,
    ..WAREHOUSE
};

/// A record that is absent.
const ABSENT: Written = Written {
    table: 5,
    place: 0,
    kind: 0,
    columns: [0; 4],
    count: 0,
};

/// Commit 1 of terminal 0, in epoch 1.
const FIRST: Stated = Stated {
    length: None,
    mark: 1,
    number: 1,
    tid: 1 << 32,
    terminal: 0,
    write: WAREHOUSE,
    is_twice: false,
    next: None,
};

/// A file that `scan` reads, and what `recover` says of it.
fn read(recover: Option<Refusal>) -> Refused {
    Refused {
        scan: None,
        recover,
    }
}

#[test]
fn bodies_that_keep_each_rule_are_read(rt: HostRuntime) -> Result<(), Fail> {
    let whole = Stated {
        length: Some(43),
        ..FIRST
    };
    let stock = Stated {
        write: STOCK,
        ..FIRST
    };
    let absent = Stated {
        write: ABSENT,
        ..FIRST
    };
    let last_terminal = Stated {
        terminal: 15,
        ..FIRST
    };
    let next = Stated {
        next: Some(1),
        ..FIRST
    };
    for stated in [FIRST, whole, stock, absent, last_terminal, next] {
        let bytes = file_of(rt.alloc(), stated)?;
        assert_eq!(rt; refusals_of(rt.alloc(), &bytes), Ok(read(None)));
    }
    // Commits 1 to 999 are missing.
    let last_number = Stated {
        number: 1_000,
        ..FIRST
    };
    let bytes = file_of(rt.alloc(), last_number)?;
    let gap = read(Some(Refusal::Gap));
    assert_eq!(rt; refusals_of(rt.alloc(), &bytes), Ok(gap));
    Ok(())
}

#[test]
fn lengths_that_no_bytes_have_are_damage(rt: HostRuntime) -> Result<(), Fail> {
    for length in [8, 42, 44, u64::MAX] {
        let stated = Stated {
            length: Some(length),
            ..FIRST
        };
        let bytes = file_of(rt.alloc(), stated)?;
        assert_eq!(rt; refusals_of(rt.alloc(), &bytes), Ok(DAMAGED));
    }
    Ok(())
}

#[test]
fn fronts_that_break_a_rule_are_damage(rt: HostRuntime) -> Result<(), Fail> {
    let status_bit = Stated {
        tid: (1 << 32) + 2,
        ..FIRST
    };
    let terminal = Stated {
        terminal: 16,
        ..FIRST
    };
    let number = Stated {
        number: 1_001,
        ..FIRST
    };
    // Behind a body of mark 2.
    let mark = Stated {
        mark: 2,
        next: Some(1),
        ..FIRST
    };
    for stated in [status_bit, terminal, number, mark] {
        let bytes = file_of(rt.alloc(), stated)?;
        assert_eq!(rt; refusals_of(rt.alloc(), &bytes), Ok(DAMAGED));
    }
    Ok(())
}

#[test]
fn writes_that_break_a_rule_are_damage(rt: HostRuntime) -> Result<(), Fail> {
    let twice = Stated {
        is_twice: true,
        ..FIRST
    };
    let bytes = file_of(rt.alloc(), twice)?;
    assert_eq!(rt; refusals_of(rt.alloc(), &bytes), Ok(DAMAGED));
    let quantity = Written {
        columns: [9, 0, 0, 0],
        ..STOCK
    };
    let item = Written { table: 8, ..STOCK };
    // No ORDER row is ever taken away.
    let order = Written { table: 6, ..ABSENT };
    for write in [quantity, item, order] {
        let bytes = file_of(rt.alloc(), Stated { write, ..FIRST })?;
        assert_eq!(rt; refusals_of(rt.alloc(), &bytes), Ok(DAMAGED));
    }
    Ok(())
}
