//! What the records of the plain population begin with.

use cells::Newest;
use encoding::first_versions;
use money::{NO_PAYLOAD, Payload};
use population::Population;
use std::test::Fail;
use tables::Scale;
use tidword::TidWord;

const ABSENT: Newest = Newest {
    word: TidWord::ABSENT,
    payload: NO_PAYLOAD,
};

fn present(payload: Payload) -> Newest {
    Newest {
        word: TidWord::POPULATED,
        payload,
    }
}

#[test]
fn newest_of_plain(rt: HostRuntime) -> Result<(), Fail> {
    let scale = Scale::new(1, 2, 10, 20, 30, 1_000)?;
    let population = Population::plain(rt.alloc(), scale)?;
    let versions = first_versions(rt.alloc(), population.tables())?;
    assert_eq!(rt; versions.len(), 1_085);
    // The numbers are those of the warehouse, and, in district 2, of the district, customer 3, orders 7 and 8 of
    // NEW-ORDER, orders 7, 10 and 11, lines 5 and 6 of order 8, the stock of item 20, OLDEST, and LAST of
    // customer 3.
    let wanted = [
        (0, present([20_000, 0, 0, 0, 0, 0, 0])),
        (2, present([10_000, 11, 0, 0, 0, 0, 0])),
        (15, present([u64::MAX - 999, 1_000, 1, 0, 0, 0, 0])),
        (59, ABSENT),
        (60, present(NO_PAYLOAD)),
        (119, present([7, 1, 1, 5, 1, 0, 0])),
        (122, present([10, 1, 0, 5, 1, 0, 0])),
        (123, ABSENT),
        (702, present([5, 1, 0, 5, 500, 0, 0])),
        (703, ABSENT),
        (1_062, present([50, 0, 0, 0, 0, 0, 0])),
        (1_064, present([8, 0, 0, 0, 0, 0, 0])),
        (1_077, present([3, 0, 0, 0, 0, 0, 0])),
    ];
    for (number, first) in wanted {
        assert!(rt; number < versions.len());
        assert_eq!(rt; versions.get(number), first, "{number}");
    }
    Ok(())
}
