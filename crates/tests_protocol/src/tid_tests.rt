//! TIDs at the ends of an epoch.

use money::{NO_PAYLOAD, Refusal};
use std::rt::HostRuntime;
use std::test::Fail;
use tidword::{Status, TidWord, next_tid};

const NO_BITS: Status = Status {
    latest: false,
    absent: false,
    locked: false,
};

/// The epoch and the sequence of the TID that a commit takes, and its word.
fn taken(seen: TidWord, last: TidWord, epoch: u32) -> Result<(u32, u32, u64), Refusal> {
    let tid = next_tid(seen, last, epoch)?;
    Ok((tid.epoch(), tid.sequence(), tid.word()))
}

#[test]
fn the_next_sequence_or_the_first_of_an_epoch(rt: HostRuntime) -> Result<(), Fail> {
    let (seen, last) = (TidWord::pack(3, 7, NO_BITS), TidWord::pack(3, 9, NO_BITS));
    assert_eq!(rt; taken(seen, last, 3), Ok((3, 10, 12_884_901_968)));
    assert_eq!(rt; taken(last, seen, 3), Ok((3, 10, 12_884_901_968)));
    assert_eq!(rt; taken(seen, last, 4), Ok((4, 0, 17_179_869_184)));
    Ok(())
}

/// The word of the latest version by the third commit of epoch 1.
#[test]
fn the_word_of_an_epoch_and_a_sequence(rt: HostRuntime) {
    let latest = Status {
        latest: true,
        ..NO_BITS
    };
    assert_eq!(rt; TidWord::pack(1, 2, latest).word(), 4_294_967_314);
}

#[test]
fn no_tid_is_left(rt: HostRuntime) -> Result<(), Fail> {
    let none = TidWord::new(0);
    let full = TidWord::pack(3, 536_870_911, NO_BITS);
    let almost = TidWord::pack(3, 536_870_910, NO_BITS);
    assert_eq!(rt; taken(full, none, 3), Err(Refusal::EpochFull));
    assert_eq!(rt; taken(none, full, 3), Err(Refusal::EpochFull));
    assert_eq!(rt; taken(almost, none, 3), Ok((3, 536_870_911, full.word())));
    assert_eq!(rt; taken(full, none, 4), Ok((4, 0, 17_179_869_184)));
    assert_eq!(rt;
        taken(TidWord::new(u64::MAX), none, u32::MAX),
        Err(Refusal::EpochFull)
    );
    Ok(())
}

#[test]
fn status_bits_do_not_count(rt: HostRuntime) -> Result<(), Fail> {
    let stored = TidWord::pack(3, 7, NO_BITS).installed(&None);
    assert!(rt; stored.is_latest() && stored.is_absent() && !stored.is_locked());
    assert_eq!(rt;
        taken(stored, TidWord::new(0), 3),
        Ok((3, 8, 12_884_901_952))
    );
    assert_eq!(rt;
        stored.tid().installed(&Some(NO_PAYLOAD)).word(),
        12_884_901_946
    );
    Ok(())
}
