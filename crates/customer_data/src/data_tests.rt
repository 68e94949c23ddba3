//! Worked rows: the words of a text of 300 letters, and the texts of one Payment and of twelve put at the left of it.

use crate::{
    CustomerData, DATA_WORDS, DataBytes, DataWords, MAX_DATA, MIN_DATA, PaymentText, data_after,
    text_of, unpack, words_of,
};
use money::Cents;
use std::alloc::{AllocError, Global};
use std::rt::HostRuntime;
use std::test::Fail;

/// What a Payment of 12.34 puts at the left: its customer, whose district and warehouse, its own, and the amount.
const PAYMENT: &[u8; 17] = b"10 1 1 1 1 12.34|";

#[test]
fn a_first_text_has_300_letters(rt: HostRuntime) -> Result<(), Fail> {
    let first = CustomerData::first(rt.alloc());
    assert_eq!(rt; first.len(), MIN_DATA);
    let copy = first.clone()?.to_string(rt.alloc())?;
    assert!(rt; copy.as_bytes() == &[b'x'; MIN_DATA][..]);
    Ok(())
}

#[test]
fn words_of_300_letters(rt: HostRuntime) {
    let mut expected = [0x7878_7878_7878_7878; DATA_WORDS];
    expected[0] = 0x7878_7878_7878_012c;
    expected[37] = 0x0000_7878_7878_7878;
    expected[38..].fill(0);
    assert!(rt; words_of(&[b'x'; MIN_DATA]) == expected);
}

/// The words of 300 letters after so many such Payments.
fn words_after(alloc: Global, turns: usize) -> Result<DataWords, AllocError> {
    let payment = PaymentText {
        customer: 10,
        customer_district: 1,
        customer_warehouse: 1,
        district: 1,
        warehouse: 1,
        amount: Cents::new(1_234),
    };
    let mut words = words_of(&[b'x'; MIN_DATA]);
    for _ in 0..turns {
        words = data_after(alloc, &words, &payment)?;
    }
    Ok(words)
}

#[test]
fn one_payment_at_the_left(rt: HostRuntime) -> Result<(), Fail> {
    let mut expected = [b'x'; 317];
    expected[..17].copy_from_slice(PAYMENT);
    let bytes: DataBytes = unpack(&words_after(rt.alloc(), 1)?);
    assert!(rt; text_of(&bytes) == &expected[..]);
    Ok(())
}

#[test]
fn twelve_payments_at_the_left(rt: HostRuntime) -> Result<(), Fail> {
    let mut expected = [b'x'; MAX_DATA];
    for turn in 0..12 {
        expected[17 * turn..17 * turn + 17].copy_from_slice(PAYMENT);
    }
    let bytes: DataBytes = unpack(&words_after(rt.alloc(), 12)?);
    assert!(rt; text_of(&bytes) == &expected[..]);
    Ok(())
}

/// The same of a Payment of 0.05 whose numbers all differ.
const NUMBERS: &[u8; 15] = b"7 2 3 4 5 0.05|";

#[test]
fn numbers_stand_in_their_order(rt: HostRuntime) -> Result<(), Fail> {
    let payment = PaymentText {
        customer: 7,
        customer_district: 2,
        customer_warehouse: 3,
        district: 4,
        warehouse: 5,
        amount: Cents::new(5),
    };
    let words = data_after(rt.alloc(), &words_of(&[b'x'; MIN_DATA]), &payment)?;
    let bytes: DataBytes = unpack(&words);
    assert!(rt; text_of(&bytes).starts_with(&NUMBERS[..]));
    Ok(())
}

#[test]
fn a_text_of_its_words(rt: HostRuntime) -> Result<(), Fail> {
    let words = words_after(rt.alloc(), 1)?;
    let text = CustomerData::of_words(rt.alloc(), &words)?;
    assert_eq!(rt; text.len(), 317);
    assert!(rt; text.words() == words);
    Ok(())
}
