//! What C_DATA is that files of both versions recover to.

use customer_data::{DataWords, words_of};
use money::{Cents, Refusal};
use recover::recover;
use std::alloc::{AllocError, Global};
use std::test::Fail;
use tables::{CustomerKey, Tables};
use tests_log_files::{one_disk, small, unwatched};
use tests_log_vectors::{FIRST, PAID_TEXT, PAYMENT, first_of_version_1, payment_with_text};

/// The file of this header, with this body alone.
fn file(alloc: Global, header: &[u8], body: &[u8]) -> Result<Vec<u8>, AllocError> {
    let mut file = Vec::new(alloc);
    file.extend_from_slice(header)?;
    file.push(1)?;
    file.extend_from_slice(body)?;
    file.push(0)?;
    Ok(file)
}

/// The tables that it recovers to.
fn tables_of(alloc: Global, file: &[u8]) -> Result<Tables, Refusal> {
    let population = small(alloc)?;
    let mut disks = one_disk(alloc, file)?;
    let found = recover(alloc, &population, &mut disks, &unwatched(alloc))?;
    Ok(found.tables)
}

/// The words of a customer's text.
fn text_words(tables: &Tables, district: u32, customer: u32) -> Option<DataWords> {
    let key = CustomerKey {
        warehouse: 1,
        district,
        customer,
    };
    Some(tables.texts.get(&key)?.words())
}

/// How many customers have the text that each begins with.
fn first_texts(tables: &Tables) -> usize {
    let first = words_of(&[b'x'; 300]);
    let mut count = 0usize;
    for district in 1..3 {
        for customer in 1..11 {
            if text_words(tables, district, customer) == Some(first) {
                count = count.saturating_add(1);
            }
        }
    }
    count
}

#[test]
fn a_file_of_version_1_leaves_the_populations_texts(rt: HostRuntime) -> Result<(), Fail> {
    let file = file(rt.alloc(), &first_of_version_1(), &PAYMENT)?;
    assert_eq!(rt; file.len(), 222);
    let tables = tables_of(rt.alloc(), &file)?;
    let paid = tables.warehouses.get(&1).map(|row| row.year_to_date);
    assert_eq!(rt; paid, Some(Cents::new(21_234)));
    assert_eq!(rt; first_texts(&tables), 20);
    Ok(())
}

/// The words of the text that the Payment leaves.
fn paid_words() -> DataWords {
    let mut text = [b'x'; 317];
    text[..17].copy_from_slice(&PAID_TEXT);
    words_of(&text)
}

#[test]
fn a_text_comes_back(rt: HostRuntime) -> Result<(), Fail> {
    let file = file(rt.alloc(), &FIRST, &payment_with_text(rt.alloc())?)?;
    let tables = tables_of(rt.alloc(), &file)?;
    assert!(rt; text_words(&tables, 1, 10) == Some(paid_words()));
    assert_eq!(rt; first_texts(&tables), 19);
    Ok(())
}
