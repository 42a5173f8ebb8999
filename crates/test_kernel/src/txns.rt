// Records of transactions.
use std::alloc::Global;
use std::test::Fail;
use txn_table::{TxnFull, TxnTable};

/// What a transaction that may make `limit` bytes is told after two forward records of three and four bytes.
fn told(alloc: Global, limit: u32) -> Result<(Option<TxnFull>, Option<TxnFull>, u32), Fail> {
    let mut txns = TxnTable::new(alloc, limit)?;
    txns.begin(3, 9, 8);
    let first = txns.push_forward(3, &[1, 2, 3]).err();
    if first.is_some() {
        return Ok((first, None, txns.spent(3)));
    }
    let second = txns.push_forward(3, &[4, 5, 6, 7]).err();
    Ok((first, second, txns.spent(3)))
}

#[test]
fn forward_records_keep_to_the_budget(rt: HostRuntime) -> Result<(), Fail> {
    let full = |used, limit| Some(TxnFull { used, limit });
    assert_eq!(rt; told(rt.alloc(), 7)?, (None, None, 7));
    assert_eq!(rt; told(rt.alloc(), 6)?, (None, full(3, 6), 3));
    assert_eq!(rt; told(rt.alloc(), 2)?, (full(0, 2), None, 0));
    Ok(())
}

/// The records that wait, taken twice, with one record between.
fn taken(alloc: Global, into: &mut [u8; 8]) -> Result<(usize, usize, usize), Fail> {
    let mut txns = TxnTable::new(alloc, 100)?;
    txns.begin(0, 1, 1);
    txns.push_back(0, &[1, 2]);
    let first = txns.take_waiting(0, into);
    txns.push_back(0, &[3, 4, 5]);
    let second = txns.take_waiting(0, into);
    txns.finish(0);
    Ok((first, second, txns.waiting(0)))
}

#[test]
fn records_are_taken_once(rt: HostRuntime) -> Result<(), Fail> {
    let mut into = [9u8; 8];
    assert_eq!(rt; taken(rt.alloc(), &mut into)?, (2, 3, 0));
    assert_eq!(rt; into, [3, 4, 5, 9, 9, 9, 9, 9]);
    Ok(())
}
