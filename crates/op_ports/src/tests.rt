//! What the words answer, on the table, on the system and on a system that has none.
use crate::words::{SystemWords, TableWords, Words, WordsFault};
use std::io;
use std::random::RandomSource;
use std::test::Fail;

#[test]
fn words_come_in_order_and_fail_where_listed(rt: HostRuntime) -> Result<(), Fail> {
    let table = vec![in rt.alloc(); [1; 16], [2; 16]]?;
    let failing = vec![in rt.alloc(); 1, 4]?;
    let mut words = TableWords::new(table, failing);
    let wanted = [
        Ok([1; 16]),
        Err(WordsFault),
        Ok([2; 16]),
        Ok([2; 16]),
        Err(WordsFault),
        Ok([2; 16]),
    ];
    for answer in wanted {
        assert_eq!(rt; words.draw(), answer);
    }
    assert_eq!(rt; (words.calls(), words.faults()), (6, 2));
    Ok(())
}

#[test]
fn an_empty_table_gives_zeros(rt: HostRuntime) -> Result<(), Fail> {
    let mut words = TableWords::new(Vec::new(rt.alloc()), Vec::new(rt.alloc()));
    assert_eq!(rt; words.draw(), Ok([0; 16]));
    Ok(())
}

/// A draw of the system repeats an earlier one about once in 2^128.
#[test]
fn the_system_draws_words_that_differ(rt: HostRuntime) -> Result<(), Fail> {
    let mut words = SystemWords::new(rt.clone()?);
    let (first, second) = (words.draw(), words.draw());
    assert!(rt; first.is_ok() && second.is_ok() && first != second);
    assert!(rt; first != Ok([0; 16]) && second != Ok([0; 16]));
    Ok(())
}

/// A system without random bytes.
#[derive(Drop)]
struct NoRandomBytes;

impl RandomSource for NoRandomBytes {
    fn fill_bytes(&self, buf: &mut [u8]) -> io::Result<()> {
        buf.fill(7);
        Err(io::ErrorKind::Unsupported.into())
    }
}

#[test]
fn a_system_without_random_bytes_is_a_fault(rt: HostRuntime) -> Result<(), Fail> {
    let mut words = SystemWords::new(NoRandomBytes);
    assert_eq!(rt; words.draw(), Err(WordsFault));
    Ok(())
}
