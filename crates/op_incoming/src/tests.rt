//! When incoming payments are open, due for expiry and completed.

ghost use Rattle.std.specs.Prelude.{◌≤◌, IfSome};
ghost use Rattle.op_amount.specs.declared.TheConstants.{TOP};

use crate::{IncomingFault, IncomingRow, Incomings};
use op_amount::TOP;
use op_model::Task;
use op_time::Moment;
use std::alloc::Global;
use std::test::Fail;

/// 2024-03-01T12:30:00.123Z.
const EXPIRY: u64 = 1_709_296_200_123;

/// 2024-03-01T12:00:00Z.
const START: u64 = 1_709_294_400_000;

fn moment(ms: u64) -> Moment {
    Moment::at_most_last(ms)
}

/// An amount that is no more than the greatest.
fn amount_of(amount: Option<u64>) -> Option<u64>
    ensures { IfSome result (λ value. value ≤ TOP) }
{
    match amount {
        Some(value) => Some(value.min(TOP)),
        None => None,
    }
}

fn expiring(expiry: u64, amount: Option<u64>) -> IncomingRow
    ensures { IfSome result.amount (λ value. value ≤ TOP) }
{
    IncomingRow {
        address: 1,
        grant: 1,
        amount: amount_of(amount),
        expiry: moment(expiry),
        made: moment(START),
        metadata: None,
    }
}

/// Payments with an amount of 101 each, and these expiries.
fn made(alloc: Global, expiries: &[u64]) -> Result<Incomings, Fail> {
    let mut incomings = Incomings::new(alloc);
    for expiry in expiries {
        incomings.add(moment(START), expiring(*expiry, Some(101)))?;
    }
    Ok(incomings)
}

/// The answer to a completion, or want of memory where there is no such payment.
fn complete(incomings: &mut Incomings, n: u64, ms: u64) -> Result<(), IncomingFault> {
    if incomings.row(n).is_none() {
        return Err(IncomingFault::Memory);
    }
    incomings.complete(n, moment(ms))
}

fn expire(incomings: &mut Incomings, n: u64, ms: u64) -> bool {
    if incomings.row(n).is_none() {
        return false;
    }
    incomings.expire(n, moment(ms))
}

fn is_open(incomings: &Incomings, n: u64, ms: u64) -> bool {
    if incomings.row(n).is_none() {
        return false;
    }
    incomings.is_open(n, moment(ms))
}

/// What a payment has received, how much more it takes, and whether it is completed.
fn standing(incomings: &Incomings, n: u64) -> Option<(u64, u64, bool)> {
    incomings.row(n)?;
    Some((
        incomings.received(n),
        incomings.room(n),
        incomings.is_completed(n),
    ))
}

/// Gives a payment a value, if it is open at the start.
fn receive(incomings: &mut Incomings, n: u64, value: u64) -> bool {
    if incomings.row(n).is_none() || value > 1_000_000 {
        return false;
    }
    if !incomings.is_open(n, moment(START)) {
        return false;
    }
    incomings.receive(n, value);
    true
}

/// The numbers that are due for expiry at a moment, behind a 7 that was there.
fn due(alloc: Global, incomings: &Incomings, ms: u64, room: usize) -> Result<Vec<u64>, Fail> {
    let mut out = Vec::new(alloc);
    out.push(Task::Expire { incoming: 7 })?;
    incomings.due(alloc, moment(ms), room, &mut out)?;
    let mut numbers = Vec::new(alloc);
    for task in &out {
        if let Task::Expire { incoming } = task {
            numbers.push(*incoming)?;
        }
    }
    Ok(numbers)
}

#[test]
fn expiry_to_the_millisecond(rt: HostRuntime) -> Result<(), Fail> {
    let mut before = made(rt.alloc(), &[EXPIRY])?;
    assert!(rt; is_open(&before, 1, EXPIRY - 1));
    assert!(rt; !is_open(&before, 1, EXPIRY));
    assert!(rt; due(rt.alloc(), &before, EXPIRY - 1, 64)?.as_slice() == [7].as_slice());
    assert!(rt; !expire(&mut before, 1, EXPIRY - 1));
    assert_eq!(rt; complete(&mut before, 1, EXPIRY - 1), Ok(()));
    assert_eq!(rt; standing(&before, 1), Some((0, 101, true)));

    let mut at = made(rt.alloc(), &[EXPIRY])?;
    assert_eq!(rt;
        complete(&mut at, 1, EXPIRY),
        Err(IncomingFault::AlreadyClosed)
    );
    assert!(rt; due(rt.alloc(), &at, EXPIRY, 64)?.as_slice() == [7, 1].as_slice());
    assert!(rt; expire(&mut at, 1, EXPIRY));
    assert!(rt; !expire(&mut at, 1, EXPIRY));
    assert!(rt; due(rt.alloc(), &at, EXPIRY, 64)?.as_slice() == [7].as_slice());
    assert_eq!(rt;
        complete(&mut at, 1, START),
        Err(IncomingFault::AlreadyClosed)
    );
    assert_eq!(rt; standing(&at, 1), Some((0, 101, false)));
    Ok(())
}

#[test]
fn last_piece_passes_the_bound(rt: HostRuntime) -> Result<(), Fail> {
    let mut incomings = made(rt.alloc(), &[EXPIRY])?;
    assert!(rt; receive(&mut incomings, 1, 45));
    assert_eq!(rt; standing(&incomings, 1), Some((45, 56, false)));
    assert!(rt; receive(&mut incomings, 1, 57));
    assert_eq!(rt; standing(&incomings, 1), Some((102, 0, true)));
    assert!(rt; !receive(&mut incomings, 1, 1));
    assert!(rt; due(rt.alloc(), &incomings, EXPIRY, 64)?.as_slice() == [7].as_slice());
    assert!(rt; !expire(&mut incomings, 1, EXPIRY));
    assert_eq!(rt;
        complete(&mut incomings, 1, START),
        Err(IncomingFault::AlreadyClosed)
    );
    Ok(())
}

#[test]
fn first_due_ones_in_order(rt: HostRuntime) -> Result<(), Fail> {
    let mut incomings = made(rt.alloc(), &[EXPIRY, EXPIRY + 1, EXPIRY, EXPIRY, EXPIRY])?;
    assert_eq!(rt; incomings.count(), 5);
    assert_eq!(rt; complete(&mut incomings, 1, START), Ok(()));
    assert!(rt; due(rt.alloc(), &incomings, EXPIRY, 2)?.as_slice() == [7, 3, 4].as_slice());
    assert!(rt;
        due(rt.alloc(), &incomings, EXPIRY + 1, 64)?.as_slice() == [7, 2, 3, 4, 5].as_slice()
    );
    assert!(rt; due(rt.alloc(), &incomings, EXPIRY + 1, 0)?.as_slice() == [7].as_slice());
    Ok(())
}

#[test]
fn refusals_in_order(rt: HostRuntime) -> Result<(), Fail> {
    let mut incomings = Incomings::new(rt.alloc());
    for (expiry, amount, answer) in [
        (EXPIRY, Some(0), Err(IncomingFault::ZeroAmount)),
        (START, Some(0), Err(IncomingFault::ZeroAmount)),
        (START, Some(1), Err(IncomingFault::ExpiresInPast)),
        (START - 1, None, Err(IncomingFault::ExpiresInPast)),
        (START + 1, Some(1), Ok(1)),
        (START + 1, None, Ok(2)),
    ] {
        let added = incomings.add(moment(START), expiring(expiry, amount));
        assert!(rt; added == answer, "{expiry}");
    }
    assert_eq!(rt; incomings.count(), 2);
    assert!(rt; incomings.row(0).is_none() && incomings.row(3).is_none());
    let row = incomings.row(2).ok_or("no payment")?;
    assert_eq!(rt; row.expiry.ms(), START + 1);
    assert_eq!(rt;
        standing(&incomings, 2),
        Some((0, 1_000_000_000_000_000_000, false))
    );
    Ok(())
}
