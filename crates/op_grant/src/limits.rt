//! The limits of what a client asks for.

ghost use Rattle.std.specs.Prelude.{◌≡◌, false, IsTrue};
ghost use Rattle.std.specs.Option.{option_copied, option_map_or};
ghost use Rattle.op_model.specs.Grants.{limits_of, cap_of, repeats, interval_at, inside};
ghost use Rattle.op_grant.specs.Limits.{counted_asset, counted_value, is_other_receiver, is_other_asset, passes_cap, is_over, are_readable, is_readable};
ghost use Rattle.op_time.specs.Texts.{interval_of};

use crate::rows::OUTGOING;
use op_model::{Cap, IntervalText, Item, Limits, Sum};
use op_time::{Interval, Moment, Place, read_interval};
use std::str;

// Items for outgoing payments alone have limits.
fn limits_of(items: &[Item]) -> Option<&Limits>
    ensures { option_copied result ≡ limits_of items.now }
{
    match items.iter().find(|item| item.kind == OUTGOING) {
        Some(item) => item.limits.as_ref(),
        None => None,
    }
}

/// The cap of what may be spent, if there is one.
pub(crate) fn cap_of(items: &[Item]) -> Option<Cap>
    ensures { result ≡ cap_of items.now }
{
    limits_of(items)?.cap
}

/// Whether the limits name another receiver.
pub(crate) fn is_other_receiver(items: &[Item], receiver: u64) -> bool
    ensures { result ≡ is_other_receiver items.now receiver }
{
    match limits_of(items) {
        Some(limits) => match limits.receiver {
            Some(named) => named != receiver,
            None => false,
        },
        None => false,
    }
}

/// What a payment would spend, as the limits of a grant look at it.
#[derive(Clone, Copy)]
pub struct Spending {
    /// The number of the incoming payment.
    pub receiver: u64,
    /// What is debited. `None` where no address pays.
    pub debit: Option<Sum>,
    /// The number of the asset in which the payment is received.
    pub receive_asset: u32,
    /// What is received. `None` where the payment has no price.
    pub receive: Option<u64>,
}

// The asset that a cap looks at, where it is there.
fn counted_asset(asked: &Spending, cap: &Cap) -> Option<u32>
    ensures { result ≡ counted_asset asked.now cap.now }
{
    if !cap.debit {
        return Some(asked.receive_asset);
    }
    Some(asked.debit?.asset)
}

// The value that a cap counts, where it is there.
fn counted_value(asked: &Spending, cap: &Cap) -> Option<u64>
    ensures { result ≡ counted_value asked.now cap.now }
{
    if !cap.debit {
        return asked.receive;
    }
    Some(asked.debit?.value)
}

/// Whether there is a cap, in another asset than what it counts.
pub(crate) fn is_other_asset(cap: Option<Cap>, asked: &Spending) -> bool
    ensures { result ≡ option_map_or (is_other_asset asked.now) cap false }
{
    match cap {
        Some(cap) => match counted_asset(asked, &cap) {
            Some(asset) => cap.sum.asset != asset,
            None => false,
        },
        None => false,
    }
}

/// Whether there is a cap, and what it counts would pass it, where so much was spent before.
pub(crate) fn is_over(cap: Option<Cap>, spent: u64, asked: &Spending) -> bool
    ensures { result ≡ option_map_or (is_over spent asked.now) cap false }
{
    match cap {
        Some(cap) => match counted_value(asked, &cap) {
            Some(value) => is_passed(&cap, spent, value),
            None => false,
        },
        None => false,
    }
}

fn is_passed(cap: &Cap, spent: u64, value: u64) -> bool
    ensures { result ≡ passes_cap spent value cap.now }
{
    let top = cap.sum.value;
    match spent.checked_add(value) {
        Some(sum) => sum > top,
        None => true,
    }
}

// The interval that a text names.
fn read(text: &IntervalText) -> Option<Interval>
    requires { IsTrue (is_readable text.now) }
    ensures { result ≡ interval_of text.now }
{
    match str::from_utf8(text.bytes()) {
        Ok(text) => read_interval(text).ok(),
        Err(_) => unreachable!(),
    }
}

// How the limits repeat, if they do.
fn repeats(items: &[Item]) -> Option<Interval>
    requires { IsTrue (are_readable items.now) }
    ensures { result ≡ repeats items.now }
{
    let limits = limits_of(items)?;
    let text = limits.interval.as_ref()?;
    read(text)
}

/// The number, from 0, of the interval in which a moment lies: 0 for all moments where the limits do not repeat.
pub(crate) fn interval_at(items: &[Item], t: Moment) -> Option<u64>
    requires { IsTrue (are_readable items.now) }
    ensures { result ≡ interval_at items.now t }
{
    let Some(interval) = repeats(items) else {
        return Some(0);
    };
    match interval.index_at(t) {
        Place::Inside(number) => Some(number),
        Place::Before => None,
        Place::After => None,
    }
}
