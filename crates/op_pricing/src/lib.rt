//! Prices: what a payment debits, sends, costs and delivers, with a fee rule that is handed in. All values are whole
//! numbers of an asset's smallest units.
#![tactic(auto)]

mod hook;
#[cfg(test)]
mod tests;

ghost use Rattle.std.specs.Prelude.{◌≡◌, ◌≤◌, IfOk, IsSomeAnd, nat_lt};
ghost use Rattle.op_amount.specs.Prices.{base, price_with, IsPrice, mode_value, source_of};
ghost use Rattle.op_amount.specs.Rates.{least_source};
ghost use Rattle.op_pricing.specs.Hook.{IsPriced};

pub use hook::{FeeRule, PriceHook};
pub use op_amount::{FeeTerms, Mode, OnePercent, Pair, PriceFault, Priced, Rate};
use op_amount::{RATE_TOP, TOP, floor_mul, least_source};

/// The amount on which the fee rule is asked: what is debited, or the source that a receive needs. `None` exactly where
/// that passes the largest value.
pub fn base(rate: Rate, mode: Mode) -> Option<u64>
    requires num { (1 ≤ rate.num) × (rate.num ≤ RATE_TOP) }
    requires den { (1 ≤ rate.den) × (rate.den ≤ RATE_TOP) }
    requires value { mode_value mode ≤ TOP }
    ensures { result ≡ base rate mode }
{
    match mode {
        Mode::Debit(debit) => Some(debit),
        Mode::Receive(receive) => least_source(receive, rate.num, rate.den),
    }
}

/// The price with this fee: `TooLarge` exactly where one of its four values passes the largest one, else `TooSmall`
/// exactly where nothing would be sent or received, else `OverReceiver` exactly where the source is more than the
/// receiver's room needs.
pub fn price_with(fee: u64, rate: Rate, mode: Mode, room: u64) -> Result<Priced, PriceFault>
    requires num { (1 ≤ rate.num) × (rate.num ≤ RATE_TOP) }
    requires den { (1 ≤ rate.den) × (rate.den ≤ RATE_TOP) }
    requires fee { IsSomeAnd (base rate mode) (λ amount. fee ≤ amount) }
    requires value { mode_value mode ≤ TOP }
    requires room { room ≤ TOP }
    ensures value { result ≡ price_with fee rate mode room }
    ensures law { IfOk result (IsPrice fee rate mode room) }
{
    let source = source_of(fee, rate, mode);
    let debit = match mode {
        Mode::Debit(debit) => debit,
        Mode::Receive(_) => source + fee,
    };
    if debit > TOP {
        return Err(PriceFault::TooLarge);
    }
    let Some(receive) = floor_mul(source, rate.num, rate.den) else {
        return Err(PriceFault::TooLarge);
    };
    if source == 0 || receive == 0 {
        return Err(PriceFault::TooSmall);
    }
    if is_over_receiver(source, rate, room) {
        return Err(PriceFault::OverReceiver { room });
    }
    Ok(Priced {
        debit,
        source,
        fee,
        receive,
        num: rate.num,
        den: rate.den,
    })
}

/// The price with the fee that the hook answers; `TooLarge` where the amount on which it is asked passes the largest
/// value.
pub fn price<F: FeeRule>(
    hook: &PriceHook<F>,
    pair: &Pair,
    rate: Rate,
    mode: Mode,
    room: u64,
) -> Result<Priced, PriceFault>
    requires num { (1 ≤ rate.num) × (rate.num ≤ RATE_TOP) }
    requires den { (1 ≤ rate.den) × (rate.den ≤ RATE_TOP) }
    requires value { mode_value mode ≤ TOP }
    requires room { room ≤ TOP }
    ensures { IsPriced F.FeeTerms.allows pair.now rate mode room result }
{
    let Some(amount) = base(rate, mode) else {
        return Err(PriceFault::TooLarge);
    };
    let fee = hook.fee(pair, amount);
    price_with(fee, rate, mode, room)
}

fn source_of(fee: u64, rate: Rate, mode: Mode) -> u64
    requires num { (1 ≤ rate.num) × (rate.num ≤ RATE_TOP) }
    requires den { (1 ≤ rate.den) × (rate.den ≤ RATE_TOP) }
    requires fee { IsSomeAnd (base rate mode) (λ amount. fee ≤ amount) }
    requires value { mode_value mode ≤ TOP }
    ensures value { result ≡ source_of fee rate mode }
    ensures bound { result ≤ TOP }
{
    match mode {
        Mode::Debit(debit) => debit - fee,
        Mode::Receive(receive) => match least_source(receive, rate.num, rate.den) {
            Some(source) => source,
            None => unreachable!(),
        },
    }
}

// The room may need more than any amount; then no source passes it.
fn is_over_receiver(source: u64, rate: Rate, room: u64) -> bool
    requires num { (1 ≤ rate.num) × (rate.num ≤ RATE_TOP) }
    requires den { (1 ≤ rate.den) × (rate.den ≤ RATE_TOP) }
    requires source { source ≤ TOP }
    requires room { room ≤ TOP }
    ensures { result ≡ nat_lt (least_source room rate.num rate.den) source }
{
    match least_source(room, rate.num, rate.den) {
        Some(need) => source > need,
        None => false,
    }
}
