use super::*;
use op_amount::{Asset, AssetCode};

/// Half of an amount, rounded down.
#[derive(Drop)]
struct Half;

impl FeeTerms for Half {
    ghost use Rattle.std.specs.Prelude.{◌≡◌, ◌/◌};
    ghost use Rattle.std.proofs.Math.Nat.{div-le_self};
    ghost use Rattle.std.proofs.Common.{subst, sym, ◌≤◌};

    ghost allows = { λ pair amount fee. fee ≡ amount / 2 };

    ghost at_most = { λ pair amount fee small is. subst (λ n. n ≤ amount) (sym is) (div-le_self amount 2) };
}

impl FeeRule for Half {
    fn fee(&self, _pair: &Pair, amount: u64) -> u64 {
        amount / 2
    }
}

fn dollars() -> Option<Asset> {
    let code = AssetCode::read("USD")?;
    Some(Asset { code, scale: 2 })
}

fn usd() -> Option<Pair> {
    Some(Pair {
        source: dollars()?,
        target: dollars()?,
    })
}

// Debit, source, fee and receive.
fn values(price: Result<Priced, PriceFault>) -> Result<(u64, u64, u64, u64), PriceFault> {
    let price = price?;
    Ok((price.debit, price.source, price.fee, price.receive))
}

#[test]
fn too_small_over_the_receiver_and_too_large(rt: HostRuntime) {
    let hook = PriceHook::keep(OnePercent);
    let Some(pair) = usd() else { return };
    let even = Rate { num: 1, den: 1 };
    let one = values(price(&hook, &pair, even, Mode::Debit(1), 100));
    assert_eq!(rt; one, Err(PriceFault::TooSmall));
    let two = values(price(&hook, &pair, even, Mode::Debit(2), 100));
    assert_eq!(rt; two, Ok((2, 1, 1, 1)));
    let over = values(price(&hook, &pair, even, Mode::Debit(200), 100));
    assert_eq!(rt; over, Err(PriceFault::OverReceiver { room: 100 }));
    let large = values(price(&hook, &pair, even, Mode::Receive(TOP), 100));
    assert_eq!(rt; large, Err(PriceFault::TooLarge));
}

#[test]
fn rates_of_three_halves_and_three_sevenths(rt: HostRuntime) {
    let hook = PriceHook::keep(OnePercent);
    let Some(pair) = usd() else { return };
    let halves = Rate { num: 3, den: 2 };
    let receive = values(price(&hook, &pair, halves, Mode::Receive(101), 101));
    assert_eq!(rt; receive, Ok((69, 68, 1, 102)));
    let sevenths = Rate { num: 3, den: 7 };
    let debit = values(price(&hook, &pair, sevenths, Mode::Debit(102), TOP));
    assert_eq!(rt; debit, Ok((102, 100, 2, 42)));
}

#[test]
fn another_rule_and_the_largest_values(rt: HostRuntime) {
    let half = PriceHook::keep(Half);
    let Some(pair) = usd() else { return };
    let even = Rate { num: 1, den: 1 };
    let debit = values(price(&half, &pair, even, Mode::Debit(101), 1000));
    assert_eq!(rt; debit, Ok((101, 51, 50, 51)));
    let top = values(price(&half, &pair, even, Mode::Debit(TOP), TOP));
    assert_eq!(rt; top, Ok((TOP, TOP / 2, TOP / 2, TOP / 2)));
    let whole = values(price_with(0, even, Mode::Receive(TOP), TOP));
    assert_eq!(rt; whole, Ok((TOP, TOP, 0, TOP)));
    assert_eq!(rt; base(even, Mode::Receive(TOP)), Some(TOP));
    let dear = Rate {
        num: 1,
        den: RATE_TOP,
    };
    assert_eq!(rt; base(dear, Mode::Receive(TOP)), None);
    let none = values(price(&half, &pair, dear, Mode::Receive(TOP), TOP));
    assert_eq!(rt; none, Err(PriceFault::TooLarge));
}
