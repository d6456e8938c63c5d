//! Payments from their quotes to their ends.
ghost use Rattle.std.specs.Prelude.{◌≡◌, IsTrue};
ghost use Rattle.op_outgoing.specs.Held.{IsCovered, is_wallet_there, are_accounts_there, is_rate_plain};
ghost use Rattle.op_outgoing.specs.Sound.{ArePriced};

use crate::{OutgoingFault, OutgoingRow, Outgoings, QuoteRow, StepAnswer};
use op_amount::{RATE_TOP, TOP, floor_mul};
use op_incoming::{IncomingRow, Incomings};
use op_ledger::Ledger;
use op_model::{Account, FailReason, PaymentState, Shortage, Task, Terms};
use op_time::Moment;
use std::alloc::Global;
use std::process::Abort;
use std::test::Fail;

/// Alice stands in asset 1, and the shop in asset 2.
const ALICE: u32 = 1;

const SHOP: u32 = 2;

/// When quotes expire, and when incoming payments do.
const QUOTE_EXPIRY: u64 = 300_000;

const INCOMING_EXPIRY: u64 = 2_592_000_000;

fn moment(ms: u64) -> Moment {
    Moment::at_most_last(ms)
}

/// A ledger, incoming payments, and quotes and payments over them.
#[derive(Drop)]
struct World {
    ledger: Ledger,
    incomings: Incomings,
    outgoings: Outgoings,
    ghost covered: { IsCovered outgoings ledger },
}

fn open(rt: &impl Abort, ledger: &mut Ledger, account: Account, asset: u32) -> Result<(), Fail> {
    assert!(rt; ledger.asset_of(account).is_none());
    match account {
        Account::Outside(number) => assert!(rt; number == asset),
        Account::Pool(number) => assert!(rt; number == asset),
        Account::Fees(number) => assert!(rt; number == asset),
        Account::Wallet(_) => {}
    }
    ledger.open_account(account, asset)?;
    Ok(())
}

fn deposit(rt: &impl Abort, ledger: &mut Ledger, pool: bool, number: u32, value: u64) {
    let to = if pool {
        Account::Pool(number)
    } else {
        Account::Wallet(number)
    };
    let asset = ledger.asset_of(to).expect(rt, "there");
    assert!(rt; ledger.asset_of(Account::Outside(asset)).is_some());
    match to {
        Account::Pool(_) => assert!(rt; ledger.deposit(to, value).is_ok()),
        Account::Wallet(_) => assert!(rt; ledger.deposit(to, value).is_ok()),
        Account::Outside(_) | Account::Fees(_) => {}
    }
}

/// So much stands on alice's wallet and on the pool of the shop's asset, and the shop takes a payment of this amount.
fn make_world(
    rt: &impl Abort,
    alloc: Global,
    alice: u64,
    pool: u64,
    amount: Option<u64>,
) -> Result<World, Fail> {
    let mut ledger = Ledger::new(alloc);
    for asset in 1..3 {
        open(rt, &mut ledger, Account::Outside(asset), asset)?;
        open(rt, &mut ledger, Account::Pool(asset), asset)?;
        open(rt, &mut ledger, Account::Fees(asset), asset)?;
        open(rt, &mut ledger, Account::Wallet(asset), asset)?;
    }
    deposit(rt, &mut ledger, false, ALICE, alice);
    deposit(rt, &mut ledger, true, SHOP, pool);
    let mut incomings = Incomings::new(alloc);
    if let Some(value) = amount {
        assert!(rt; value <= TOP);
        incomings.add(moment(0), incoming(Some(value)))?;
    } else {
        incomings.add(moment(0), incoming(None))?;
    }
    Ok(gathered(alloc, ledger, incomings))
}

fn incoming(amount: Option<u64>) -> IncomingRow
    ensures { result.amount ≡ amount }
{
    IncomingRow {
        address: SHOP,
        grant: 1,
        amount,
        expiry: moment(INCOMING_EXPIRY),
        made: moment(0),
        metadata: None,
    }
}

fn gathered(alloc: Global, ledger: Ledger, incomings: Incomings) -> World {
    World {
        ledger,
        incomings,
        outgoings: Outgoings::new(alloc),
    }
}

/// Terms of a price, of which a piece is so long.
fn terms(rt: &impl Abort, payee: u32, source: u64, fee: u64, rate: (u64, u64), piece: u64) -> Terms
    ensures { ArePriced result }
{
    let (num, den) = rate;
    assert!(rt; 0 < source && source <= TOP && fee <= TOP - source);
    assert!(rt; 1 <= num && num <= RATE_TOP && 1 <= den && den <= RATE_TOP);
    assert!(rt; 1 <= piece && piece <= source);
    Terms {
        payer: ALICE,
        payee,
        incoming: 1,
        debit: source + fee,
        source,
        fee,
        receive: floor_mul(source, num, den).expect(rt, "an amount"),
        num,
        den,
        piece,
    }
}

/// A quote of these terms, and a payment from it.
fn pay(rt: &impl Abort, world: &mut World, terms: Terms) -> Result<u64, Fail>
    requires { ArePriced terms }
{
    let quote = add_quote(world, terms)?;
    let payment = pay_quote(rt, world, quote, 0)?;
    Ok(payment)
}

fn add_quote(world: &mut World, terms: Terms) -> Result<u64, Fail>
    requires { ArePriced terms }
{
    let quote = world.outgoings.add_quote(QuoteRow {
        grant: 1,
        made: moment(0),
        expiry: moment(QUOTE_EXPIRY),
        terms,
    })?;
    Ok(quote)
}

fn pay_quote(
    rt: &impl Abort,
    world: &mut World,
    quote: u64,
    ms: u64,
) -> Result<u64, OutgoingFault> {
    assert!(rt; world.outgoings.quote(quote).is_some());
    world.outgoings.add(moment(ms), quote, 1, None)
}

fn is_wallet_there(ledger: &Ledger, address: u32) -> bool
    ensures { result ≡ is_wallet_there ledger.now address }
{
    match ledger.asset_of(Account::Wallet(address)) {
        Some(asset) => {
            ledger.asset_of(Account::Outside(asset)).is_some()
                && ledger.asset_of(Account::Pool(asset)).is_some()
                && ledger.asset_of(Account::Fees(asset)).is_some()
        }
        None => false,
    }
}

fn are_accounts_there(ledger: &Ledger, row: &OutgoingRow) -> bool
    ensures { result ≡ are_accounts_there ledger.now row.now }
{
    is_wallet_there(ledger, row.terms.payer) && is_wallet_there(ledger, row.terms.payee)
}

fn is_rate_plain(ledger: &Ledger, row: &OutgoingRow) -> bool
    ensures { IsTrue result → IsTrue (is_rate_plain ledger.now row.now) }
{
    let source = ledger.asset_of(Account::Wallet(row.terms.payer));
    let target = ledger.asset_of(Account::Wallet(row.terms.payee));
    (source.is_some() && target.is_some() && source != target)
        || (row.terms.num == 1 && row.terms.den == 1)
}

fn step(rt: &impl Abort, world: &mut World, payment: u64, k: u64, ms: u64) -> StepAnswer {
    let row = world.outgoings.row(payment).expect(rt, "there");
    assert!(rt; are_accounts_there(&world.ledger, row));
    assert!(rt; world.incomings.row(row.terms.incoming).is_some());
    assert!(rt; is_rate_plain(&world.ledger, row));
    world.outgoings.step(
        &mut world.ledger,
        &mut world.incomings,
        payment,
        k,
        moment(ms),
    )
}

fn cancel(rt: &impl Abort, world: &mut World, payment: u64) -> Result<(), OutgoingFault> {
    let row = world.outgoings.row(payment).expect(rt, "there");
    assert!(rt; are_accounts_there(&world.ledger, row));
    world.outgoings.cancel(&mut world.ledger, payment)
}

/// What an answer says, with its numbers.
fn told(answer: StepAnswer) -> (&'static str, u64, u64) {
    match answer {
        StepAnswer::Stale { now } => ("stale", now, 0),
        StepAnswer::Ended => ("ended", 0, 0),
        StepAnswer::Waiting(Shortage::NotFunded { available, need }) => {
            ("not funded", available, need)
        }
        StepAnswer::Waiting(Shortage::NoLiquidity { available, need }) => {
            ("no liquidity", available, need)
        }
        StepAnswer::Funded => ("funded", 0, 0),
        StepAnswer::Sent => ("sent", 0, 0),
        StepAnswer::Completed => ("completed", 0, 0),
        StepAnswer::Failed(FailReason::QuoteExpired) => ("quote expired", 0, 0),
        StepAnswer::Failed(FailReason::ReceiverClosed) => ("receiver closed", 0, 0),
        StepAnswer::Failed(FailReason::Cancelled) => ("cancelled", 0, 0),
    }
}

fn state_name(state: PaymentState) -> &'static str {
    match state {
        PaymentState::Funding => "funding",
        PaymentState::Sending => "sending",
        PaymentState::Completed => "completed",
        PaymentState::Failed => "failed",
    }
}

fn expect_answer(rt: &impl Abort, answer: StepAnswer, text: &str, first: u64, second: u64) {
    let (word, one, two) = told(answer);
    assert!(rt; word.as_bytes() == text.as_bytes(), "{text}");
    assert!(rt; one == first && two == second, "{text}");
}

/// The payment's state, step number and sums.
fn expect_row(rt: &impl Abort, world: &World, payment: u64, state: &str, numbers: [u64; 4]) {
    let row = world.outgoings.row(payment).expect(rt, "there");
    assert!(rt;
        state_name(row.state).as_bytes() == state.as_bytes(),
        "{state}"
    );
    let [step, sent, fee, delivered] = numbers;
    assert_eq!(rt; row.step, step, "{state}");
    assert_eq!(rt; row.sent, sent, "{state}");
    assert_eq!(rt; row.fee, fee, "{state}");
    assert_eq!(rt; row.delivered, delivered, "{state}");
}

/// Posted and available on an account.
fn expect_balance(rt: &impl Abort, world: &World, account: Account, posted: u64, available: u64) {
    assert!(rt; world.ledger.asset_of(account).is_some());
    match account {
        Account::Outside(_) => {}
        Account::Pool(_) | Account::Fees(_) | Account::Wallet(_) => {
            assert_eq!(rt; world.ledger.posted_of(account), posted);
            assert_eq!(rt; world.ledger.available_of(account), available);
        }
    }
}

fn received(rt: &impl Abort, world: &World) -> (u64, u64, bool) {
    assert!(rt; world.incomings.row(1).is_some());
    (
        world.incomings.received(1),
        world.incomings.room(1),
        world.incomings.is_completed(1),
    )
}

fn complete_incoming(rt: &impl Abort, world: &mut World) {
    assert!(rt; world.incomings.row(1).is_some());
    assert!(rt; world.incomings.complete(1, moment(0)).is_ok());
}

/// The payments and step numbers that are due, and the next cursor.
fn due(
    alloc: Global,
    world: &World,
    cursor: u64,
    room: usize,
) -> Result<(Vec<(u64, u64)>, u64), Fail> {
    let mut out = Vec::new(alloc);
    out.push(Task::Expire { incoming: 7 })?;
    let next = if room == 0 {
        cursor
    } else {
        world.outgoings.due(alloc, cursor, room, &mut out)?
    };
    let mut steps = Vec::new(alloc);
    for task in &out {
        if let Task::Step { payment, k } = task {
            steps.push((*payment, *k))?;
        }
    }
    Ok((steps, next))
}

#[test]
fn pays_without_a_quote(rt: HostRuntime) -> Result<(), Fail> {
    let mut world = make_world(&rt, rt.alloc(), 505, 499, None)?;
    let price = terms(&rt, SHOP, 499, 6, (1, 1), 250);
    let payment = world.outgoings.add_direct(moment(17), price, 3, None)?;
    assert_eq!(rt; payment, 1);
    let row = world.outgoings.row(payment).expect(&rt, "there");
    assert!(rt; row.quote.is_none() && row.grant == 3 && row.made.ms() == 17);
    assert_eq!(rt; row.expiry.ms(), 300_017);
    expect_answer(
        &rt,
        step(&rt, &mut world, payment, 0, 300_016),
        "funded",
        0,
        0,
    );
    expect_answer(
        &rt,
        step(&rt, &mut world, payment, 1, 300_017),
        "sent",
        0,
        0,
    );
    expect_row(&rt, &world, payment, "sending", [2, 250, 3, 250]);
    expect_answer(
        &rt,
        step(&rt, &mut world, payment, 2, 300_018),
        "completed",
        0,
        0,
    );
    expect_row(&rt, &world, payment, "completed", [3, 499, 6, 499]);
    expect_balance(&rt, &world, Account::Wallet(ALICE), 0, 0);
    Ok(())
}

#[test]
fn a_payment_without_a_quote_expires(rt: HostRuntime) -> Result<(), Fail> {
    let mut world = make_world(&rt, rt.alloc(), 505, 499, None)?;
    let price = terms(&rt, SHOP, 499, 6, (1, 1), 250);
    let first = world.outgoings.add_direct(moment(17), price, 3, None)?;
    let answer = step(&rt, &mut world, first, 0, 300_017);
    expect_answer(&rt, answer, "quote expired", 0, 0);
    Ok(())
}

#[test]
fn a_payment_without_a_quote_lives_to_the_last_moment(rt: HostRuntime) -> Result<(), Fail> {
    let mut world = make_world(&rt, rt.alloc(), 505, 499, None)?;
    let price = terms(&rt, SHOP, 499, 6, (1, 1), 250);
    let late = world
        .outgoings
        .add_direct(moment(253_402_300_799_998), price, 3, None)?;
    let row = world.outgoings.row(late).expect(&rt, "there");
    assert_eq!(rt; row.expiry.ms(), 253_402_300_799_999);
    Ok(())
}

#[test]
fn one_piece_passes_the_bound(rt: HostRuntime) -> Result<(), Fail> {
    let mut world = make_world(&rt, rt.alloc(), 69, 102, Some(101))?;
    let payment = pay(&rt, &mut world, terms(&rt, SHOP, 68, 1, (3, 2), 68))?;
    expect_answer(&rt, step(&rt, &mut world, payment, 0, 10), "funded", 0, 0);
    expect_answer(
        &rt,
        step(&rt, &mut world, payment, 1, 10),
        "completed",
        0,
        0,
    );
    expect_row(&rt, &world, payment, "completed", [2, 68, 1, 102]);
    assert!(rt; received(&rt, &world) == (102, 0, true));
    expect_balance(&rt, &world, Account::Wallet(ALICE), 0, 0);
    expect_balance(&rt, &world, Account::Fees(1), 1, 1);
    expect_balance(&rt, &world, Account::Pool(1), 68, 68);
    expect_balance(&rt, &world, Account::Pool(2), 0, 0);
    expect_balance(&rt, &world, Account::Wallet(SHOP), 102, 102);
    Ok(())
}

/// The scene of seven pieces, funded.
fn seven_pieces(rt: &impl Abort, alloc: Global) -> Result<World, Fail> {
    let mut world = make_world(rt, alloc, 102, 42, None)?;
    let payment = pay(rt, &mut world, terms(rt, SHOP, 100, 2, (3, 7), 15))?;
    expect_answer(rt, step(rt, &mut world, payment, 0, 10), "funded", 0, 0);
    Ok(world)
}

#[test]
fn floors_of_the_sum_over_seven_pieces(rt: HostRuntime) -> Result<(), Fail> {
    let mut world = seven_pieces(&rt, rt.alloc())?;
    for (k, sent, fee, delivered) in [
        (1, 15, 0, 6),
        (2, 30, 0, 12),
        (3, 45, 0, 19),
        (4, 60, 1, 25),
        (5, 75, 1, 32),
        (6, 90, 1, 38),
    ] {
        expect_answer(&rt, step(&rt, &mut world, 1, k, 10), "sent", 0, 0);
        expect_row(&rt, &world, 1, "sending", [k + 1, sent, fee, delivered]);
    }
    expect_answer(&rt, step(&rt, &mut world, 1, 7, 10), "completed", 0, 0);
    expect_row(&rt, &world, 1, "completed", [8, 100, 2, 42]);
    expect_balance(&rt, &world, Account::Wallet(ALICE), 0, 0);
    expect_balance(&rt, &world, Account::Pool(2), 0, 0);
    Ok(())
}

#[test]
fn a_closed_receiver_frees_the_rest(rt: HostRuntime) -> Result<(), Fail> {
    let mut world = seven_pieces(&rt, rt.alloc())?;
    for k in 1..4 {
        expect_answer(&rt, step(&rt, &mut world, 1, k, 10), "sent", 0, 0);
    }
    expect_balance(&rt, &world, Account::Wallet(ALICE), 57, 0);
    complete_incoming(&rt, &mut world);
    expect_answer(
        &rt,
        step(&rt, &mut world, 1, 4, 10),
        "receiver closed",
        0,
        0,
    );
    expect_row(&rt, &world, 1, "failed", [5, 45, 0, 19]);
    expect_balance(&rt, &world, Account::Wallet(ALICE), 57, 57);
    expect_balance(&rt, &world, Account::Wallet(SHOP), 19, 19);
    assert_eq!(rt;
        cancel(&rt, &mut world, 1),
        Err(OutgoingFault::AlreadyEnded)
    );
    Ok(())
}

#[test]
fn one_step_twice(rt: HostRuntime) -> Result<(), Fail> {
    let mut world = seven_pieces(&rt, rt.alloc())?;
    expect_answer(&rt, step(&rt, &mut world, 1, 1, 10), "sent", 0, 0);
    expect_answer(&rt, step(&rt, &mut world, 1, 1, 10), "stale", 2, 0);
    expect_row(&rt, &world, 1, "sending", [2, 15, 0, 6]);
    expect_balance(&rt, &world, Account::Wallet(ALICE), 87, 0);
    Ok(())
}

#[test]
fn held_money_funds_no_second_payment(rt: HostRuntime) -> Result<(), Fail> {
    let mut world = make_world(&rt, rt.alloc(), 1010, 2000, None)?;
    let first = pay(&rt, &mut world, terms(&rt, SHOP, 1000, 10, (1, 1), 1000))?;
    let second = pay(&rt, &mut world, terms(&rt, SHOP, 1000, 10, (1, 1), 1000))?;
    expect_answer(&rt, step(&rt, &mut world, first, 0, 10), "funded", 0, 0);
    expect_answer(
        &rt,
        step(&rt, &mut world, second, 0, 10),
        "not funded",
        0,
        1010,
    );
    assert_eq!(rt; cancel(&rt, &mut world, first), Ok(()));
    expect_row(&rt, &world, first, "failed", [2, 0, 0, 0]);
    expect_answer(&rt, step(&rt, &mut world, second, 0, 10), "funded", 0, 0);
    Ok(())
}

#[test]
fn paying_oneself(rt: HostRuntime) -> Result<(), Fail> {
    let mut world = make_world(&rt, rt.alloc(), 50, 1, None)?;
    let payment = pay(&rt, &mut world, terms(&rt, ALICE, 50, 0, (1, 1), 50))?;
    expect_answer(&rt, step(&rt, &mut world, payment, 0, 10), "funded", 0, 0);
    expect_answer(
        &rt,
        step(&rt, &mut world, payment, 1, 10),
        "completed",
        0,
        0,
    );
    expect_row(&rt, &world, payment, "completed", [2, 50, 0, 50]);
    expect_balance(&rt, &world, Account::Wallet(ALICE), 50, 50);
    expect_answer(&rt, step(&rt, &mut world, payment, 2, 10), "ended", 0, 0);
    Ok(())
}

#[test]
fn a_pool_without_enough_is_waited_for(rt: HostRuntime) -> Result<(), Fail> {
    let mut world = make_world(&rt, rt.alloc(), 69, 101, None)?;
    let payment = pay(&rt, &mut world, terms(&rt, SHOP, 68, 1, (3, 2), 68))?;
    expect_answer(&rt, step(&rt, &mut world, payment, 0, 10), "funded", 0, 0);
    expect_answer(
        &rt,
        step(&rt, &mut world, payment, 1, 10),
        "no liquidity",
        101,
        102,
    );
    expect_row(&rt, &world, payment, "sending", [1, 0, 0, 0]);
    assert!(rt; received(&rt, &world) == (0, TOP, false));
    Ok(())
}

#[test]
fn a_quote_is_paid_once_and_before_its_expiry(rt: HostRuntime) -> Result<(), Fail> {
    let mut world = make_world(&rt, rt.alloc(), 69, 102, None)?;
    let payment = pay(&rt, &mut world, terms(&rt, SHOP, 68, 1, (3, 2), 68))?;
    assert!(rt; pay_quote(&rt, &mut world, 1, 0) == Err(OutgoingFault::QuoteUsed));
    assert!(rt; pay_quote(&rt, &mut world, 1, QUOTE_EXPIRY) == Err(OutgoingFault::QuoteUsed));
    let quote = add_quote(&mut world, terms(&rt, SHOP, 68, 1, (3, 2), 68))?;
    assert!(rt;
        pay_quote(&rt, &mut world, quote, QUOTE_EXPIRY) == Err(OutgoingFault::QuoteExpired)
    );
    assert!(rt; pay_quote(&rt, &mut world, quote, QUOTE_EXPIRY - 1) == Ok(2));
    assert_eq!(rt; world.outgoings.count(), 2);
    expect_answer(
        &rt,
        step(&rt, &mut world, payment, 0, QUOTE_EXPIRY - 1),
        "funded",
        0,
        0,
    );
    expect_answer(
        &rt,
        step(&rt, &mut world, 2, 0, QUOTE_EXPIRY),
        "quote expired",
        0,
        0,
    );
    Ok(())
}

#[test]
fn first_running_ones_behind_the_cursor(rt: HostRuntime) -> Result<(), Fail> {
    let mut world = make_world(&rt, rt.alloc(), 204, 84, None)?;
    for _ in 0..4 {
        pay(&rt, &mut world, terms(&rt, SHOP, 68, 1, (3, 7), 68))?;
    }
    assert_eq!(rt; cancel(&rt, &mut world, 2), Ok(()));
    expect_answer(&rt, step(&rt, &mut world, 3, 0, 10), "funded", 0, 0);
    for (cursor, room, steps, next) in [
        (0, 2, [(1, 0), (3, 1)].as_slice(), 3),
        (1, 2, [(3, 1), (4, 0)].as_slice(), 4),
        (0, 4, [(1, 0), (3, 1), (4, 0)].as_slice(), 0),
        (0, 3, [(1, 0), (3, 1), (4, 0)].as_slice(), 4),
        (4, 3, [].as_slice(), 0),
    ] {
        let (taken, cursor) = due(rt.alloc(), &world, cursor, room)?;
        assert!(rt; taken.as_slice() == steps, "{next}");
        assert_eq!(rt; cursor, next);
    }
    Ok(())
}
