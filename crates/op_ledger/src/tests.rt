use super::*;
use op_amount::TOP;
use op_model::Account;
use std::alloc::{AllocError, Global};
use std::process::Abort;

const ALICE: u32 = 1;

const SHOP: u32 = 2;

// Two assets with their accounts: alice stands in the first, and the shop in the other.
fn opened(rt: &impl Abort, alloc: Global) -> Result<Ledger, AllocError> {
    let mut ledger = Ledger::new(alloc);
    for asset in 1..3 {
        open(rt, &mut ledger, Account::Outside(asset), asset)?;
        open(rt, &mut ledger, Account::Pool(asset), asset)?;
        open(rt, &mut ledger, Account::Fees(asset), asset)?;
        open(rt, &mut ledger, Account::Wallet(asset), asset)?;
    }
    Ok(ledger)
}

fn open(
    rt: &impl Abort,
    ledger: &mut Ledger,
    account: Account,
    asset: u32,
) -> Result<(), AllocError> {
    assert!(rt; ledger.asset_of(account).is_none());
    match account {
        Account::Outside(number) => assert!(rt; number == asset),
        Account::Pool(number) => assert!(rt; number == asset),
        Account::Fees(number) => assert!(rt; number == asset),
        Account::Wallet(_) => {}
    }
    ledger.open_account(account, asset)
}

fn deposit(
    rt: &impl Abort,
    ledger: &mut Ledger,
    wallet: u32,
    value: u64,
) -> Result<(), LedgerFault> {
    let asset = ledger.asset_of(Account::Wallet(wallet)).expect(rt, "there");
    assert!(rt; ledger.asset_of(Account::Outside(asset)).is_some());
    ledger.deposit(Account::Wallet(wallet), value)
}

fn withdraw(
    rt: &impl Abort,
    ledger: &mut Ledger,
    wallet: u32,
    value: u64,
) -> Result<(), LedgerFault> {
    let asset = ledger.asset_of(Account::Wallet(wallet)).expect(rt, "there");
    assert!(rt; ledger.asset_of(Account::Outside(asset)).is_some());
    ledger.withdraw(Account::Wallet(wallet), value)
}

fn hold(rt: &impl Abort, ledger: &mut Ledger, wallet: u32, value: u64) -> Result<(), LedgerFault> {
    assert!(rt; ledger.asset_of(Account::Wallet(wallet)).is_some());
    ledger.hold(Account::Wallet(wallet), value)
}

// Posted and available.
fn standing(rt: &impl Abort, ledger: &Ledger, account: Account) -> (u64, u64) {
    assert!(rt; ledger.asset_of(account).is_some());
    match account {
        Account::Outside(asset) => (ledger.total_of(asset), 0),
        Account::Pool(_) => (ledger.posted_of(account), ledger.available_of(account)),
        Account::Fees(_) => (ledger.posted_of(account), ledger.available_of(account)),
        Account::Wallet(_) => (ledger.posted_of(account), ledger.available_of(account)),
    }
}

#[test]
fn held_money_is_not_withdrawn_or_held_again(rt: HostRuntime) -> Result<(), AllocError> {
    let mut ledger = opened(&rt, rt.alloc())?;
    assert_eq!(rt; deposit(&rt, &mut ledger, ALICE, 2000), Ok(()));
    assert_eq!(rt; hold(&rt, &mut ledger, ALICE, 1010), Ok(()));
    assert_eq!(rt; standing(&rt, &ledger, Account::Wallet(ALICE)), (2000, 990));
    let short = Err(LedgerFault::Short { available: 990 });
    assert_eq!(rt; withdraw(&rt, &mut ledger, ALICE, 1500), short);
    assert_eq!(rt; standing(&rt, &ledger, Account::Wallet(ALICE)), (2000, 990));
    assert_eq!(rt; withdraw(&rt, &mut ledger, ALICE, 990), Ok(()));
    let empty = Err(LedgerFault::Short { available: 0 });
    assert_eq!(rt; hold(&rt, &mut ledger, ALICE, 1010), empty);
    assert_eq!(rt; standing(&rt, &ledger, Account::Outside(1)), (1010, 0));
    Ok(())
}

#[test]
fn a_total_stops_at_the_largest_value(rt: HostRuntime) -> Result<(), AllocError> {
    let mut ledger = opened(&rt, rt.alloc())?;
    assert_eq!(rt; deposit(&rt, &mut ledger, ALICE, 1), Ok(()));
    assert_eq!(rt; deposit(&rt, &mut ledger, ALICE, TOP - 1), Ok(()));
    assert_eq!(rt; standing(&rt, &ledger, Account::Outside(1)), (TOP, 0));
    let full = Err(LedgerFault::AssetFull { total: TOP });
    assert_eq!(rt; deposit(&rt, &mut ledger, ALICE, 1), full);
    assert_eq!(rt; deposit(&rt, &mut ledger, ALICE, u64::MAX), full);
    assert_eq!(rt; deposit(&rt, &mut ledger, SHOP, TOP), Ok(()));
    assert_eq!(rt; withdraw(&rt, &mut ledger, ALICE, TOP), Ok(()));
    assert_eq!(rt; standing(&rt, &ledger, Account::Outside(1)), (0, 0));
    Ok(())
}

// What a piece needs: that its accounts are there, and that the payer's held covers it.
fn post(
    rt: &impl Abort,
    ledger: &mut Ledger,
    wallets: (u32, u32),
    values: (u64, u64, u64),
) -> Result<(), LedgerFault> {
    let payer = Account::Wallet(wallets.0);
    let payee = Account::Wallet(wallets.1);
    let source = ledger.asset_of(payer).expect(rt, "there");
    let target = ledger.asset_of(payee).expect(rt, "there");
    assert!(rt; ledger.asset_of(Account::Fees(source)).is_some());
    assert!(rt; ledger.asset_of(Account::Pool(source)).is_some());
    assert!(rt; ledger.asset_of(Account::Pool(target)).is_some());
    let (sent, fee, delivered) = values;
    assert!(rt; sent <= TOP && fee <= TOP);
    assert!(rt; sent + fee <= ledger.posted_of(payer) - ledger.available_of(payer));
    assert!(rt; source != target || delivered == sent);
    let piece = Piece {
        payer,
        payee,
        sent,
        fee,
        delivered,
    };
    ledger.post_part(&piece)
}

fn free(rt: &impl Abort, ledger: &mut Ledger, wallet: u32, value: u64) {
    let account = Account::Wallet(wallet);
    assert!(rt; ledger.asset_of(account).is_some());
    assert!(rt; value <= ledger.posted_of(account) - ledger.available_of(account));
    ledger.void(account, value);
}

fn fill_pool(
    rt: &impl Abort,
    ledger: &mut Ledger,
    asset: u32,
    value: u64,
) -> Result<(), LedgerFault> {
    let number = ledger.asset_of(Account::Pool(asset)).expect(rt, "there");
    assert!(rt; ledger.asset_of(Account::Outside(number)).is_some());
    ledger.deposit(Account::Pool(asset), value)
}

// A rate of 3/7: of 100 that are sent in seven pieces the first three deliver 6, 12 and 19.
#[test]
fn a_payment_closed_after_three_pieces_frees_the_rest(rt: HostRuntime) -> Result<(), AllocError> {
    let mut ledger = opened(&rt, rt.alloc())?;
    assert_eq!(rt; deposit(&rt, &mut ledger, ALICE, 200), Ok(()));
    assert_eq!(rt; hold(&rt, &mut ledger, ALICE, 102), Ok(()));
    let dry = Err(LedgerFault::Short { available: 0 });
    assert_eq!(rt; post(&rt, &mut ledger, (ALICE, SHOP), (15, 0, 6)), dry);
    assert_eq!(rt; standing(&rt, &ledger, Account::Wallet(ALICE)), (200, 98));
    assert_eq!(rt; fill_pool(&rt, &mut ledger, 2, 42), Ok(()));
    for delivered in [6, 6, 7] {
        let posted = post(&rt, &mut ledger, (ALICE, SHOP), (15, 0, delivered));
        assert_eq!(rt; posted, Ok(()));
    }
    free(&rt, &mut ledger, ALICE, 57);
    assert_eq!(rt; standing(&rt, &ledger, Account::Wallet(ALICE)), (155, 155));
    assert_eq!(rt; standing(&rt, &ledger, Account::Wallet(SHOP)), (19, 19));
    assert_eq!(rt; standing(&rt, &ledger, Account::Pool(1)), (45, 45));
    assert_eq!(rt; standing(&rt, &ledger, Account::Pool(2)), (23, 23));
    assert_eq!(rt; standing(&rt, &ledger, Account::Fees(1)), (0, 0));
    Ok(())
}

#[test]
fn paying_oneself_moves_the_fee_alone(rt: HostRuntime) -> Result<(), AllocError> {
    let mut ledger = opened(&rt, rt.alloc())?;
    assert_eq!(rt; deposit(&rt, &mut ledger, ALICE, 1010), Ok(()));
    assert_eq!(rt; hold(&rt, &mut ledger, ALICE, 1010), Ok(()));
    assert_eq!(rt;
        post(&rt, &mut ledger, (ALICE, ALICE), (1000, 10, 1000)),
        Ok(())
    );
    assert_eq!(rt;
        standing(&rt, &ledger, Account::Wallet(ALICE)),
        (1000, 1000)
    );
    assert_eq!(rt; standing(&rt, &ledger, Account::Fees(1)), (10, 10));
    assert_eq!(rt; standing(&rt, &ledger, Account::Outside(1)), (1010, 0));
    Ok(())
}
