//! Plans of deposits and withdrawals.

ghost use Rattle.std.specs.Prelude.{◌≡◌, List, IfOk, Some};
ghost use Rattle.op_legal.specs.Numbers.{HasAccount};
ghost use Rattle.op_model.specs.AdminAnswers.{account_meant, has_asset, is_same_kind, money_refusals, transfer_act};
ghost use Rattle.op_model.specs.Balances.{is_same_account};
ghost use Rattle.op_model.specs.declared.act.Entry.{Entry};
ghost use Rattle.op_model.specs.declared.reply.ReplyBody.TheVariants.{Transferred};
ghost use Rattle.op_model.specs.declared.request.Request.TheVariants.{Deposit, Withdraw};
ghost use Rattle.op_naming.specs.Names.{AreNames};
ghost use Rattle.op_paying.specs.Money.{IsMoneyOf};
ghost use Rattle.op_plans.specs.Plans.{IsPlanned};
ghost use Rattle.op_money_plans.specs.Transfers.{is_deposit, is_repeat_of, shown_by, transfer_request};

use op_amount::{Amount, Asset};
use op_model::{Account, AccountName, AccountShown, Act, Refusal, ReplyBody, Text};
use op_naming::{Names, TransferKept};
use op_paying::Money;
use op_plans::Plan;
use std::alloc::{AllocError, Global};

/// Which way a transfer goes.
#[derive(Clone, Copy)]
pub enum Direction {
    /// From outside to an account.
    Deposit,
    /// From an account to outside.
    Withdrawal,
}

/// A transfer that is asked for: which way it goes, the account that its name means, and how much.
#[derive(Clone, Copy)]
pub struct Asked {
    pub direction: Direction,
    pub account: Account,
    pub amount: Amount,
}

/// What is to come of a deposit (`POST /admin/deposits`): from outside to the pool or to a wallet address.
pub fn plan_deposit(
    alloc: Global,
    names: &Names,
    money: &Money,
    transfer: &Text,
    name: &AccountName,
    amount: &Amount,
) -> Result<Plan, AllocError>
    ensures { IfOk result (λ plan. (history : List Entry) → AreNames history names.now → IsMoneyOf history money.now → IsPlanned history (Deposit transfer.now name.now amount.now) plan) }
{
    let Some(account) = find_account(names, Direction::Deposit, name, &amount.asset) else {
        return Ok(Plan::Refused(Refusal::NotFound));
    };
    let asked = Asked {
        direction: Direction::Deposit,
        account,
        amount: *amount,
    };
    plan_transfer(alloc, names, money, transfer, name, asked)
}

/// What is to come of a withdrawal (`POST /admin/withdrawals`): from the pool, the fees or a wallet address to
/// outside.
pub fn plan_withdraw(
    alloc: Global,
    names: &Names,
    money: &Money,
    transfer: &Text,
    name: &AccountName,
    amount: &Amount,
) -> Result<Plan, AllocError>
    ensures { IfOk result (λ plan. (history : List Entry) → AreNames history names.now → IsMoneyOf history money.now → IsPlanned history (Withdraw transfer.now name.now amount.now) plan) }
{
    let Some(account) = find_account(names, Direction::Withdrawal, name, &amount.asset) else {
        return Ok(Plan::Refused(Refusal::NotFound));
    };
    let asked = Asked {
        direction: Direction::Withdrawal,
        account,
        amount: *amount,
    };
    plan_transfer(alloc, names, money, transfer, name, asked)
}

// The account that a name means in a transfer of this asset. A deposit to the fees names nothing.
fn find_account(
    names: &Names,
    direction: Direction,
    name: &AccountName,
    asset: &Asset,
) -> Option<Account>
    ensures { (history : List Entry) → AreNames history names.now → result ≡ account_meant history (is_deposit direction) name.now asset.now }
{
    match name {
        AccountName::Pool => Some(Account::Pool(names.find_asset(asset)?)),
        AccountName::Fees => match direction {
            Direction::Deposit => None,
            Direction::Withdrawal => Some(Account::Fees(names.find_asset(asset)?)),
        },
        AccountName::Address(Some(name)) => Some(Account::Wallet(names.find_address(name)?)),
        AccountName::Address(None) => None,
    }
}

fn is_deposit(direction: Direction) -> bool
    ensures { result ≡ is_deposit direction }
{
    matches!(direction, Direction::Deposit)
}

// The plan of a transfer whose account is known.
fn plan_transfer(
    alloc: Global,
    names: &Names,
    money: &Money,
    transfer: &Text,
    name: &AccountName,
    asked: Asked,
) -> Result<Plan, AllocError>
    ensures { IfOk result (λ plan. (history : List Entry) → AreNames history names.now → IsMoneyOf history money.now → account_meant history (is_deposit asked.direction) name.now asked.amount.asset ≡ Some asked.account → IsPlanned history (transfer_request asked.direction transfer.now name.now asked.amount) plan) }
{
    let Some(_) = names.find_asset(&asked.amount.asset) else {
        return Ok(Plan::Refused(Refusal::NotFound));
    };
    let fits = stands_in(names, money, asked.account, &asked.amount.asset);
    if let Some(made) = names.transfer(transfer.bytes()) {
        if !is_repeat(made, asked, fits) {
            return Ok(Plan::Refused(Refusal::TransferIdUsed));
        }
        let body = transferred(alloc, transfer, name, asked.amount)?;
        return Ok(Plan::Told(body));
    }
    if let Err(refusal) = new_transfer(money, asked, fits) {
        return Ok(Plan::Refused(refusal));
    }
    let act = transfer_act(alloc, transfer, asked)?;
    let body = transferred(alloc, transfer, name, asked.amount)?;
    Ok(Plan::Acts { act, body })
}

// Whether an account stands in an asset.
fn stands_in(names: &Names, money: &Money, account: Account, asset: &Asset) -> bool
    ensures { (history : List Entry) → AreNames history names.now → IsMoneyOf history money.now → HasAccount history account → result ≡ has_asset history account asset.now }
{
    match names.asset(money.asset_of(account)) {
        Some(kept) => kept.asset.is_same(asset),
        None => false,
    }
}

// Whether a transfer that was made is the one that is asked for.
fn is_repeat(made: TransferKept, asked: Asked, fits: bool) -> bool
    ensures { result ≡ is_repeat_of made asked fits }
{
    is_same_kind(made.deposit, is_deposit(asked.direction))
        && is_same_account(made.account, asked.account)
        && fits
        && made.value == asked.amount.value
}

fn is_same_kind(one: bool, other: bool) -> bool
    ensures { result ≡ is_same_kind one other }
{
    one == other
}

fn is_same_account(one: Account, other: Account) -> bool
    ensures { result ≡ is_same_account one other }
{
    match (one, other) {
        (Account::Outside(a), Account::Outside(b)) => a == b,
        (Account::Pool(a), Account::Pool(b)) => a == b,
        (Account::Fees(a), Account::Fees(b)) => a == b,
        (Account::Wallet(a), Account::Wallet(b)) => a == b,
        _ => false,
    }
}

// What refuses a transfer that was not made yet, if anything does.
fn new_transfer(money: &Money, asked: Asked, fits: bool) -> Result<(), Refusal>
    ensures { (history : List Entry) → IsMoneyOf history money.now → fits ≡ has_asset history asked.account asked.amount.asset → result ≡ money_refusals history (is_deposit asked.direction) asked.account asked.amount }
{
    if asked.amount.value == 0 {
        return Err(Refusal::ZeroAmount);
    }
    if !fits {
        return Err(Refusal::AssetMismatch);
    }
    match asked.direction {
        Direction::Deposit => money.may_deposit(asked.account, asked.amount.value),
        Direction::Withdrawal => money.may_withdraw(asked.account, asked.amount.value),
    }
}

// The act of a transfer.
fn transfer_act(alloc: Global, transfer: &Text, asked: Asked) -> Result<Act, AllocError>
    ensures { IfOk result (λ act. act ≡ transfer_act (is_deposit asked.direction) transfer.now asked.account asked.amount.value) }
{
    let transfer = transfer.clone(alloc)?;
    let account = asked.account;
    let value = asked.amount.value;
    match asked.direction {
        Direction::Deposit => Ok(Act::Deposited {
            transfer,
            account,
            value,
        }),
        Direction::Withdrawal => Ok(Act::Withdrawn {
            transfer,
            account,
            value,
        }),
    }
}

// What is told of a transfer.
fn transferred(
    alloc: Global,
    transfer: &Text,
    name: &AccountName,
    amount: Amount,
) -> Result<ReplyBody, AllocError>
    ensures { IfOk result (λ body. body ≡ Transferred transfer.now (shown_by name.now) amount) }
{
    Ok(ReplyBody::Transferred {
        transfer: transfer.clone(alloc)?,
        account: shown_by(alloc, name)?,
        amount,
    })
}

// What is told of the account of a name.
fn shown_by(alloc: Global, name: &AccountName) -> Result<AccountShown, AllocError>
    ensures { IfOk result (λ shown. shown ≡ shown_by name.now) }
{
    match name {
        AccountName::Fees => Ok(AccountShown::Fees),
        AccountName::Address(Some(name)) => Ok(AccountShown::Address(name.path.clone(alloc)?)),
        AccountName::Pool | AccountName::Address(None) => Ok(AccountShown::Pool),
    }
}
