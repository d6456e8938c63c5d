//! Accounts that are opened, and value that comes and goes.
ghost use Rattle.std.specs.Prelude.{◌≡◌, ℕ, List, Option, true, OnOk, OnErr};
ghost use Rattle.op_ledger.specs.Balances.{is_there, IsNumbered};
ghost use Rattle.op_model.specs.declared.act.Act.TheVariants as acts;
ghost use Rattle.op_model.specs.declared.act.Entry.{Entry as AnyEntry};
ghost use Rattle.op_paying.specs.Ledgers.{StandsAs, MayOpen, AreOpen};
ghost use Rattle.op_paying.specs.Taking.{CanTake, TakesEntry, KeepsHistories};

use crate::money::Money;
use op_ledger::Ledger;
use op_model::{Account, Entry};
use std::alloc::AllocError;

// Opens an account of an asset, if it is not open.
fn open_if(ledger: &mut Ledger, account: Account, number: u32) -> Result<(), AllocError>
    requires { IsNumbered account number }
    ensures may { MayOpen ledger.old ledger.new account number }
    ensures ok { OnOk result (is_there ledger.new account ≡ true) }
{
    if ledger.asset_of(account).is_some() {
        return Ok(());
    }
    ledger.open_account(account, number)
}

// Opens the accounts of an asset that are not open. Where memory is short, some may be open, at zero.
fn open_asset(ledger: &mut Ledger, number: u32) -> Result<(), AllocError>
    ensures stands { (history : List AnyEntry) → StandsAs history ledger.old → StandsAs history ledger.new }
    ensures ok { OnOk result (AreOpen ledger.new number) }
{
    open_if(ledger, Account::Outside(number), number)?;
    open_if(ledger, Account::Pool(number), number)?;
    open_if(ledger, Account::Fees(number), number)
}

impl Money {
    /// An asset with the most pieces of a payment from it: its accounts are opened.
    pub fn take_asset(&mut self, entry: &Entry, pieces: u8) -> Result<(), AllocError>
        requires can { CanTake self.old entry.now }
        requires is { (code : List ℕ) × (scale : ℕ) × (entry.now.act ≡ acts.AssetAdded code scale pieces) }
        ensures ok { OnOk result (TakesEntry entry.now self.old self.new) }
        ensures err { OnErr result (KeepsHistories self.old self.new) }
    {
        self.pieces.reserve(1)?;
        let number = self.pieces.len() as u32 + 1;
        open_asset(&mut self.ledger, number)?;
        self.pieces.push_reserved(pieces);
        Ok(())
    }

    /// An address in an asset: its wallet's account is opened.
    pub fn take_address(&mut self, entry: &Entry, asset: u32) -> Result<(), AllocError>
        requires can { CanTake self.old entry.now }
        requires is { (path : List ℕ) × (name : Option (List ℕ)) × (entry.now.act ≡ acts.AddressAdded path asset name) }
        ensures ok { OnOk result (TakesEntry entry.now self.old self.new) }
        ensures err { OnErr result (KeepsHistories self.old self.new) }
    {
        let number = self.addresses + 1;
        self.ledger.open_account(Account::Wallet(number), asset)?;
        self.addresses = number;
        Ok(())
    }

    /// Value from outside. It fits, since the entry may follow.
    pub fn take_deposit(&mut self, entry: &Entry, account: Account, value: u64)
        requires can { CanTake self.old entry.now }
        requires is { (transfer : List ℕ) × (entry.now.act ≡ acts.Deposited transfer account value) }
        ensures { TakesEntry entry.now self.old self.new }
    {
        match self.ledger.deposit(account, value) {
            Ok(()) => {}
            Err(_) => unreachable!(),
        }
    }

    /// Value that goes outside. It is available, since the entry may follow.
    pub fn take_withdrawal(&mut self, entry: &Entry, account: Account, value: u64)
        requires can { CanTake self.old entry.now }
        requires is { (transfer : List ℕ) × (entry.now.act ≡ acts.Withdrawn transfer account value) }
        ensures { TakesEntry entry.now self.old self.new }
    {
        match self.ledger.withdraw(account, value) {
            Ok(()) => {}
            Err(_) => unreachable!(),
        }
    }
}
