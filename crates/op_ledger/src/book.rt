//! The ledger.

ghost use Rattle.std.specs.Prelude.{◌≡◌, ◌+◌, ◌-◌, ◌<◌, ◌≤◌, ◌↔◌, [], ◌∷◌, ◌++◌, IsTrue, IsErr, OnOk, OnErr, IfErr, not, Some, option_map};
ghost use Rattle.op_amount.specs.declared.TheConstants.{TOP};
ghost use Rattle.op_model.specs.declared.act.Account.TheVariants.{Outside, Pool, Fees};
ghost use Rattle.op_ledger.specs.Balances.{LedgerValue, balance_of, is_there, IsInside, posted_in, held_in, available_in, asset_in, total_in, IsNumbered, moved, holding, opened, deposit_legs, withdrawal_legs, transfer_legs};
ghost use Rattle.op_ledger.specs.Pieces.{CanMoveWithin, CanMoveBetween, within_legs, between_legs, is_within_one_asset, taken, with_piece, are_pools_there, lacks_liquidity};

use crate::indexed::Accounts;
use crate::values::{Balance, LedgerFault, Piece};
use op_amount::TOP;
use op_model::Account;
use std::alloc::{AllocError, Global};
use std::marker::Model;

/// Accounts on which value is posted, and held before it is posted, as two-phase transfers do. Contracts see each
/// account, in the order of opening, with what is posted and held on it.
///
/// In every asset what stands in the pool, the fees and the wallets together is the total, by which the outside stands
/// below zero; no other account has less than zero available, and no total passes 10^18. Each call that only reads says
/// so (`IsSound`). A refused call leaves all as it was. No call but `open_account` takes memory.
#[derive(Drop)]
pub struct Ledger {
    accounts: Accounts,
}

impl Model for Ledger {
    ghost use Rattle.op_ledger.specs.Balances.{LedgerValue};

    ghost Value = { LedgerValue };

    ghost use Rattle.op_ledger.specs.Sound.{IsSound};

    ghost view = { λ a. record { accounts = a.accounts } };

    ghost invariant = { λ a. IsSound (record { accounts = a.accounts }) };
}

impl Ledger {
    ghost use Rattle.op_ledger.specs.Sound.{IsSound};
    ghost use Rattle.op_ledger.specs.declared.values.LedgerFault.TheVariants as faults;

    /// A ledger without accounts.
    pub fn new(alloc: Global) -> Ledger
        ensures { result.accounts ≡ [] }
    {
        Ledger {
            accounts: Accounts::new(alloc),
        }
    }

    /// Opens an account, at zero, in an asset. The outside, the pool and the fees have their asset's number.
    pub fn open_account(&mut self, account: Account, asset: u32) -> Result<(), AllocError>
        requires fresh { IsTrue (not (is_there self.old account)) }
        requires numbered { IsNumbered account asset }
        ensures ok { OnOk result (self.new ≡ opened self.old account asset) }
        ensures err { OnErr result (self.new ≡ self.old) }
    {
        self.accounts.open(Balance {
            account,
            asset,
            posted: 0,
            held: 0,
        })?;
        Ok(())
    }

    /// Moves a value from outside to an account. `AssetFull` exactly where the asset's total would pass 10^18.
    pub fn deposit(&mut self, to: Account, value: u64) -> Result<(), LedgerFault>
        requires there { IsInside self.old to }
        requires outside { IsTrue (is_there self.old (Outside (asset_in self.old to))) }
        ensures ok { OnOk result (self.new ≡ moved self.old (deposit_legs self.old to value)) }
        ensures full { IsErr result ↔ (TOP < total_in self.old (asset_in self.old to) + value) }
        ensures err { IfErr result
            (λ e. (e ≡ faults.AssetFull (total_in self.old (asset_in self.old to))) × (self.new ≡ self.old)) }
    {
        let inside = self.balance(to);
        let outside = self.balance(Account::Outside(inside.asset));
        if value > TOP - outside.posted {
            return Err(LedgerFault::AssetFull {
                total: outside.posted,
            });
        }
        self.accounts.set(Balance {
            posted: inside.posted + value,
            ..inside
        });
        self.accounts.set(Balance {
            posted: outside.posted + value,
            ..outside
        });
        Ok(())
    }

    /// Moves a value from an account to outside. `Short` exactly where less is available.
    pub fn withdraw(&mut self, source: Account, value: u64) -> Result<(), LedgerFault>
        requires there { IsInside self.old source }
        requires outside { IsTrue (is_there self.old (Outside (asset_in self.old source))) }
        ensures ok { OnOk result (self.new ≡ moved self.old (withdrawal_legs self.old source value)) }
        ensures short { IsErr result ↔ (available_in self.old source < value) }
        ensures err { IfErr result
            (λ e. (e ≡ faults.Short (available_in self.old source)) × (self.new ≡ self.old)) }
    {
        let inside = self.balance(source);
        let outside = self.balance(Account::Outside(inside.asset));
        let available = inside.posted - inside.held;
        if available < value {
            return Err(LedgerFault::Short { available });
        }
        self.accounts.set(Balance {
            posted: inside.posted - value,
            ..inside
        });
        self.accounts.set(Balance {
            posted: outside.posted - value,
            ..outside
        });
        Ok(())
    }

    /// Holds a value on an account, to be posted or freed later. `Short` exactly where less is available.
    pub fn hold(&mut self, account: Account, value: u64) -> Result<(), LedgerFault>
        requires { IsInside self.old account }
        ensures ok { OnOk result (self.new ≡ holding self.old account (λ h. h + value)) }
        ensures short { IsErr result ↔ (available_in self.old account < value) }
        ensures err { IfErr result
            (λ e. (e ≡ faults.Short (available_in self.old account)) × (self.new ≡ self.old)) }
    {
        let balance = self.balance(account);
        let available = balance.posted - balance.held;
        if available < value {
            return Err(LedgerFault::Short { available });
        }
        self.accounts.set(Balance {
            held: balance.held + value,
            ..balance
        });
        Ok(())
    }

    /// Posts a piece of a payment, from what is held on the payer. `Short` exactly where the payee's account is in
    /// another asset than the payer's, and the pool of that asset has less available than is delivered.
    pub fn post_part(&mut self, piece: &Piece) -> Result<(), LedgerFault>
        requires payer { IsInside self.old piece.now.payer }
        requires payee { IsInside self.old piece.now.payee }
        requires fees { IsTrue (is_there self.old (Fees (asset_in self.old piece.now.payer))) }
        requires pools { IsTrue (are_pools_there self.old piece.now) }
        requires covered { taken piece.now ≤ held_in self.old piece.now.payer }
        requires one_asset { IsTrue (is_within_one_asset self.old piece.now)
            → piece.now.delivered ≡ piece.now.sent }
        ensures ok { OnOk result (self.new ≡ with_piece self.old piece.now) }
        ensures short { IsErr result ↔ IsTrue (lacks_liquidity self.old piece.now) }
        ensures err { IfErr result
            (λ e. (e ≡ faults.Short (available_in self.old (Pool (asset_in self.old piece.now.payee)))) × (self.new ≡ self.old)) }
    {
        let payer = self.balance(piece.payer);
        let source = payer.asset;
        let target = self.balance(piece.payee).asset;
        if source == target {
            self.void(piece.payer, piece.sent + piece.fee);
            self.move_within(source, piece);
            return Ok(());
        }
        let available = self.available_of(Account::Pool(target));
        if available < piece.delivered {
            return Err(LedgerFault::Short { available });
        }
        self.void(piece.payer, piece.sent + piece.fee);
        self.move_between(source, target, piece);
        Ok(())
    }

    /// Frees a value that is held on an account.
    pub fn void(&mut self, account: Account, value: u64)
        requires there { IsTrue (is_there self.old account) }
        requires covered { value ≤ held_in self.old account }
        ensures { self.new ≡ holding self.old account (λ h. h - value) }
    {
        let balance = self.balance(account);
        self.accounts.set(Balance {
            held: balance.held - value,
            ..balance
        });
    }

    /// The asset in which an account stands, if it is there.
    pub fn asset_of(&self, account: Account) -> Option<u32>
        ensures value { result ≡ option_map (λ b. b.asset) (balance_of self.now account) }
        ensures sound { IsSound self.now }
    {
        self.accounts.find(account).map(|balance| balance.asset)
    }

    /// What is posted on an account.
    pub fn posted_of(&self, account: Account) -> u64
        requires { IsInside self.now account }
        ensures value { result ≡ posted_in self.now account }
        ensures at_most { result ≤ TOP }
        ensures sound { IsSound self.now }
    {
        self.balance(account).posted
    }

    /// What is posted on an account and not held.
    pub fn available_of(&self, account: Account) -> u64
        requires { IsInside self.now account }
        ensures value { result ≡ available_in self.now account }
        ensures covered { result + held_in self.now account ≡ posted_in self.now account }
        ensures sound { IsSound self.now }
    {
        let balance = self.balance(account);
        balance.posted - balance.held
    }

    /// What stands in all accounts of an asset but the outside's.
    pub fn total_of(&self, asset: u32) -> u64
        requires { IsTrue (is_there self.now (Outside asset)) }
        ensures value { result ≡ total_in self.now asset }
        ensures at_most { result ≤ TOP }
        ensures sound { IsSound self.now }
    {
        self.balance(Account::Outside(asset)).posted
    }

    // The movements of a piece within an asset, of which the payer has what is taken.
    fn move_within(&mut self, asset: u32, piece: &Piece)
        requires { CanMoveWithin self.old asset piece.now }
        ensures { self.new ≡ moved self.old (within_legs asset piece.now) }
    {
        self.transfer(piece.payer, Account::Fees(asset), piece.fee);
        self.transfer(piece.payer, piece.payee, piece.sent);
    }

    // The movements of a piece between two assets, of which the payer has what is taken and the target's pool what is
    // delivered.
    fn move_between(&mut self, source: u32, target: u32, piece: &Piece)
        requires { CanMoveBetween self.old source target piece.now }
        ensures { self.new ≡ moved self.old (between_legs source target piece.now) }
    {
        self.transfer(piece.payer, Account::Fees(source), piece.fee);
        self.transfer(piece.payer, Account::Pool(source), piece.sent);
        self.transfer(Account::Pool(target), piece.payee, piece.delivered);
    }

    // Moves a value between two accounts of an asset.
    fn transfer(&mut self, source: Account, target: Account, value: u64)
        requires source { IsInside self.old source }
        requires target { IsInside self.old target }
        requires one_asset { asset_in self.old source ≡ asset_in self.old target }
        requires covered { value ≤ available_in self.old source }
        ensures { self.new ≡ moved self.old (transfer_legs source target value) }
    {
        let from = self.balance(source);
        self.accounts.set(Balance {
            posted: from.posted - value,
            ..from
        });
        let to = self.accounts.balance(target);
        self.accounts.set(Balance {
            posted: to.posted + value,
            ..to
        });
    }

    // The balance of an account.
    fn balance(&self, account: Account) -> Balance
        requires { IsTrue (is_there self.now account) }
        ensures found { balance_of self.now account ≡ Some result }
        ensures account { result.account ≡ account }
        ensures sound { IsSound self.now }
    {
        self.accounts.balance(account)
    }
}
