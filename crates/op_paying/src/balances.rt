//! What stands on accounts, what a deposit or a withdrawal would be answered, and how far a payment has come or would have
//! come if it was cancelled. Nothing here changes the money.
ghost use Rattle.std.specs.Prelude.{◌≡◌, ◌≤◌, ◌&&◌, not, List};
ghost use Rattle.std.specs.Option.{option_and_then};
ghost use Rattle.op_amount.specs.declared.TheConstants.{TOP};
ghost use Rattle.op_ledger.specs.Balances.{is_there, is_outside};
ghost use Rattle.op_model.specs.Balances.{account_asset, posted, available, total};
ghost use Rattle.op_model.specs.History.{asset_row, nth};
ghost use Rattle.op_model.specs.declared.act.Entry.{Entry};
ghost use Rattle.op_model.specs.Payments.{is_ended, outgoing_row};
ghost use Rattle.op_paying.specs.Balances.{deposit_answer, withdrawal_answer, cancelled_shown};
ghost use Rattle.op_paying.specs.Money.{IsMoneyOf};

use crate::money::Money;
use op_amount::TOP;
use op_ledger::Ledger;
use op_model::{Account, PaymentState, ProgressShown, Refusal};

/// The number of the reason of a payment that was cancelled, as a payment keeps it.
const CANCELLED: u8 = 3;

// Whether an account is an asset's outside.
fn is_outside(account: Account) -> bool
    ensures { result ≡ is_outside account }
{
    matches!(account, Account::Outside(_))
}

// Whether an account is open in a ledger.
fn is_there(ledger: &Ledger, account: Account) -> bool
    ensures { result ≡ is_there ledger.now account }
{
    ledger.asset_of(account).is_some()
}

// Whether an account is open in a ledger and is not the outside.
fn is_inside(ledger: &Ledger, account: Account) -> bool
    ensures { result ≡ (is_there ledger.now account && not (is_outside account)) }
{
    if is_outside(account) {
        return false;
    }
    is_there(ledger, account)
}

// Whether a payment was completed or has failed.
fn has_ended(state: PaymentState) -> bool
    ensures { result ≡ is_ended state }
{
    match state {
        PaymentState::Completed | PaymentState::Failed => true,
        PaymentState::Funding | PaymentState::Sending => false,
    }
}

impl Money {
    /// What is posted on an account, in smallest units of its asset: zero where the account is not there, and on the
    /// outside, of which `total` tells.
    pub fn posted(&self, account: Account) -> u64
        ensures { (history : List Entry) → IsMoneyOf history self.now → result ≡ posted history account }
    {
        if is_inside(&self.ledger, account) {
            return self.ledger.posted_of(account);
        }
        0
    }

    /// What is posted on an account and not held for payments, in smallest units of its asset: zero where the account is
    /// not there, and on the outside.
    pub fn available(&self, account: Account) -> u64
        ensures { (history : List Entry) → IsMoneyOf history self.now → result ≡ available history account }
    {
        if is_inside(&self.ledger, account) {
            return self.ledger.available_of(account);
        }
        0
    }

    /// What stands in all accounts of an asset together, in its smallest units: zero where the asset is not there.
    pub fn total(&self, asset: u32) -> u64
        ensures value { (history : List Entry) → IsMoneyOf history self.now → result ≡ total history asset }
        ensures at_most { result ≤ TOP }
    {
        if is_there(&self.ledger, Account::Outside(asset)) {
            return self.ledger.total_of(asset);
        }
        0
    }

    /// The number of the asset in which an account stands: zero where it is the account of an address that is not there.
    pub fn asset_of(&self, account: Account) -> u32
        ensures { (history : List Entry) → IsMoneyOf history self.now → result ≡ account_asset history account }
    {
        match account {
            Account::Outside(asset) => asset,
            Account::Pool(asset) => asset,
            Account::Fees(asset) => asset,
            Account::Wallet(_) => self.ledger.asset_of(account).unwrap_or(0),
        }
    }

    /// The most pieces in which a payment from an asset is sent: one where the asset is not there.
    pub fn pieces(&self, asset: u32) -> u8
        ensures { (history : List Entry) → IsMoneyOf history self.now → result ≡ (asset_row history asset).pieces }
    {
        self.kept_pieces(asset).unwrap_or(1)
    }

    // The pieces of an asset, counted from 1, where it is there.
    fn kept_pieces(&self, asset: u32) -> Option<u8>
        ensures { result ≡ nth self.now.pieces.items asset }
    {
        let place = (asset as usize).checked_sub(1)?;
        self.pieces.get(place).copied()
    }

    /// Whether a deposit of a value to an account passes. `AssetFull`, with the total of the account's asset, exactly
    /// where that total would pass the largest value, 10^18.
    pub fn may_deposit(&self, account: Account, value: u64) -> Result<(), Refusal>
        ensures { (history : List Entry) → IsMoneyOf history self.now → result ≡ deposit_answer history account value }
    {
        let total = self.total(self.asset_of(account));
        if value > TOP - total {
            return Err(Refusal::AssetFull { total });
        }
        Ok(())
    }

    /// Whether a withdrawal of a value from an account passes. `Short`, with what is available, exactly where that is less.
    pub fn may_withdraw(&self, account: Account, value: u64) -> Result<(), Refusal>
        ensures { (history : List Entry) → IsMoneyOf history self.now → result ≡ withdrawal_answer history account value }
    {
        let available = self.available(account);
        if available < value {
            return Err(Refusal::Short { available });
        }
        Ok(())
    }

    /// How far outgoing payment `n` has come once it is cancelled. `None` exactly where it is not there, or has ended.
    pub fn cancelled(&self, n: u64) -> Option<ProgressShown>
        ensures { (history : List Entry) → IsMoneyOf history self.now → result ≡ option_and_then cancelled_shown (outgoing_row history n) }
    {
        let row = self.outgoings.row(n)?;
        if has_ended(row.state) {
            return None;
        }
        Some(ProgressShown {
            state: PaymentState::Failed,
            step: row.step + 1,
            sent: row.sent,
            fee: row.fee,
            delivered: row.delivered,
            reason: CANCELLED,
        })
    }
}
