//! The terms of a price.
ghost use Rattle.std.specs.Prelude.{◌≡◌, ◌≤◌, List};
ghost use Rattle.op_ledger.specs.Balances.{asset_in};
ghost use Rattle.op_model.specs.declared.act.Account.TheVariants.{Wallet};
ghost use Rattle.op_model.specs.History.{asset_row, address_asset, nth};
ghost use Rattle.op_model.specs.Payments.{payee_of, terms_at};
ghost use Rattle.op_model.specs.declared.act.Entry.{Entry as AnyEntry};
ghost use Rattle.op_paying.specs.Money.{IsMoneyOf, HasHistory};

use crate::money::Money;
use op_amount::Priced;
use op_ledger::Ledger;
use op_model::{Account, Terms};

/// Who pays what: the address that pays, and the incoming payment that it pays.
#[derive(Clone, Copy)]
pub struct Parties {
    pub address: u32,
    pub incoming: u64,
}

impl Money {
    /// The terms of a price, from an address to an incoming payment.
    pub fn terms_at(&self, parties: Parties, price: Priced) -> Terms
        requires { HasHistory self.now }
        ensures { (history : List AnyEntry) → IsMoneyOf history self.now → result ≡ terms_at history parties.address parties.incoming price }
    {
        Terms {
            payer: parties.address,
            payee: self.payee_of(parties.incoming),
            incoming: parties.incoming,
            debit: price.debit,
            source: price.source,
            fee: price.fee,
            receive: price.receive,
            num: price.num,
            den: price.den,
            piece: price.source.div_ceil(self.pieces_of(parties.address)),
        }
    }

    // The address that an incoming payment pays, or 0.
    fn payee_of(&self, incoming: u64) -> u32
        ensures { (history : List AnyEntry) → IsMoneyOf history self.now → result ≡ payee_of history incoming }
    {
        match self.incomings.row(incoming) {
            Some(row) => row.address,
            None => 0,
        }
    }

    // The most pieces of a payment from an address.
    fn pieces_of(&self, address: u32) -> u64
        requires { HasHistory self.now }
        ensures value { (history : List AnyEntry) → IsMoneyOf history self.now → result ≡ (asset_row history (address_asset history address)).pieces }
        ensures some { 1 ≤ result }
    {
        match self.pieces_at(asset_of(&self.ledger, address)) {
            Some(pieces) => u64::from(pieces),
            None => 1,
        }
    }

    // The pieces of an asset, where it is there.
    fn pieces_at(&self, asset: u32) -> Option<u8>
        ensures { result ≡ nth self.now.pieces.items asset }
    {
        let place = (asset as usize).checked_sub(1)?;
        self.pieces.get(place).copied()
    }
}

// The asset of an address, as the ledger has it, or 0.
fn asset_of(ledger: &Ledger, address: u32) -> u32
    ensures { result ≡ asset_in ledger.now (Wallet address) }
{
    ledger.asset_of(Account::Wallet(address)).unwrap_or(0)
}
