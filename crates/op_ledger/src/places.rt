//! Where the balance of each account stands in a list.

ghost use Rattle.std.specs.Prelude.{◌≡◌, OnOk, OnErr, None};
ghost use Rattle.op_ledger.specs.Indexed.{place_at, PlacesAlso, PlacesSame};
ghost use Rattle.op_model.specs.declared.act.Account.{Account as AnyAccount};

use op_model::Account;
use std::alloc::{AllocError, Global};
use std::collections::BTreeMap;

/// An index by kind and number of the account.
#[derive(Drop)]
pub struct Places {
    outside: BTreeMap<u32, usize>,
    pool: BTreeMap<u32, usize>,
    fees: BTreeMap<u32, usize>,
    wallet: BTreeMap<u32, usize>,
}

impl Places {
    /// An index without accounts.
    pub fn new(alloc: Global) -> Places
        ensures { (account : AnyAccount) → place_at result account ≡ None }
    {
        Places {
            outside: BTreeMap::new(alloc),
            pool: BTreeMap::new(alloc),
            fees: BTreeMap::new(alloc),
            wallet: BTreeMap::new(alloc),
        }
    }

    /// The place of an account, if it is there.
    pub fn find(&self, account: Account) -> Option<usize>
        ensures { result ≡ place_at self.now account }
    {
        match account {
            Account::Outside(number) => self.outside.get(&number).copied(),
            Account::Pool(number) => self.pool.get(&number).copied(),
            Account::Fees(number) => self.fees.get(&number).copied(),
            Account::Wallet(number) => self.wallet.get(&number).copied(),
        }
    }

    /// Keeps the place of an account; without memory the index is as it was.
    pub fn insert(&mut self, account: Account, place: usize) -> Result<(), AllocError>
        ensures ok { OnOk result (PlacesAlso self.old self.new account place) }
        ensures err { OnErr result (PlacesSame self.old self.new) }
    {
        match account {
            Account::Outside(number) => self.outside.insert(number, place)?,
            Account::Pool(number) => self.pool.insert(number, place)?,
            Account::Fees(number) => self.fees.insert(number, place)?,
            Account::Wallet(number) => self.wallet.insert(number, place)?,
        };
        Ok(())
    }
}
