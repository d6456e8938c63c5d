//! Balances that are found by their account.

ghost use Rattle.std.specs.Prelude.{◌≡◌, ◌∷◌, ◌++◌, [], IsTrue, OnOk, OnErr, not, is_some, Some};
ghost use Rattle.op_ledger.specs.Balances.{find_balance};

use crate::places::Places;
use crate::values::Balance;
use op_model::Account;
use std::alloc::{AllocError, Global};
use std::marker::Model;

/// Balances in the order in which their accounts were opened, each account once. No call but `open` takes memory, and
/// none walks the list.
#[derive(Drop)]
pub struct Accounts {
    balances: Vec<Balance>,
    places: Places,
}

impl Model for Accounts {
    ghost use Rattle.std.specs.Prelude.{List};
    ghost use Rattle.op_ledger.specs.declared.values.Balance.{Balance};

    ghost Value = { List Balance };

    ghost use Rattle.op_ledger.specs.Indexed.{IsIndexed};

    ghost view = { λ a. a.balances.items };

    ghost invariant = { λ a. IsIndexed a.places a.balances.items };
}

impl Accounts {
    ghost use Rattle.op_ledger.specs.Indexed.{put};

    /// No accounts.
    pub fn new(alloc: Global) -> Accounts
        ensures { result ≡ [] }
    {
        Accounts {
            balances: Vec::new(alloc),
            places: Places::new(alloc),
        }
    }

    /// The balance of an account, if it is there.
    pub fn find(&self, account: Account) -> Option<Balance>
        ensures { result ≡ find_balance self.now account }
    {
        match self.places.find(account) {
            Some(place) => Some(self.balances[place]),
            None => None,
        }
    }

    /// The balance of an account.
    pub fn balance(&self, account: Account) -> Balance
        requires { IsTrue (is_some (find_balance self.now account)) }
        ensures found { find_balance self.now account ≡ Some result }
        ensures account { result.account ≡ account }
    {
        match self.places.find(account) {
            Some(place) => self.balances[place],
            None => unreachable!(),
        }
    }

    /// Puts a balance in place of the one that its account has.
    pub fn set(&mut self, balance: Balance)
        requires { IsTrue (is_some (find_balance self.old balance.account)) }
        ensures { self.new ≡ put balance self.old }
    {
        match self.places.find(balance.account) {
            Some(place) => self.balances[place] = balance,
            None => unreachable!(),
        }
    }

    /// Opens an account with this balance; without memory all is as it was.
    pub fn open(&mut self, balance: Balance) -> Result<(), AllocError>
        requires { IsTrue (not (is_some (find_balance self.old balance.account))) }
        ensures ok { OnOk result (self.new ≡ self.old ++ balance ∷ []) }
        ensures err { OnErr result (self.new ≡ self.old) }
    {
        let place = self.balances.len();
        self.balances.push(balance)?;
        match self.places.insert(balance.account, place) {
            Ok(()) => Ok(()),
            Err(error) => {
                self.balances.truncate(place);
                Err(error)
            }
        }
    }
}
