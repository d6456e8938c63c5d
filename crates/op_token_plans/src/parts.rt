//! What a plan reads of a wallet.

use op_grant::Grants;
use op_naming::Names;
use op_paying::Money;

/// The parts of a wallet that a plan reads: its names, its money and its grants.
#[derive(Clone, Copy)]
pub struct Parts<'a> {
    pub names: &'a Names,
    pub money: &'a Money,
    pub grants: &'a Grants,
}
