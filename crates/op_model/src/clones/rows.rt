//! Equal copies of rows.
ghost use Rattle.std.specs.Prelude.{◌≡◌, IfOk};

use crate::clones::grants::clone_finish;
use crate::clones::requests::clone_metadata;
use crate::row::{GrantRow, IncomingRow, OutgoingRow};
use std::alloc::{AllocError, Global};

impl IncomingRow {
    /// An equal value.
    pub fn clone(&self, alloc: Global) -> Result<IncomingRow, AllocError>
        ensures { IfOk result (λ row. row ≡ self.now) }
    {
        Ok(IncomingRow {
            address: self.address,
            grant: self.grant,
            amount: self.amount,
            expiry: self.expiry,
            made: self.made,
            metadata: clone_metadata(&self.metadata, alloc)?,
        })
    }
}

impl GrantRow {
    /// An equal value.
    pub fn clone(&self, alloc: Global) -> Result<GrantRow, AllocError>
        ensures { IfOk result (λ row. row ≡ self.now) }
    {
        Ok(GrantRow {
            client: self.client.clone(alloc)?,
            items: self.items.clone(alloc)?,
            finish: clone_finish(&self.finish, alloc)?,
            asked: self.asked,
            last: self.last,
            issued: self.issued,
            state: self.state,
            access: self.access,
            revoked: self.revoked,
            continuation: self.continuation,
            nonce: self.nonce,
            reference: self.reference,
        })
    }
}

impl OutgoingRow {
    /// An equal value.
    pub fn clone(&self, alloc: Global) -> Result<OutgoingRow, AllocError>
        ensures { IfOk result (λ row. row ≡ self.now) }
    {
        Ok(OutgoingRow {
            grant: self.grant,
            quote: self.quote,
            made: self.made,
            expiry: self.expiry,
            terms: self.terms,
            metadata: clone_metadata(&self.metadata, alloc)?,
            state: self.state,
            step: self.step,
            sent: self.sent,
            fee: self.fee,
            delivered: self.delivered,
            reason: self.reason,
        })
    }
}
