//! Equal copies of acts and entries.
ghost use Rattle.std.specs.Prelude.{◌≡◌, IfOk};

use crate::act::{Act, Entry};
use crate::clones::grants::clone_finish;
use crate::text::Text;
use std::alloc::{AllocError, Global};

pub(crate) fn clone_text(value: &Option<Text>, alloc: Global) -> Result<Option<Text>, AllocError>
    ensures { IfOk result (λ found. found ≡ value.now) }
{
    match value {
        Some(some) => Ok(Some(some.clone(alloc)?)),
        None => Ok(None),
    }
}

impl Act {
    /// An equal value.
    pub fn clone(&self, alloc: Global) -> Result<Act, AllocError>
        ensures { IfOk result (λ act. act ≡ self.now) }
    {
        match self {
            Act::OriginSet { origin } => Ok(Act::OriginSet { origin: *origin }),
            Act::AssetAdded {
                code,
                scale,
                pieces,
            } => Ok(Act::AssetAdded {
                code: *code,
                scale: *scale,
                pieces: *pieces,
            }),
            Act::AddressAdded { path, asset, name } => Ok(Act::AddressAdded {
                path: path.clone(alloc)?,
                asset: *asset,
                name: clone_text(name, alloc)?,
            }),
            Act::Deposited {
                transfer,
                account,
                value,
            } => Ok(Act::Deposited {
                transfer: transfer.clone(alloc)?,
                account: *account,
                value: *value,
            }),
            Act::Withdrawn {
                transfer,
                account,
                value,
            } => Ok(Act::Withdrawn {
                transfer: transfer.clone(alloc)?,
                account: *account,
                value: *value,
            }),
            Act::RateSet {
                source,
                target,
                num,
                den,
            } => Ok(Act::RateSet {
                source: *source,
                target: *target,
                num: *num,
                den: *den,
            }),
            Act::IncomingMade {
                grant,
                address,
                amount,
                expiry,
                metadata,
            } => Ok(Act::IncomingMade {
                grant: *grant,
                address: *address,
                amount: *amount,
                expiry: *expiry,
                metadata: clone_text(metadata, alloc)?,
            }),
            Act::IncomingCompleted { grant, incoming } => Ok(Act::IncomingCompleted {
                grant: *grant,
                incoming: *incoming,
            }),
            Act::IncomingExpired { incoming } => Ok(Act::IncomingExpired {
                incoming: *incoming,
            }),
            Act::QuoteMade {
                grant,
                address,
                incoming,
                mode,
                asked,
                debit,
                source,
                fee,
                receive,
                num,
                den,
            } => Ok(Act::QuoteMade {
                grant: *grant,
                address: *address,
                incoming: *incoming,
                mode: *mode,
                asked: *asked,
                debit: *debit,
                source: *source,
                fee: *fee,
                receive: *receive,
                num: *num,
                den: *den,
            }),
            Act::GrantAsked {
                client,
                items,
                finish,
                word,
            } => Ok(Act::GrantAsked {
                client: client.clone(alloc)?,
                items: items.clone(alloc)?,
                finish: clone_finish(finish, alloc)?,
                word: *word,
            }),
            Act::GrantAccepted { grant, word } => Ok(Act::GrantAccepted {
                grant: *grant,
                word: *word,
            }),
            Act::GrantRejected { grant, word } => Ok(Act::GrantRejected {
                grant: *grant,
                word: *word,
            }),
            Act::GrantPolled { grant } => Ok(Act::GrantPolled { grant: *grant }),
            Act::GrantContinued { grant, word } => Ok(Act::GrantContinued {
                grant: *grant,
                word: *word,
            }),
            Act::GrantCancelled { grant } => Ok(Act::GrantCancelled { grant: *grant }),
            Act::TokenRotated { grant, word } => Ok(Act::TokenRotated {
                grant: *grant,
                word: *word,
            }),
            Act::TokenRevoked { grant } => Ok(Act::TokenRevoked { grant: *grant }),
            Act::OutgoingMade {
                grant,
                quote,
                metadata,
            } => Ok(Act::OutgoingMade {
                grant: *grant,
                quote: *quote,
                metadata: clone_text(metadata, alloc)?,
            }),
            Act::OutgoingFunded { payment, step } => Ok(Act::OutgoingFunded {
                payment: *payment,
                step: *step,
            }),
            Act::OutgoingSent { payment, step } => Ok(Act::OutgoingSent {
                payment: *payment,
                step: *step,
            }),
            Act::OutgoingCompleted { payment, step } => Ok(Act::OutgoingCompleted {
                payment: *payment,
                step: *step,
            }),
            Act::OutgoingFailed {
                payment,
                step,
                reason,
            } => Ok(Act::OutgoingFailed {
                payment: *payment,
                step: *step,
                reason: *reason,
            }),
            Act::Attempted { event, outcome } => Ok(Act::Attempted {
                event: *event,
                outcome: *outcome,
            }),
            Act::OutgoingDirect {
                grant,
                address,
                incoming,
                debit,
                source,
                fee,
                receive,
                num,
                den,
                metadata,
            } => Ok(Act::OutgoingDirect {
                grant: *grant,
                address: *address,
                incoming: *incoming,
                debit: *debit,
                source: *source,
                fee: *fee,
                receive: *receive,
                num: *num,
                den: *den,
                metadata: clone_text(metadata, alloc)?,
            }),
        }
    }
}

impl Entry {
    /// An equal value.
    pub fn clone(&self, alloc: Global) -> Result<Entry, AllocError>
        ensures { IfOk result (λ entry. entry ≡ self.now) }
    {
        Ok(Entry {
            at: self.at,
            act: self.act.clone(alloc)?,
        })
    }
}
