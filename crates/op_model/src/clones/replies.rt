//! Equal copies of replies.
ghost use Rattle.std.specs.Prelude.{◌≡◌, IfOk, map, take, drop};

use crate::clones::acts::clone_text;
use crate::clones::grants::clone_interval;
use crate::clones::requests::clone_metadata;
use crate::reply::{
    AccountShown, AddressShown, FeedEvent, IncomingShown, ItemShown, LimitsShown, OutgoingShown,
    QuoteShown, Redirect, Refusal, Reply, ReplyBody,
};
use crate::rows::Rows;
use op_names::AddressPath;
use std::alloc::{AllocError, Global};

impl Refusal {
    /// An equal value.
    pub fn clone(&self, alloc: Global) -> Result<Refusal, AllocError>
        ensures { IfOk result (λ refusal. refusal ≡ self.now) }
    {
        match self {
            Refusal::BadHttp { at } => Ok(Refusal::BadHttp { at: *at }),
            Refusal::LengthRequired { at } => Ok(Refusal::LengthRequired { at: *at }),
            Refusal::RequestTooLarge { at } => Ok(Refusal::RequestTooLarge { at: *at }),
            Refusal::NotFound => Ok(Refusal::NotFound),
            Refusal::MethodNotAllowed { allow } => Ok(Refusal::MethodNotAllowed {
                allow: allow.clone(alloc)?,
            }),
            Refusal::BadJson => Ok(Refusal::BadJson),
            Refusal::BadField { name } => Ok(Refusal::BadField {
                name: name.clone(alloc)?,
            }),
            Refusal::InvalidRequest { name } => Ok(Refusal::InvalidRequest {
                name: clone_text(name, alloc)?,
            }),
            Refusal::InvalidClient => Ok(Refusal::InvalidClient),
            Refusal::InvalidToken => Ok(Refusal::InvalidToken),
            Refusal::InvalidContinuation => Ok(Refusal::InvalidContinuation),
            Refusal::AccessDenied { rule, spent } => Ok(Refusal::AccessDenied {
                rule: *rule,
                spent: *spent,
            }),
            Refusal::OriginFixed => Ok(Refusal::OriginFixed),
            Refusal::AlreadyExists => Ok(Refusal::AlreadyExists),
            Refusal::TransferIdUsed => Ok(Refusal::TransferIdUsed),
            Refusal::QuoteUsed => Ok(Refusal::QuoteUsed),
            Refusal::NotPending => Ok(Refusal::NotPending),
            Refusal::ZeroAmount => Ok(Refusal::ZeroAmount),
            Refusal::AssetMismatch => Ok(Refusal::AssetMismatch),
            Refusal::AssetFull { total } => Ok(Refusal::AssetFull { total: *total }),
            Refusal::Short { available } => Ok(Refusal::Short {
                available: *available,
            }),
            Refusal::SameAsset => Ok(Refusal::SameAsset),
            Refusal::AlreadyEnded => Ok(Refusal::AlreadyEnded),
            Refusal::InvalidInteraction => Ok(Refusal::InvalidInteraction),
            Refusal::RequestDenied => Ok(Refusal::RequestDenied),
            Refusal::UserDenied => Ok(Refusal::UserDenied),
            Refusal::TooFast => Ok(Refusal::TooFast),
            Refusal::ExpiresInPast => Ok(Refusal::ExpiresInPast),
            Refusal::AlreadyClosed => Ok(Refusal::AlreadyClosed),
            Refusal::ReceiverClosed => Ok(Refusal::ReceiverClosed),
            Refusal::NoAmount => Ok(Refusal::NoAmount),
            Refusal::NoRate => Ok(Refusal::NoRate),
            Refusal::TooLarge => Ok(Refusal::TooLarge),
            Refusal::TooSmall => Ok(Refusal::TooSmall),
            Refusal::OverReceiver { room } => Ok(Refusal::OverReceiver { room: *room }),
            Refusal::QuoteExpired => Ok(Refusal::QuoteExpired),
            Refusal::Memory => Ok(Refusal::Memory),
            Refusal::DiskFault => Ok(Refusal::DiskFault),
            Refusal::JournalFull => Ok(Refusal::JournalFull),
        }
    }
}

impl AccountShown {
    /// An equal value.
    pub fn clone(&self, alloc: Global) -> Result<AccountShown, AllocError>
        ensures { IfOk result (λ account. account ≡ self.now) }
    {
        match self {
            AccountShown::Pool => Ok(AccountShown::Pool),
            AccountShown::Fees => Ok(AccountShown::Fees),
            AccountShown::Address(value) => Ok(AccountShown::Address(value.clone(alloc)?)),
        }
    }
}

impl AddressShown {
    /// An equal value.
    pub fn clone(&self, alloc: Global) -> Result<AddressShown, AllocError>
        ensures { IfOk result (λ address. address ≡ self.now) }
    {
        Ok(AddressShown {
            path: self.path.clone(alloc)?,
            asset: self.asset,
            name: clone_text(&self.name, alloc)?,
        })
    }
}

impl Redirect {
    /// An equal value.
    pub fn clone(&self, alloc: Global) -> Result<Redirect, AllocError>
        ensures { IfOk result (λ redirect. redirect ≡ self.now) }
    {
        Ok(Redirect {
            finish: self.finish.clone(alloc)?,
            nonce: self.nonce,
            reference: self.reference,
        })
    }
}

fn clone_redirect(value: &Option<Redirect>, alloc: Global) -> Result<Option<Redirect>, AllocError>
    ensures { IfOk result (λ found. found ≡ value.now) }
{
    match value {
        Some(some) => Ok(Some(some.clone(alloc)?)),
        None => Ok(None),
    }
}

impl LimitsShown {
    /// An equal value.
    pub fn clone(&self, alloc: Global) -> Result<LimitsShown, AllocError>
        ensures { IfOk result (λ limits. limits ≡ self.now) }
    {
        Ok(LimitsShown {
            receiver: self.receiver,
            debit: self.debit,
            receive: self.receive,
            interval: clone_interval(&self.interval, alloc)?,
        })
    }
}

fn clone_limits(
    value: &Option<LimitsShown>,
    alloc: Global,
) -> Result<Option<LimitsShown>, AllocError>
    ensures { IfOk result (λ found. found ≡ value.now) }
{
    match value {
        Some(some) => Ok(Some(some.clone(alloc)?)),
        None => Ok(None),
    }
}

fn clone_path(value: &Option<AddressPath>, alloc: Global) -> Result<Option<AddressPath>, AllocError>
    ensures { IfOk result (λ found. found ≡ value.now) }
{
    match value {
        Some(some) => Ok(Some(some.clone(alloc)?)),
        None => Ok(None),
    }
}

impl ItemShown {
    /// An equal value.
    pub fn clone(&self, alloc: Global) -> Result<ItemShown, AllocError>
        ensures { IfOk result (λ item. item ≡ self.now) }
    {
        Ok(ItemShown {
            kind: self.kind,
            actions: self.actions,
            identifier: clone_path(&self.identifier, alloc)?,
            limits: clone_limits(&self.limits, alloc)?,
        })
    }
}

impl IncomingShown {
    /// An equal value.
    pub fn clone(&self, alloc: Global) -> Result<IncomingShown, AllocError>
        ensures { IfOk result (λ incoming. incoming ≡ self.now) }
    {
        Ok(IncomingShown {
            number: self.number,
            path: self.path.clone(alloc)?,
            amount: self.amount,
            received: self.received,
            completed: self.completed,
            made: self.made,
            expiry: self.expiry,
            metadata: clone_metadata(&self.metadata, alloc)?,
        })
    }
}

impl QuoteShown {
    /// An equal value.
    pub fn clone(&self, alloc: Global) -> Result<QuoteShown, AllocError>
        ensures { IfOk result (λ quote. quote ≡ self.now) }
    {
        Ok(QuoteShown {
            number: self.number,
            path: self.path.clone(alloc)?,
            incoming: self.incoming,
            debit: self.debit,
            receive: self.receive,
            made: self.made,
            expiry: self.expiry,
        })
    }
}

impl OutgoingShown {
    /// An equal value.
    pub fn clone(&self, alloc: Global) -> Result<OutgoingShown, AllocError>
        ensures { IfOk result (λ outgoing. outgoing ≡ self.now) }
    {
        Ok(OutgoingShown {
            number: self.number,
            path: self.path.clone(alloc)?,
            quote: self.quote,
            incoming: self.incoming,
            debit: self.debit,
            receive: self.receive,
            sent: self.sent,
            failed: self.failed,
            made: self.made,
            metadata: clone_metadata(&self.metadata, alloc)?,
        })
    }
}

impl FeedEvent {
    /// An equal value.
    pub fn clone(&self, alloc: Global) -> Result<FeedEvent, AllocError>
        ensures { IfOk result (λ event. event ≡ self.now) }
    {
        Ok(FeedEvent {
            sent: self.sent,
            incoming: self.incoming,
            payee: self.payee.clone(alloc)?,
        })
    }
}

fn clone_items(items: &[ItemShown], alloc: Global) -> Result<Vec<ItemShown>, AllocError>
    ensures { IfOk result (λ found. found.items ≡ items.now) }
{
    let mut copied = Vec::new(alloc);
    for item in items {
        copied.push(item.clone(alloc)?)?;
    }
    Ok(copied)
}

impl Rows<ItemShown> {
    /// An equal list.
    pub fn clone(&self, alloc: Global) -> Result<Rows<ItemShown>, AllocError>
        ensures { IfOk result (λ rows. rows ≡ self.now) }
    {
        Ok(Rows {
            kept: clone_items(&self.kept, alloc)?,
        })
    }
}

fn clone_incomings(items: &[IncomingShown], alloc: Global) -> Result<Vec<IncomingShown>, AllocError>
    ensures { IfOk result (λ found. found.items ≡ items.now) }
{
    let mut copied = Vec::new(alloc);
    for item in items {
        copied.push(item.clone(alloc)?)?;
    }
    Ok(copied)
}

impl Rows<IncomingShown> {
    /// An equal list.
    pub fn clone(&self, alloc: Global) -> Result<Rows<IncomingShown>, AllocError>
        ensures { IfOk result (λ rows. rows ≡ self.now) }
    {
        Ok(Rows {
            kept: clone_incomings(&self.kept, alloc)?,
        })
    }
}

fn clone_outgoings(items: &[OutgoingShown], alloc: Global) -> Result<Vec<OutgoingShown>, AllocError>
    ensures { IfOk result (λ found. found.items ≡ items.now) }
{
    let mut copied = Vec::new(alloc);
    for item in items {
        copied.push(item.clone(alloc)?)?;
    }
    Ok(copied)
}

impl Rows<OutgoingShown> {
    /// An equal list.
    pub fn clone(&self, alloc: Global) -> Result<Rows<OutgoingShown>, AllocError>
        ensures { IfOk result (λ rows. rows ≡ self.now) }
    {
        Ok(Rows {
            kept: clone_outgoings(&self.kept, alloc)?,
        })
    }
}

fn clone_events(items: &[FeedEvent], alloc: Global) -> Result<Vec<FeedEvent>, AllocError>
    ensures { IfOk result (λ found. found.items ≡ items.now) }
{
    let mut copied = Vec::new(alloc);
    for item in items {
        copied.push(item.clone(alloc)?)?;
    }
    Ok(copied)
}

impl Rows<FeedEvent> {
    /// An equal list.
    pub fn clone(&self, alloc: Global) -> Result<Rows<FeedEvent>, AllocError>
        ensures { IfOk result (λ rows. rows ≡ self.now) }
    {
        Ok(Rows {
            kept: clone_events(&self.kept, alloc)?,
        })
    }
}

impl ReplyBody {
    /// An equal value.
    pub fn clone(&self, alloc: Global) -> Result<ReplyBody, AllocError>
        ensures { IfOk result (λ body. body ≡ self.now) }
    {
        match self {
            ReplyBody::OriginSet { origin } => Ok(ReplyBody::OriginSet { origin: *origin }),
            ReplyBody::AssetAdded { asset, pieces } => Ok(ReplyBody::AssetAdded {
                asset: *asset,
                pieces: *pieces,
            }),
            ReplyBody::AssetInspected {
                asset,
                pieces,
                pool,
                fees,
                total,
            } => Ok(ReplyBody::AssetInspected {
                asset: *asset,
                pieces: *pieces,
                pool: *pool,
                fees: *fees,
                total: *total,
            }),
            ReplyBody::AddressAdded { number, address } => Ok(ReplyBody::AddressAdded {
                number: *number,
                address: address.clone(alloc)?,
            }),
            ReplyBody::AddressInspected {
                number,
                path,
                available,
                posted,
            } => Ok(ReplyBody::AddressInspected {
                number: *number,
                path: path.clone(alloc)?,
                available: *available,
                posted: *posted,
            }),
            ReplyBody::Transferred {
                transfer,
                account,
                amount,
            } => Ok(ReplyBody::Transferred {
                transfer: transfer.clone(alloc)?,
                account: account.clone(alloc)?,
                amount: *amount,
            }),
            ReplyBody::RateSet {
                source,
                target,
                rate,
            } => Ok(ReplyBody::RateSet {
                source: *source,
                target: *target,
                rate: *rate,
            }),
            ReplyBody::GrantDecided { redirect } => Ok(ReplyBody::GrantDecided {
                redirect: clone_redirect(redirect, alloc)?,
            }),
            ReplyBody::OutgoingInspected { number, payment } => Ok(ReplyBody::OutgoingInspected {
                number: *number,
                payment: *payment,
            }),
            ReplyBody::AddressRead { address } => Ok(ReplyBody::AddressRead {
                address: address.clone(alloc)?,
            }),
            ReplyBody::GrantIssued {
                number,
                items,
                access,
                continuation,
            } => Ok(ReplyBody::GrantIssued {
                number: *number,
                items: items.clone(alloc)?,
                access: *access,
                continuation: *continuation,
            }),
            ReplyBody::GrantPending {
                number,
                nonce,
                continuation,
            } => Ok(ReplyBody::GrantPending {
                number: *number,
                nonce: *nonce,
                continuation: *continuation,
            }),
            ReplyBody::GrantPolled {
                number,
                continuation,
            } => Ok(ReplyBody::GrantPolled {
                number: *number,
                continuation: *continuation,
            }),
            ReplyBody::TokenRotated {
                number,
                items,
                access,
            } => Ok(ReplyBody::TokenRotated {
                number: *number,
                items: items.clone(alloc)?,
                access: *access,
            }),
            ReplyBody::NoContent => Ok(ReplyBody::NoContent),
            ReplyBody::IncomingMade { incoming } => Ok(ReplyBody::IncomingMade {
                incoming: incoming.clone(alloc)?,
            }),
            ReplyBody::IncomingRead { incoming } => Ok(ReplyBody::IncomingRead {
                incoming: incoming.clone(alloc)?,
            }),
            ReplyBody::IncomingsListed {
                rows,
                has_previous,
                has_next,
            } => Ok(ReplyBody::IncomingsListed {
                rows: rows.clone(alloc)?,
                has_previous: *has_previous,
                has_next: *has_next,
            }),
            ReplyBody::QuoteMade { quote } => Ok(ReplyBody::QuoteMade {
                quote: quote.clone(alloc)?,
            }),
            ReplyBody::QuoteRead { quote } => Ok(ReplyBody::QuoteRead {
                quote: quote.clone(alloc)?,
            }),
            ReplyBody::OutgoingMade { outgoing, spent } => Ok(ReplyBody::OutgoingMade {
                outgoing: outgoing.clone(alloc)?,
                spent: *spent,
            }),
            ReplyBody::OutgoingRead { outgoing } => Ok(ReplyBody::OutgoingRead {
                outgoing: outgoing.clone(alloc)?,
            }),
            ReplyBody::OutgoingsListed {
                rows,
                has_previous,
                has_next,
            } => Ok(ReplyBody::OutgoingsListed {
                rows: rows.clone(alloc)?,
                has_previous: *has_previous,
                has_next: *has_next,
            }),
            ReplyBody::FeedRead { events } => Ok(ReplyBody::FeedRead {
                events: events.clone(alloc)?,
            }),
            ReplyBody::Refused(value) => Ok(ReplyBody::Refused(value.clone(alloc)?)),
            ReplyBody::Stepped(value) => Ok(ReplyBody::Stepped(*value)),
            ReplyBody::Noted => Ok(ReplyBody::Noted),
            ReplyBody::NotDue => Ok(ReplyBody::NotDue),
        }
    }
}

impl Reply {
    /// An equal value.
    pub fn clone(&self, alloc: Global) -> Result<Reply, AllocError>
        ensures { IfOk result (λ reply. reply ≡ self.now) }
    {
        Ok(Reply {
            origin: self.origin,
            body: self.body.clone(alloc)?,
        })
    }
}
