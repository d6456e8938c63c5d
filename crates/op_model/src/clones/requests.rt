//! Equal copies of requests and tasks.
ghost use Rattle.std.specs.Prelude.{◌≡◌, IfOk, map, take, drop};

use crate::clones::acts::clone_text;
use crate::clones::grants::clone_interval;
use crate::metadata::MetaText;
use crate::request::{AccountName, AskedItem, AskedLimits, Request, Task, Verdict};
use crate::rows::Rows;
use op_names::{AddressName, ClientText};
use std::alloc::{AllocError, Global};

fn clone_address(
    value: &Option<AddressName>,
    alloc: Global,
) -> Result<Option<AddressName>, AllocError>
    ensures { IfOk result (λ found. found ≡ value.now) }
{
    match value {
        Some(some) => Ok(Some(some.clone(alloc)?)),
        None => Ok(None),
    }
}

fn clone_client(value: &Option<ClientText>, alloc: Global) -> Result<Option<ClientText>, AllocError>
    ensures { IfOk result (λ found. found ≡ value.now) }
{
    match value {
        Some(some) => Ok(Some(some.clone(alloc)?)),
        None => Ok(None),
    }
}

pub(crate) fn clone_metadata(
    value: &Option<MetaText>,
    alloc: Global,
) -> Result<Option<MetaText>, AllocError>
    ensures { IfOk result (λ found. found ≡ value.now) }
{
    match value {
        Some(some) => Ok(Some(some.clone(alloc)?)),
        None => Ok(None),
    }
}

fn clone_identifier(
    value: &Option<Option<AddressName>>,
    alloc: Global,
) -> Result<Option<Option<AddressName>>, AllocError>
    ensures { IfOk result (λ found. found ≡ value.now) }
{
    match value {
        Some(name) => Ok(Some(clone_address(name, alloc)?)),
        None => Ok(None),
    }
}

impl AccountName {
    /// An equal value.
    pub fn clone(&self, alloc: Global) -> Result<AccountName, AllocError>
        ensures { IfOk result (λ name. name ≡ self.now) }
    {
        match self {
            AccountName::Pool => Ok(AccountName::Pool),
            AccountName::Fees => Ok(AccountName::Fees),
            AccountName::Address(value) => Ok(AccountName::Address(clone_address(value, alloc)?)),
        }
    }
}

impl AskedLimits {
    /// An equal value.
    pub fn clone(&self, alloc: Global) -> Result<AskedLimits, AllocError>
        ensures { IfOk result (λ limits. limits ≡ self.now) }
    {
        Ok(AskedLimits {
            receiver: self.receiver,
            cap: self.cap,
            interval: clone_interval(&self.interval, alloc)?,
        })
    }
}

fn clone_limits(
    value: &Option<AskedLimits>,
    alloc: Global,
) -> Result<Option<AskedLimits>, AllocError>
    ensures { IfOk result (λ found. found ≡ value.now) }
{
    match value {
        Some(some) => Ok(Some(some.clone(alloc)?)),
        None => Ok(None),
    }
}

impl AskedItem {
    /// An equal value.
    pub fn clone(&self, alloc: Global) -> Result<AskedItem, AllocError>
        ensures { IfOk result (λ item. item ≡ self.now) }
    {
        Ok(AskedItem {
            kind: self.kind,
            actions: self.actions,
            identifier: clone_identifier(&self.identifier, alloc)?,
            limits: clone_limits(&self.limits, alloc)?,
        })
    }
}

fn clone_items(items: &[AskedItem], alloc: Global) -> Result<Vec<AskedItem>, AllocError>
    ensures { IfOk result (λ found. found.items ≡ items.now) }
{
    let mut copied = Vec::new(alloc);
    for item in items {
        copied.push(item.clone(alloc)?)?;
    }
    Ok(copied)
}

impl Rows<AskedItem> {
    /// An equal list.
    pub fn clone(&self, alloc: Global) -> Result<Rows<AskedItem>, AllocError>
        ensures { IfOk result (λ rows. rows ≡ self.now) }
    {
        Ok(Rows {
            kept: clone_items(&self.kept, alloc)?,
        })
    }
}

impl Request {
    /// An equal value.
    pub fn clone(&self, alloc: Global) -> Result<Request, AllocError>
        ensures { IfOk result (λ request. request ≡ self.now) }
    {
        match self {
            Request::SetOrigin { origin } => Ok(Request::SetOrigin { origin: *origin }),
            Request::AddAsset { asset, pieces } => Ok(Request::AddAsset {
                asset: *asset,
                pieces: *pieces,
            }),
            Request::InspectAsset { asset } => Ok(Request::InspectAsset { asset: *asset }),
            Request::AddAddress { path, asset, name } => Ok(Request::AddAddress {
                path: path.clone(alloc)?,
                asset: *asset,
                name: clone_text(name, alloc)?,
            }),
            Request::InspectAddress { address } => Ok(Request::InspectAddress {
                address: *address,
            }),
            Request::Deposit {
                transfer,
                account,
                amount,
            } => Ok(Request::Deposit {
                transfer: transfer.clone(alloc)?,
                account: account.clone(alloc)?,
                amount: *amount,
            }),
            Request::Withdraw {
                transfer,
                account,
                amount,
            } => Ok(Request::Withdraw {
                transfer: transfer.clone(alloc)?,
                account: account.clone(alloc)?,
                amount: *amount,
            }),
            Request::SetRate {
                source,
                target,
                rate,
            } => Ok(Request::SetRate {
                source: *source,
                target: *target,
                rate: *rate,
            }),
            Request::AcceptGrant { grant } => Ok(Request::AcceptGrant { grant: *grant }),
            Request::RejectGrant { grant } => Ok(Request::RejectGrant { grant: *grant }),
            Request::InspectOutgoing { payment } => Ok(Request::InspectOutgoing {
                payment: *payment,
            }),
            Request::CancelOutgoing { payment } => Ok(Request::CancelOutgoing {
                payment: *payment,
            }),
            Request::ReadAddress { path } => Ok(Request::ReadAddress {
                path: path.clone(alloc)?,
            }),
            Request::AskGrant {
                items,
                client,
                interact,
            } => Ok(Request::AskGrant {
                items: items.clone(alloc)?,
                client: clone_client(client, alloc)?,
                interact: interact.clone(alloc)?,
            }),
            Request::ContinueGrant { grant, reference } => Ok(Request::ContinueGrant {
                grant: *grant,
                reference: *reference,
            }),
            Request::CancelGrant { grant } => Ok(Request::CancelGrant { grant: *grant }),
            Request::RotateToken { grant } => Ok(Request::RotateToken { grant: *grant }),
            Request::RevokeToken { grant } => Ok(Request::RevokeToken { grant: *grant }),
            Request::MakeIncoming {
                address,
                amount,
                expiry,
                metadata,
            } => Ok(Request::MakeIncoming {
                address: clone_address(address, alloc)?,
                amount: *amount,
                expiry: *expiry,
                metadata: clone_metadata(metadata, alloc)?,
            }),
            Request::ListIncomings {
                address,
                first,
                cursor,
            } => Ok(Request::ListIncomings {
                address: clone_address(address, alloc)?,
                first: *first,
                cursor: *cursor,
            }),
            Request::ReadIncoming { incoming } => Ok(Request::ReadIncoming {
                incoming: *incoming,
            }),
            Request::CompleteIncoming { incoming } => Ok(Request::CompleteIncoming {
                incoming: *incoming,
            }),
            Request::MakeQuote {
                address,
                receiver,
                asked,
            } => Ok(Request::MakeQuote {
                address: clone_address(address, alloc)?,
                receiver: *receiver,
                asked: *asked,
            }),
            Request::ReadQuote { quote } => Ok(Request::ReadQuote { quote: *quote }),
            Request::MakeOutgoing {
                address,
                asked,
                metadata,
            } => Ok(Request::MakeOutgoing {
                address: clone_address(address, alloc)?,
                asked: *asked,
                metadata: clone_metadata(metadata, alloc)?,
            }),
            Request::ListOutgoings {
                address,
                first,
                cursor,
            } => Ok(Request::ListOutgoings {
                address: clone_address(address, alloc)?,
                first: *first,
                cursor: *cursor,
            }),
            Request::ReadOutgoing { outgoing } => Ok(Request::ReadOutgoing {
                outgoing: *outgoing,
            }),
            Request::ReadFeed { address, page } => Ok(Request::ReadFeed {
                address: clone_address(address, alloc)?,
                page: *page,
            }),
        }
    }
}

impl Verdict {
    /// An equal value.
    pub fn clone(&self, alloc: Global) -> Result<Verdict, AllocError>
        ensures { IfOk result (λ verdict. verdict ≡ self.now) }
    {
        Ok(Verdict {
            client: clone_client(&self.client, alloc)?,
            proved: self.proved,
            token: self.token,
        })
    }
}

impl Task {
    /// An equal value.
    pub fn clone(&self, alloc: Global) -> Result<Task, AllocError>
        ensures { IfOk result (λ task. task ≡ self.now) }
    {
        match self {
            Task::Ask { request, verdict } => Ok(Task::Ask {
                request: request.clone(alloc)?,
                verdict: verdict.clone(alloc)?,
            }),
            Task::Step { payment, k } => Ok(Task::Step {
                payment: *payment,
                k: *k,
            }),
            Task::Expire { incoming } => Ok(Task::Expire {
                incoming: *incoming,
            }),
            Task::Attempt { event, outcome } => Ok(Task::Attempt {
                event: *event,
                outcome: *outcome,
            }),
        }
    }
}
