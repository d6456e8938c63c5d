//! Plans of requests that make or complete an incoming payment.

ghost use Rattle.std.specs.Prelude.{◌≡◌, ◌+◌, ℕ, List, IfOk, Some, None, false, option_map};
ghost use Rattle.std.specs.Option.{option_map_or};
ghost use Rattle.op_model.specs.Asking.{address_named, refuse_with};
ghost use Rattle.op_model.specs.PaymentAnswers.{expiry_of, incoming_refusals, is_strange_amount};
ghost use Rattle.op_model.specs.declared.act.Entry.{Entry};
ghost use Rattle.op_model.specs.declared.request.Request.TheVariants.{MakeIncoming, CompleteIncoming};
ghost use Rattle.op_model.specs.declared.request.Verdict.{Verdict as AnyVerdict};
ghost use Rattle.op_naming.specs.Names.{AreNames};
ghost use Rattle.op_plans.specs.Plans.{IsPlan};
ghost use Rattle.op_token_plans.specs.Answered.{IsAnswered};
ghost use Rattle.op_token_plans.specs.Incomings.{completion, making, made_plan};
ghost use Rattle.op_token_plans.specs.Parts.{ArePartsOf};

use crate::actions::{COMPLETE, CREATE, INCOMING_PAYMENT};
use crate::asking::{Asking, admit};
use crate::looks::{Needed, looks_at_address, looks_at_row};
use crate::parts::Parts;
use crate::reading::incoming_place;
use crate::shown::{amount_in, asset_of, copy_metadata, path_of, shown_incoming};
use op_amount::{Amount, Asset};
use op_model::{Act, IncomingRow, IncomingShown, MetaText, Refusal, ReplyBody, Text};
use op_names::{AddressName, AddressPath};
use op_naming::Names;
use op_plans::Plan;
use op_time::Moment;
use std::alloc::{AllocError, Global};

/// How long an incoming payment lives where no expiry is asked for, in milliseconds: 30 days.
const LIFETIME: u64 = 2_592_000_000;

/// An incoming payment that a client asks for.
#[derive(Clone, Copy)]
pub struct IncomingAsked<'a> {
    pub address: &'a Option<AddressName>,
    /// How much it takes. `None` where there is no bound.
    pub amount: Option<Amount>,
    pub expiry: Option<Moment>,
    pub metadata: &'a Option<MetaText>,
}

/// Completing an incoming payment (Open Payments, incoming payments).
pub fn plan_complete_incoming(
    alloc: Global,
    parts: &Parts<'_>,
    asking: &Asking<'_>,
    incoming: Option<u64>,
) -> Result<Plan, AllocError>
    ensures { IfOk result (λ plan. (history : List Entry) (word : List ℕ) (fee : ℕ) → ArePartsOf history parts.now
        → IsPlan history asking.now.at word fee (CompleteIncoming incoming) asking.now.verdict.now plan) }
{
    let needed = Needed {
        kind: INCOMING_PAYMENT,
        need: COMPLETE,
        all: 0,
    };
    let place = incoming_place(parts.money, incoming);
    let looks = looks_at_row(parts.grants, asking.client(), needed, place);
    match admit(parts.grants, asking, &looks) {
        Ok(grant) => complete(alloc, parts, asking.at, grant, incoming),
        Err(refusal) => Ok(Plan::Refused(refusal)),
    }
}

// The plan of a completion whose access passes.
fn complete(
    alloc: Global,
    parts: &Parts<'_>,
    at: Moment,
    grant: u64,
    incoming: Option<u64>,
) -> Result<Plan, AllocError>
    ensures { IfOk result (λ plan. (history : List Entry) (verdict : AnyVerdict) → ArePartsOf history parts.now
        → IsAnswered history at (CompleteIncoming incoming) verdict (completion history at incoming grant) plan) }
{
    let Some(number) = incoming else {
        return Ok(Plan::Refused(Refusal::NotFound));
    };
    let Some(shown) = shown_incoming(alloc, parts.names, parts.money, Some(number))? else {
        return Ok(Plan::Refused(Refusal::NotFound));
    };
    if !parts.money.is_open(number, at) {
        return Ok(Plan::Refused(Refusal::AlreadyClosed));
    }
    Ok(Plan::Acts {
        act: Act::IncomingCompleted {
            grant,
            incoming: number,
        },
        body: ReplyBody::IncomingRead {
            incoming: IncomingShown {
                completed: true,
                ..shown
            },
        },
    })
}

/// Making an incoming payment (Open Payments, incoming payments).
pub fn plan_make_incoming(
    alloc: Global,
    parts: &Parts<'_>,
    asking: &Asking<'_>,
    asked: &IncomingAsked<'_>,
) -> Result<Plan, AllocError>
    ensures { IfOk result (λ plan. (history : List Entry) (word : List ℕ) (fee : ℕ) → ArePartsOf history parts.now
        → IsPlan history asking.now.at word fee (MakeIncoming asked.now.address.now asked.now.amount asked.now.expiry asked.now.metadata.now) asking.now.verdict.now plan) }
{
    let address = find_address(parts.names, asked.address);
    let looks = looks_at_address(INCOMING_PAYMENT, CREATE, address);
    match admit(parts.grants, asking, &looks) {
        Ok(grant) => make(alloc, parts, asking.at, grant, address, asked),
        Err(refusal) => Ok(Plan::Refused(refusal)),
    }
}

// The plan of a new payment for an address, where that is there. Its access has passed.
fn make(
    alloc: Global,
    parts: &Parts<'_>,
    at: Moment,
    grant: u64,
    address: Option<u32>,
    asked: &IncomingAsked<'_>,
) -> Result<Plan, AllocError>
    ensures { IfOk result (λ plan. (history : List Entry) (verdict : AnyVerdict) → ArePartsOf history parts.now
        → address ≡ address_named history asked.now.address.now
        → IsAnswered history at (MakeIncoming asked.now.address.now asked.now.amount asked.now.expiry asked.now.metadata.now) verdict (making history at address asked.now grant) plan) }
{
    let Some(address) = address else {
        return Ok(Plan::Refused(Refusal::NotFound));
    };
    let Some(asset) = asset_of(parts.names, address) else {
        return Ok(Plan::Refused(Refusal::NotFound));
    };
    if is_strange(parts.names, asked.amount) {
        return Ok(Plan::Refused(Refusal::NotFound));
    }
    let expiry = expiry_of(at, asked.expiry);
    if let Some(refusal) = making_refusal(at, asset, asked.amount, expiry) {
        return Ok(Plan::Refused(refusal));
    }
    let Some(path) = path_of(alloc, parts.names, address)? else {
        return Ok(Plan::Refused(Refusal::NotFound));
    };
    let row = IncomingRow {
        address,
        grant,
        amount: value_of(asked.amount),
        expiry,
        made: at,
        metadata: copy_metadata(asked.metadata, alloc)?,
    };
    match parts.money.incoming_count().checked_add(1) {
        Some(number) => made(alloc, number, path, &asset, &row),
        // No list is so long.
        None => Err(AllocError),
    }
}

// The plan of a new payment, with its number, the path of its address, and their asset.
fn made(
    alloc: Global,
    number: u64,
    path: AddressPath,
    asset: &Asset,
    row: &IncomingRow,
) -> Result<Plan, AllocError>
    ensures { IfOk result (λ plan. plan ≡ made_plan number path asset.now row.now) }
{
    Ok(Plan::Acts {
        act: Act::IncomingMade {
            grant: row.grant,
            address: row.address,
            amount: row.amount,
            expiry: row.expiry,
            metadata: text_of(&row.metadata, alloc)?,
        },
        body: ReplyBody::IncomingMade {
            incoming: IncomingShown {
                number,
                path,
                amount: amount_in(*asset, row.amount),
                received: Amount {
                    value: 0,
                    asset: *asset,
                },
                completed: false,
                made: row.made,
                expiry: row.expiry,
                metadata: copy_metadata(&row.metadata, alloc)?,
            },
        },
    })
}

// The bytes of metadata, as an act keeps them.
fn text_of(metadata: &Option<MetaText>, alloc: Global) -> Result<Option<Text>, AllocError>
    ensures { IfOk result (λ text. text ≡ metadata.now) }
{
    match metadata {
        Some(metadata) => Ok(Some(Text::new(Vec::from_slice(alloc, metadata.bytes())?))),
        None => Ok(None),
    }
}

// The value of an amount, where there is one.
fn value_of(amount: Option<Amount>) -> Option<u64>
    ensures { result ≡ option_map (λ a. a.value) amount }
{
    match amount {
        Some(amount) => Some(amount.value),
        None => None,
    }
}

// The number of the address of a name, if it is there.
fn find_address(names: &Names, name: &Option<AddressName>) -> Option<u32>
    ensures { (history : List Entry) → AreNames history names.now → result ≡ address_named history name.now }
{
    match name {
        Some(name) => names.find_address(name),
        None => None,
    }
}

// Whether an amount is in an asset that was never added.
fn is_strange(names: &Names, amount: Option<Amount>) -> bool
    ensures { (history : List Entry) → AreNames history names.now → result ≡ option_map_or (is_strange_amount history) amount false }
{
    match amount {
        Some(amount) => names.find_asset(&amount.asset).is_none(),
        None => false,
    }
}

// The expiry that is asked for, or the one behind the lifetime.
fn expiry_of(at: Moment, expiry: Option<Moment>) -> Moment
    ensures { result ≡ expiry_of at expiry }
{
    match expiry {
        Some(expiry) => expiry,
        None => Moment::at_most_last(at.ms() + LIFETIME),
    }
}

// Why a payment of an asset is not made at a moment.
fn making_refusal(
    at: Moment,
    asset: Asset,
    amount: Option<Amount>,
    expiry: Moment,
) -> Option<Refusal>
    ensures { refuse_with result ≡ incoming_refusals at asset amount expiry }
{
    if let Some(amount) = amount {
        if amount.value == 0 {
            return Some(Refusal::ZeroAmount);
        }
        if !amount.asset.is_same(&asset) {
            return Some(Refusal::AssetMismatch);
        }
    }
    if expiry.ms() <= at.ms() {
        return Some(Refusal::ExpiresInPast);
    }
    None
}
