//! The bodies of replies on grants (RFC 9635, sections 3.1 to 3.3).
ghost use Rattle.std.specs.Prelude.{◌≡◌, ℕ, List, IfOk, IfSome, codes, map, option_map};
ghost use Rattle.serde_json.specs.Data.{object as object_data, string, member, no_members};
ghost use Rattle.op_model.specs.declared.reply.ItemShown.{ItemShown};
ghost use Rattle.std.specs.Str.{IsUtf8};
ghost use Rattle.op_model.specs.Bodies.{list, limits_data, item_data, token_data, continue_data, interact_data, issued_data, pending_data, polled_data, rotated_data};
ghost use Rattle.op_reply.specs.Values.{data_of};
ghost use Rattle.op_reply.specs.Printable.{IsLimitsText, IsItemText, AreItemTexts};

use crate::fields::{Field, object, two_of};
use crate::values::Json;
use op_model::{ItemShown, LimitsShown};
use op_names::{Kind, Origin, SecretText};
use std::alloc::{AllocError, Global};

/// How many seconds a client is to wait before it asks again.
const WAIT: u8 = 5;

fn limits<'x>(
    alloc: Global,
    origin: &'x Origin,
    limits: &'x LimitsShown,
) -> Result<Json, AllocError>
    requires origin { IsUtf8 origin.now }
    requires texts { IsLimitsText limits.now }
    ensures { IfOk result (λ json. data_of json ≡ limits_data origin.now limits.now) }
{
    object(
        alloc,
        &[
            ("debitAmount", Field::AmountIf(&limits.debit)),
            ("interval", Field::IntervalIf(&limits.interval)),
            ("receiveAmount", Field::AmountIf(&limits.receive)),
            (
                "receiver",
                Field::RowUrlIf(
                    origin,
                    "/incoming-payments/",
                    Kind::Incoming,
                    limits.receiver,
                ),
            ),
        ],
    )
}

fn limits_if(
    alloc: Global,
    origin: &Origin,
    shown: &Option<LimitsShown>,
) -> Result<Option<Json>, AllocError>
    requires origin { IsUtf8 origin.now }
    requires texts { IfSome shown.now IsLimitsText }
    ensures { IfOk result (λ json. option_map data_of json ≡ option_map (limits_data origin.now) shown.now) }
{
    match shown {
        Some(shown) => Ok(Some(limits(alloc, origin, shown)?)),
        None => Ok(None),
    }
}

/// One kind of access.
fn item(alloc: Global, origin: &Origin, shown: &ItemShown) -> Result<Json, AllocError>
    requires origin { IsUtf8 origin.now }
    requires texts { IsItemText shown.now }
    ensures { IfOk result (λ json. data_of json ≡ item_data origin.now shown.now) }
{
    let limits = limits_if(alloc, origin, &shown.limits)?;
    item_with(alloc, origin, shown, &limits)
}

/// The same, with its limits printed.
fn item_with<'x>(
    alloc: Global,
    origin: &'x Origin,
    shown: &'x ItemShown,
    limits: &'x Option<Json>,
) -> Result<Json, AllocError>
    requires origin { IsUtf8 origin.now }
    requires texts { IsItemText shown.now }
    requires limits { option_map data_of limits.now ≡ option_map (limits_data origin.now) shown.now.limits }
    ensures { IfOk result (λ json. data_of json ≡ item_data origin.now shown.now) }
{
    object(
        alloc,
        &[
            ("actions", Field::Actions(shown.actions)),
            ("identifier", Field::AddressUrlIf(origin, &shown.identifier)),
            ("limits", Field::JsonIf(limits)),
            ("type", Field::ItemType(shown.kind)),
        ],
    )
}

/// What a token is good for.
fn items(alloc: Global, origin: &Origin, shown: &[ItemShown]) -> Result<Vec<Json>, AllocError>
    requires origin { IsUtf8 origin.now }
    requires texts { AreItemTexts shown.now }
    ensures { IfOk result (λ values. map data_of values.items ≡ map (item_data origin.now) shown.now) }
{
    let mut values = Vec::new(alloc);
    for shown in shown {
        values.push(item(alloc, origin, shown)?)?;
    }
    Ok(values)
}

/// An access token: what it is good for, how many seconds it lives, where it is managed, and its value.
fn token(
    alloc: Global,
    origin: &Origin,
    grant: u64,
    shown: &[ItemShown],
    value: &SecretText,
) -> Result<Json, AllocError>
    requires origin { IsUtf8 origin.now }
    requires texts { AreItemTexts shown.now }
    requires value { IsUtf8 value.now }
    ensures { IfOk result (λ json. data_of json ≡ token_data origin.now grant shown.now value.now) }
{
    let access = Json::list(alloc, items(alloc, origin, shown)?)?;
    token_with(alloc, origin, grant, &access, value)
}

/// The same, with what it is good for printed.
fn token_with<'x>(
    alloc: Global,
    origin: &'x Origin,
    grant: u64,
    access: &'x Json,
    value: &'x SecretText,
) -> Result<Json, AllocError>
    requires origin { IsUtf8 origin.now }
    requires value { IsUtf8 value.now }
    ensures { IfOk result (λ json. (shown : List ItemShown) → data_of access.now ≡ list (map (item_data origin.now) shown)
        → data_of json ≡ token_data origin.now grant shown value.now) }
{
    object(
        alloc,
        &[
            ("access", Field::Json(access)),
            ("expires_in", Field::Number(600)),
            (
                "manage",
                Field::RowUrl(origin, "/token/", Kind::Grant, grant),
            ),
            ("value", Field::Secret(value)),
        ],
    )
}

/// How a request is continued: with which token, where, and after how many seconds.
fn continuation(
    alloc: Global,
    origin: &Origin,
    grant: u64,
    token: &SecretText,
    wait: Option<u8>,
) -> Result<Json, AllocError>
    requires origin { IsUtf8 origin.now }
    requires token { IsUtf8 token.now }
    ensures { IfOk result (λ json. data_of json ≡ continue_data origin.now grant token.now wait) }
{
    let token = object(alloc, &[("value", Field::Secret(token))])?;
    continuation_with(alloc, origin, grant, &token, wait)
}

/// The same, with the token printed.
fn continuation_with<'x>(
    alloc: Global,
    origin: &'x Origin,
    grant: u64,
    token: &'x Json,
    wait: Option<u8>,
) -> Result<Json, AllocError>
    requires origin { IsUtf8 origin.now }
    ensures { IfOk result (λ json. (value : List ℕ) → data_of token.now ≡ object_data (member (codes "value") (string value) no_members)
        → data_of json ≡ continue_data origin.now grant value wait) }
{
    object(
        alloc,
        &[
            ("access_token", Field::Json(token)),
            (
                "uri",
                Field::RowUrl(origin, "/continue/", Kind::Grant, grant),
            ),
            ("wait", Field::SmallIf(wait)),
        ],
    )
}

/// Where the client sends its user, and the server's nonce where the client asked for a finish.
fn interaction<'x>(
    alloc: Global,
    origin: &'x Origin,
    grant: u64,
    nonce: &'x Option<SecretText>,
) -> Result<Json, AllocError>
    requires origin { IsUtf8 origin.now }
    requires nonce { IfSome nonce.now IsUtf8 }
    ensures { IfOk result (λ json. data_of json ≡ interact_data origin.now grant nonce.now) }
{
    object(
        alloc,
        &[
            ("finish", Field::SecretIf(nonce)),
            (
                "redirect",
                Field::RowUrl(origin, "/interact/", Kind::Grant, grant),
            ),
        ],
    )
}

/// A grant with its token.
pub fn issued(
    alloc: Global,
    origin: &Origin,
    grant: u64,
    shown: &[ItemShown],
    access: &SecretText,
    continuing: &SecretText,
) -> Result<Json, AllocError>
    requires origin { IsUtf8 origin.now }
    requires texts { AreItemTexts shown.now }
    requires access { IsUtf8 access.now }
    requires continuing { IsUtf8 continuing.now }
    ensures { IfOk result (λ json. data_of json ≡ issued_data origin.now grant shown.now access.now continuing.now) }
{
    let token = token(alloc, origin, grant, shown, access)?;
    let continuation = continuation(alloc, origin, grant, continuing, None)?;
    two_of(alloc, "access_token", &token, "continue", &continuation)
}

/// A grant that waits for its user.
pub fn pending(
    alloc: Global,
    origin: &Origin,
    grant: u64,
    nonce: &Option<SecretText>,
    continuing: &SecretText,
) -> Result<Json, AllocError>
    requires origin { IsUtf8 origin.now }
    requires nonce { IfSome nonce.now IsUtf8 }
    requires continuing { IsUtf8 continuing.now }
    ensures { IfOk result (λ json. data_of json ≡ pending_data origin.now grant nonce.now continuing.now) }
{
    let continuation = continuation(alloc, origin, grant, continuing, Some(WAIT))?;
    let interaction = interaction(alloc, origin, grant, nonce)?;
    two_of(alloc, "continue", &continuation, "interact", &interaction)
}

/// A grant that still waits.
pub fn polled(
    alloc: Global,
    origin: &Origin,
    grant: u64,
    continuing: &SecretText,
) -> Result<Json, AllocError>
    requires origin { IsUtf8 origin.now }
    requires continuing { IsUtf8 continuing.now }
    ensures { IfOk result (λ json. data_of json ≡ polled_data origin.now grant continuing.now) }
{
    let continuation = continuation(alloc, origin, grant, continuing, Some(WAIT))?;
    object(alloc, &[("continue", Field::Json(&continuation))])
}

/// A new access token in place of the old one (RFC 9635, section 6.1).
pub fn rotated(
    alloc: Global,
    origin: &Origin,
    grant: u64,
    shown: &[ItemShown],
    access: &SecretText,
) -> Result<Json, AllocError>
    requires origin { IsUtf8 origin.now }
    requires texts { AreItemTexts shown.now }
    requires access { IsUtf8 access.now }
    ensures { IfOk result (λ json. data_of json ≡ rotated_data origin.now grant shown.now access.now) }
{
    let token = token(alloc, origin, grant, shown, access)?;
    object(alloc, &[("access_token", Field::Json(&token))])
}
