//! What refusals say: `{"error":{..}}` with a code, and what else they tell.
ghost use Rattle.std.specs.Prelude.{◌≡◌, Some, None, IfOk, IfSome, IsTrue, ℕ, List, codes};
ghost use Rattle.std.specs.Str.{IsUtf8};
ghost use Rattle.op_model.specs.Printed.{refusal_said as said_of_refusal, telling, bad_request, conflict, unauthorized as unauthorized_said, error as error_data, error_at as at_data, error_with as with_data, error_short as short_data, error_name as name_data, error_body, error_denied as denied_data, coded, rule_text};
ghost use Rattle.op_model.specs.Bodies.{digits, optional, text_if};
ghost use Rattle.serde_json.specs.Data.{no_members};
ghost use Rattle.op_reply.specs.Fields.{members_data, AreTexts, is_ascending, is_behind};
ghost use Rattle.op_reply.specs.Values.{data_of};
ghost use Rattle.op_reply.specs.Said.{said_of, status_line};
ghost use Rattle.op_reply.specs.Printable.{IsRefusalText};

use crate::fields::{Field, object};
use crate::said::Said;
use crate::values::Json;
use http::StatusCode;
use op_model::{Refusal, Text};
use op_names::Origin;
use std::alloc::{AllocError, Global};

const BAD_REQUEST: StatusCode = StatusCode::BAD_REQUEST;

const FORBIDDEN: StatusCode = StatusCode::FORBIDDEN;

const CONFLICT: StatusCode = StatusCode::CONFLICT;

/// `{"error":{..}}`
fn error_of(alloc: Global, members: &[(&str, Field<'_>)]) -> Result<Json, AllocError>
    requires order { IsTrue (is_ascending members.now) }
    requires texts { AreTexts members.now }
    ensures { IfOk result (λ json. data_of json ≡ error_body (members_data members.now)) }
{
    let error = object(alloc, members)?;
    object(alloc, &[("error", Field::Json(&error))])
}

/// A refusal that tells its code alone: `{"error":{"code":..}}`.
fn refused<'a>(alloc: Global, status: StatusCode, code: &str) -> Result<Said<'a>, AllocError>
    ensures { IfOk result (λ said. said_of said ≡ telling (status_line status) (error_data code.now)) }
{
    Ok(Said::telling(status, error(alloc, code)?))
}

/// `{"error":{"code":..}}`
fn error(alloc: Global, code: &str) -> Result<Json, AllocError>
    ensures { IfOk result (λ json. data_of json ≡ error_data code.now) }
{
    error_of(alloc, &[("code", Field::Word(code))])
}

/// The bytes from an offset on are no request: `{"error":{"at":..,"code":..}}`.
fn refused_at<'a>(
    alloc: Global,
    status: StatusCode,
    code: &str,
    at: u64,
) -> Result<Said<'a>, AllocError>
    ensures { IfOk result (λ said. said_of said ≡ telling (status_line status) (at_data code.now at)) }
{
    let error = error_of(
        alloc,
        &[("at", Field::Number(at)), ("code", Field::Word(code))],
    )?;
    Ok(Said::telling(status, error))
}

/// A member or a parameter is wrong: `{"error":{"code":"bad_field","name":..}}`.
#[tactic(auto, unfolding(crate::specs::Said::status_line))]
fn bad_field<'a>(alloc: Global, name: &Text) -> Result<Said<'a>, AllocError>
    requires { IsUtf8 name.now }
    ensures { IfOk result (λ said. said_of said ≡ bad_request (name_data (codes "bad_field") name.now)) }
{
    let members = [
        ("code", Field::Word("bad_field")),
        ("name", Field::Told(name)),
    ];
    Ok(Said::telling(BAD_REQUEST, error_of(alloc, &members)?))
}

/// A request for a grant is wrong, in the member of this name or as a whole: `{"error":{"code":..,"name":..}}`.
#[tactic(auto, unfolding(crate::specs::Said::status_line))]
fn invalid_request<'a>(alloc: Global, name: &Option<Text>) -> Result<Said<'a>, AllocError>
    requires { IfSome name.now IsUtf8 }
    ensures { IfOk result (λ said. said_of said
        ≡ bad_request (error_body (coded (codes "invalid_request") (optional (codes "name") (text_if name.now) no_members)))) }
{
    let members = [
        ("code", Field::Word("invalid_request")),
        ("name", Field::ToldIf(name)),
    ];
    Ok(Said::telling(BAD_REQUEST, error_of(alloc, &members)?))
}

/// A conflict with a value: `{"error":{"code":..,NAME:..}}`, where the name stands behind `code`.
#[tactic(auto, unfolding(crate::specs::Said::status_line))]
fn conflict_with<'a>(
    alloc: Global,
    code: &str,
    name: &str,
    value: u64,
) -> Result<Said<'a>, AllocError>
    requires { IsTrue (is_behind name.now (codes "code")) }
    ensures { IfOk result (λ said. said_of said ≡ conflict (with_data code.now name.now (digits value))) }
{
    let error = error_of(
        alloc,
        &[("code", Field::Word(code)), (name, Field::Digits(value))],
    )?;
    Ok(Said::telling(CONFLICT, error))
}

/// Too little is available: `{"error":{"available":..,"code":"short"}}`.
#[tactic(auto, unfolding(crate::specs::Said::status_line))]
fn short<'a>(alloc: Global, available: u64) -> Result<Said<'a>, AllocError>
    ensures { IfOk result (λ said. said_of said ≡ conflict (short_data available)) }
{
    let members = [
        ("available", Field::Digits(available)),
        ("code", Field::Word("short")),
    ];
    Ok(Said::telling(CONFLICT, error_of(alloc, &members)?))
}

/// An access rule fails: `{"error":{"code":"access_denied","rule":..,"spent":..}}`, where `spent` may be left out.
#[tactic(auto, unfolding(crate::specs::Said::status_line))]
fn access_denied<'a>(alloc: Global, rule: u8, spent: Option<u64>) -> Result<Said<'a>, AllocError>
    ensures { IfOk result (λ said. said_of said ≡ telling (codes "403 Forbidden") (denied_data rule spent)) }
{
    let members = [
        ("code", Field::Word("access_denied")),
        ("rule", Field::Word(rule_text(rule))),
        ("spent", Field::DigitsIf(spent)),
    ];
    Ok(Said::telling(FORBIDDEN, error_of(alloc, &members)?))
}

/// The text of an access rule, by its number.
fn rule_text(rule: u8) -> &'static str
    ensures { result.now ≡ rule_text rule }
{
    match rule {
        1 => "other_client",
        2 => "no_type",
        3 => "no_action",
        4 => "other_address",
        5 => "other_owner",
        6 => "limit_receiver",
        7 => "limit_asset",
        8 => "outside_interval",
        9 => "over_limit",
        _ => "",
    }
}

/// A client has to show who it is (RFC 9635, section 9.1).
#[tactic(auto, unfolding(crate::specs::Said::status_line))]
fn unauthorized<'a>(alloc: Global, origin: &'a Origin, code: &str) -> Result<Said<'a>, AllocError>
    ensures { IfOk result (λ said. said_of said ≡ unauthorized_said origin.now code.now) }
{
    Ok(Said {
        status: StatusCode::UNAUTHORIZED,
        allow: None,
        challenge: Some(origin),
        body: Some(error(alloc, code)?),
    })
}

/// Another method was used than those of the path (RFC 9110, section 15.5.6).
#[tactic(auto, unfolding(crate::specs::Said::status_line))]
fn method_not_allowed(alloc: Global, allow: &Text) -> Result<Said<'_>, AllocError>
    ensures { IfOk result (λ said. said_of said ≡ record {
      status = codes "405 Method Not Allowed";
      allow = Some allow.now;
      challenge = None;
      body = Some (error_data (codes "method_not_allowed"));
    }) }
{
    Ok(Said {
        status: StatusCode::METHOD_NOT_ALLOWED,
        allow: Some(allow),
        challenge: None,
        body: Some(error(alloc, "method_not_allowed")?),
    })
}

/// What a refusal says.
#[tactic(auto, unfolding(crate::specs::Said::status_line))]
pub fn refusal_said<'a>(
    alloc: Global,
    origin: &'a Origin,
    refusal: &'a Refusal,
) -> Result<Said<'a>, AllocError>
    requires { IsRefusalText refusal.now }
    ensures { IfOk result (λ said. said_of said ≡ said_of_refusal origin.now refusal.now) }
{
    match refusal {
        Refusal::BadHttp { at } => refused_at(alloc, BAD_REQUEST, "bad_http", *at),
        Refusal::LengthRequired { at } => refused_at(
            alloc,
            StatusCode::LENGTH_REQUIRED,
            "length_required",
            *at,
        ),
        Refusal::RequestTooLarge { at } => refused_at(
            alloc,
            StatusCode::PAYLOAD_TOO_LARGE,
            "request_too_large",
            *at,
        ),
        Refusal::NotFound => refused(alloc, StatusCode::NOT_FOUND, "not_found"),
        Refusal::MethodNotAllowed { allow } => method_not_allowed(alloc, allow),
        Refusal::BadJson => refused(alloc, BAD_REQUEST, "bad_json"),
        Refusal::BadField { name } => bad_field(alloc, name),
        Refusal::InvalidRequest { name } => invalid_request(alloc, name),
        Refusal::InvalidClient => unauthorized(alloc, origin, "invalid_client"),
        Refusal::InvalidToken => unauthorized(alloc, origin, "invalid_token"),
        Refusal::InvalidContinuation => unauthorized(alloc, origin, "invalid_continuation"),
        Refusal::AccessDenied { rule, spent } => access_denied(alloc, *rule, *spent),
        Refusal::OriginFixed => refused(alloc, CONFLICT, "origin_fixed"),
        Refusal::AlreadyExists => refused(alloc, CONFLICT, "already_exists"),
        Refusal::TransferIdUsed => refused(alloc, CONFLICT, "transfer_id_used"),
        Refusal::QuoteUsed => refused(alloc, CONFLICT, "quote_used"),
        Refusal::NotPending => refused(alloc, CONFLICT, "not_pending"),
        Refusal::ZeroAmount => refused(alloc, BAD_REQUEST, "zero_amount"),
        Refusal::AssetMismatch => refused(alloc, BAD_REQUEST, "asset_mismatch"),
        Refusal::AssetFull { total } => conflict_with(alloc, "asset_full", "total", *total),
        Refusal::Short { available } => short(alloc, *available),
        Refusal::SameAsset => refused(alloc, BAD_REQUEST, "same_asset"),
        Refusal::AlreadyEnded => refused(alloc, CONFLICT, "already_ended"),
        Refusal::InvalidInteraction => refused(alloc, BAD_REQUEST, "invalid_interaction"),
        Refusal::RequestDenied => refused(alloc, FORBIDDEN, "request_denied"),
        Refusal::UserDenied => refused(alloc, FORBIDDEN, "user_denied"),
        Refusal::TooFast => refused(alloc, BAD_REQUEST, "too_fast"),
        Refusal::ExpiresInPast => refused(alloc, BAD_REQUEST, "expires_in_past"),
        Refusal::AlreadyClosed => refused(alloc, CONFLICT, "already_closed"),
        Refusal::ReceiverClosed => refused(alloc, CONFLICT, "receiver_closed"),
        Refusal::NoAmount => refused(alloc, BAD_REQUEST, "no_amount"),
        Refusal::NoRate => refused(alloc, CONFLICT, "no_rate"),
        Refusal::TooLarge => refused(alloc, BAD_REQUEST, "too_large"),
        Refusal::TooSmall => refused(alloc, BAD_REQUEST, "too_small"),
        Refusal::OverReceiver { room } => conflict_with(alloc, "over_receiver", "room", *room),
        Refusal::QuoteExpired => refused(alloc, CONFLICT, "quote_expired"),
        Refusal::Memory => refused(alloc, StatusCode::INTERNAL_SERVER_ERROR, "out_of_memory"),
        Refusal::DiskFault => refused(alloc, StatusCode::SERVICE_UNAVAILABLE, "disk_fault"),
        Refusal::JournalFull => refused(alloc, StatusCode::INSUFFICIENT_STORAGE, "journal_full"),
    }
}
