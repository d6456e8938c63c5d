//! The bodies of grant requests (RFC 9635, section 2) and of continuations (section 5).
ghost use Rattle.std.specs.Prelude.{◌≡◌, IfOk, IfErr, Some, None, codes, if◌then◌else◌, is_some, option_and_then, option_map};
ghost use Rattle.std.specs.List.{list_any};
ghost use Rattle.std.specs.Str.{bytes_eq};
ghost use Rattle.serde_json.specs.Find.{as_str};
ghost use Rattle.serde_json.specs.View.{items_view, view};
ghost use Rattle.op_model.specs.GrantMembers.{access_in, ask_grant_members, client_in, continue_grant_meant, finish_of, grant_refused, in_grant, interact_in, interact_of, interact_with, is_reference, reference_of, starts_in};
ghost use Rattle.op_model.specs.Json.{each_of, if_object, items_list, with_members};
ghost use Rattle.op_model.specs.Members.{member_of, optional_of, text_if};
ghost use Rattle.op_names.specs.Forms.{is_finish_uri};
ghost use Rattle.op_api.specs.Body.{IsBodyFault, IsGrantFault, IsMeant, fault_in_grant};

use crate::access::access_in;
use crate::members::{Read, list_in, object_in, optional_in, required, text_in};
use crate::names::{if_shaped, word_in};
use crate::request::ApiFault;
use op_model::{AskedItem, Finish, Interact, NonceText, Refusal, Request, Rows, UriText};
use op_names::{
    ClientText, Letter, SecretText, is_finish_uri, read_client, read_secret, secret_text,
};
use serde_json::Value;
use std::alloc::Global;

/// The longest client, in bytes.
const CLIENT_LIMIT: usize = 256;

/// The longest nonce of a client, in bytes.
const NONCE_LIMIT: usize = 128;

/// The fault of a grant route: what is malformed is `InvalidRequest` (RFC 9635, section 3.6).
fn in_grant(fault: ApiFault) -> ApiFault
    requires { IsBodyFault fault }
    ensures forms { IsGrantFault result }
    ensures meant { result ≡ fault_in_grant fault }
{
    match fault {
        ApiFault::Refused(Refusal::BadJson) => {
            ApiFault::Refused(Refusal::InvalidRequest { name: None })
        }
        ApiFault::Refused(Refusal::BadField { name }) => {
            ApiFault::Refused(Refusal::InvalidRequest { name: Some(name) })
        }
        other => other,
    }
}

/// The items of the member `access_token`.
fn items_in(alloc: Global, object: &Value) -> Read<Rows<AskedItem>>
    ensures { IfOk result (λ items. items ≡ member_of (λ v. option_and_then access_in (if_object v)) (codes "access_token") (view object.now)) }
{
    match object.get("access_token") {
        Some(value) => {
            if value.is_object() {
                access_in(alloc, value)
            } else {
                Ok(None)
            }
        }
        None => Ok(None),
    }
}

/// The member `client`. A text within the limit that is no client's names none.
fn client_in(alloc: Global, object: &Value) -> Read<Option<ClientText>>
    ensures { IfOk result (λ client. client ≡ client_in (view object.now)) }
{
    match text_in(object, "client") {
        Some(text) => {
            if text.len() <= CLIENT_LIMIT {
                Ok(Some(if_shaped(read_client(alloc, text))?))
            } else {
                Ok(None)
            }
        }
        None => Ok(None),
    }
}

/// Whether a text is `redirect`.
fn is_redirect(text: &str) -> bool
    ensures { result ≡ bytes_eq (codes "redirect") text.now }
{
    text == "redirect"
}

/// Whether one of the ways in which an interaction may start is `redirect`.
fn starts_of(ways: &Vec<Value>) -> Option<bool>
    ensures { result ≡ option_map (list_any (bytes_eq (codes "redirect"))) (each_of as_str (items_list (items_view ways.now.items))) }
{
    let mut redirects = false;
    for way in ways {
        redirects |= is_redirect(way.as_str()?);
    }
    Some(redirects)
}

/// The member `start`.
fn starts_in(object: &Value) -> Option<bool>
    ensures { result ≡ starts_in (view object.now) }
{
    starts_of(list_in(object, "start")?)
}

/// The member `uri` of a finish.
fn uri_in(alloc: Global, object: &Value) -> Read<UriText>
    ensures { IfOk result (λ uri. uri ≡ text_if is_finish_uri (codes "uri") (view object.now)) }
{
    match text_in(object, "uri") {
        Some(text) => {
            if is_finish_uri(alloc, text)? {
                let bytes = Vec::from_slice(alloc, text.as_bytes())?;
                Ok(Some(UriText::new(bytes)))
            } else {
                Ok(None)
            }
        }
        None => Ok(None),
    }
}

/// The member `method` of a finish, which is `redirect`.
fn is_by_redirect(object: &Value) -> bool
    ensures { result ≡ is_some (text_if (bytes_eq (codes "redirect")) (codes "method") (view object.now)) }
{
    match text_in(object, "method") {
        Some(method) => is_redirect(method),
        None => false,
    }
}

/// The finish that a value means.
fn finish_of(alloc: Global, value: &Value) -> Read<Finish>
    ensures { IfOk result (λ finish. finish ≡ option_and_then finish_of (if_object (view value.now))) }
{
    if !value.is_object() || !is_by_redirect(value) {
        return Ok(None);
    }
    let Some(uri) = uri_in(alloc, value)? else {
        return Ok(None);
    };
    match word_in(value, "nonce", NONCE_LIMIT) {
        Some(nonce) => Ok(Some(Finish {
            uri,
            nonce: NonceText::new(Vec::from_slice(alloc, nonce.as_bytes())?),
        })),
        None => Ok(None),
    }
}

/// The optional member `finish`.
fn finish_in(alloc: Global, object: &Value) -> Read<Option<Finish>>
    ensures { IfOk result (λ finish. finish ≡ optional_of (λ v. option_and_then finish_of (if_object v)) (codes "finish") (view object.now)) }
{
    match optional_in(object, "finish") {
        Some(value) => match finish_of(alloc, value)? {
            Some(finish) => Ok(Some(Some(finish))),
            None => Ok(None),
        },
        None => Ok(Some(None)),
    }
}

/// What a request says of an interaction.
fn interact_with(redirects: bool, finish: Option<Finish>) -> Interact
    ensures { result ≡ interact_with redirects finish }
{
    if redirects {
        Interact::Redirect(finish)
    } else {
        Interact::NoRedirect
    }
}

/// What a value says of an interaction.
fn interact_of(alloc: Global, value: &Value) -> Read<Interact>
    ensures { IfOk result (λ interact. interact ≡ option_and_then interact_of (if_object (view value.now))) }
{
    if !value.is_object() {
        return Ok(None);
    }
    let Some(redirects) = starts_in(value) else {
        return Ok(None);
    };
    match finish_in(alloc, value)? {
        Some(finish) => Ok(Some(interact_with(redirects, finish))),
        None => Ok(None),
    }
}

/// The optional member `interact`.
fn interact_in(alloc: Global, object: &Value) -> Read<Interact>
    ensures { IfOk result (λ interact. interact ≡ interact_in (view object.now)) }
{
    match optional_in(object, "interact") {
        Some(value) => interact_of(alloc, value),
        None => Ok(Some(Interact::Missing)),
    }
}

/// The request for a grant that a body means, with the refusals of other routes.
fn ask_grant_of(alloc: Global, body: &[u8]) -> Result<Request, ApiFault>
    ensures meant { IsMeant (with_members ask_grant_members body.now) result }
    ensures forms { IfErr result IsBodyFault }
{
    let object = object_in(alloc, body)?;
    let items = required(alloc, items_in(alloc, &object)?, "access_token")?;
    let client = required(alloc, client_in(alloc, &object)?, "client")?;
    let interact = required(alloc, interact_in(alloc, &object)?, "interact")?;
    Ok(Request::AskGrant {
        items,
        client,
        interact,
    })
}

/// The request for a grant that a body means.
pub(crate) fn read_ask_grant(alloc: Global, body: &[u8]) -> Result<Request, ApiFault>
    ensures meant { IsMeant (grant_refused (with_members ask_grant_members body.now)) result }
    ensures forms { IfErr result IsGrantFault }
{
    match ask_grant_of(alloc, body) {
        Ok(request) => Ok(request),
        Err(fault) => Err(in_grant(fault)),
    }
}

/// The interaction reference of this text. `None` where it is the text of none.
fn reference_with(text: &str) -> Option<SecretText>
    ensures { result ≡ (if is_reference text.now then Some text.now else None) }
{
    let (letter, word, place) = read_secret(text.as_bytes())?;
    match letter {
        Letter::Interaction => Some(secret_text(letter, &word, place)),
        _ => None,
    }
}

/// The reference that a value is, where it is one; a text that is the reference of none is there.
fn reference_of(value: &Value) -> Option<Option<SecretText>>
    ensures { result ≡ reference_of (view value.now) }
{
    Some(reference_with(value.as_str()?))
}

/// The optional member `interact_ref`.
fn reference_in(object: &Value) -> Option<Option<Option<SecretText>>>
    ensures { result ≡ optional_of reference_of (codes "interact_ref") (view object.now) }
{
    match optional_in(object, "interact_ref") {
        Some(value) => Some(Some(reference_of(value)?)),
        None => Some(None),
    }
}

/// The continuation of a grant that a body means, with the refusals of other routes. An empty body has no members.
fn continue_grant_of(alloc: Global, grant: Option<u64>, body: &[u8]) -> Result<Request, ApiFault>
    ensures meant { IsMeant (continue_grant_meant grant body.now) result }
    ensures forms { IfErr result IsBodyFault }
{
    if body.is_empty() {
        return Ok(Request::ContinueGrant {
            grant,
            reference: None,
        });
    }
    let object = object_in(alloc, body)?;
    let reference = required(alloc, reference_in(&object), "interact_ref")?;
    Ok(Request::ContinueGrant { grant, reference })
}

/// The continuation of a grant that a body means.
pub(crate) fn read_continue_grant(
    alloc: Global,
    grant: Option<u64>,
    body: &[u8],
) -> Result<Request, ApiFault>
    ensures meant { IsMeant (grant_refused (continue_grant_meant grant body.now)) result }
    ensures forms { IfErr result IsGrantFault }
{
    match continue_grant_of(alloc, grant, body) {
        Ok(request) => Ok(request),
        Err(fault) => Err(in_grant(fault)),
    }
}
