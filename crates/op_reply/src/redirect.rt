//! Where a user is sent back to, after the provider has decided (RFC 9635, section 4.2.1).
ghost use Rattle.std.specs.Prelude.{◌≡◌, ◌++◌, IfOk, IfSome, codes, option_map, if◌then◌else◌};
ghost use Rattle.std.specs.Str.{IsUtf8};
ghost use Rattle.serde_json.specs.Data.{string};
ghost use Rattle.op_names.specs.Interaction.{interaction_hash as hash_of};
ghost use Rattle.op_model.specs.Bodies.{grant_decided_data, redirect_url, grant_url, has_query};
ghost use Rattle.op_reply.specs.Printable.{IsRedirectText};
ghost use Rattle.op_reply.specs.Values.{data_of};

use crate::fields::{Field, object};
use crate::values::Json;
use op_model::Redirect;
use op_names::{Origin, interaction_hash};
use std::alloc::{AllocError, Global};

/// The hash by which the client knows that the interaction was finished here (RFC 9635, section 4.2.3).
fn hash(alloc: Global, origin: &Origin, redirect: &Redirect) -> Result<[u8; 43], AllocError>
    ensures { IfOk result (λ hash. hash
        ≡ hash_of redirect.now.finish.nonce redirect.now.nonce redirect.now.reference (grant_url origin.now)) }
{
    let mut endpoint = Vec::from_slice(alloc, origin.as_bytes())?;
    endpoint.extend_from_slice(b"/grant")?;
    Ok(interaction_hash(
        redirect.finish.nonce.bytes(),
        redirect.nonce.as_bytes(),
        redirect.reference.as_bytes(),
        &endpoint,
    ))
}

/// What stands before a further parameter of a URI.
fn mark(uri: &[u8]) -> &'static [u8]
    ensures { result.now ≡ (if has_query uri.now then codes "&" else codes "?") }
{
    if uri.contains(&b'?') { b"&" } else { b"?" }
}

/// The finish URI, with the hash and the reference in its query.
fn url(alloc: Global, origin: &Origin, redirect: &Redirect) -> Result<Vec<u8>, AllocError>
    ensures { IfOk result (λ url. url.items ≡ redirect_url origin.now redirect.now) }
{
    let uri = redirect.finish.uri.bytes();
    let hash = hash(alloc, origin, redirect)?;
    let mut url = Vec::from_slice(alloc, uri)?;
    url.extend_from_slice(mark(uri))?;
    url.extend_from_slice(b"hash=")?;
    url.extend_from_slice(&hash)?;
    url.extend_from_slice(b"&interact_ref=")?;
    url.extend_from_slice(redirect.reference.as_bytes())?;
    Ok(url)
}

fn redirect_if(
    alloc: Global,
    origin: &Origin,
    redirect: &Option<Redirect>,
) -> Result<Option<Json>, AllocError>
    requires { IfSome redirect.now IsRedirectText }
    ensures { IfOk result (λ json. option_map data_of json ≡ option_map (λ r. string (redirect_url origin.now r)) redirect.now) }
{
    match redirect {
        Some(redirect) => {
            let url = url(alloc, origin, redirect)?;
            Ok(Some(Json::bytes(alloc, &url)?))
        }
        None => Ok(None),
    }
}

/// What is told of a decision: the redirect, where a finish was asked.
pub fn grant_decided(
    alloc: Global,
    origin: &Origin,
    redirect: &Option<Redirect>,
) -> Result<Json, AllocError>
    requires { IfSome redirect.now IsRedirectText }
    ensures { IfOk result (λ json. data_of json ≡ grant_decided_data origin.now redirect.now) }
{
    let redirect = redirect_if(alloc, origin, redirect)?;
    object(alloc, &[("redirect", Field::JsonIf(&redirect))])
}
