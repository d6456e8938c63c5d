//! Webhook messages: a POST request (RFC 9112) with a JSON body (RFC 8259), signed by an HMAC (RFC 2104).
ghost use Rattle.std.specs.Prelude.{◌≡◌, IfOk, string_bytes};
ghost use Rattle.std.specs.Str.{IsUtf8};
ghost use Rattle.op_model.specs.Bodies.{id, incoming_url, outgoing_url, amount_data};
ghost use Rattle.op_model.specs.Messages.{event_type as type_of, event_values, event_body, signature, signed, message_of};
ghost use Rattle.op_hooks.specs.Plain.{IsPlain, Prints};

use op_amount::Amount;
use op_model::{EventBody, EventRow, EventWord};
use op_names::{AddressPath, Hmac, Id, Kind, Origin, id_text};
use op_time::Moment;
use serde_json::{Value, json};
use std::alloc::{AllocError, Global};
use std::str;

/// The message that tells event `number` of an address, signed at a moment with a secret. The origin and the address's
/// path are UTF-8, as JSON text has to be (RFC 8259, section 8.1).
pub fn message(
    alloc: Global,
    origin: &Origin,
    path: &AddressPath,
    number: u64,
    event: &EventRow,
    t: Moment,
    secret: &[u8; 32],
) -> Result<Vec<u8>, AllocError>
    requires origin { IsUtf8 origin.now }
    requires path { IsUtf8 path.now }
    ensures { IfOk result (λ bytes. bytes.items ≡ message_of origin.now path.now number event.now t secret.now) }
{
    let origin = text(origin.as_bytes());
    let path = text(path.bytes());
    let body = event_body(alloc, origin, path, number, event)?;
    signed(alloc, secret, t, &body)
}

/// The text of these bytes.
fn text(bytes: &[u8]) -> &str
    requires { IsUtf8 bytes.now }
    ensures { result.now ≡ bytes.now }
{
    match str::from_utf8(bytes) {
        Ok(text) => text,
        Err(_) => unreachable!(),
    }
}

/// The identifier of a row.
fn id(alloc: Global, kind: Kind, number: u64) -> Result<String, AllocError>
    ensures { IfOk result (λ text. string_bytes text ≡ id kind number) }
{
    let text = id_text(Id { kind, number });
    match str::from_utf8(&text) {
        Ok(text) => String::from_str(alloc, text),
        Err(_) => unreachable!(),
    }
}

fn incoming_url(alloc: Global, origin: &str, number: u64) -> Result<String, AllocError>
    ensures { IfOk result (λ url. string_bytes url ≡ incoming_url origin.now number) }
{
    let id = id(alloc, Kind::Incoming, number)?;
    let id = id.as_str();
    format!(in alloc; "{origin}/incoming-payments/{id}")
}

fn outgoing_url(alloc: Global, origin: &str, number: u64) -> Result<String, AllocError>
    ensures { IfOk result (λ url. string_bytes url ≡ outgoing_url origin.now number) }
{
    let id = id(alloc, Kind::Outgoing, number)?;
    let id = id.as_str();
    format!(in alloc; "{origin}/outgoing-payments/{id}")
}

fn amount(alloc: Global, amount: &Amount) -> Result<Value, AllocError>
    ensures { IfOk result (IsPlain (amount_data amount.now)) }
{
    let code = amount.asset.code.as_str();
    let value = format!(in alloc; "{}", amount.value)?;
    json!(in alloc; {"assetCode": code, "assetScale": amount.asset.scale, "value": value.as_str()})
}

fn event_type(word: EventWord) -> &'static str
    ensures { result.now ≡ type_of word }
{
    match word {
        EventWord::IncomingCreated => "incoming_payment.created",
        EventWord::IncomingCompleted => "incoming_payment.completed",
        EventWord::IncomingExpired => "incoming_payment.expired",
        EventWord::OutgoingCreated => "outgoing_payment.created",
        EventWord::OutgoingCompleted => "outgoing_payment.completed",
        EventWord::OutgoingFailed => "outgoing_payment.failed",
    }
}

/// An incoming payment's URL, what it has received, and the address's URL.
fn incoming_values(
    alloc: Global,
    origin: &str,
    path: &str,
    row: u64,
    received: &Amount,
) -> Result<Value, AllocError>
    ensures { IfOk result (IsPlain (event_values origin.now path.now row (EventBody.Incoming received.now))) }
{
    let address = format!(in alloc; "{origin}{path}")?;
    let url = incoming_url(alloc, origin, row)?;
    let received = amount(alloc, received)?;
    json!(in alloc; {"id": url.as_str(), "receivedAmount": received, "walletAddress": address.as_str()})
}

/// An outgoing payment's URL, its values, and the address's URL.
fn outgoing_values(
    alloc: Global,
    origin: &str,
    path: &str,
    row: u64,
    debit: &Amount,
    receive: &Amount,
    sent: &Amount,
) -> Result<Value, AllocError>
    ensures { IfOk result (IsPlain (event_values origin.now path.now row (EventBody.Outgoing debit.now receive.now sent.now))) }
{
    let address = format!(in alloc; "{origin}{path}")?;
    let url = outgoing_url(alloc, origin, row)?;
    let debit = amount(alloc, debit)?;
    let receive = amount(alloc, receive)?;
    let sent = amount(alloc, sent)?;
    json!(in alloc; {
        "debitAmount": debit,
        "id": url.as_str(),
        "receiveAmount": receive,
        "sentAmount": sent,
        "walletAddress": address.as_str()
    })
}

fn event_values(
    alloc: Global,
    origin: &str,
    path: &str,
    row: u64,
    body: &EventBody,
) -> Result<Value, AllocError>
    ensures { IfOk result (IsPlain (event_values origin.now path.now row body.now)) }
{
    match body {
        EventBody::Incoming { received } => incoming_values(alloc, origin, path, row, received),
        EventBody::Outgoing {
            debit,
            receive,
            sent,
        } => outgoing_values(alloc, origin, path, row, debit, receive, sent),
    }
}

/// What happened, to which payment.
fn event_value(
    alloc: Global,
    origin: &str,
    path: &str,
    number: u64,
    event: &EventRow,
) -> Result<Value, AllocError>
    ensures { IfOk result (Prints (event_body origin.now path.now number event.now)) }
{
    let values = event_values(alloc, origin, path, event.row, &event.body)?;
    let id = id(alloc, Kind::Event, number)?;
    json!(in alloc; {"data": values, "id": id.as_str(), "type": event_type(event.word)})
}

/// The body of a message.
fn event_body(
    alloc: Global,
    origin: &str,
    path: &str,
    number: u64,
    event: &EventRow,
) -> Result<Vec<u8>, AllocError>
    ensures { IfOk result (λ body. body.items ≡ event_body origin.now path.now number event.now) }
{
    let value = event_value(alloc, origin, path, number, event)?;
    value.to_vec(alloc)
}

/// The signature of a body at a moment, in hexadecimal.
fn signature(alloc: Global, secret: &[u8; 32], t: Moment, body: &[u8]) -> Result<String, AllocError>
    ensures { IfOk result (λ text. string_bytes text ≡ signature secret.now t body.now) }
{
    let moment = t.ms();
    let begin = format!(in alloc; "{moment}.")?;
    let mut hmac = Hmac::new(secret);
    hmac.update(begin.as_bytes());
    hmac.update(body);
    hex::encode(alloc, hmac.finish())
}

/// A body behind its head.
fn signed(alloc: Global, secret: &[u8; 32], t: Moment, body: &[u8]) -> Result<Vec<u8>, AllocError>
    ensures { IfOk result (λ bytes. bytes.items ≡ signed secret.now t body.now) }
{
    let length = body.len();
    let moment = t.ms();
    let signature = signature(alloc, secret, t, body)?;
    let signature = signature.as_str();
    let head = format!(in alloc;
        "POST / HTTP/1.1\r\nconnection: close\r\ncontent-length: {length}\r\ncontent-type: application/json\r\nhost: 127.0.0.1\r\nwallet-signature: t={moment}, v1={signature}\r\n\r\n"
    )?;
    let mut out = head.into_bytes();
    out.extend_from_slice(body)?;
    Ok(out)
}
