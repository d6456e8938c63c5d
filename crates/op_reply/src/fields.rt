//! What stands in the members of a reply, and objects from tables of members.
ghost use Rattle.std.specs.Prelude.{◌≡◌, false, IfOk, IfSome, IsTrue, OnOk, ◌++◌, map, filter_map, option_map};
ghost use Rattle.std.specs.Option.{option_to_list};
ghost use Rattle.serde_json.specs.Data.{string, object as object_data, member, no_members};
ghost use Rattle.op_model.specs.Bodies.{account_text, state_text, reason_text, type_text};
ghost use Rattle.serde_json.specs.View.{members_view};
ghost use Rattle.serde_json.specs.Written.{has_float, members_have_float};
ghost use Rattle.op_reply.specs.Values.{data_of};
ghost use Rattle.op_reply.specs.Fields.{field_data, members_data, put_if as with_member, IsText, IsAccountText, AreTexts, is_ascending, is_behind, named_action};

use crate::values::Json;
use op_amount::{Amount, Asset, AssetCode};
use op_model::{AccountShown, GrantSpent, IntervalText, PaymentState, Text};
use op_names::{AddressPath, Kind, Origin, SecretText};
use op_time::Moment;
use serde_json::{Map, Value, put};
use std::alloc::{AllocError, Global};

/// What stands in a member.
#[derive(Clone, Copy)]
pub enum Field<'a> {
    Flag(bool),
    Number(u64),
    /// A small number, as a scale.
    Small(u8),
    SmallIf(Option<u8>),
    /// A number as a text of digits.
    Digits(u64),
    DigitsIf(Option<u64>),
    /// A word of ours.
    Word(&'a str),
    Told(&'a Text),
    /// The member is left out where there is no text.
    ToldIf(&'a Option<Text>),
    Secret(&'a SecretText),
    SecretIf(&'a Option<SecretText>),
    IntervalIf(&'a Option<IntervalText>),
    Origin(&'a Origin),
    Code(&'a AssetCode),
    Asset(&'a Asset),
    Amount(&'a Amount),
    AmountIf(&'a Option<Amount>),
    /// What was spent of a debit cap, and of a receive cap; the member is left out where there is no such cap.
    SpentDebitIf(&'a Option<GrantSpent>),
    SpentReceiveIf(&'a Option<GrantSpent>),
    /// A value and how many digits stand behind its point.
    Scaled(u64, u8),
    Moment(Moment),
    Id(Kind, u64),
    IdIf(Kind, Option<u64>),
    AddressUrl(&'a Origin, &'a AddressPath),
    AddressUrlIf(&'a Origin, &'a Option<AddressPath>),
    /// An origin, a directory as `/quotes/`, and the identifier of a row.
    RowUrl(&'a Origin, &'static str, Kind, u64),
    RowUrlIf(&'a Origin, &'static str, Kind, Option<u64>),
    /// The grant endpoint of an origin.
    GrantUrl(&'a Origin),
    /// An account; that of an address by its URL under an origin.
    Account(&'a Origin, &'a AccountShown),
    State(PaymentState),
    /// Why a payment failed, by its number; the member is left out where it did not.
    Reason(u8),
    /// The names of the actions in a sum of bits.
    Actions(u8),
    /// The type of an item of a grant, by its number.
    ItemType(u8),
    /// The empty list.
    NoItems,
    JsonIf(&'a Option<Json>),
    Json(&'a Json),
}

/// What stands in a member; `None` where it is left out.
fn value_of(alloc: Global, field: &Field<'_>) -> Result<Option<Json>, AllocError>
    requires { IsText field.now }
    ensures { IfOk result (λ json. option_map data_of json ≡ field_data field.now) }
{
    Ok(Some(match *field {
        Field::Flag(flag) => Json::flag(flag),
        Field::Number(number) => Json::number(number),
        Field::Small(number) => Json::number(u64::from(number)),
        Field::SmallIf(Some(number)) => Json::number(u64::from(number)),
        Field::Digits(number) => Json::digits(alloc, number)?,
        Field::DigitsIf(Some(number)) => Json::digits(alloc, number)?,
        Field::Word(word) => Json::string(alloc, word)?,
        Field::Told(text) => Json::bytes(alloc, text.bytes())?,
        Field::ToldIf(Some(text)) => Json::bytes(alloc, text.bytes())?,
        Field::Secret(text) => Json::bytes(alloc, text.as_bytes())?,
        Field::SecretIf(Some(text)) => Json::bytes(alloc, text.as_bytes())?,
        Field::IntervalIf(Some(text)) => Json::bytes(alloc, text.bytes())?,
        Field::Origin(origin) => Json::bytes(alloc, origin.as_bytes())?,
        Field::Code(code) => Json::string(alloc, code.as_str())?,
        Field::Asset(asset) => Json::asset(alloc, asset)?,
        Field::Amount(amount) => Json::amount(alloc, amount)?,
        Field::AmountIf(Some(amount)) => Json::amount(alloc, amount)?,
        Field::SpentDebitIf(Some(GrantSpent::Debit(amount))) => Json::amount(alloc, amount)?,
        Field::SpentReceiveIf(Some(GrantSpent::Receive(amount))) => Json::amount(alloc, amount)?,
        Field::Scaled(value, scale) => Json::scaled(alloc, value, scale)?,
        Field::Moment(moment) => Json::moment(alloc, moment)?,
        Field::Id(kind, number) => Json::id(alloc, kind, number)?,
        Field::IdIf(kind, Some(number)) => Json::id(alloc, kind, number)?,
        Field::AddressUrl(origin, path) => Json::under(alloc, origin.as_bytes(), path.bytes())?,
        Field::AddressUrlIf(origin, Some(path)) => Json::under(
            alloc,
            origin.as_bytes(),
            path.bytes(),
        )?,
        Field::RowUrl(origin, directory, kind, number) => {
            Json::row_url(alloc, origin.as_bytes(), directory, kind, number)?
        }
        Field::RowUrlIf(origin, directory, kind, Some(number)) => {
            Json::row_url(alloc, origin.as_bytes(), directory, kind, number)?
        }
        Field::GrantUrl(origin) => Json::under(alloc, origin.as_bytes(), b"/grant")?,
        Field::Account(origin, account) => account_value(alloc, origin, account)?,
        Field::State(state) => Json::string(alloc, state_text(state))?,
        Field::Reason(reason) => match reason_text(reason) {
            Some(text) => Json::string(alloc, text)?,
            None => return Ok(None),
        },
        Field::Actions(actions) => Json::list(alloc, action_values(alloc, actions, &ACTIONS)?)?,
        Field::ItemType(kind) => Json::string(alloc, type_text(kind))?,
        Field::NoItems => Json::list(alloc, Vec::new(alloc))?,
        Field::JsonIf(Some(json)) | Field::Json(json) => json.clone()?,
        Field::SmallIf(None)
        | Field::DigitsIf(None)
        | Field::ToldIf(None)
        | Field::SecretIf(None)
        | Field::IntervalIf(None)
        | Field::AmountIf(None)
        | Field::SpentDebitIf(None | Some(GrantSpent::Receive(_)))
        | Field::SpentReceiveIf(None | Some(GrantSpent::Debit(_)))
        | Field::IdIf(_, None)
        | Field::AddressUrlIf(_, None)
        | Field::RowUrlIf(_, _, _, None)
        | Field::JsonIf(None) => return Ok(None),
    }))
}

fn account_value(alloc: Global, origin: &Origin, account: &AccountShown) -> Result<Json, AllocError>
    requires { IsAccountText origin.now account.now }
    ensures { IfOk result (λ json. data_of json ≡ string (account_text origin.now account.now)) }
{
    match account {
        AccountShown::Pool => Json::string(alloc, "pool"),
        AccountShown::Fees => Json::string(alloc, "fees"),
        AccountShown::Address(path) => Json::under(alloc, origin.as_bytes(), path.bytes()),
    }
}

fn state_text(state: PaymentState) -> &'static str
    ensures { result.now ≡ state_text state }
{
    match state {
        PaymentState::Funding => "FUNDING",
        PaymentState::Sending => "SENDING",
        PaymentState::Completed => "COMPLETED",
        PaymentState::Failed => "FAILED",
    }
}

fn reason_text(reason: u8) -> Option<&'static str>
    ensures { option_map (λ text. text.now) result ≡ reason_text reason }
{
    match reason {
        1 => Some("quote_expired"),
        2 => Some("receiver_closed"),
        3 => Some("cancelled"),
        _ => None,
    }
}

/// The actions, each by its bit and its name.
const ACTIONS: [(u8, &str); 6] = [
    (1, "create"),
    (2, "complete"),
    (4, "read"),
    (8, "read-all"),
    (16, "list"),
    (32, "list-all"),
];

/// An action's name, where its bit is in a sum.
fn action_value(alloc: Global, actions: u8, name: &(u8, &str)) -> Result<Option<Json>, AllocError>
    ensures { IfOk result (λ json. option_map data_of json ≡ named_action actions name.now) }
{
    if actions & name.0 == 0 {
        Ok(None)
    } else {
        Ok(Some(Json::string(alloc, name.1)?))
    }
}

fn push_if(values: &mut Vec<Json>, json: Option<Json>) -> Result<(), AllocError>
    ensures { OnOk result (map data_of values.new.items ≡ map data_of values.old.items ++ option_to_list (option_map data_of json)) }
{
    if let Some(json) = json {
        values.push(json)?;
    }
    Ok(())
}

/// The names of those actions whose bit is in a sum.
fn action_values(alloc: Global, actions: u8, names: &[(u8, &str)]) -> Result<Vec<Json>, AllocError>
    ensures { IfOk result (λ values. map data_of values.items ≡ filter_map (named_action actions) names.now) }
{
    let mut values = Vec::new(alloc);
    for name in names {
        push_if(&mut values, action_value(alloc, actions, name)?)?;
    }
    Ok(values)
}

fn type_text(kind: u8) -> &'static str
    ensures { result.now ≡ type_text kind }
{
    match kind {
        1 => "incoming-payment",
        2 => "quote",
        _ => "outgoing-payment",
    }
}

/// Puts a member in, where it has a value.
fn put_if(
    map: &mut Map<String, Value>,
    alloc: Global,
    name: &str,
    json: Option<Json>,
) -> Result<(), AllocError>
    requires { members_have_float (members_view map.old.entries) ≡ false }
    ensures members { OnOk result (members_view map.new.entries ≡ with_member name.now (option_map data_of json) (members_view map.old.entries)) }
    ensures plain { OnOk result (members_have_float (members_view map.new.entries) ≡ false) }
{
    match json {
        Some(json) => put(map, alloc, name, json.value),
        None => Ok(()),
    }
}

/// The object of a table of members, whose names ascend in the order of their bytes.
pub fn object(alloc: Global, members: &[(&str, Field<'_>)]) -> Result<Json, AllocError>
    requires order { IsTrue (is_ascending members.now) }
    requires texts { AreTexts members.now }
    ensures { IfOk result (λ json. data_of json ≡ object_data (members_data members.now)) }
{
    let mut map = Map::new(alloc);
    for member in members {
        let json = value_of(alloc, &member.1)?;
        put_if(&mut map, alloc, member.0, json)?;
    }
    Ok(Json {
        value: Value::Object(map),
    })
}

/// An object of two values, whose names ascend.
pub fn two_of<'x>(
    alloc: Global,
    name: &'x str,
    value: &'x Json,
    last_name: &'x str,
    last: &'x Json,
) -> Result<Json, AllocError>
    requires { IsTrue (is_behind last_name.now name.now) }
    ensures { IfOk result (λ json. data_of json
        ≡ object_data (member name.now (data_of value.now) (member last_name.now (data_of last.now) no_members))) }
{
    object(
        alloc,
        &[(name, Field::Json(value)), (last_name, Field::Json(last))],
    )
}
