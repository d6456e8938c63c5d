//! JSON values with one printed form.
ghost use Rattle.std.specs.Prelude.{◌≡◌, ◌++◌, false, map, IfOk};
ghost use Rattle.std.specs.Str.{IsUtf8};
ghost use Rattle.serde_json.specs.Data.{boolean, string};
ghost use Rattle.serde_json.specs.View.{view};
ghost use Rattle.serde_json.specs.Written.{compact_text, has_float};
ghost use Rattle.op_amount.specs.Scaled.{scaled};
ghost use Rattle.op_time.specs.MomentTexts.{moment_text};
ghost use Rattle.op_model.specs.Bodies.{whole, digits, amount_data, asset_data, metadata_data, list, id};

use op_amount::{Amount, Asset, print_scaled};
use op_model::MetaText;
use op_names::{Id, Kind, id_text};
use op_time::{Moment, print_moment};
use serde_json::{Value, json};
use std::alloc::{AllocError, Global};
use std::str;

/// A JSON value with one printed form, since no number in it has a point or an exponent.
#[derive(Drop)]
pub struct Json {
    pub(crate) value: Value,
    ghost plain: { has_float (view value) ≡ false },
}

impl Json {
    ghost use Rattle.op_reply.specs.Values.{data_of};

    /// Its printed form.
    pub fn text(&self, alloc: Global) -> Result<Vec<u8>, AllocError>
        ensures { IfOk result (λ text. text.items ≡ compact_text (data_of self.now)) }
    {
        self.value.to_vec(alloc)
    }

    /// An equal value.
    pub fn clone(&self) -> Result<Json, AllocError>
        ensures { IfOk result (λ json. data_of json ≡ data_of self.now) }
    {
        Ok(Json {
            value: self.value.clone()?,
        })
    }

    pub fn flag(flag: bool) -> Json
        ensures { data_of result ≡ boolean flag }
    {
        Json {
            value: Value::from(flag),
        }
    }

    pub fn number(number: u64) -> Json
        ensures { data_of result ≡ whole number }
    {
        Json {
            value: Value::from(number),
        }
    }

    /// A number as a text of digits.
    pub fn digits(alloc: Global, number: u64) -> Result<Json, AllocError>
        ensures { IfOk result (λ json. data_of json ≡ digits number) }
    {
        Ok(Json {
            value: Value::from(format!(in alloc; "{number}")?),
        })
    }

    pub fn string(alloc: Global, text: &str) -> Result<Json, AllocError>
        ensures { IfOk result (λ json. data_of json ≡ string text.now) }
    {
        Ok(Json {
            value: Value::try_from_str(alloc, text)?,
        })
    }

    pub fn asset(alloc: Global, asset: &Asset) -> Result<Json, AllocError>
        ensures { IfOk result (λ json. data_of json ≡ asset_data asset.now) }
    {
        let code = asset.code.as_str();
        Ok(Json {
            value: json!(in alloc; {"assetCode": code, "assetScale": asset.scale})?,
        })
    }

    pub fn amount(alloc: Global, amount: &Amount) -> Result<Json, AllocError>
        ensures { IfOk result (λ json. data_of json ≡ amount_data amount.now) }
    {
        let code = amount.asset.code.as_str();
        let value = format!(in alloc; "{}", amount.value)?;
        Ok(Json {
            value: json!(in alloc; {"assetCode": code, "assetScale": amount.asset.scale, "value": value.as_str()})?,
        })
    }

    /// A text of bytes that are UTF-8.
    pub fn bytes(alloc: Global, bytes: &[u8]) -> Result<Json, AllocError>
        requires { IsUtf8 bytes.now }
        ensures { IfOk result (λ json. data_of json ≡ string bytes.now) }
    {
        Json::string(alloc, utf8(bytes))
    }

    pub fn id(alloc: Global, kind: Kind, number: u64) -> Result<Json, AllocError>
        ensures { IfOk result (λ json. data_of json ≡ string (id kind number)) }
    {
        Json::bytes(alloc, &id_text(Id { kind, number }))
    }

    /// A moment in UTC with milliseconds (RFC 3339).
    pub fn moment(alloc: Global, moment: Moment) -> Result<Json, AllocError>
        ensures { IfOk result (λ json. data_of json ≡ string (moment_text moment)) }
    {
        Json::bytes(alloc, &print_moment(moment))
    }

    /// A value as a decimal text with this many digits behind the point.
    pub fn scaled(alloc: Global, value: u64, scale: u8) -> Result<Json, AllocError>
        ensures { IfOk result (λ json. data_of json ≡ string (scaled value scale)) }
    {
        let mut text = Vec::new(alloc);
        print_scaled(alloc, value, scale, &mut text)?;
        Json::bytes(alloc, &text)
    }

    /// Metadata is a printed object already.
    pub fn metadata(alloc: Global, text: &MetaText) -> Result<Json, AllocError>
        ensures { IfOk result (λ json. data_of json ≡ metadata_data text.now) }
    {
        match Value::from_slice(alloc, text.bytes()) {
            Ok(value) => Ok(Json { value }),
            Err(error) => {
                if error.is_memory() {
                    Err(AllocError)
                } else {
                    unreachable!()
                }
            }
        }
    }

    /// The list of these values.
    pub fn list(alloc: Global, values: Vec<Json>) -> Result<Json, AllocError>
        ensures { IfOk result (λ json. data_of json ≡ list (map data_of values.items)) }
    {
        let mut items = Vec::new(alloc);
        for json in values {
            items.push(json.value)?;
        }
        Ok(Json {
            value: Value::Array(items),
        })
    }

    /// The URL of an address, or of the grant endpoint: a path under an origin.
    pub fn under(alloc: Global, origin: &[u8], path: &[u8]) -> Result<Json, AllocError>
        requires origin { IsUtf8 origin.now }
        requires path { IsUtf8 path.now }
        ensures { IfOk result (λ json. data_of json ≡ string (origin.now ++ path.now)) }
    {
        let (origin, path) = (utf8(origin), utf8(path));
        Ok(Json {
            value: Value::from(format!(in alloc; "{origin}{path}")?),
        })
    }

    /// The URL of a row: its identifier in a directory under an origin.
    pub fn row_url(
        alloc: Global,
        origin: &[u8],
        directory: &str,
        kind: Kind,
        number: u64,
    ) -> Result<Json, AllocError>
        requires { IsUtf8 origin.now }
        ensures { IfOk result (λ json. data_of json ≡ string (origin.now ++ directory.now ++ id kind number)) }
    {
        let id = id_text(Id { kind, number });
        let (origin, id) = (utf8(origin), utf8(&id));
        Ok(Json {
            value: Value::from(format!(in alloc; "{origin}{directory}{id}")?),
        })
    }
}

/// The text of bytes that are one.
fn utf8(bytes: &[u8]) -> &str
    requires { IsUtf8 bytes.now }
    ensures { result.now ≡ bytes.now }
{
    match str::from_utf8(bytes) {
        Ok(text) => text,
        Err(_) => unreachable!(),
    }
}
