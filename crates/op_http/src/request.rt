//! A request as it came.
ghost use Rattle.std.specs.Prelude.{◌≡◌, map};
ghost use Rattle.std.specs.Str.{str_eq_ignore_ascii_case};

use std::marker::Model;

/// A field of a head (RFC 9110, section 5). Contracts see it as its name and its value.
#[derive(Drop)]
pub struct Field {
    name: Vec<u8>,
    value: Vec<u8>,
}

impl Model for Field {
    ghost use Rattle.std.specs.Prelude.{ℕ, List};

    ghost Value = { List ℕ × List ℕ };

    ghost view = { λ f. (f.name.items, f.value.items) };
}

impl Field {
    /// The field of this name and this value.
    pub fn new(name: Vec<u8>, value: Vec<u8>) -> Field
        ensures name { result.0 ≡ name.items }
        ensures value { result.1 ≡ value.items }
    {
        Field { name, value }
    }

    /// Its name, as it was sent.
    pub fn name(&self) -> &[u8]
        ensures { result.now ≡ self.now.0 }
    {
        &self.name
    }

    /// Its value, without the white space around it.
    pub fn value(&self) -> &[u8]
        ensures { result.now ≡ self.now.1 }
    {
        &self.value
    }

    /// Whether it has this name, whatever its case (RFC 9110, section 5.1).
    pub fn is_named(&self, name: &[u8]) -> bool
        ensures { result ≡ str_eq_ignore_ascii_case self.now.0 name.now }
    {
        self.name.as_slice().eq_ignore_ascii_case(name)
    }
}

/// A request as it came (RFC 9112, section 2.1). Contracts see it as the record of its parts.
#[derive(Drop)]
pub struct RawRequest {
    method: Vec<u8>,
    target: Vec<u8>,
    fields: Vec<Field>,
    body: Vec<u8>,
}

impl Model for RawRequest {
    ghost use Rattle.op_model.specs.Requests.{Raw};

    ghost Value = { Raw };

    ghost view = { λ r. record { method = r.method.items; target = r.target.items; fields = r.fields.items; body = r.body.items } };
}

impl RawRequest {
    /// The request of these parts.
    pub fn new(method: Vec<u8>, target: Vec<u8>, fields: Vec<Field>, body: Vec<u8>) -> RawRequest
        ensures method { result.method ≡ method.items }
        ensures target { result.target ≡ target.items }
        ensures fields { result.fields ≡ fields.items }
        ensures body { result.body ≡ body.items }
    {
        RawRequest {
            method,
            target,
            fields,
            body,
        }
    }

    /// Its method.
    pub fn method(&self) -> &[u8]
        ensures { result.now ≡ self.now.method }
    {
        &self.method
    }

    /// Its target: a path, and perhaps a query.
    pub fn target(&self) -> &[u8]
        ensures { result.now ≡ self.now.target }
    {
        &self.target
    }

    /// Its fields, in the order in which they came.
    pub fn fields(&self) -> &[Field]
        ensures { result.now ≡ self.now.fields }
    {
        &self.fields
    }

    /// Its body.
    pub fn body(&self) -> &[u8]
        ensures { result.now ≡ self.now.body }
    {
        &self.body
    }
}
