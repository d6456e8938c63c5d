//! What calls ask for, tested at run time.

ghost use Rattle.std.specs.Prelude.{◌≡◌, ◌++◌, All, IsTrue};
ghost use Rattle.std.specs.Bool.{OnTrue};
ghost use Rattle.std.specs.Option.{option_to_list};
ghost use Rattle.op_grant.specs.Limits.{is_readable, has_readable_limits, are_readable, covers_spending};
ghost use Rattle.op_grant.specs.Places.{IsDrawnBefore, IsNewPlace, secrets_of};
ghost use Rattle.op_grant.specs.Value.{has_row};

use crate::Grants;
use crate::limits::cap_of;
use op_model::{GrantRow, Item};
use op_names::{SecretText, read_secret};
use op_time::read_interval;
use std::str;

fn lies_before(text: &SecretText, place: u64) -> bool
    ensures { OnTrue result (IsDrawnBefore place text.now) }
{
    match read_secret(text.as_bytes()) {
        Some((_, _, drawn)) => {
            if drawn >= place {
                return false;
            }
            true
        }
        None => true,
    }
}

fn some_before(text: &Option<SecretText>, place: u64) -> bool
    ensures { OnTrue result (All (IsDrawnBefore place) (option_to_list text.now)) }
{
    match text {
        Some(text) => lies_before(text, place),
        None => true,
    }
}

fn row_before(row: &GrantRow, place: u64) -> bool
    ensures { OnTrue result (All (IsDrawnBefore place) (secrets_of row.now)) }
{
    if !lies_before(&row.continuation, place) {
        return false;
    }
    if !lies_before(&row.nonce, place) {
        return false;
    }
    if !some_before(&row.access, place) {
        return false;
    }
    some_before(&row.reference, place)
}

/// Whether a place is above those of all secrets.
pub fn is_new_place(grants: &Grants, place: u64) -> bool
    ensures { OnTrue result (IsNewPlace place grants.now.rows) }
{
    for k in 0..grants.count() {
        match grants.row(k + 1) {
            Some(row) => {
                if !row_before(row, place) {
                    return false;
                }
            }
            None => return false,
        }
    }
    true
}

fn is_readable(text: &[u8]) -> bool
    ensures { result ≡ is_readable text.now }
{
    match str::from_utf8(text) {
        Ok(text) => read_interval(text).is_ok(),
        Err(_) => false,
    }
}

fn has_readable_limits(item: &Item) -> bool
    ensures { result ≡ has_readable_limits item.now }
{
    match &item.limits {
        Some(limits) => match &limits.interval {
            Some(text) => is_readable(text.bytes()),
            None => true,
        },
        None => true,
    }
}

/// Whether each interval can be read.
pub fn are_readable(items: &[Item]) -> bool
    ensures { result ≡ are_readable items.now }
{
    items.iter().all(|item| has_readable_limits(item))
}

/// Whether grant `n` is there.
pub fn is_there(grants: &Grants, n: u64) -> bool
    ensures { OnTrue result (IsTrue (has_row grants.now n)) }
{
    grants.row(n).is_some()
}

/// Whether the cap of grant `n` covers a value more in interval `j`.
pub fn covers(grants: &Grants, n: u64, j: u64, value: u64) -> bool
    ensures there { OnTrue result (IsTrue (has_row grants.now n)) }
    ensures covered { OnTrue result (IsTrue (covers_spending grants.now n j value)) }
{
    let Some(row) = grants.row(n) else {
        return false;
    };
    let Some(cap) = cap_of(row.items.as_slice()) else {
        return true;
    };
    match grants.spent(n, j).checked_add(value) {
        Some(sum) => sum <= cap.sum.value,
        None => false,
    }
}
