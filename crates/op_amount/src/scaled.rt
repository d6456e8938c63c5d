//! Values as decimal texts with a point, as people read them.

ghost use Rattle.std.specs.Prelude.{◌≡◌, ◌++◌, length, OnOk, OnErr, IfOk};
ghost use Rattle.op_amount.specs.Scaled.{scaled};

use itoa::Buffer;
use std::alloc::{AllocError, Global};

/// How many bytes `print_scaled` appends.
pub fn scaled_length(value: u64, scale: u8) -> usize
    ensures { result ≡ length (scaled value scale) }
{
    let mut buffer = Buffer::new();
    let digits = buffer.format(value).len();
    if scale == 0 {
        digits
    } else {
        digits.max(usize::from(scale) + 1) + 1
    }
}

/// Appends a value's decimal text with `scale` digits behind the point, and no point where the
/// scale is 0. Want of memory leaves `out` as it was.
pub fn print_scaled(
    alloc: Global,
    value: u64,
    scale: u8,
    out: &mut Vec<u8>,
) -> Result<(), AllocError>
    ensures ok { OnOk result (out.new.items ≡ out.old.items ++ scaled value scale) }
    ensures err { OnErr result (out.new.items ≡ out.old.items) }
{
    let text = scaled_text(alloc, value, scale)?;
    out.extend_from_slice(&text)
}

fn scaled_text(alloc: Global, value: u64, scale: u8) -> Result<Vec<u8>, AllocError>
    ensures { IfOk result (λ text. text.items ≡ scaled value scale) }
{
    let mut buffer = Buffer::new();
    let digits = buffer.format(value).as_bytes();
    let places = usize::from(scale);
    if places == 0 {
        return Vec::from_slice(alloc, digits);
    }
    let zeros = (places + 1).saturating_sub(digits.len());
    let mut text = vec![in alloc; b'0'; zeros]?;
    text.extend_from_slice(digits)?;
    text.insert(text.len() - places, b'.')?;
    Ok(text)
}
