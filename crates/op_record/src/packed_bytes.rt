//! The bytes of an open round: a closed gate behind its payload, and the payload's length in front.

ghost use Rattle.std.specs.Prelude.{◌≡◌, ◌≤◌, ◌<◌, ◌+◌, ◌-◌, ◌++◌, ◌∷◌, [], ℕ, List, length, drop, vec_len, vec_capacity};
ghost use Rattle.std.specs.Int.{w32, to_be_bytes};
ghost use Rattle.op_time.specs.declared.TheConstants.{LAST};
ghost use Rattle.op_record.specs.Recordable.{IsWithinLimits};
ghost use Rattle.op_record.specs.Records.{act_of};
ghost use Rattle.op_record.specs.Rounds.{round_of};
ghost use Rattle.op_record.specs.Packing.{body_of};
ghost use Rattle.op_record.specs.Writing.{Puts};

use crate::round_writing::VERSION_2;
use crate::writing::{put_act, put_u8, put_u32, put_u64};
use op_model::Act;
use op_time::Moment;

/// A closed gate: it stands behind each round.
pub(crate) const CLOSED: u8 = 0;

/// The length of a payload without entries: the byte 2 and a moment.
const EMPTY_PAYLOAD: u32 = 9;

/// Writes a length into the four bytes from `start` on.
fn put_length(bytes: &mut Vec<u8>, start: usize, count: usize)
    requires { start + 4 ≤ length bytes.old.items }
    ensures put { (text digits rest : List ℕ) → length text ≡ start → length digits ≡ 4 → bytes.old.items ≡ text ++ (digits ++ rest)
        → bytes.new.items ≡ text ++ (to_be_bytes w32 count ++ rest) }
    ensures len { vec_len bytes.new ≡ vec_len bytes.old }
    ensures kept { vec_capacity bytes.new ≡ vec_capacity bytes.old }
{
    let digits = (count as u64).to_be_bytes();
    bytes[start] = digits[4];
    bytes[start + 1] = digits[5];
    bytes[start + 2] = digits[6];
    bytes[start + 3] = digits[7];
}

/// Puts what a commit asks for of a round without entries.
pub(crate) fn put_empty_round(bytes: &mut Vec<u8>, at: Moment)
    ensures put { Puts (body_of (round_of at [])) bytes.old bytes.new }
    ensures low { at ≤ LAST }
{
    put_u32(bytes, EMPTY_PAYLOAD);
    put_u8(bytes, VERSION_2);
    put_u64(bytes, at.ms());
    put_u8(bytes, CLOSED);
}

/// Puts an act into the round that is the end of the bytes, from `start` on. There is room for it.
pub(crate) fn put_in_round(bytes: &mut Vec<u8>, start: usize, act: &Act)
    requires start { start + 5 ≤ vec_len bytes.old }
    requires writable { IsWithinLimits act.now }
    requires room { vec_len bytes.old + length (act_of act.now) ≤ vec_capacity bytes.old }
    ensures put { (text digits payload : List ℕ) → length text ≡ start → length digits ≡ 4 → bytes.old.items ≡ text ++ (digits ++ (payload ++ 0 ∷ []))
        → bytes.new.items ≡ text ++ body_of (payload ++ act_of act.now) }
    ensures len { vec_len bytes.new ≡ vec_len bytes.old + length (act_of act.now) }
    ensures kept { vec_capacity bytes.old ≤ vec_capacity bytes.new }
{
    let _ = bytes.pop();
    put_act(bytes, act);
    put_u8(bytes, CLOSED);
    let payload = bytes.len() - start - 5;
    put_length(bytes, start, payload);
}
