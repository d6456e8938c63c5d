//! Rounds written, in version 2. Room for the whole round is made first, so that nothing is half written.

ghost use Rattle.std.specs.Prelude.{◌≡◌, ◌≤◌, ◌<◌, ◌+◌, ◌-◌, ◌^◌, ◌++◌, ℕ, min, length, IsOk, OnOk, OnErr, vec_len, vec_capacity};
ghost use Rattle.std.specs.List.{flat_map, AllByRecursion};
ghost use Rattle.op_record.specs.Recordable.{IsWritable};
ghost use Rattle.op_record.specs.Rounds.{act_in, round_of, moment_of, HaveOneMoment};
ghost use Rattle.op_record.specs.Writing.{Puts};

use crate::lengths::act_length;
use crate::writing::{put_act, put_u8, put_u64};
use op_model::Entry;
use op_time::Moment;
use std::alloc::AllocError;

/// The first byte of a payload of version 2.
pub(crate) const VERSION_2: u8 = 2;

/// How many bytes the payload of a round of these entries is, in version 2, or `usize::MAX` where it is longer. The
/// entries' texts are within their limits, and their items and outcomes are those of a record.
pub fn round_length(entries: &[Entry]) -> usize
    requires { AllByRecursion IsWritable entries.now }
    ensures { (at : ℕ) → result ≡ min (length (round_of at entries.now)) (2 ^ 64 - 1) }
{
    let mut sum = 9usize;
    for entry in entries {
        sum = sum.saturating_add(act_length(&entry.act));
    }
    sum
}

/// Puts each entry without its moment.
fn put_acts(out: &mut Vec<u8>, entries: &[Entry])
    requires { AllByRecursion IsWritable entries.now }
    ensures { Puts (flat_map act_in entries.now) out.old out.new }
{
    for entry in entries {
        put_act(out, &entry.act);
    }
}

fn put_round(out: &mut Vec<u8>, at: Moment, entries: &[Entry])
    requires { AllByRecursion IsWritable entries.now }
    ensures { Puts (round_of at entries.now) out.old out.new }
{
    put_u8(out, VERSION_2);
    put_u64(out, at.ms());
    put_acts(out, entries);
}

/// Puts the payload of a round of these entries, in version 2, behind what is there. There is an entry at least, and all
/// have one moment; their texts are within their limits, and their items and outcomes are those of a record. An `Err`
/// changes nothing, and comes only where `out` lacks room of `round_length`. No room is given back.
pub fn write_round(entries: &[Entry], out: &mut Vec<u8>) -> Result<(), AllocError>
    requires some { 0 < length entries.now }
    requires writable { AllByRecursion IsWritable entries.now }
    requires one { HaveOneMoment entries.now }
    ensures ok { OnOk result (out.new.items ≡ out.old.items ++ round_of (moment_of entries.now) entries.now) }
    ensures err { OnErr result (out.new.items ≡ out.old.items) }
    ensures room { vec_len out.old + length (round_of (moment_of entries.now) entries.now) ≤ vec_capacity out.old → IsOk result }
    ensures kept { vec_capacity out.old ≤ vec_capacity out.new }
{
    let [first, ..] = entries else {
        unreachable!();
    };
    out.reserve(round_length(entries))?;
    put_round(out, first.at, entries);
    Ok(())
}
