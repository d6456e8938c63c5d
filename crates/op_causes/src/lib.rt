//! Causes: a fault is answered only where the object of the outside that it names counted one.
//!
//! Each trait of the outside (a disk, a stream, a clock) has a count of its faults that never falls. Its contracts,
//! and those of every call above it, say "this answer came from that object" by three words: `Rose`, the count rose;
//! `HasCause`, what a call that can only fail by its object owes that object's count; and `NamesFault`, the same of a call
//! whose answer has other reasons too.
#![tactic(auto)]

ghost use Rattle.std.specs.Prelude.{◌≡◌, ◌+◌, ◌-◌, ◌^◌, ◌≤◌, min};
ghost use Rattle.op_causes.specs.Causes.{Rose};

/// Counts a fault. A count at its greatest value stays there.
pub fn count_fault(faults: &mut u64)
    ensures count { faults.new ≡ min (faults.old + 1) (2 ^ 64 - 1) }
    ensures later { faults.old ≤ faults.new }
    ensures rose { Rose faults.old faults.new }
{
    *faults = faults.saturating_add(1);
}
