//! Which events are due, and their messages.
ghost use Rattle.std.specs.Prelude.{◌≡◌, ◌++◌, ℕ, List, OnOk, OnErr, IfOk, IsTrue};
ghost use Rattle.std.specs.Str.{IsUtf8};
ghost use Rattle.op_hooks.specs.Value.{due_events, has_event};
ghost use Rattle.op_noting.specs.Laws.{AreDue, IsMessage};

use op_hooks::{Events, message};
use op_names::{AddressPath, Origin};
use op_time::Moment;
use std::alloc::{AllocError, Global};

/// How many events a hook round tells at most.
const HOOK_LIMIT: usize = 16;

/// Appends the numbers of the first 16 events that are due at a moment, in their order. Where memory is short, `out` is
/// as it was.
pub fn due_hooks(
    alloc: Global,
    events: &Events,
    t: Moment,
    out: &mut Vec<u64>,
) -> Result<(), AllocError>
    ensures ok { OnOk result (out.new.items ≡ out.old.items ++ due_events events.now t 16) }
    ensures by_history { AreDue events.now t 16 (due_events events.now t 16) }
    ensures err { OnErr result (out.new.items ≡ out.old.items) }
{
    events.due(alloc, t, HOOK_LIMIT, out)
}

/// The message of an event at a moment: that of the history whose events these are, where the origin is the history's and
/// the path is that of the event's address.
pub fn hook(
    alloc: Global,
    events: &Events,
    origin: &Origin,
    path: &AddressPath,
    event: u64,
    t: Moment,
    secret: &[u8; 32],
) -> Result<Vec<u8>, AllocError>
    requires there { IsTrue (has_event events.now event) }
    requires origin { IsUtf8 origin.now }
    requires path { IsUtf8 path.now }
    ensures { IfOk result (λ bytes. IsMessage events.now origin.now path.now event t secret.now bytes.items) }
{
    match events.row(event) {
        Some(row) => message(alloc, origin, path, event, row, t, secret),
        None => unreachable!(),
    }
}
