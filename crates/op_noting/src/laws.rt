//! The laws of one more entry. Each function does nothing: its contract is the law.

ghost use Rattle.op_noting.specs.Laws.{EventsNext, EventsFollow, EventsRead, FeedsNext, NamesAreTexts};

/// An entry adds the events that its act tells of the payments that it touches, and these are two at most.
pub fn events_next()
    ensures { EventsNext }
{}

/// Events of a legal history, each with its attempts, are those of the longer history behind an entry that may follow.
pub fn events_follow()
    ensures { EventsFollow }
{}

/// Whether an event is due, and which are due first, is what the history says.
pub fn events_read()
    ensures { EventsRead }
{}

/// An entry adds to the feeds the payment that it ends, where that has a page and has sent something.
pub fn feeds_next()
    ensures { FeedsNext }
{}

/// The origin of a legal history and the paths of its addresses are UTF-8.
pub fn names_are_texts()
    ensures { NamesAreTexts }
{}
