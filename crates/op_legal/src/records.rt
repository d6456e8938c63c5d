//! Laws of replies and of records.

ghost use Rattle.op_legal.specs.Records.{EntriesHaveRecords};
ghost use Rattle.op_legal.specs.Replies.{ActsAreNotRefused};

/// The reply of an answer with an act is no refusal.
pub fn acts_are_not_refused()
    ensures { ActsAreNotRefused }
{}

/// An entry that may follow a legal history has a record of version 2, where its word has sixteen bytes and the counts fit
/// their types.
pub fn entries_have_records()
    ensures { EntriesHaveRecords }
{}
