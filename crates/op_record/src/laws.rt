//! Laws of records. Each function does nothing: its contract is the law.

ghost use Rattle.op_record.specs.Laws.{NoRecordBeginsAnother, NoActBeginsAnother, AreCutOneWay, IsReadBack, IsReadOneWay, BothVersionsSayIt};

/// No record begins another one, and no two entries have one record.
pub fn no_record_begins_another()
    ensures { NoRecordBeginsAnother }
{}

/// What a round of version 2 has for an entry begins that of no other one, and no two entries of one moment have the same.
pub fn no_act_begins_another()
    ensures { NoActBeginsAnother }
{}

/// A payload says one list of entries.
pub fn rounds_are_read_one_way()
    ensures { IsReadOneWay }
{}

/// The payloads of both versions for one list of entries that version 1 has say that list.
pub fn both_versions_say_it()
    ensures { BothVersionsSayIt }
{}

/// Records that stand one after another are cut in one way.
pub fn records_are_cut_one_way()
    ensures { AreCutOneWay }
{}

/// What was written is read again, whatever follows.
pub fn records_read_back()
    ensures { IsReadBack }
{}
