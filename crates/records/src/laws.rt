//! What follows from the definitions.

ghost use Rattle.records.specs.Laws.{BasesAreShort, LogIsReadOneWay, MaplogIsReadOneWay};
ghost use Rattle.records.specs.Laws.{NumberedStays, OneEntry, RecordsAreShort, RetainedBetween};

/// Of the bytes of records.
pub fn laws_of_records()
    // Bytes are those of one record.
    ensures one_entry { OneEntry }
    // Each takes less than 2^32 bytes, where a base is right.
    ensures short { RecordsAreShort }
    // A base takes at most 5,046,311 bytes.
    ensures bases { BasesAreShort }
{}

/// Lists of bodies are read in one way: each stands for one value at most, or breaks behind one front at most.
pub fn lists_are_read_one_way()
    ensures log { LogIsReadOneWay }
    ensures maplog { MaplogIsReadOneWay }
{}

/// Of bases whose snapshots are numbered without gaps, as those are whose bytes are read.
pub fn laws_of_bases()
    // So they stay behind each change.
    ensures numbered { NumberedStays }
    // Their retained snapshots are those from the oldest to the newest.
    ensures retained { RetainedBetween }
{}
