//! What holds of all records.
ghost use Rattle.xc_journal.specs.Laws.{OldOnesStay, OneValueEach, RecordsAreSealed};

/// No two values are spelled alike, what version 1 spells version 2 does too, and each record has its 64 bytes and a seal byte
/// that is set.
pub fn spellings()
    ensures one_value { OneValueEach }
    ensures old_ones { OldOnesStay }
    ensures sealed { RecordsAreSealed }
{}
