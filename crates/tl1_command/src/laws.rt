//! What is true of the meaning of every text in the grammar, as the contract of a function without parameters.
ghost use Rattle.tl1_command.specs.Laws.{LabelsAreShort};

/// A label is refused exactly where it has more than 24 bytes: the grammar lets no other byte stand in a value.
pub fn labels_are_short()
    ensures { LabelsAreShort }
{}
