//! What is true of every stream and of every text, as the contract of a function without parameters.
ghost use Rattle.tl1_text.specs.Laws.{AreThere, AreDetermined, AreContinued, IsRead, AreRead, IsTagged};

/// Every stream of bytes has units and a rest.
pub fn units_are_there()
    ensures { AreThere }
{}

/// The bytes alone determine the units and the rest: how they were cut into pieces plays no part.
pub fn units_are_determined()
    ensures { AreDetermined }
{}

/// The units of two streams one after the other are those of the first, continued by those of its rest and the second.
pub fn units_are_continued()
    ensures { AreContinued }
{}

/// What is read of a text is what the grammar has of it, so the grammar has at most one list of blocks of it.
pub fn the_grammar_is_read()
    ensures { IsRead }
{}

/// The values that are read of a block are those that the grammar has of it.
pub fn the_values_are_read()
    ensures { AreRead }
{}

/// The CTAG of a text in the grammar is its fourth block, where that is a CTAG.
pub fn the_fourth_block_is_the_tag()
    ensures { IsTagged }
{}
