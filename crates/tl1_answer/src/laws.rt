//! What is true of the blocks of every response, as the contract of a function without parameters.
ghost use Rattle.tl1_answer.specs.Responses.{AreCut};

/// Each block is the head and as many whole lines as fit, so the blocks of a response are determined.
pub fn blocks_are_determined()
    ensures { AreCut }
{}
