//! What holds of every colouring, as the contracts of functions without parameters.
ghost use Rattle.paull_chain.specs.Laws.{AreChainsApart, AreChainsDetermined, AreJoinsDetermined, ArePlansDetermined, AreWorksComposed, DoChainsEnd, IsAlwaysChosen, IsChosenOnce, IsPropernessKept};
ghost use Rattle.paull_chain.specs.Paull.{IsRearrangeable};

/// Paull's theorem: a new leg can always be joined after at most 3 (r - 1) / 2 valid moves.
pub fn rearrangeable()
    ensures { IsRearrangeable }
{}

/// Both chains of a new leg end.
pub fn chains_end()
    ensures { DoChainsEnd }
{}

/// They share no module, and together have at most 2 r - 2 legs.
pub fn chains_apart()
    ensures { AreChainsApart }
{}

/// There is one chain from a row or column on two middles.
pub fn chains_determined()
    ensures { AreChainsDetermined }
{}

/// Each new leg has a choice by lowest numbers, and that is a valid one.
pub fn always_chosen()
    ensures { IsAlwaysChosen }
{}

/// It has only one.
pub fn chosen_once()
    ensures { IsChosenOnce }
{}

/// A choice makes one join, so `expand` is a function of the colouring.
pub fn joins_determined()
    ensures { AreJoinsDetermined }
{}

/// A leg has one plan, in any colouring, so `plan_join` is a function of it too.
pub fn plans_determined()
    ensures { ArePlansDetermined }
{}

/// Valid works, one after the other, are one valid work.
pub fn works_composed()
    ensures { AreWorksComposed }
{}

/// A valid work keeps a colouring proper.
pub fn properness_kept()
    ensures { IsPropernessKept }
{}
