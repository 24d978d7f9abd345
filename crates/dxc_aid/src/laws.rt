//! What is true of the names of every shape, as the contract of a function without parameters.
ghost use Rattle.dxc_num.specs.Dimensions.{Dimensions, IsInLimits};
ghost use Rattle.dxc_aid.specs.Laws.{AreNames, AreReadAgain};

/// A text is read as the module, the middle, the port or the selection whose name it is but for case, and as no other.
pub fn names_are_read()
    ensures { (d : Dimensions) → IsInLimits d → AreNames d }
{}

/// What is written of a module, a middle or a port is read again as that one.
pub fn what_is_written_is_read_again()
    ensures { (d : Dimensions) → IsInLimits d → AreReadAgain d }
{}
