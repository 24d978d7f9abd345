//! What holds at every step of a run of writes.
ghost use Rattle.roll_engine.specs.Cold.{IsColdBegun, IsColdDone, IsColdSpared};
ghost use Rattle.roll_engine.specs.Leading.{IsLeadingBegun, IsLedByJoins, IsLedToRest, IsSwitchedByJoins};
ghost use Rattle.roll_engine.specs.Staying.{IsAlwaysAllowed, IsAlwaysEstablished, IsAlwaysMidway, IsAlwaysSpared, IsBegunAtRest, IsDetermined, IsDoneAtRest, IsNewAtRest, IsNoted, IsReadyMidway, IsSwitchCounted};
ghost use Rattle.roll_engine.specs.UnderWay.{IsBegun, IsDoneUnderWay, IsReadyUnderWay, IsTakenOn};

/// Each leg that was established, and whose OUT word no write clears, is established at every step.
pub fn established()
    ensures { IsAlwaysEstablished }
{}

/// Each leg that a work doesn't part stays established at every step of it.
pub fn spared()
    ensures { IsAlwaysSpared }
{}

/// A run that starts at a stage of a work is at a stage of it at every step.
pub fn midway()
    ensures { IsAlwaysMidway }
{}

/// A new fabric is at rest without legs.
pub fn new_at_rest()
    ensures { IsNewAtRest }
{}

/// A work that is valid for a colouring may be made where the registers are those of the colouring, and leads to those of the colouring
/// after it.
pub fn allowed()
    ensures { IsAlwaysAllowed }
{}

/// At rest on a colouring the registers are at the first stage of each work.
pub fn begun()
    ensures { IsBegunAtRest }
{}

/// At each stage of a valid work the writes that are left may be made.
pub fn midway_ready()
    ensures { IsReadyMidway }
{}

/// At its last stage the registers are those of the colouring after it.
pub fn midway_done()
    ensures { IsDoneAtRest }
{}

/// A run makes its writes, in order, and no other.
pub fn noted()
    ensures { IsNoted }
{}

/// Each write of OUT to a middle makes one switch.
pub fn switches()
    ensures { IsSwitchCounted }
{}

/// The words of the registers, the numbers of switches aside, are a function of the established legs and the phase.
pub fn determined()
    ensures { IsDetermined }
{}

/// Where the registers are at rest on a colouring, each valid work begins.
pub fn under_way_begun()
    ensures { IsBegun }
{}

/// What is left of it may be made.
pub fn under_way_ready()
    ensures { IsReadyUnderWay }
{}

/// A call of `advance` takes it on.
pub fn under_way_on()
    ensures { IsTakenOn }
{}

/// Where nothing is left of it, the registers are at rest on the colouring after it.
pub fn under_way_done()
    ensures { IsDoneUnderWay }
{}

/// On a fabric at rest without legs a cold rolling begins.
pub fn cold_begun()
    ensures { IsColdBegun }
{}

/// Where a cold rolling has nothing left, the registers are those of the matrix's colouring.
pub fn cold_done()
    ensures { IsColdDone }
{}

/// Each leg that was established stays so at every step of a cold rolling.
pub fn cold_spared()
    ensures { IsColdSpared }
{}

/// Wherever the registers are, the writes of a cold rolling that begins there lead to any proper colouring.
pub fn leading_begun()
    ensures { IsLeadingBegun }
{}

/// They make a switch for each join, and no other.
pub fn leading_switches()
    ensures { IsSwitchedByJoins }
{}

/// Joins on a fabric that had no legs lead to their colouring.
pub fn joins_lead()
    ensures { IsLedByJoins }
{}

/// Where no write is left, the registers are at rest on the colouring.
pub fn leading_done()
    ensures { IsLedToRest }
{}
