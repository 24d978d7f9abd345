//! What holds of all histories of changes and of all openings, as the contracts of functions without parameters.
#![tactic(auto)]

ghost use Rattle.core_laws.specs.Laws.{ChangesAreCounted, ChangesComeToOne, LimitsAreOne, MiddlesMoveFew, MovesAreFew, OpeningsAreOne, StandbysAreAdopted, StoppedAreAdopted, SyncedAreMirrored};
ghost use Rattle.core_laws.specs.Mirrorings.{CrashesStand, ReadingsStand};

use dxc_disk::Disk;

/// Changes come to one table, colouring and number of switches, each is counted, and a change after them meets one limit, or none.
pub fn limits_are_one()
    ensures come_to { ChangesComeToOne }
    ensures counted { ChangesAreCounted }
    ensures met { LimitsAreOne }
{}

/// A change of connections in a network of r modules moves at most 3 (r - 1) circuits (Paull 1962), of both its legs together; while a middle
/// is out of service, at most two. A middle that is taken out or put back moves at most r.
pub fn moves_are_few()
    ensures legs { MovesAreFew }
    ensures middles { MiddlesMoveFew }
{}

/// What a file stands for on a shelf is one thing, whatever the fabric.
pub fn openings_are_one()
    ensures { OpeningsAreOne }
{}

/// Where a controller stopped, its registers are never strange to what a crash may leave of its journal, so that another one goes on with
/// both: `Core::adopt` then isn't Strange.
pub fn stopped_are_adopted<D: Disk>()
    ensures { StoppedAreAdopted D.told D.state }
{}

/// Where no call came after the last sync that a primary answered while Joined, its standby can go on: the standby's file stands for every command
/// that was acknowledged, and isn't strange to the primary's registers.
pub fn standbys_are_adopted<D: Disk>()
    ensures synced { SyncedAreMirrored D.told D.state }
    ensures adopted { StandbysAreAdopted D.told D.state }
{}

/// Each file that a journal's disk has read stands for the changes of the first operations of the run, and maybe for one change more, that of the operation
/// in hand or in doubt. All operations that ended by that reading are among the first, and the changes of all of them are those that the history has.
///
/// So does a standby's file from its first Sync on, which is one of these readings, whenever the primary stopped, in the middle of an operation too, and long
/// after the mirror was lost: all operations are among the first that ended by the last sync which the primary answered while Joined (`standby_link::laws`
/// says which readings those may be).
///
/// What a run's operations are, the state says wherever its Provisioner is home (`read` of `IsHomeAfter`), from the start on.
pub fn readings_stand_for_operations<D: Disk>()
    ensures { ReadingsStand D.told D.state }
{}

/// Whatever moment since the start a crash came at, also while an operation used the journal: the file that it leaves stands for the changes of the first
/// operations of the run, with all that had ended by then, and maybe for one change more, that of the operation in hand or in doubt.
///
/// Moments are those of the journal's disk. Each operation has one at which it had ended (`ended`); what was read behind it, was read from then on.
pub fn crashes_stand_for_operations<D: Disk>()
    ensures { CrashesStand D.told D.state }
{}
