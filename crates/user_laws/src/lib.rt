//! What a crash at any moment of a run might have left of the users' journal, and what holds of a standby's copy of it, as contracts of functions
//! without parameters.
#![tactic(auto)]

ghost use Rattle.user_laws.specs.Crashes.{CrashesStand};
ghost use Rattle.user_laws.specs.Mirrorings.{CopiesStand, ReadingsStand};

use dxc_disk::Disk;

/// From its first Sync on a standby's copy of the users' journal stands for the users after the first operations of their history, and maybe for one change
/// more, that of the operation in hand or in doubt. All operations that ended by the last sync which the primary answered while Joined are among the first,
/// and so all users' changes that were acknowledged while Joined. This holds whenever the primary stopped, in the middle of an operation too, and long after
/// the mirror was lost. Before that Sync the name of the copy stands for no file at all (`named` of `standby_link`).
///
/// What the history's operations were to the disk, the state says wherever the users' keeper is home (`read` of `StandsFor`), of the disk from the moment on
/// at which it was handed to `UserState::open`. Which of its readings a standby's file may be, say the laws of `standby_link`.
pub fn standbys_stand_for_users<D: Disk>()
    ensures stands { ReadingsStand D.told D.state }
    ensures copies { CopiesStand D.told D.state }
{}

/// At whatever moment since the start a crash came, also in the middle of a change: the file that it leaves stands for the users after the first entries
/// of their history, and maybe for one change more, that of the next entry or one in doubt. All that had ended by then are among the first.
///
/// The moments at which operations ended, the state keeps wherever the users' keeper is home (`read` of `StandsFor`): nothing that was read later was read
/// before them.
pub fn crashes_stand_for_users<D: Disk>()
    ensures { CrashesStand D.told D.state }
{}
