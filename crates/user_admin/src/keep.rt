//! Keeps a change of the users in their journal.
ghost use Rattle.std.specs.Prelude.{◌≡◌, ◌⊎◌, ◌≤◌, false, Option, Some, OnErr, OnOk, IsErr};
ghost use Rattle.std.specs.FinMap.{len};
ghost use Rattle.dxc_causes.specs.Causes.{HasCause};
ghost use Rattle.dxc_disk.specs.Disks.{IsSound, IsSynced, LeavesOnly, Spends};
ghost use Rattle.journal_core.specs.Books.{IsReady, IsWhole};
ghost use Rattle.user_admin.specs.declared.op.UserChange.{UserChange as Change};
ghost use Rattle.user_admin.specs.Changes.{Fits, effect, most_users};
ghost use Rattle.user_admin.specs.Files.{IsOldOrOneMore};
ghost use Rattle.user_admin.specs.Journals.{IsHome, LeavesHome, StaysHome, lists};
ghost use Rattle.user_admin.specs.Laws.{AreNamed};
ghost use Rattle.user_admin.specs.Records.{MayBeSpelled, has_long_salt};
ghost use Rattle.user_admin.specs.Spellable.{AreDescribed, AreSpellable};

use crate::checkpoint::write_checkpoint;
use crate::op::UserChange;
use crate::table::UserTable;
use crate::write::record_of;
use dxc_disk::{Disk, DiskFault};
use journal_core::Journal;

// Mends the journal, where that is due, and writes a checkpoint of the users, where one is due.
fn make_ready<D: Disk>(
    journal: &mut Journal<D>,
    described: &UserTable,
    users: &UserTable,
) -> Result<(), DiskFault>
    requires spelled { AreDescribed described.now × AreSpellable described.now users.now }
    requires named { AreNamed described.now × AreNamed users.now }
    requires few { len users.now ≤ most_users }
    ensures home { StaysHome D.Disk journal.old journal.new (lists described.now users.now) }
    ensures ready { OnOk result (IsReady journal.new.1 × (journal.new.1.to_mend ≡ false)) }
    ensures shape { journal.new.1.shape ≡ journal.old.1.shape }
    ensures equipped { journal.new.1.head.equipped ≡ journal.old.1.head.equipped }
    ensures book { IsWhole journal.new.1 }
    ensures any_moment { D.told
        → LeavesHome D.Disk journal.old journal.new (lists described.now users.now) }
    ensures still { IsReady journal.old.1 × (journal.old.1.to_mend ≡ false)
        → journal.new ≡ journal.old }
    ensures cause { HasCause (D.state journal.old.0).faults (D.state journal.new.0).faults
        (IsErr result) }
    ensures room { Spends 4_207_147 (D.state journal.old.0) (D.state journal.new.0) }
    ensures sound { IsSound 4_207_147 (D.state journal.old.0) → IsErr result → ⊥ }
{
    match journal.mend() {
        Ok(()) => {}
        Err(DiskFault) => return Err(DiskFault),
    }
    if !journal.due() {
        return Ok(());
    }
    write_checkpoint(journal, described, users)
}

/// Appends the record of a change that fits the users. The journal is mended before, where a record is in doubt; and a checkpoint is written
/// before, where the journal's area is full or of version 1, or a checkpoint was begun that failed. It takes at most 4,207,216 of the disk's room.
///
/// DiskFault is the only error. The journal stands for the users as before then, with the change in doubt that was, or with this one.
pub(crate) fn keep<D: Disk>(
    journal: &mut Journal<D>,
    described: &UserTable,
    users: &UserTable,
    change: &UserChange,
) -> Result<(), DiskFault>
    requires spelled { AreDescribed described.now × AreSpellable described.now users.now }
    requires named { AreNamed described.now × AreNamed users.now }
    requires few { len users.now ≤ most_users }
    requires fits { Fits change.now users.now }
    requires meant { MayBeSpelled described.now (has_long_salt change.now) change.now }
    ensures kept { OnOk result ((doubt then_doubt : Option Change)
        → IsHome D.Disk journal.old (lists described.now users.now) doubt → IsHome D.Disk
        journal.new (lists described.now (effect change.now users.now)) then_doubt) }
    ensures failed { OnErr result ((doubt : Option Change)
        → IsHome D.Disk journal.old (lists described.now users.now) doubt
        → IsHome D.Disk journal.new (lists described.now users.now) doubt
        ⊎ IsHome D.Disk journal.new (lists described.now users.now) (Some change.now)) }
    // The last that its disk did is then a sync.
    ensures synced { D.told → OnOk result (IsSynced (D.state journal.new.0)) }
    ensures shape { journal.new.1.shape ≡ journal.old.1.shape }
    ensures equipped { journal.new.1.head.equipped ≡ journal.old.1.head.equipped }
    ensures book { IsWhole journal.new.1 }
    // A crash at any moment leaves the users as they were, with the change in doubt or not, or with this one.
    ensures any_moment { D.told → (doubt : Option Change)
        → IsHome D.Disk journal.old (lists described.now users.now) doubt
        → LeavesOnly (D.state journal.old.0) (D.state journal.new.0)
        (IsOldOrOneMore journal.old.1.shape described.now users.now doubt change.now) }
    ensures cause { HasCause (D.state journal.old.0).faults (D.state journal.new.0).faults
        (IsErr result) }
    ensures room { Spends 4_207_216 (D.state journal.old.0) (D.state journal.new.0) }
    ensures short { IsReady journal.old.1 × (journal.old.1.to_mend ≡ false)
        → Spends 69 (D.state journal.old.0) (D.state journal.new.0) }
    ensures sound { IsSound 4_207_216 (D.state journal.old.0) → IsErr result → ⊥ }
{
    match make_ready(journal, described, users) {
        Ok(()) => {}
        Err(DiskFault) => return Err(DiskFault),
    }
    journal.append(&record_of(change))
}
