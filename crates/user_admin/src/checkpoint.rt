//! Writes the users into the area of their journal that isn't current, and turns to it.
ghost use Rattle.std.specs.Prelude.{◌≡◌, ◌≤◌, ◌+◌, ◌++◌, [], true, false, length, map, OnErr, OnOk, IsErr};
ghost use Rattle.std.specs.FinMap.{len};
ghost use Rattle.dxc_causes.specs.Causes.{HasCause};
ghost use Rattle.dxc_disk.specs.Disks.{IsSound, Spends};
ghost use Rattle.journal_core.specs.declared.spare.SpareArea.TheVariants.{Drafted, Open};
ghost use Rattle.journal_core.specs.Books.{IsReady, IsWhole, draft_of, is_drafted, rows};
ghost use Rattle.user_admin.specs.Users.{Users};
ghost use Rattle.user_admin.specs.Changes.{most_users};
ghost use Rattle.user_admin.specs.Checkpoints.{rows as rows_of};
ghost use Rattle.user_admin.specs.Journals.{LeavesHome, StaysHome, lists};
ghost use Rattle.user_admin.specs.Laws.{AreNamed};
ghost use Rattle.user_admin.specs.Records.{spelling};
ghost use Rattle.user_admin.specs.Spellable.{AreDescribed, AreSpellable};

use crate::op::UserChange;
use crate::rows::{deletions, edits, entrances};
use crate::table::UserTable;
use crate::write::record_of;
use dxc_disk::{Disk, DiskFault};
use journal_core::Journal;

// Adds the records of these changes to a checkpoint that was begun.
fn add_rows<D: Disk>(journal: &mut Journal<D>, changes: &[UserChange]) -> Result<(), DiskFault>
    requires drafted { is_drafted journal.old.1.spare ≡ true }
    requires few { length changes.now ≤ 64 }
    requires room { (draft_of journal.old.1.spare).rows ≤ 128 }
    ensures ok { OnOk result (journal.new.1 ≡ record journal.old.1 {
      spare = Drafted (record {
        equipped = (draft_of journal.old.1.spare).equipped;
        rows = (draft_of journal.old.1.spare).rows + length changes.now;
      });
    }) }
    ensures err { OnErr result (journal.new.1 ≡ record journal.old.1 { spare = Open }) }
    ensures rows { D.told → OnOk result (rows journal.new.1 (D.state journal.new.0).reads_as ≡ rows
        journal.old.1 (D.state journal.old.0).reads_as ++ map spelling changes.now) }
    ensures whole { IsWhole journal.new.1 }
    ensures home { (shelf users : Users)
        → StaysHome D.Disk journal.old journal.new (lists shelf users) }
    ensures any_moment { D.told → (shelf users : Users)
        → LeavesHome D.Disk journal.old journal.new (lists shelf users) }
    ensures cause { HasCause (D.state journal.old.0).faults (D.state journal.new.0).faults
        (IsErr result) }
    ensures room { Spends 4_224 (D.state journal.old.0) (D.state journal.new.0) }
    ensures sound { IsSound 4_224 (D.state journal.old.0) → IsErr result → ⊥ }
{
    // Its clause tells what a journal always keeps.
    let _count = journal.count();
    for at in 0..changes.len() {
        match journal.add_row(&record_of(&changes[at])) {
            Ok(()) => {}
            Err(DiskFault) => return Err(DiskFault),
        }
    }
    Ok(())
}

// Adds the rows that lead from the shelf's users to these, to a checkpoint that has none yet.
fn add_all<D: Disk>(
    journal: &mut Journal<D>,
    described: &UserTable,
    users: &UserTable,
) -> Result<(), DiskFault>
    requires drafted { is_drafted journal.old.1.spare ≡ true }
    requires none { (draft_of journal.old.1.spare).rows ≡ 0 }
    requires empty { D.told → rows journal.old.1 (D.state journal.old.0).reads_as ≡ [] }
    ensures ok { OnOk result (journal.new.1 ≡ record journal.old.1 {
      spare = Drafted (record {
        equipped = (draft_of journal.old.1.spare).equipped;
        rows = length (rows_of described.now users.now);
      });
    }) }
    ensures err { OnErr result (journal.new.1 ≡ record journal.old.1 { spare = Open }) }
    ensures few { OnOk result (length (rows_of described.now users.now) ≤ 192) }
    ensures rows { D.told → OnOk result (rows journal.new.1 (D.state journal.new.0).reads_as ≡ map
        spelling (rows_of described.now users.now)) }
    ensures whole { IsWhole journal.new.1 }
    ensures home { (shelf users : Users)
        → StaysHome D.Disk journal.old journal.new (lists shelf users) }
    ensures any_moment { D.told → (shelf users : Users)
        → LeavesHome D.Disk journal.old journal.new (lists shelf users) }
    ensures cause { HasCause (D.state journal.old.0).faults (D.state journal.new.0).faults
        (IsErr result) }
    ensures room { Spends 12_672 (D.state journal.old.0) (D.state journal.new.0) }
    ensures sound { IsSound 12_672 (D.state journal.old.0) → IsErr result → ⊥ }
{
    match add_rows(journal, deletions(described, users).as_slice()) {
        Ok(()) => {}
        Err(DiskFault) => return Err(DiskFault),
    }
    match add_rows(journal, edits(described, users).as_slice()) {
        Ok(()) => {}
        Err(DiskFault) => return Err(DiskFault),
    }
    add_rows(journal, entrances(described, users).as_slice())
}

/// Writes a checkpoint of the users, and turns to it. It takes at most 4,207,144 of the disk's room.
///
/// DiskFault is the only error; what the journal stands for is as before in either case.
pub(crate) fn write_checkpoint<D: Disk>(
    journal: &mut Journal<D>,
    described: &UserTable,
    users: &UserTable,
) -> Result<(), DiskFault>
    requires spelled { AreDescribed described.now × AreSpellable described.now users.now }
    requires named { AreNamed described.now × AreNamed users.now }
    requires few { len users.now ≤ most_users }
    ensures home { StaysHome D.Disk journal.old journal.new (lists described.now users.now) }
    ensures ready { OnOk result (IsReady journal.new.1) }
    ensures shape { journal.new.1.shape ≡ journal.old.1.shape }
    // The new header names the modules that the old one named.
    ensures equipped { journal.new.1.head.equipped ≡ journal.old.1.head.equipped }
    ensures book { IsWhole journal.new.1 }
    ensures whole { journal.old.1.to_mend ≡ false → journal.new.1.to_mend ≡ false }
    ensures any_moment { D.told
        → LeavesHome D.Disk journal.old journal.new (lists described.now users.now) }
    ensures cause { HasCause (D.state journal.old.0).faults (D.state journal.new.0).faults
        (IsErr result) }
    ensures room { Spends 4_207_144 (D.state journal.old.0) (D.state journal.new.0) }
    ensures sound { IsSound 4_207_144 (D.state journal.old.0) → IsErr result → ⊥ }
{
    // Its clause tells that its equipment is of the shape.
    let _count = journal.count();
    match journal.begin_area(journal.equipped()) {
        Ok(()) => {}
        Err(DiskFault) => return Err(DiskFault),
    }
    match add_all(journal, described, users) {
        Ok(()) => {}
        Err(DiskFault) => return Err(DiskFault),
    }
    journal.turn()
}
