//! Writes a table and its legs into the area of the journal that isn't current, and turns to it.
ghost use Rattle.std.specs.Prelude.{◌≡◌, ◌≤◌, [], true, false, length, Option, OnErr, OnOk, IsErr};
ghost use Rattle.std.specs.List.{AllByRecursion};
ghost use Rattle.dxc_causes.specs.Causes.{HasCause};
ghost use Rattle.dxc_disk.specs.Disks.{IsSound, LeavesOnly, Spends};
ghost use Rattle.dxc_num.specs.Dimensions.{IsInLimits};
ghost use Rattle.dxc_model.specs.declared.op.Op.{Op};
ghost use Rattle.dxc_model.specs.Tables.{IsOfShape};
ghost use Rattle.journal_core.specs.declared.spare.SpareArea.TheVariants.{Drafted, Open};
ghost use Rattle.journal_core.specs.Books.{IsReady, IsWhole, draft_of, is_drafted, listed, rows};
ghost use Rattle.journal_core.specs.Turns.{Keeps, book_on};
ghost use Rattle.xc_journal.specs.Entries.{FitsConn};
ghost use Rattle.xc_recovery.specs.Placings.{IsPlaced};
ghost use Rattle.xc_recovery.specs.Rows.{checkpoint};
ghost use Rattle.xc_core.specs.Reckonings.{IsTable, Past};
ghost use Rattle.xc_core.specs.Journals.{IsAtHome, IsCounted, IsOldOrDoubted};
ghost use Rattle.xc_core.specs.Gathered.{StillCountsIn};

use dxc_disk::{Disk, DiskFault};
use dxc_model::Table;
use journal_core::Journal;
use paull_matrix::Matrix;
use xc_recovery::{checkpoint_equipment, checkpoint_row};

// Adds the rows of the table and its legs to a checkpoint that has none yet.
fn add_rows<D: Disk>(
    journal: &mut Journal<D>,
    table: &Table,
    matrix: &Matrix,
) -> Result<(), DiskFault>
    requires placed { IsPlaced table.now matrix.now }
    requires shape { table.now.shape ≡ journal.old.1.shape }
    requires few { length (checkpoint table.now matrix.now) ≤ 6_145 }
    requires drafted { is_drafted journal.old.1.spare ≡ true }
    requires none { (draft_of journal.old.1.spare).rows ≡ 0 }
    requires empty { D.told → rows journal.old.1 (D.state journal.old.0).reads_as ≡ [] }
    ensures ok { OnOk result (journal.new.1 ≡ record journal.old.1 {
      spare = Drafted (record {
        equipped = (draft_of journal.old.1.spare).equipped;
        rows = length (checkpoint table.now matrix.now);
      });
    }) }
    ensures err { OnErr result (journal.new.1 ≡ record journal.old.1 { spare = Open }) }
    ensures rows { D.told → OnOk result
        (rows journal.new.1 (D.state journal.new.0).reads_as ≡ checkpoint table.now matrix.now) }
    ensures whole { IsWhole journal.new.1 }
    ensures home { (b : Past) → (doubt : Option Op)
        → IsAtHome D.told (D.state journal.old.0) journal.old.1 b doubt
        → IsAtHome D.told (D.state journal.new.0) journal.new.1 b doubt }
    ensures any_moment { D.told → (b : Past) → (doubt : Option Op)
        → IsAtHome D.told (D.state journal.old.0) journal.old.1 b doubt
        → IsTable b table.now matrix.now
        → LeavesOnly (D.state journal.old.0) (D.state journal.new.0) (IsOldOrDoubted b doubt) }
    ensures same { D.told → listed journal.new.1 (D.state journal.new.0).reads_as ≡ listed
        journal.old.1 (D.state journal.old.0).reads_as }
    ensures acknowledged { D.told → (b : Past) → (doubt : Option Op)
        → IsAtHome D.told (D.state journal.old.0) journal.old.1 b doubt
        → Keeps (D.state journal.old.0) (D.state journal.new.0) journal.old.1 }
    ensures cause { HasCause (D.state journal.old.0).faults (D.state journal.new.0).faults
        (IsErr result) }
    ensures room { Spends 405_570 (D.state journal.old.0) (D.state journal.new.0) }
    ensures sound { IsSound 405_570 (D.state journal.old.0) → IsErr result → ⊥ }
{
    // Its clause tells what a journal always keeps.
    let _count = journal.count();
    let mut i = 0;
    let mut port = 0;
    while let Some(row) = checkpoint_row(table, matrix, i, &mut port) {
        match journal.add_row(&row) {
            Ok(()) => {}
            Err(DiskFault) => return Err(DiskFault),
        }
        i += 1;
    }
    Ok(())
}

/// Writes a checkpoint of the table and its legs, and turns to it. It takes at most 4,600,042 of the disk's room.
///
/// DiskFault is the only error; what the journal stands for is as before in either case.
// Apart, since few changes need one.
#[inline(never)]
pub(crate) fn write_checkpoint<D: Disk>(
    journal: &mut Journal<D>,
    table: &Table,
    matrix: &Matrix,
) -> Result<(), DiskFault>
    requires placed { IsPlaced table.now matrix.now }
    requires shape { table.now.shape ≡ journal.old.1.shape }
    requires of_shape { IsOfShape table.now × IsInLimits table.now.shape }
    requires spelled { AllByRecursion FitsConn table.now.conns }
    ensures home { (b : Past) → (doubt : Option Op)
        → IsAtHome D.told (D.state journal.old.0) journal.old.1 b doubt
        → IsTable b table.now matrix.now
        → IsAtHome D.told (D.state journal.new.0) journal.new.1 b doubt }
    ensures ready { OnOk result (IsReady journal.new.1) }
    ensures shape { journal.new.1.shape ≡ journal.old.1.shape }
    ensures book { IsWhole journal.new.1 }
    ensures whole { journal.old.1.to_mend ≡ false → journal.new.1.to_mend ≡ false }
    ensures any_moment { D.told → (b : Past) → (doubt : Option Op)
        → IsAtHome D.told (D.state journal.old.0) journal.old.1 b doubt
        → IsTable b table.now matrix.now
        → LeavesOnly (D.state journal.old.0) (D.state journal.new.0) (IsOldOrDoubted b doubt) }
    // What was counted stays: each image continues the list, or the checkpoint.
    ensures acknowledged { D.told → (b : Past) → (doubt : Option Op)
        → IsAtHome D.told (D.state journal.old.0) journal.old.1 b doubt
        → LeavesOnly (D.state journal.old.0) (D.state journal.new.0)
        (IsCounted (D.state journal.old.0) journal.old.1 table.now matrix.now) }
    ensures counts { D.told → OnOk result
        (StillCountsIn (book_on (D.state journal.old.0) journal.old.1)
        (book_on (D.state journal.new.0) journal.new.1) table.now matrix.now) }
    ensures cause { HasCause (D.state journal.old.0).faults (D.state journal.new.0).faults
        (IsErr result) }
    ensures room { Spends 4_600_042 (D.state journal.old.0) (D.state journal.new.0) }
    ensures sound { IsSound 4_600_042 (D.state journal.old.0) → IsErr result → ⊥ }
{
    match journal.begin_area(checkpoint_equipment(table)) {
        Ok(()) => {}
        Err(DiskFault) => return Err(DiskFault),
    }
    match add_rows(journal, table, matrix) {
        Ok(()) => {}
        Err(DiskFault) => return Err(DiskFault),
    }
    journal.turn()
}
