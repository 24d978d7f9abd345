//! The users that a journal's records lead to.
ghost use Rattle.std.specs.Prelude.{◌≡◌, ℕ, List, length, IfOk, IsErrOf, OnErr, OnOk};
ghost use Rattle.dxc_causes.specs.Causes.{HasCause};
ghost use Rattle.dxc_disk.specs.Disks.{IsSound, Looks, ReadsNoMore, Spends};
ghost use Rattle.journal_core.specs.Books.{IsKept, listed};
ghost use Rattle.user_admin.specs.declared.op.UserChange.{UserChange as Change};
ghost use Rattle.user_admin.specs.Changes.{Fits, effect};
ghost use Rattle.user_admin.specs.Files.{FoldsTo};
ghost use Rattle.user_admin.specs.Journals.{Replays};
ghost use Rattle.user_admin.specs.Records.{Means};

use crate::op::BadRecord;
use crate::state::Lists;
use dxc_disk::{Disk, DiskFault};
use journal_core::Journal;

/// Why not every record was taken.
#[derive(Clone, Copy)]
pub(crate) enum FoldFault {
    /// The record of this number is the first that means no change that fits.
    BadRecord(u32),
    Disk,
}

// Takes the change of a record. One of version 1 has 32 bytes, and means none.
fn take(lists: &mut Lists, version: u8, bytes: &[u8; 64]) -> Result<(), BadRecord>
    ensures described { lists.new.described ≡ lists.old.described }
    ensures good { OnOk result ((version ≡ 2) × ((c : Change) × Means lists.old.described bytes.now
        c × Fits c lists.old.users × (lists.new.users ≡ effect c lists.old.users))) }
    ensures bad { OnErr result (version ≡ 2 → (c : Change) → Means lists.old.described bytes.now c
        → Fits c lists.old.users → ⊥) }
    ensures same { OnErr result (lists.new.users ≡ lists.old.users) }
    ensures whole { length bytes.now ≡ 64 }
{
    if version != 2 {
        return Err(BadRecord);
    }
    lists.users.take_record(&lists.described, bytes)
}

/// Takes every record of the journal in order. The journal stays as it is. It takes one of the disk's room for each record.
pub(crate) fn fold<D: Disk>(journal: &mut Journal<D>, lists: &mut Lists) -> Result<(), FoldFault>
    requires { lists.old.users ≡ lists.old.described }
    ensures described { lists.new.described ≡ lists.old.described }
    ensures told { D.told → Replays lists.old.described
        (listed journal.old.1 (D.state journal.old.0).reads_as) result lists.new.users }
    // Of a disk that doesn't tell its content: there are records as it read them.
    ensures read { IfOk result
        (λ _. (records : List (List ℕ)) × (length records ≡ journal.old.1.count)
        × (D.told → records ≡ listed journal.old.1 (D.state journal.old.0).reads_as)
        × FoldsTo lists.old.described records lists.new.users) }
    ensures looks { D.told → Looks (D.state journal.old.0) (D.state journal.new.0) }
    ensures no_more { D.told → ReadsNoMore (D.state journal.old.0) (D.state journal.new.0) }
    ensures same { journal.new.1 ≡ journal.old.1 }
    ensures kept { D.told → IsKept (D.state journal.old.0) journal.old.1
        → IsKept (D.state journal.new.0) journal.new.1 }
    ensures cause { HasCause (D.state journal.old.0).faults (D.state journal.new.0).faults
        (IsErrOf result FoldFault.Disk) }
    ensures room { Spends journal.old.1.count (D.state journal.old.0) (D.state journal.new.0) }
    ensures sound { IsSound journal.old.1.count (D.state journal.old.0)
        → IsErrOf result FoldFault.Disk → ⊥ }
{
    let version = journal.version();
    for i in 0..journal.count() {
        let bytes = match journal.record(i) {
            Ok(bytes) => bytes,
            Err(DiskFault) => return Err(FoldFault::Disk),
        };
        match take(lists, version, &bytes) {
            Ok(()) => {}
            Err(BadRecord) => return Err(FoldFault::BadRecord(i)),
        }
    }
    Ok(())
}
