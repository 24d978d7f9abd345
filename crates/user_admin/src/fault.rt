use dxc_disk::Disk;
use journal_core::JournalFault;

/// Why the users couldn't be taken up.
#[derive(Drop)]
pub enum UserOpenFault<D: Disk> {
    /// The journal couldn't be opened: its header isn't one of the shelf's shape, or its disk failed.
    Journal(JournalFault<D>),
    /// The record of this number, from 0, is the first that means no change that fits. The disk comes back.
    BadRecord(u32, D),
    /// The disk failed while the records were read. Only where its count of faults rose.
    Disk(D),
    /// Memory was wanting. The disk comes back.
    NoMemory(D),
}
