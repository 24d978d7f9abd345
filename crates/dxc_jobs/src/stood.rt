use dxc_args::Status;
use standby_link::StandbyEnd;

/// What is left of a standby that has ended.
#[derive(Drop)]
pub enum Stood<D, L, K> {
    /// The journal wasn't opened.
    NoJournal(Status),
    /// The journal's disk, of which nothing was asked, since there was no listener.
    NoListener(D, Status),
    /// Nobody called: nothing was asked of the disk.
    Unmet(D, L),
    /// So many accepts in a row failed as may not: nothing was asked of the disk.
    Unheard(D, L),
    /// The disk, the listener and the link, as they stood when the link's service ended.
    Served(D, L, K, StandbyEnd),
}
