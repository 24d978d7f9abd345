//! What the programs of worked rows have in common: what a line is made of, the lines that say what a session is sent and must be written, a shelf
//! file, a disk on which a row lets a call fail, and the count of what failed.
#![tactic(auto)]

mod blocks;
mod caller;
mod crash;
mod disk;
mod due;
mod entries;
mod exchange;
mod lent;
mod levers;
mod lines;
mod link;
mod listener;
mod noon;
mod notes;
mod office;
mod opener;
mod part;
mod same;
mod shelf;
mod standing;
mod tally;
mod torn;
mod wanted;
mod words;
mod written;

pub use caller::exchange_of;
pub use crash::copy_of;
pub use disk::RowDisk;
pub use due::{Due, left_by};
pub use exchange::Exchange;
pub use lent::{Lent, disk_of, lend, link_of, names_of, opener_of};
pub use levers::Levers;
pub use link::{Kept, RowLink};
pub use noon::NOON;
pub use notes::RowNotes;
pub use office::{Office, bytes_in, bytes_otherwise};
pub use opener::RowOpener;
pub use part::Part;
pub use same::{same_bytes, why_of};
pub use shelf::{read_part, shelf_text};
pub use standing::standing_with;
pub use tally::Tally;
pub use torn::Torn;
pub use wanted::add_report;
pub use words::{
    IDLE, Line, add_texts, bytes_of, decimal, frame_of, hex_of, joined, lines_of, number_of,
    shape_of, small, small_of, spelled, two,
};
pub use written::written_otherwise;
