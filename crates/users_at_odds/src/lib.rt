//! Whom the shelf file and the users' journal are at odds about, where the program didn't start for that.
#![tactic(auto)]

ghost use Rattle.std.specs.Prelude.{◌≡◌, ◌≢◌, ◌≤◌, ◌<◌, ◌∷◌, [], ℕ, IfNone, IfOk, IfSome, IsSome, List, slice_index};
ghost use Rattle.dxc_outside.specs.Asked.{AskedFor, journal_named, shelf_named};
ghost use Rattle.users_at_odds.specs.Odds.{HasName, HasShelf, IsAtOdds, IsUnnamed, IsUserOf, NoUser, NotAtOdds, done, held, most_bytes, name_in as in_record, odds_asked, users_name as beside};

use dxc_args::{JournalBad, Status};
use dxc_causes::NoMemory;
use dxc_disk::Disk;
use dxc_model::Uid;
use dxc_outside::{Name, Opened, Opener};
use journal_core::Journal;
use shelf_file::{Shelf, shelf_of};
use std::alloc::Global;

/// The user whom the record names that the program refused, by its status and its words. None: it ended otherwise, or the record can't be
/// read again, or memory is wanting. The opener is to change no file; where the program ended otherwise it is asked for nothing.
pub fn user_at_odds<O: Opener>(
    alloc: Global,
    opener: &mut O,
    words: &[Name],
    status: Status,
) -> Option<Uid>
    ensures named { IfSome result (IsAtOdds (held O.told O.Journal.told O.Journal.state
        (O.state opener.old) (O.journal_at opener.old)) words.now status) }
    ensures unnamed { IfNone result (NotAtOdds (held O.told O.Journal.told O.Journal.state
        (O.state opener.old) (O.journal_at opener.old))
        (done (O.asked opener.old opener.new) (O.journal_at opener.new)) words.now status) }
    ensures asked { AskedFor (O.asked opener.old opener.new) (odds_asked words.now)
        (IsSome result) }
    ensures unasked { ((n : ℕ) → status ≢ Status.BadJournal (JournalBad.UsersRecord n))
        → O.asked opener.old opener.new [] }
{
    let Status::BadJournal(bad) = status else {
        return None;
    };
    let JournalBad::UsersRecord(number) = bad else {
        return None;
    };
    let [_, shelf, journal, ..] = words else {
        return None;
    };
    user_in(alloc, opener, shelf.text(), journal.text(), number)
}

// The user whom that record names of the journal beside the one of that name.
fn user_in<O: Opener>(
    alloc: Global,
    opener: &mut O,
    shelf: &str,
    journal: &str,
    number: u32,
) -> Option<Uid>
    ensures named { IfSome result (IsUserOf (held O.told O.Journal.told O.Journal.state
        (O.state opener.old) (O.journal_at opener.old)) shelf.now journal.now number) }
    ensures unnamed { IfNone result (NoUser (held O.told O.Journal.told O.Journal.state
        (O.state opener.old) (O.journal_at opener.old))
        (done (O.asked opener.old opener.new) (O.journal_at opener.new)) shelf.now journal.now
        number) }
    ensures asked { AskedFor (O.asked opener.old opener.new)
        (shelf_named shelf.now ∷ journal_named (beside journal.now) ∷ []) (IsSome result) }
{
    let shelf = shelf_in(alloc, opener, shelf)?;
    let Ok(users) = users_name(alloc, journal) else {
        return None;
    };
    match opener.journal(alloc, users.text()) {
        Opened::Open(disk) => name_at(disk, &shelf, number),
        Opened::Failed => None,
        Opened::NoMemory => None,
    }
}

// The shelf that the file of that name describes.
fn shelf_in<O: Opener>(alloc: Global, opener: &mut O, name: &str) -> Option<Shelf>
    ensures shelf { IfSome result (HasShelf (held O.told O.Journal.told O.Journal.state
        (O.state opener.old) (O.journal_at opener.old)) name.now) }
    ensures journals { O.told → (n : List ℕ)
        → O.journal_at opener.new n ≡ O.journal_at opener.old n }
    ensures asked { O.asked opener.old opener.new (shelf_named name.now ∷ []) }
{
    let mut file = Vec::new(alloc);
    match opener.shelf(alloc, name, &mut file) {
        Opened::Open(()) => match shelf_of(alloc, &file) {
            Ok(shelf) => Some(shelf),
            Err(_) => None,
        },
        Opened::Failed | Opened::NoMemory => None,
    }
}

// The name of the users' journal beside a journal of this name.
fn users_name(alloc: Global, journal: &str) -> Result<Name, NoMemory>
    ensures { IfOk result (λ n. n ≡ beside journal.now) }
{
    let mut name = String::new(alloc);
    name.push_str(journal)?;
    name.push_str(".users")?;
    Ok(Name::of(name))
}

// The name that the journal's record of that number has.
fn name_at<D: Disk + Drop>(disk: D, shelf: &Shelf, number: u32) -> Option<Uid>
    ensures named { IfSome result (HasName D.told shelf.now.shape (D.state disk) number) }
    ensures unnamed { IfNone result (IsUnnamed D.told D.state shelf.now.shape disk number) }
{
    let Ok(mut journal) = Journal::open(disk, shelf.shape(), shelf.equipped()) else {
        return None;
    };
    if number >= journal.count() {
        return None;
    }
    let Ok(bytes) = journal.record(number) else {
        return None;
    };
    name_in(&bytes)
}

// The name of a record of a user: its length stands before it.
fn name_in(bytes: &[u8; 64]) -> Option<Uid>
    ensures named { IfSome result (λ u. u ≡ in_record bytes.now) }
    ensures unnamed { IfNone result (most_bytes < slice_index bytes.now 3) }
{
    let count = bytes[3] as usize;
    if count > Uid::MOST {
        return None;
    }
    Uid::of(&bytes[4..4 + count])
}
