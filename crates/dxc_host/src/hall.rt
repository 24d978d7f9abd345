//! What stands of the program, as all of its places see it.

use crate::peer_watch::CopyOf;
use crate::utc::moment_of;
use arrayvec::ArrayVec;
use dxc_model::Class;
use dxc_notes::{PLACES, SessionAt, Standby, Standing, Word};
use dxc_outside::Moment;
use std::alloc::{AllocError, Global};
use std::sync::atomic::{AtomicU64, Ordering};

/// Of the standby's number: one is named; ..
const NAMED: u64 = 1;

/// .. its copy of the journal is joined; ..
const JOURNAL: u64 = 2;

/// .. its copy of the users' journal is joined.
const USERS: u64 = 4;

/// Who is logged in at a place. `front` has the first eight bytes of the name; `back` the last two, how many there are, the number of the class, and
/// how often it was written, by which a reader notices that another name was written meanwhile. A class of 0 is nobody's.
#[derive(Drop)]
struct Seat {
    front: AtomicU64,
    back: AtomicU64,
}

impl Seat {
    fn new() -> Seat {
        Seat {
            front: AtomicU64::new(0),
            back: AtomicU64::new(0),
        }
    }

    // The place's own session alone takes it and leaves it.
    fn take(&self, user: &Word, class: Class) {
        let writes = self.leave();
        let bytes = user.bytes();
        let mut name = [0; 10];
        name[..bytes.len()].copy_from_slice(bytes);
        let [a, b, c, d, e, f, g, h, i, j] = name;
        let front = u64::from_le_bytes([a, b, c, d, e, f, g, h]);
        self.front.store(front, Ordering::SeqCst);
        self.write([i, j, bytes.len() as u8, number_of(class)], writes);
    }

    // How often it was written.
    fn leave(&self) -> u32 {
        let [_, _, _, _, a, b, c, d] = self.back.load(Ordering::SeqCst).to_le_bytes();
        let writes = u32::from_le_bytes([a, b, c, d]).wrapping_add(1);
        self.write([0, 0, 0, 0], writes);
        writes
    }

    fn write(&self, bytes: [u8; 4], writes: u32) {
        let [a, b, c, d] = bytes;
        let [e, f, g, h] = writes.to_le_bytes();
        let back = u64::from_le_bytes([a, b, c, d, e, f, g, h]);
        self.back.store(back, Ordering::SeqCst);
    }

    // Who is about to come or to go isn't there.
    fn who(&self) -> Option<(Word, Class)> {
        let back = self.back.load(Ordering::SeqCst);
        let [a, b, c, d, e, f, g, h] = self.front.load(Ordering::SeqCst).to_le_bytes();
        if self.back.load(Ordering::SeqCst) != back {
            return None;
        }
        let [i, j, count, class, _, _, _, _] = back.to_le_bytes();
        let class = class_of(class)?;
        if count > 10 {
            return None;
        }
        let name = [a, b, c, d, e, f, g, h, i, j];
        Some((Word::of(&name[..count as usize]), class))
    }
}

fn number_of(class: Class) -> u8 {
    match class {
        Class::R => 1,
        Class::P => 2,
        Class::S => 3,
    }
}

fn class_of(number: u8) -> Option<Class> {
    match number {
        1 => Some(Class::R),
        2 => Some(Class::P),
        3 => Some(Class::S),
        _ => None,
    }
}

/// What stands of the program, and how many lines standard error didn't take.
#[derive(Drop)]
pub(crate) struct Hall {
    version: Option<Word>,
    /// Since when it serves, as a second since 1970-01-01 00:00:00: 0 as long as it doesn't.
    since: AtomicU64,
    /// What is so of the standby: 0, as long as none is named.
    standby: AtomicU64,
    seats: Vec<Seat>,
    /// How many lines were dropped of which nothing was told yet.
    pub dropped: AtomicU64,
}

impl Hall {
    pub fn new(alloc: Global, version: Option<Word>) -> Result<Hall, AllocError> {
        let mut seats = Vec::with_capacity(alloc, PLACES)?;
        for _ in 0..PLACES {
            seats.push(Seat::new())?;
        }
        Ok(Hall {
            version,
            since: AtomicU64::new(0),
            standby: AtomicU64::new(0),
            seats,
            dropped: AtomicU64::new(0),
        })
    }

    /// From now on it serves.
    pub fn open(&self) {
        let now = libc::time(&mut 0).max(1);
        self.since.store(now.cast_unsigned(), Ordering::SeqCst);
    }

    /// The standby has a whole copy of this journal, and is written to from now on.
    pub fn join_standby(&self, of: CopyOf) {
        let joined = match of {
            CopyOf::Journal => JOURNAL,
            CopyOf::Users => USERS,
        };
        self.standby.fetch_or(joined, Ordering::SeqCst);
    }

    /// One is named, and not joined: it was lost, or was never there.
    pub fn lose_standby(&self) {
        self.standby.store(NAMED, Ordering::SeqCst);
    }

    /// This user is logged in at the place of that number, from 1 on.
    pub fn come(&self, place: u64, user: &Word, class: Class) {
        if let Some(seat) = self.seat(place) {
            seat.take(user, class);
        }
    }

    /// Nobody is logged in there.
    pub fn go(&self, place: u64) {
        if let Some(seat) = self.seat(place) {
            let _ = seat.leave();
        }
    }

    fn seat(&self, place: u64) -> Option<&Seat> {
        self.seats.get((place as usize).wrapping_sub(1))
    }

    fn moment(&self) -> Option<Moment> {
        match self.since.load(Ordering::SeqCst) {
            0 => None,
            second => Some(moment_of(second.cast_signed())),
        }
    }

    fn standby(&self) -> Standby {
        let standby = self.standby.load(Ordering::SeqCst);
        if standby == 0 {
            Standby::Unnamed
        } else if standby == NAMED | JOURNAL | USERS {
            Standby::Joined
        } else if standby == NAMED | JOURNAL {
            Standby::Circuits
        } else {
            Standby::Lost
        }
    }

    pub fn standing(&self) -> Standing {
        let mut sessions = ArrayVec::new();
        let mut place = 0u16;
        for seat in &self.seats {
            place = place.saturating_add(1);
            if let Some((user, class)) = seat.who() {
                let _ = sessions.try_push(SessionAt { place, user, class });
            }
        }
        Standing {
            version: self.version,
            since: self.moment(),
            standby: Some(self.standby()),
            sessions,
        }
    }
}
