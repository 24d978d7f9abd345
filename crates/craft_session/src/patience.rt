//! How long a session goes on where nobody logs in, or nothing comes.
ghost use Rattle.std.specs.Prelude.{◌≡◌, ◌≤◌, ◌<◌, ◌^◌, true, false};
ghost use Rattle.dxc_model.specs.declared.user.SessionUser.TheVariants.{Nobody};
ghost use Rattle.craft_session.specs.Idling.{IsInTime, IsTooLong, silent_after as silence_after};
ghost use Rattle.craft_session.specs.Waiting.{waited_after as after};

use crate::attending::Attending;
use dxc_model::SessionUser;
use shelf_file::IdleLimits;

// A read in which nothing came counts as the fifth of a second that it lasts; one that brought bytes as a sixteenth of that, so that whoever
// sends something again and again and never logs in is let go too.
pub(crate) const QUIET: u16 = 16;

pub(crate) const BYTES: u16 = 1;

// A minute of silence.
const LIMIT: u16 = 4800;

// How many reads a minute has in which nothing comes.
const READS: u64 = 300;

/// Whether a session ends where nobody logs in, or nothing comes.
#[derive(Clone, Copy)]
pub(crate) enum Patience {
    /// It goes on.
    Endless,
    /// It ends once nobody has been logged in for a minute of silence, and where one who is logged in has been silent for longer than the class may be.
    Limited,
}

impl Patience {
    /// Whether nobody is logged in, and nobody was for as long as that may be.
    pub fn is_over(self, attending: &Attending, waited: u16) -> bool
        ensures over { result ≡ true
            → (self ≡ Patience.Limited) × (attending.now.user ≡ Nobody) × (4800 ≤ waited) }
        ensures lasts { result ≡ false → self ≡ Patience.Limited → attending.now.user ≡ Nobody
            → waited < 4800 }
    {
        match (self, attending.user) {
            (Patience::Limited, SessionUser::Nobody) => waited >= LIMIT,
            _ => false,
        }
    }

    /// Whether so many reads in a row brought nothing, more than one who is logged in may be silent for.
    pub fn is_idle(self, limits: IdleLimits, attending: &Attending, silent: u64) -> bool
        ensures idle { result ≡ true → (self ≡ Patience.Limited)
            × IsTooLong limits attending.now.user silent }
        ensures awake { result ≡ false → self ≡ Patience.Limited
            → IsInTime limits attending.now.user silent }
    {
        match (self, attending.user) {
            (Patience::Limited, SessionUser::User { class, .. }) => match limits.of(class) {
                Some(minutes) => silent > READS * minutes as u64,
                None => false,
            },
            _ => false,
        }
    }
}

/// How long nobody has been logged in, after one more read, which counts so much and began with this user logged in.
pub(crate) fn waited_after(user: SessionUser, waited: u16, read: u16) -> u16
    ensures { result ≡ after user waited read }
{
    match user {
        SessionUser::Nobody => waited.saturating_add(read),
        SessionUser::User { .. } => 0,
    }
}

/// How many reads in a row brought nothing, after one more, which counts so much.
pub(crate) fn silent_after(silent: u64, read: u16) -> u64
    requires { silent < 2 ^ 32 }
    ensures { result ≡ silence_after silent read }
{
    if read == QUIET { silent + 1 } else { 0 }
}
