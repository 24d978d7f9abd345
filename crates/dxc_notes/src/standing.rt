use crate::word::Word;
use arrayvec::ArrayVec;
use dxc_model::Class;
use dxc_outside::Moment;

/// How many places callers come in at: so many sessions there are at a time.
pub const PLACES: usize = 16;

/// The standby of a program that serves.
#[derive(Clone, Copy)]
pub enum Standby {
    /// None was named.
    Unnamed,
    /// It is joined: it has each change before that is answered.
    Joined,
    /// So it has each change of circuits and equipment; its copy of the users isn't joined.
    Circuits,
    /// It is lost: the program serves alone.
    Lost,
}

/// Who is logged in at a place.
#[derive(Clone, Copy)]
pub struct SessionAt {
    /// The place's number, from 1 on.
    pub place: u16,
    pub user: Word,
    pub class: Class,
}

impl Default for SessionAt {
    fn default() -> Self {
        SessionAt {
            place: 0,
            user: Word::of(b""),
            class: Class::R,
        }
    }
}

/// What stands of the program where it is asked for; of what nobody knows, nothing.
#[derive(Drop)]
pub struct Standing {
    pub version: Option<Word>,
    /// Since when it serves.
    pub since: Option<Moment>,
    pub standby: Option<Standby>,
    /// In order of places.
    pub sessions: ArrayVec<SessionAt, PLACES>,
}

impl Standing {
    ghost use Rattle.std.specs.Prelude.{◌≡◌, [], None};

    /// Nothing is known.
    pub fn unknown() -> Standing
        ensures version { result.version ≡ None }
        ensures since { result.since ≡ None }
        ensures standby { result.standby ≡ None }
        ensures sessions { result.sessions.items ≡ [] }
    {
        Standing {
            version: None,
            since: None,
            standby: None,
            sessions: ArrayVec::new(),
        }
    }

    /// The same once more.
    pub fn again(&self) -> Standing
        ensures { result ≡ self.now }
    {
        let mut sessions = ArrayVec::new();
        let _ = sessions.try_extend_from_slice(self.sessions.as_slice());
        Standing {
            version: self.version,
            since: self.since,
            standby: self.standby,
            sessions,
        }
    }
}
