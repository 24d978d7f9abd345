//! What held a PID is written over after the read that brought it. No clause tells of it.
ghost use Rattle.std.specs.Prelude.{◌≡◌};

use arrayvec::ArrayVec;
use dxc_model::{Cause, Uid};
use std::mem;
use std::sync::atomic::AtomicU64;
use tl1_users::{Pid, UserOp};

// So much of the stack is in use below a session that hashes a PID where it stands, with room to spare.
const FEW_WORDS: usize = 1024;

// And where a command of users is made, since PIDs are handed on by value there.
const WORDS: usize = 8192;

/// What carried a PID and isn't written over yet.
#[derive(Clone, Copy)]
pub enum Heard {
    Nothing,
    LogIn,
    /// A command of users, with a log-in before it or without.
    Command,
}

/// What units with a PID were looked at.
#[derive(Drop)]
pub struct Secrets {
    heard: Heard,
}

impl Secrets {
    pub fn new() -> Secrets {
        Secrets {
            heard: Heard::Nothing,
        }
    }

    /// A log-in is looked at.
    pub fn hear_log_in(&mut self) {
        if let Heard::Nothing = self.heard {
            self.heard = Heard::LogIn;
        }
    }

    /// A command of users is looked at.
    pub fn hear_command(&mut self) {
        self.heard = Heard::Command;
    }

    /// What there is to write over; there isn't anything any more from here on.
    pub fn take(&mut self) -> Heard {
        let heard = self.heard;
        self.heard = Heard::Nothing;
        heard
    }
}

/// What a unit asks of the users, or why it is refused that. It has room for PIDs.
#[derive(Drop)]
pub struct Operation {
    pub op: Result<UserOp, Cause>,
}

impl Operation {
    /// None is asked yet.
    pub fn new() -> Operation {
        Operation {
            op: Err(Cause::UnknownCommand),
        }
    }

    /// Takes it out, to be made.
    pub fn take(&mut self) -> Result<UserOp, Cause>
        ensures { result ≡ self.old.op }
    {
        mem::replace(&mut self.op, Err(Cause::UnknownCommand))
    }

    /// Writes over what it has kept of PIDs: by an operation as large as any, without one.
    #[inline(never)]
    pub fn wipe(&mut self) {
        self.op = Ok(UserOp::EditPid {
            uid: Uid::default(),
            old: blank(),
            new: blank(),
        });
    }
}

fn blank() -> Pid {
    ArrayVec::from([0; 2048])
}

// Parts of the stack, each with a word that the system is told of.
#[derive(Drop)]
struct Near {
    words: [u64; FEW_WORDS],
    told: AtomicU64,
}

#[derive(Drop)]
struct Below {
    words: [u64; WORDS],
    told: AtomicU64,
}

/// Writes over the stack below its caller, where calls that are over kept what they were handed.
pub fn wipe_stack(heard: Heard) {
    match heard {
        Heard::Nothing => {}
        Heard::LogIn => wipe_near(),
        Heard::Command => wipe_below(),
    }
}

// A write to memory that nobody reads any more may be left out. The system may read what it is told of, so these aren't.
#[inline(never)]
fn wipe_near() {
    let near = Near {
        words: [0; FEW_WORDS],
        told: AtomicU64::new(0),
    };
    near.told.wake_one();
}

#[inline(never)]
fn wipe_below() {
    let below = Below {
        words: [0; WORDS],
        told: AtomicU64::new(0),
    };
    below.told.wake_one();
}
