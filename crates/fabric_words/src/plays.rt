//! What each step tells its seat, for proofs alone.
ghost use Rattle.fabric_words.specs.Plays.{began, loaded_out, loaded_mid, loaded_in, set_in, set_mid, switched_out, cleared_out, looked_at, cleared_mid, cleared_in, read, dealer, dealt_worker};

use crate::table::{Aim, View};
use atomic_table::{Play, Split};

pub(crate) struct Begins;

impl Play<Aim, View> for Begins {
    ghost then = { began };
}

pub(crate) struct LoadsOut;

impl Play<Aim, View> for LoadsOut {
    ghost then = { loaded_out };
}

pub(crate) struct LoadsMid;

impl Play<Aim, View> for LoadsMid {
    ghost then = { loaded_mid };
}

pub(crate) struct LoadsIn;

impl Play<Aim, View> for LoadsIn {
    ghost then = { loaded_in };
}

pub(crate) struct SetsIn;

impl Play<Aim, View> for SetsIn {
    ghost then = { set_in };
}

pub(crate) struct SetsMid;

impl Play<Aim, View> for SetsMid {
    ghost then = { set_mid };
}

pub(crate) struct Switches;

impl Play<Aim, View> for Switches {
    ghost then = { switched_out };
}

pub(crate) struct ClearsOut;

impl Play<Aim, View> for ClearsOut {
    ghost then = { cleared_out };
}

pub(crate) struct LooksAt;

impl Play<Aim, View> for LooksAt {
    ghost then = { looked_at };
}

pub(crate) struct ClearsMid;

impl Play<Aim, View> for ClearsMid {
    ghost then = { cleared_mid };
}

pub(crate) struct ClearsIn;

impl Play<Aim, View> for ClearsIn {
    ghost then = { cleared_in };
}

pub(crate) struct Reads;

impl Play<Aim, View> for Reads {
    ghost then = { read };
}

/// The mover's seat gives the next worker a seat.
pub(crate) struct Deals;

impl Split<View> for Deals {
    ghost left = { dealer };

    ghost right = { dealt_worker };
}
