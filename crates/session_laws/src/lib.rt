//! What is true of every session's run, as the contract of a function without parameters.
#![tactic(auto)]

ghost use Rattle.session_laws.specs.Effects.{EffectsAreAsked};
ghost use Rattle.session_laws.specs.Laws.{AreUnitsAlone, AreHearingsOnce, ArePlayed, ArePlayedAlone, AreResponsesOnce, AreScripts, EntriesAreCompleted, EntriesWantMiddles, OpeningsArePlaced};

use dxc_disk::Disk;
use dxc_outside::{Clock, Link};

/// What was read determines the units, however it was cut into pieces and wherever nothing came for a time.
pub fn units_are_alone()
    ensures { AreUnitsAlone }
{}

/// What a run wrote is what the plain session writes whose table is that of the history at each entry of the place: each unit's response and,
/// where they are allowed, the reports after it and at each Quiet, with the next moments.
pub fn runs_are_played()
    ensures { ArePlayed }
{}

/// Where the place is alone, it is the plain session on its one table.
pub fn runs_alone_are_played()
    ensures { ArePlayedAlone }
{}

/// The plain session is one: on a sound disk what the journal came to, what happened and the moments determine what it writes.
pub fn responses_are_one()
    ensures { AreResponsesOnce }
{}

/// From the same users on the same units hear the same of them, in a session that is alone on a sound disk; so what it writes is one, by the law before.
pub fn hearings_are_one()
    ensures { AreHearingsOnce }
{}

/// What the one session of turnstiles with one pass wrote is what the plain session writes on what the journals came to, over legal histories of its
/// entries alone.
pub fn scripts_are_played<K: Link, C: Clock, D: Disk, U: Disk>()
    ensures { AreScripts K.told C.told D.told D.state U.state }
{}

/// An entry between two free ports of equipped modules is completed, unless a stop comes first: there is always a middle for it, or circuits that can
/// be moved. While a middle is out of service it is denied for want of one exactly where a leg has no choice at its turn.
pub fn entries_are_completed()
    ensures opened { OpeningsArePlaced }
    ensures completed { EntriesAreCompleted }
    ensures denied { EntriesWantMiddles }
{}

/// A session's gate was asked after a work's writes for each entry of its own that took effect, and for no other but those that a stop cut.
pub fn effects_are_asked()
    ensures { EffectsAreAsked }
{}
