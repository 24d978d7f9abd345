//! The rows of what stands of the program.
ghost use Rattle.std.specs.Prelude.{◌≡◌, ◌≤◌, length, map, option_to_list};
ghost use Rattle.tl1_answer.specs.Blocks.{IsUnended, IsBegun};
ghost use Rattle.tl1_answer.specs.Texts.{start_text as text_of_start};
ghost use Rattle.craft_session.specs.Responses.{Adds, addition, logged_in_text, program_lines, standby_text as text_of_standby, start_lines, state_lines, state_text as text_of_state, version_text as text_of_version};

use crate::say::{add_line, class_byte};
use arrayvec::ArrayVec;
use dxc_notes::{SessionAt, Standby, Standing, Word};
use dxc_outside::{Link, Moment, Sent};
use tl1_answer::{Answer, session_text, start_text, value_text};

/// Adds the row of the version, if it is known.
fn add_version<K: Link>(
    answer: &mut Answer,
    text: &mut ArrayVec<u8, 128>,
    link: &mut K,
    version: Option<Word>,
) -> Sent
    requires unended { IsUnended answer.old }
    requires begun { IsBegun answer.old }
    requires short { length answer.old.head ≤ 64 }
    ensures filled { Adds K.told (K.state link.old) (K.state link.new)
        (addition result answer.old answer.new) (map text_of_version (option_to_list version)) }
    ensures hung_up { K.hung_up link.new ≡ K.hung_up link.old }
{
    match version {
        Some(version) => {
            value_text(b"VERSION", version.bytes(), text);
            add_line(answer, link, text.as_slice())
        }
        None => Sent::Whole,
    }
}

/// Adds the row of since when the program serves, if that is known.
fn add_start<K: Link>(
    answer: &mut Answer,
    text: &mut ArrayVec<u8, 128>,
    link: &mut K,
    since: Option<Moment>,
) -> Sent
    requires unended { IsUnended answer.old }
    requires begun { IsBegun answer.old }
    requires short { length answer.old.head ≤ 64 }
    ensures filled { Adds K.told (K.state link.old) (K.state link.new)
        (addition result answer.old answer.new) (map text_of_start (option_to_list since)) }
    ensures hung_up { K.hung_up link.new ≡ K.hung_up link.old }
{
    match since {
        Some(since) => {
            start_text(since, text);
            add_line(answer, link, text.as_slice())
        }
        None => Sent::Whole,
    }
}

fn state_text(standby: Standby) -> &'static [u8]
    ensures text { result.now ≡ text_of_state standby }
    ensures short { length result.now ≤ 8 }
{
    match standby {
        Standby::Unnamed => b"NONE",
        Standby::Joined => b"JOINED",
        Standby::Circuits => b"CIRCUITS",
        Standby::Lost => b"LOST",
    }
}

/// Adds the row of the standby, if anything is known of one.
fn add_standby<K: Link>(
    answer: &mut Answer,
    text: &mut ArrayVec<u8, 128>,
    link: &mut K,
    standby: Option<Standby>,
) -> Sent
    requires unended { IsUnended answer.old }
    requires begun { IsBegun answer.old }
    requires short { length answer.old.head ≤ 64 }
    ensures filled { Adds K.told (K.state link.old) (K.state link.new)
        (addition result answer.old answer.new) (map text_of_standby (option_to_list standby)) }
    ensures hung_up { K.hung_up link.new ≡ K.hung_up link.old }
{
    match standby {
        Some(standby) => {
            value_text(b"STANDBY", state_text(standby), text);
            add_line(answer, link, text.as_slice())
        }
        None => Sent::Whole,
    }
}

/// Writes where somebody is logged in, and who.
fn write_session(text: &mut ArrayVec<u8, 128>, session: SessionAt)
    ensures { text.new.items ≡ logged_in_text session }
{
    session_text(
        session.place,
        session.user.bytes(),
        &[class_byte(session.class)],
        text,
    );
}

/// Adds the row of each session.
fn add_sessions<K: Link>(
    answer: &mut Answer,
    text: &mut ArrayVec<u8, 128>,
    link: &mut K,
    sessions: &[SessionAt],
) -> Sent
    requires unended { IsUnended answer.old }
    requires begun { IsBegun answer.old }
    requires short { length answer.old.head ≤ 64 }
    ensures filled { Adds K.told (K.state link.old) (K.state link.new)
        (addition result answer.old answer.new) (map logged_in_text sessions.now) }
    ensures hung_up { K.hung_up link.new ≡ K.hung_up link.old }
{
    for at in 0..sessions.len() {
        write_session(text, sessions[at]);
        match add_line(answer, link, text.as_slice()) {
            Sent::Whole => {}
            Sent::Cut => return Sent::Cut,
        }
    }
    Sent::Whole
}

/// Adds the rows of version and start.
fn add_starts<K: Link>(
    answer: &mut Answer,
    text: &mut ArrayVec<u8, 128>,
    link: &mut K,
    standing: &Standing,
) -> Sent
    requires unended { IsUnended answer.old }
    requires begun { IsBegun answer.old }
    requires short { length answer.old.head ≤ 64 }
    ensures filled { Adds K.told (K.state link.old) (K.state link.new)
        (addition result answer.old answer.new) (start_lines standing.now) }
    ensures hung_up { K.hung_up link.new ≡ K.hung_up link.old }
{
    match add_version(answer, text, link, standing.version) {
        Sent::Whole => add_start(answer, text, link, standing.since),
        Sent::Cut => Sent::Cut,
    }
}

/// And that of the standby.
fn add_states<K: Link>(
    answer: &mut Answer,
    text: &mut ArrayVec<u8, 128>,
    link: &mut K,
    standing: &Standing,
) -> Sent
    requires unended { IsUnended answer.old }
    requires begun { IsBegun answer.old }
    requires short { length answer.old.head ≤ 64 }
    ensures filled { Adds K.told (K.state link.old) (K.state link.new)
        (addition result answer.old answer.new) (state_lines standing.now) }
    ensures hung_up { K.hung_up link.new ≡ K.hung_up link.old }
{
    match add_starts(answer, text, link, standing) {
        Sent::Whole => add_standby(answer, text, link, standing.standby),
        Sent::Cut => Sent::Cut,
    }
}

/// Adds the rows of what is known.
pub fn add_program<K: Link>(
    answer: &mut Answer,
    text: &mut ArrayVec<u8, 128>,
    link: &mut K,
    standing: &Standing,
) -> Sent
    requires unended { IsUnended answer.old }
    requires begun { IsBegun answer.old }
    requires short { length answer.old.head ≤ 64 }
    ensures filled { Adds K.told (K.state link.old) (K.state link.new)
        (addition result answer.old answer.new) (program_lines standing.now) }
    ensures hung_up { K.hung_up link.new ≡ K.hung_up link.old }
{
    match add_states(answer, text, link, standing) {
        Sent::Whole => add_sessions(answer, text, link, standing.sessions.as_slice()),
        Sent::Cut => Sent::Cut,
    }
}
