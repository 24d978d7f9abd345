//! The texts of rows that tell what stands of the program.
ghost use Rattle.std.specs.Prelude.{◌≡◌, ◌≤◌, ◌+◌, ◌++◌, codes, length};
ghost use Rattle.tl1_answer.specs.Messages.{two};
ghost use Rattle.tl1_answer.specs.Texts.{session_text as text_of_session, start_text as text_of_start, value_text as text_of_value};

use crate::append::append;
use crate::stamp::{ones, tens};
use arrayvec::ArrayVec;
use dxc_outside::Moment;

/// Clears `out`, and writes the row of what has that value, such as `"STANDBY=JOINED"`, with the quotes.
pub fn value_text(name: &[u8], value: &[u8], out: &mut ArrayVec<u8, 128>)
    requires { length name.now + length value.now ≤ 125 }
    ensures { out.new.items ≡ text_of_value name.now value.now }
{
    out.clear();
    append(out, b"\"");
    append(out, name);
    append(out, b"=");
    append(out, value);
    append(out, b"\"");
}

/// Clears `out`, and writes the row of since when the program serves, such as `"START=26-11-30,18:20:17"`, with the quotes.
pub fn start_text(moment: Moment, out: &mut ArrayVec<u8, 128>)
    ensures { out.new.items ≡ text_of_start moment }
{
    out.clear();
    append(out, b"\"START=");
    append(out, &day_of(moment));
    append(out, b",");
    append(out, &time_of(moment));
    append(out, b"\"");
}

/// Clears `out`, and writes the row of a session, such as `"SESSION-3:ANNA,S"`, with the quotes.
pub fn session_text(place: u16, user: &[u8], class: &[u8], out: &mut ArrayVec<u8, 128>)
    requires { length user.now + length class.now ≤ 64 }
    ensures { out.new.items ≡ text_of_session place user.now class.now }
{
    out.clear();
    append(out, b"\"SESSION-");
    append(out, itoa::Buffer::new().format(place).as_bytes());
    append(out, b":");
    append(out, user);
    append(out, b",");
    append(out, class);
    append(out, b"\"");
}

fn day_of(moment: Moment) -> [u8; 8]
    ensures { result ≡ two moment.year ++ codes "-" ++ two moment.month ++ codes "-"
        ++ two moment.day }
{
    [
        tens(moment.year),
        ones(moment.year),
        b'-',
        tens(moment.month),
        ones(moment.month),
        b'-',
        tens(moment.day),
        ones(moment.day),
    ]
}

fn time_of(moment: Moment) -> [u8; 8]
    ensures { result ≡ two moment.hour ++ codes ":" ++ two moment.minute ++ codes ":"
        ++ two moment.second }
{
    [
        tens(moment.hour),
        ones(moment.hour),
        b':',
        tens(moment.minute),
        ones(moment.minute),
        b':',
        tens(moment.second),
        ones(moment.second),
    ]
}
