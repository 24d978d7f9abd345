ghost use Rattle.std.specs.Prelude.{◌≡◌, ◌≤◌, ◌+◌, ◌++◌, decimal};
ghost use Rattle.arrayvec.specs.ArrayVec.{array_vec_len};
ghost use Rattle.dxc_load.specs.Summaries.{summary_line};

use crate::append::append;
use crate::codes::Codes;
use arrayvec::ArrayVec;
use itoa::Buffer;

/// What a run of the whole script came to.
#[derive(Clone, Copy, PartialEq, Eq)]
pub struct Summary {
    /// Of the commands' responses.
    pub codes: Codes,
    /// How many connections there are at the end.
    pub connections: u64,
    /// The number of the last switch.
    pub switches: u64,
    /// How many output bytes of all frames had an OUT word that wasn't none.
    pub carried: u64,
}

impl Summary {
    /// Clears `line`, and writes the summary as one line.
    pub fn write_line(&self, line: &mut ArrayVec<u8, 192>)
        ensures { line.new.items ≡ summary_line self.now }
    {
        line.clear();
        append(line, b"COMMANDS 10000 COMPLD ");
        append_count(line, self.codes.completed);
        append(line, b" DENY ");
        append_count(line, self.codes.denied);
        append(line, b" CONNECTIONS ");
        append_count(line, self.connections);
        append(line, b" SWITCHES ");
        append_count(line, self.switches);
        append(line, b" FRAMES 10000 BYTES ");
        append_count(line, self.carried);
        append(line, b"\n");
    }
}

fn append_count(line: &mut ArrayVec<u8, 192>, count: u64)
    requires room { array_vec_len line.old + 20 ≤ 192 }
    ensures count { line.new.items ≡ line.old.items ++ decimal count }
    ensures short { array_vec_len line.new ≤ array_vec_len line.old + 20 }
{
    append(line, Buffer::new().format(count).as_bytes());
}
