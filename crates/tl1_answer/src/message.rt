// The bytes of headers, lines and whole reports.
ghost use Rattle.std.specs.Prelude.{◌≡◌, ◌≤◌, ◌+◌, ◌++◌, [], length, codes, option_map};
ghost use Rattle.tl1_answer.specs.Messages.{header, or_zero, code_text, head, report as whole_report, with_line};
ghost use Rattle.tl1_answer.specs.Responses.{with_lines, denial};

use crate::answer::Code;
use crate::denials::lines_of;
use crate::stamp::Stamp;
use dxc_aid::Text;
use dxc_model::Cause;
use tl1_text::{Ctag, Sid};

#[inline(always)]
fn append_header(out: &mut Text<4096>, sid: &Sid, stamp: &Stamp)
    requires { out.old ≡ [] }
    ensures items { out.new ≡ header sid.now stamp.now }
    ensures short { length out.new ≤ 46 }
{
    out.put(b"\r\n\n   ");
    out.append(sid.bytes());
    out.put(stamp.bytes());
}

#[inline(always)]
pub fn append_head(out: &mut Text<4096>, sid: &Sid, stamp: &Stamp, ctag: Option<&Ctag>, code: Code)
    requires { out.old ≡ [] }
    ensures items { out.new ≡ head sid.now stamp.now (option_map (λ t. t.now) ctag.entry) code }
    ensures short { length out.new ≤ 64 }
    ensures some { 1 ≤ length out.new }
{
    append_header(out, sid, stamp);
    out.put(b"M  ");
    out.append(tag_text(ctag));
    append_completion(out, code);
}

pub fn append_report(out: &mut Text<4096>, sid: &Sid, stamp: &Stamp, atag: u64, text: &[u8])
    requires empty { out.old ≡ [] }
    requires short { length text.now ≤ 128 }
    ensures { out.new ≡ whole_report sid.now stamp.now atag text.now }
{
    append_header(out, sid, stamp);
    out.put(b"A  ");
    let mut digits = itoa::Buffer::new();
    out.append(digits.format(atag).as_bytes());
    out.put(b" REPT DBCHG\r\n");
    append_line(out, text);
    out.put(b";");
}

pub fn append_line(out: &mut Text<4096>, text: &[u8])
    requires { length out.old + length text.now + 5 ≤ 4096 }
    ensures items { out.new ≡ with_line out.old text.now }
    ensures len { length out.new ≡ length out.old + length text.now + 5 }
{
    out.put(b"   ");
    out.append(text);
    out.put(b"\r\n");
}

/// The two text lines of a denial: the code, and the comment line.
pub fn append_denial(out: &mut Text<4096>, cause: Cause)
    requires { length out.old + 80 ≤ 4096 }
    ensures lines { out.new ≡ with_lines out.old (denial cause) }
    ensures short { length out.new ≤ length out.old + 80 }
{
    out.append(lines_of(cause));
}

/// The completion code after a blank, and the line's end.
#[tactic(auto, using(crate::proofs::Headers::completion_is))]
fn append_completion(out: &mut Text<4096>, code: Code)
    requires { length out.old + 9 ≤ 4096 }
    ensures items { out.new ≡ out.old ++ codes " " ++ code_text code ++ codes "\r\n" }
    ensures short { length out.new ≤ length out.old + 9 }
{
    match code {
        Code::Compld => out.put(b" COMPLD\r\n"),
        Code::Deny => out.put(b" DENY\r\n"),
    }
}

fn tag_text<'a>(tag: Option<&'a Ctag>) -> &'a [u8]
    ensures text { result.now ≡ or_zero (option_map (λ t. t.now) tag.entry) }
    ensures short { length result.now ≤ 6 }
{
    match tag {
        Some(tag) => tag.bytes(),
        None => b"0",
    }
}
