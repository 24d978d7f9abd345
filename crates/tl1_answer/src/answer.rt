ghost use Rattle.std.specs.Prelude.{◌≡◌, ◌≤◌, ◌<◌, ◌+◌, ◌↔◌, true, false, [], ◌∷◌, IsTrue, length, codes, option_map};
ghost use Rattle.dxc_outside.specs.Moments.{IsMoment};
ghost use Rattle.tl1_answer.specs.Messages.{head, report as whole_report, with_line};

use crate::message::{append_denial, append_head, append_line, append_report};
use crate::stamp::Stamp;
use crate::text::put_row;
use dxc_aid::Text;
use dxc_model::{Cause, Conn};
use dxc_num::Shape;
use dxc_outside::Moment;
use std::marker::Model;
use tl1_text::{Ctag, Sid};

/// Whether a line was kept.
#[derive(Clone, Copy, PartialEq, Eq)]
pub enum Fits {
    /// It is in the block.
    Kept,
    /// It doesn't fit, and the block was ended by `>`.
    Cut,
}

/// The completion code of a response (GR-831).
#[derive(Clone, Copy, PartialEq, Eq)]
pub enum Code {
    /// The command was done.
    Compld,
    /// The command was denied.
    Deny,
}

/// No row and no denial takes more bytes than these, with the marks of its lines and the block's ending byte.
const AMPLE: usize = 80;

/// One block of an answer, of at most 4,096 bytes.
///
/// A response is `begin`, its lines, and `end`. A line that is Cut comes again after `again`, in the next block.
#[derive(Drop)]
pub struct Answer {
    block: Text<4096>,
    head: usize,
    unended: bool,
    stamp: Stamp,
}

impl Model for Answer {
    ghost use Rattle.std.specs.Prelude.{◌≡◌, ◌≤◌, ◌<◌, true, length, take};
    ghost use Rattle.tl1_answer.specs.Blocks.{Draft};

    ghost Value = { Draft };

    ghost view = { λ a. record
        { bytes = a.block; head = take a.head a.block; unended = a.unended } };

    ghost invariant = { λ a. (a.head ≤ length a.block) × (a.head ≤ 64)
        × (a.unended ≡ true → length a.block < 4096) };
}

impl Answer {
    ghost use Rattle.std.specs.Prelude.{◌<◌};
    ghost use Rattle.tl1_answer.specs.Blocks.{Draft, IsBegun, IsUnended, IsAdded, begun, lined, ended, alone, fits};
    ghost use Rattle.tl1_answer.specs.Responses.{denial};
    ghost use Rattle.tl1_answer.specs.Texts.{IsOfShape, row_text};

    /// An empty block.
    pub fn new() -> Answer
        ensures { result ≡ alone [] }
    {
        Answer {
            block: Text::new(),
            head: 0,
            unended: false,
            stamp: Stamp::of(Moment::FIRST),
        }
    }

    /// Clears the block, and writes header and M line; without a CTAG it bears `0`.
    #[inline(always)]
    pub fn begin(&mut self, sid: &Sid, moment: Moment, ctag: Option<&Ctag>, code: Code)
        requires { IsMoment moment }
        ensures begun { self.new ≡ begun
            (head sid.now moment (option_map (λ t. t.now) ctag.entry) code) }
        ensures short { length self.new.head ≤ 64 }
        ensures some { IsBegun self.new }
    {
        self.block.clear();
        self.stamp.show(moment);
        append_head(&mut self.block, sid, &self.stamp, ctag, code);
        self.head = self.block.len();
        self.unended = true;
    }

    /// Adds a text line; Cut exactly where it doesn't fit with the ending byte.
    pub fn line(&mut self, text: &[u8]) -> Fits
        requires unended { IsUnended self.old }
        requires short { length text.now ≤ 128 }
        ensures fits { (result ≡ Fits.Kept) ↔ IsTrue (fits (with_line self.old.bytes text.now)) }
        ensures kept { result ≡ Fits.Kept → self.new ≡ lined self.old text.now }
        ensures cut { result ≡ Fits.Cut → self.new ≡ ended self.old (codes ">") }
    {
        if self.block.len() + text.len() + 5 < 4096 {
            append_line(&mut self.block, text);
            Fits::Kept
        } else {
            self.block.put(b">");
            self.unended = false;
            Fits::Cut
        }
    }

    /// Adds a connection's row as a text line, and answers true; nothing and false where the block may be too full for a row.
    #[inline(always)]
    pub fn row(&mut self, shape: Shape, conn: &Conn) -> bool
        requires unended { IsUnended self.old }
        requires inside { IsOfShape shape conn.now }
        ensures added { result ≡ true → IsAdded self.old (row_text shape conn.now ∷ []) self.new }
        ensures kept { result ≡ false → self.new ≡ self.old }
        ensures ample { length self.old.bytes + 80 < 4096 → result ≡ true }
    {
        let has_room = self.block.len() < 4096 - AMPLE;
        if has_room {
            put_row(shape, conn, &mut self.block);
        }
        has_room
    }

    /// Adds the two lines of a denial, and answers true; nothing and false where the block may be too full for them.
    pub fn denial(&mut self, cause: Cause) -> bool
        requires unended { IsUnended self.old }
        ensures added { result ≡ true → IsAdded self.old (denial cause) self.new }
        ensures kept { result ≡ false → self.new ≡ self.old }
        ensures ample { length self.old.bytes + 80 < 4096 → result ≡ true }
    {
        let has_room = self.block.len() < 4096 - AMPLE;
        if has_room {
            append_denial(&mut self.block, cause);
        }
        has_room
    }

    /// Begins the next block, with the same header and M line.
    pub fn again(&mut self)
        requires { IsBegun self.old }
        ensures begun { self.new ≡ begun self.old.head }
        ensures short { length self.new.head ≤ 64 }
    {
        self.block.cut(self.head);
        self.unended = true;
    }

    /// Ends the last block.
    pub fn end(&mut self)
        requires { IsUnended self.old }
        ensures { self.new ≡ ended self.old (codes ";") }
    {
        self.block.put(b";");
        self.unended = false;
    }

    /// Clears the block, and writes a whole report.
    pub fn report(&mut self, sid: &Sid, moment: Moment, atag: u64, text: &[u8])
        requires moment { IsMoment moment }
        requires short { length text.now ≤ 128 }
        ensures { self.new ≡ alone (whole_report sid.now moment atag text.now) }
    {
        self.block.clear();
        self.stamp.show(moment);
        append_report(&mut self.block, sid, &self.stamp, atag, text);
        self.head = 0;
        self.unended = false;
    }

    /// The bytes of the block.
    pub fn bytes(&self) -> &[u8]
        ensures { result.now ≡ self.now.bytes }
    {
        self.block.bytes()
    }
}
