ghost use Rattle.std.specs.Prelude.{◌≡◌, ◌+◌, ◌^◌, ◌≤◌, ◌<◌, [], ◌∷◌, length, Option, Some, None, IsSome, true, false};
ghost use Rattle.dxc_causes.specs.Causes.{Rose};
ghost use Rattle.standby_link.specs.Acts.{write, sync, pieces};
ghost use Rattle.standby_link.specs.Lines.{line_at, Sends, SendsOne, Syncs, IsHungUp, BeginsAnew, StaysLost};

use crate::ear::Ear;
use crate::spell::{ITEM, spell_sync, spell_write};
use dxc_disk::MOST_WRITTEN;
use dxc_outside::{Got, Link, Lost, Sent, write_all};

/// A primary's end of the link to its standby. Once it is lost it is hung up, and nothing more is sent until somebody stands by anew.
#[derive(Drop)]
pub(crate) struct Line<K: Link> {
    pub(crate) link: K,
    pub(crate) ear: Ear,
    /// The number of the last item.
    pub(crate) number: u64,
    pub(crate) lost: Option<Lost>,
}

impl<K: Link> Line<K> {
    pub(crate) fn new(link: K) -> Line<K>
        ensures number { result.number ≡ 0 }
        ensures lost { result.lost ≡ None }
        ensures link { result.link ≡ link }
        ensures ear { result.ear.held ≡ 0 }
    {
        Line {
            link,
            ear: Ear::new(),
            number: 0,
            lost: None,
        }
    }

    /// Sends a write, in as many items as it takes.
    pub(crate) fn write(&mut self, place: u64, from: &[u8])
        ensures gone { IsSome self.old.lost → self.new ≡ self.old }
        ensures sends { self.old.lost ≡ None
            → self.old.number + length (pieces place from.now) < 2 ^ 64
            → place + length from.now < 2 ^ 64 → Sends K.told (line_at K.state self.old)
            (line_at K.state self.new) (pieces place from.now) }
        ensures ear { self.new.ear ≡ self.old.ear }
        ensures hung_up { IsHungUp self.old.lost self.new.lost (K.hung_up self.old.link)
            (K.hung_up self.new.link) }
    {
        if self.lost.is_some() {
            return;
        }
        let mut sent = 0;
        while sent < from.len() {
            let end = from.len().min(sent + MOST_WRITTEN);
            self.send_write(place.wrapping_add(sent as u64), &from[sent..end]);
            if self.lost.is_some() {
                return;
            }
            sent = end;
        }
    }

    /// Sends a Write.
    pub(crate) fn send_write(&mut self, place: u64, from: &[u8])
        requires few { length from.now ≤ 4096 }
        requires here { self.old.lost ≡ None }
        ensures sends { self.old.number + 1 < 2 ^ 64 → Sends K.told (line_at K.state self.old)
            (line_at K.state self.new) (write place from.now ∷ []) }
        ensures ear { self.new.ear ≡ self.old.ear }
        ensures hung_up { IsHungUp self.old.lost self.new.lost (K.hung_up self.old.link)
            (K.hung_up self.new.link) }
    {
        let mut message = [0; ITEM];
        self.number = self.number.wrapping_add(1);
        let end = spell_write(&mut message, self.number, place, from);
        self.send(&message[..end]);
    }

    fn send(&mut self, message: &[u8])
        requires { self.old.lost ≡ None }
        ensures sends { SendsOne K.told (K.state self.old.link) (K.state self.new.link)
            self.new.lost message.now }
        ensures number { self.new.number ≡ self.old.number }
        ensures ear { self.new.ear ≡ self.old.ear }
        ensures hung_up { IsHungUp self.old.lost self.new.lost (K.hung_up self.old.link)
            (K.hung_up self.new.link) }
    {
        if let Sent::Cut = write_all(&mut self.link, message) {
            self.lose(Lost::Link);
        }
    }

    /// Sends a Sync, and waits for its Have.
    pub(crate) fn sync(&mut self)
        ensures gone { IsSome self.old.lost → self.new ≡ self.old }
        ensures syncs { self.old.lost ≡ None → self.old.number + 1 < 2 ^ 64
            → Syncs K.told (line_at K.state self.old) (line_at K.state self.new) }
        ensures hung_up { IsHungUp self.old.lost self.new.lost (K.hung_up self.old.link)
            (K.hung_up self.new.link) }
    {
        if self.lost.is_some() {
            return;
        }
        self.number = self.number.wrapping_add(1);
        self.send(&spell_sync(self.number));
        if self.lost.is_some() {
            return;
        }
        if let Some(why) = self.ear.wait(&mut self.link, self.number) {
            self.lose(why);
        }
    }

    /// Nothing more is sent, since the disk failed.
    pub(crate) fn end(&mut self)
        ensures link { K.state self.new.link ≡ K.state self.old.link }
        ensures number { self.new.number ≡ self.old.number }
        ensures ear { self.new.ear ≡ self.old.ear }
        ensures lost { self.old.lost ≡ None → self.new.lost ≡ Some Lost.Disk }
        ensures gone { IsSome self.old.lost → self.new ≡ self.old }
        ensures hung_up { IsHungUp self.old.lost self.new.lost (K.hung_up self.old.link)
            (K.hung_up self.new.link) }
    {
        if self.lost.is_none() {
            self.lose(Lost::Disk);
        }
    }

    /// Whether somebody stands by anew: a link that was hung up has ended, so where a read of it is Quiet it is a new one. The line begins anew
    /// then.
    pub(crate) fn begins_anew(&mut self) -> bool
        requires { IsSome self.old.lost }
        ensures anew { result ≡ true → BeginsAnew K.told K.begun K.state self.old self.new }
        ensures vain { result ≡ false → StaysLost K.told K.begun K.state self.old self.new }
        ensures hung_up { K.hung_up self.new.link ≡ K.hung_up self.old.link }
    {
        let mut into = [0];
        match self.link.read(&mut into) {
            Got::Quiet => {
                self.ear = Ear::new();
                self.number = 0;
                self.lost = None;
                true
            }
            Got::Bytes(_) | Got::End | Got::Failed => false,
        }
    }

    // Hangs up.
    fn lose(&mut self, why: Lost)
        requires { self.old.lost ≡ None }
        ensures link { K.state self.new.link ≡ K.state self.old.link }
        ensures number { self.new.number ≡ self.old.number }
        ensures ear { self.new.ear ≡ self.old.ear }
        ensures lost { self.new.lost ≡ Some why }
        ensures hung_up { K.hung_up self.new.link ≡ Some why }
    {
        self.link.hang_up(why);
        self.lost = Some(why);
    }
}
