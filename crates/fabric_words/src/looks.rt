//! What the mover's seat keeps of its looks.
ghost use Rattle.std.specs.Prelude.{◌≡◌, ◌<◌, [], slice_index_or, slice_set, replicate, length};
ghost use Rattle.fabric_core.specs.Passing.{seen_of, seen_after};

use std::marker::Model;

/// For each worker what the looks at it have told. A number stands only where its flag does, so that forgetting all takes two words.
#[derive(Drop)]
pub(crate) struct Looks {
    odd: [bool; 8],
    first: [u64; 8],
    passed: [bool; 8],
}

impl Model for Looks {
    ghost use Rattle.std.specs.Prelude.{List};
    ghost use Rattle.fabric_core.specs.declared.seen.Seen.{Seen};
    ghost use Rattle.fabric_words.specs.Looks.{known};

    ghost Value = { List Seen };

    ghost view = { λ l. known l.odd l.first l.passed };
}

impl Looks {
    /// No looks.
    pub(crate) fn new() -> Looks
        ensures { result ≡ replicate 8 (seen_of []) }
    {
        Looks {
            odd: [false; 8],
            first: [0; 8],
            passed: [false; 8],
        }
    }

    /// Forgets them all.
    #[inline(always)]
    pub(crate) fn forget(&mut self)
        ensures { self.new ≡ replicate 8 (seen_of []) }
    {
        self.odd = [false; 8];
        self.passed = [false; 8];
    }

    /// Whether the worker has passed.
    #[inline(always)]
    pub(crate) fn passed(&self, worker: u16) -> bool
        requires { worker < 8 }
        ensures { result ≡ (slice_index_or self.now worker (seen_of [])).passed }
    {
        self.passed[worker as usize]
    }

    // The first odd number that was seen of a worker, or 0.
    #[inline(always)]
    fn first(&self, worker: u16) -> u64
        requires { worker < 8 }
        ensures { result ≡ (slice_index_or self.now worker (seen_of [])).first }
    {
        let at = worker as usize;
        if self.odd[at] { self.first[at] } else { 0 }
    }

    /// One look more.
    #[inline(always)]
    pub(crate) fn note(&mut self, worker: u16, frame: u64)
        requires { worker < 8 }
        ensures full { length self.old ≡ 8 }
        ensures noted { self.new ≡ slice_set self.old worker
            (seen_after (slice_index_or self.old worker (seen_of [])) frame) }
    {
        let at = worker as usize;
        if frame % 2 == 0 {
            self.passed[at] = true;
            return;
        }
        let first = self.first(worker);
        if first == 0 {
            self.odd[at] = true;
            self.first[at] = frame;
        } else if frame != first {
            self.passed[at] = true;
        }
    }
}
