//! Where threads wait for what one of them at a time may have. A line proves nothing, and no clause tells of it: that one pass at a time has the turn is
//! the rule of the table. It is for who sleeps, and who is woken when.
use std::hint::spin_loop;
use std::sync::Wait;
use std::sync::atomic::{AtomicU64, Ordering};
use std::time::Duration;

// So often one looks before it sleeps: for longer than a change takes whose journal is in memory.
const LOOKS: u32 = 1000;

// While so many look, who comes later sleeps at once.
const LOOKERS: u64 = 3;

// So often one sleeps before nobody passes it any more.
const PASSED: u32 = 3;

// So many microseconds one sleeps, where nobody wakes it, before nobody passes it any more.
const PATIENCE: u64 = 10_000;

/// Who runs may pass who sleeps: so the head of the line isn't kept for a thread that has yet to wake up, while others could use it. But nobody passes one
/// that has slept often or for long.
#[derive(Drop)]
pub(crate) struct Line {
    // 1 where somebody is at the head, and 2 for each thread that nobody passes any more.
    head: AtomicU64,
    // How many threads look whether the head is free.
    looking: AtomicU64,
    // How many threads sleep, or are about to.
    waiting: AtomicU64,
    // How often somebody was woken: the word to sleep on.
    rings: AtomicU64,
    // 1 from a waking until a thread that waits has looked again.
    rung: AtomicU64,
}

impl Line {
    pub(crate) fn new() -> Line {
        Line {
            head: AtomicU64::new(0),
            looking: AtomicU64::new(0),
            waiting: AtomicU64::new(0),
            rings: AtomicU64::new(0),
            rung: AtomicU64::new(0),
        }
    }

    /// Waits until the head of the line is free, and takes it.
    #[inline(always)]
    pub(crate) fn enter<R: Wait>(&self, rt: &R) {
        if !self.try_enter(rt) {
            self.enter_unpassed(rt);
        }
    }

    /// The same as long as others may pass it; false where it hasn't got the head then.
    #[inline(always)]
    pub(crate) fn try_enter<R: Wait>(&self, rt: &R) -> bool {
        self.take() || self.queue(rt)
    }

    /// The same as `enter` where nobody passes it from now on.
    #[inline(never)]
    pub(crate) fn enter_unpassed<R: Wait>(&self, rt: &R) {
        self.waiting.fetch_add(1, Ordering::SeqCst);
        self.head.fetch_add(2, Ordering::SeqCst);
        self.wait_unpassed(rt);
        self.head.fetch_sub(2, Ordering::SeqCst);
        self.wake_up();
    }

    /// Gives the head of the line back. All steps are in one order: who sleeps by the look at the waiting ones is woken, or another one that then looks;
    /// who isn't yet asleep looks once more, and finds the head free.
    #[inline(always)]
    pub(crate) fn leave(&self) {
        let head = self.head.fetch_sub(1, Ordering::SeqCst);
        if self.waiting.load(Ordering::SeqCst) != 0 {
            self.ring(head > 1);
        }
    }

    /// Gives the head of the line back, and wakes only those who may not be passed. The others look again when their sleep is over, or are woken by `call`.
    #[inline(always)]
    pub(crate) fn step_aside(&self) {
        if self.head.fetch_sub(1, Ordering::SeqCst) > 1 {
            self.ring(true);
        }
    }

    /// Wakes one that sleeps, where somebody does and the head of the line is free: who is at the head calls later.
    pub(crate) fn call(&self) {
        if self.waiting.load(Ordering::SeqCst) != 0 && self.head.load(Ordering::SeqCst) % 2 == 0 {
            self.ring(false);
        }
    }

    // Takes the head where it is free, and where nobody waits who may not be passed.
    fn take(&self) -> bool {
        self.head
            .compare_exchange(0, 1, Ordering::SeqCst, Ordering::SeqCst)
            .is_ok()
    }

    // Takes the head where it is free, for one that waits.
    fn take_waiting(&self) -> bool {
        let head = self.head.load(Ordering::SeqCst);
        head % 2 == 0
            && self
                .head
                .compare_exchange(head, head | 1, Ordering::SeqCst, Ordering::SeqCst)
                .is_ok()
    }

    // Wakes one that sleeps, unless another one that was woken hasn't looked yet. While somebody looks, only those are woken who may not be passed.
    #[inline(never)]
    fn ring(&self, may_not_pass: bool) {
        if !may_not_pass && self.looking.load(Ordering::SeqCst) != 0 {
            return;
        }
        if self.rung.swap(1, Ordering::SeqCst) == 0 {
            self.rings.fetch_add(1, Ordering::SeqCst);
            self.rings.wake_one();
        }
    }

    // Looks whether the head becomes free, and waits for a while where it doesn't.
    #[inline(never)]
    fn queue<R: Wait>(&self, rt: &R) -> bool {
        let lookers = self.looking.fetch_add(1, Ordering::SeqCst);
        let taken = lookers < LOOKERS && self.look();
        self.looking.fetch_sub(1, Ordering::SeqCst);
        if taken {
            return true;
        }
        self.waiting.fetch_add(1, Ordering::SeqCst);
        let taken = self.wait(rt);
        self.wake_up();
        taken
    }

    // Waits no more.
    fn wake_up(&self) {
        self.waiting.fetch_sub(1, Ordering::SeqCst);
        self.rung.store(0, Ordering::SeqCst);
    }

    // Looks for a while whether the head becomes free, and takes it.
    fn look(&self) -> bool {
        for _ in 0..LOOKS {
            if self.head.load(Ordering::SeqCst) == 0 && self.take() {
                return true;
            }
            spin_loop();
        }
        false
    }

    // Sleeps until the head is free, and takes it, as long as others may pass it.
    fn wait<R: Wait>(&self, rt: &R) -> bool {
        for _ in 0..PASSED {
            let heard = self.hear();
            if self.take_waiting() {
                return true;
            }
            self.doze(rt, heard);
            if self.look_waiting() {
                return true;
            }
            if self.rings.load(Ordering::SeqCst) == heard {
                return false;
            }
        }
        false
    }

    // The same where nobody passes it.
    fn wait_unpassed<R: Wait>(&self, rt: &R) {
        for _ in rt.forever() {
            let heard = self.hear();
            if self.take_waiting() {
                return;
            }
            self.rings.park(rt, (heard % 0x1_0000_0000) as u32);
            if self.look_waiting() {
                return;
            }
        }
    }

    // How often it has rung. To be called before the last look before a sleep: a later ring is then another number, and ends the sleep.
    fn hear(&self) -> u64 {
        let heard = self.rings.load(Ordering::SeqCst);
        self.rung.store(0, Ordering::SeqCst);
        heard
    }

    // Sleeps until it rings, or for a while.
    fn doze<R: Wait>(&self, rt: &R, heard: u64) {
        let most = Duration::from_micros(PATIENCE);
        self.rings
            .park_timeout(rt, (heard % 0x1_0000_0000) as u32, most);
    }

    // Looks for a while whether the head becomes free, and takes it, for one that waits.
    fn look_waiting(&self) -> bool {
        self.looking.fetch_add(1, Ordering::SeqCst);
        let mut taken = false;
        for _ in 0..LOOKS {
            taken = self.take_waiting();
            if taken {
                break;
            }
            spin_loop();
        }
        self.looking.fetch_sub(1, Ordering::SeqCst);
        taken
    }
}
