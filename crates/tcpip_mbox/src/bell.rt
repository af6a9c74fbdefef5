//! Where a side waits for the other. Nothing is claimed of waking: contracts hold of what is returned, if anything is.
use std::hint;
use std::sync::Wait;
use std::sync::atomic::{AtomicU64, Ordering};

/// How often a side looks before it sleeps.
const LOOKS: u32 = 100;

/// A word on which sides sleep. It is odd where one sleeps, or is about to, and each waking makes it even again.
#[derive(Drop)]
pub(crate) struct Bell {
    word: AtomicU64,
}

/// What a side that waits has done since it last slept.
#[derive(Clone, Copy)]
pub(crate) enum Watch {
    /// It looked so many times.
    Looked(u32),
    /// It made the word odd, or found it so, and looked once more. These were the low bits.
    Told(u32),
}

/// A side that has not waited yet.
pub(crate) const BEGUN: Watch = Watch::Looked(0);

impl Bell {
    pub(crate) fn new() -> Bell {
        Bell {
            word: AtomicU64::new(0),
        }
    }

    /// Wakes those who sleep. A side calls it once it has done what they wait for, so that one who does not see what was done is seen here.
    #[inline(always)]
    pub(crate) fn ring(&self) {
        let word = self.word.load(Ordering::SeqCst);
        if word % 2 == 1 && self.change(word) {
            self.word.wake_all();
        }
    }

    /// Lets a little time go by after a look that found nothing. After some looks it says that it is about to sleep, and after one more it sleeps until it is woken.
    #[inline(always)]
    pub(crate) fn wait<R: Wait>(&self, rt: &R, watch: Watch) -> Watch {
        match watch {
            Watch::Looked(looks) => {
                if looks < LOOKS {
                    hint::spin_loop();
                    Watch::Looked(looks + 1)
                } else {
                    self.tell()
                }
            }
            Watch::Told(word) => {
                self.word.park(rt, word);
                BEGUN
            }
        }
    }

    // Makes the word odd.
    fn tell(&self) -> Watch {
        let word = self.word.load(Ordering::SeqCst);
        if word % 2 == 1 {
            return Watch::Told(low(word));
        }
        if self.change(word) {
            return Watch::Told(low(word.wrapping_add(1)));
        }
        Watch::Looked(LOOKS)
    }

    // One more, if the word is still this one.
    fn change(&self, word: u64) -> bool {
        let more = word.wrapping_add(1);
        let order = Ordering::SeqCst;
        self.word.compare_exchange(word, more, order, order).is_ok()
    }
}

// The low 32 bits.
fn low(word: u64) -> u32 {
    (word % (1 << 32)) as u32
}
