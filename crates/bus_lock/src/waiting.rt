// How many threads wait for the host.
ghost use Rattle.std.specs.Prelude.{◌≡◌};

use crate::rule::{LOCK, OUT, Top};
use host_events::Host;
use std::sync::Wait;
use std::sync::atomic::{AtomicU64, Ordering};

/// The count of the threads that wait. Where it is 0 a turn wakes nobody, and so needs no call of the system. It stands
/// in no clause.
#[derive(Drop)]
pub struct Waiting {
    count: AtomicU64,
}

impl Waiting {
    /// Nobody waits.
    pub fn new() -> Waiting {
        Waiting {
            count: AtomicU64::new(0),
        }
    }

    /// Waits until the host may be home. The thread is counted before it looks for the last time whether the host is
    /// out, so whoever gives the host back after that look finds it counted.
    pub fn park<R: Wait, H: Host>(&self, rt: &R, top: &Top<H>)
        requires table { top.now.table_id.words ≡ 2 }
    {
        self.count.fetch_add(1, Ordering::SeqCst);
        top.park(rt, LOCK, OUT as u32);
        self.count.fetch_sub(1, Ordering::SeqCst);
    }

    /// Wakes a thread that waits, if there is one. The host is home.
    pub fn wake<H: Host>(&self, top: &Top<H>)
        requires table { top.now.table_id.words ≡ 2 }
    {
        if self.count.load(Ordering::SeqCst) != 0 {
            top.wake_one(LOCK);
        }
    }
}
