// A gate at which two vCPUs meet: that they run beside each other is shown here alone.
use crate::letters::{is_along, letters_image};
use crate::{Gate, run_smp};
use event_table::Turn;
use host_events::{Host, Hypervisor};
use std::sync::atomic::{AtomicBool, AtomicU64, Ordering};
use std::test::Fail;

/// How often a flag is looked at before the gate gives up.
const POLLS: u64 = 100_000_000;

/// What the gate keeps of one vCPU: how often it entered and left, and its three flags.
#[derive(Drop)]
struct Place {
    entered: AtomicU64,
    left: AtomicU64,
    flags: [AtomicBool; 3],
}

impl Place {
    fn new() -> Place {
        Place {
            entered: AtomicU64::new(0),
            left: AtomicU64::new(0),
            flags: [
                AtomicBool::new(false),
                AtomicBool::new(false),
                AtomicBool::new(false),
            ],
        }
    }
}

/// Two vCPUs meet at their first turn and at their second, and one comes late to its second: there it waits until the
/// other has had its third.
#[derive(Drop)]
struct Meeting {
    places: [Place; 2],
    late: u16,
    gave_up: AtomicBool,
}

impl Meeting {
    fn new(late: u16) -> Meeting {
        Meeting {
            places: [Place::new(), Place::new()],
            late,
            gave_up: AtomicBool::new(false),
        }
    }

    /// Sets a flag of a vCPU.
    fn set(&self, vcpu: u16, flag: usize) {
        if let Some(place) = self.places.get(usize::from(vcpu))
            && let Some(flag) = place.flags.get(flag)
        {
            flag.store(true, Ordering::SeqCst);
        }
    }

    /// Whether a flag of a vCPU is set.
    fn is_set(&self, vcpu: u16, flag: usize) -> bool {
        self.places
            .get(usize::from(vcpu))
            .and_then(|place| place.flags.get(flag))
            .is_some_and(|flag| flag.load(Ordering::SeqCst))
    }

    /// Polls a flag of the other vCPU, or gives up.
    fn poll(&self, vcpu: u16, flag: usize) {
        for _ in 0..POLLS {
            if self.is_set(1 - vcpu % 2, flag) {
                return;
            }
        }
        self.gave_up.store(true, Ordering::SeqCst);
    }
}

impl Gate for Meeting {
    fn enter(&self, vcpu: u16) {
        let Some(place) = self.places.get(usize::from(vcpu)) else {
            return;
        };
        match place.entered.fetch_add(1, Ordering::SeqCst) {
            0 => {
                self.set(vcpu, 0);
                self.poll(vcpu, 0);
            }
            1 => {
                self.poll(vcpu, 1);
                if vcpu == self.late {
                    self.poll(vcpu, 2);
                }
            }
            _ => {}
        }
    }

    fn leave(&self, vcpu: u16) {
        let Some(place) = self.places.get(usize::from(vcpu)) else {
            return;
        };
        match place.left.fetch_add(1, Ordering::SeqCst) {
            0 => self.set(vcpu, 1),
            2 => self.set(vcpu, 2),
            _ => {}
        }
    }
}

#[test]
fn the_late_vcpu_comes_after_two_items_of_the_other(rt: HostRuntime) -> Result<(), Fail> {
    let alloc = rt.alloc();
    let image = letters_image(alloc)?;
    for late in 0..2 {
        let gate = Meeting::new(late);
        let (finished, host) = run_smp(
            &rt,
            alloc,
            &image,
            Vec::new(alloc),
            100,
            Hypervisor::new(alloc),
            &gate,
        )?;
        assert!(rt; !gate.gave_up.load(Ordering::SeqCst));
        let first = Turn {
            vcpu: 1 - late,
            count: 1,
        };
        assert!(rt; finished.order.starts_with(&[first, first]));
        assert!(rt; is_along(&finished.order, host.console()));
    }
    Ok(())
}
