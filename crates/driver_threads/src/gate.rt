// A gate at which one thread holds a job of another.
use std::sync::atomic::{AtomicBool, Ordering};
use vd_outside::Gate;

// Nobody waits for more turns than these.
const TURNS: u32 = 1_000_000_000;

/// Holds a job at a place until another thread says that it may go on.
#[derive(Drop)]
pub struct Holds<'a> {
    pub place: u32,
    pub reached: &'a AtomicBool,
    pub go: &'a AtomicBool,
}

impl Gate for Holds<'_> {
    fn pass(&mut self, at: u32) {
        if at == self.place {
            self.reached.store(true, Ordering::SeqCst);
            wait_for(self.go);
        }
    }
}

/// Looks so long whether the other thread has said so.
pub fn wait_for(said: &AtomicBool) {
    for _ in 0..TURNS {
        if said.load(Ordering::SeqCst) {
            return;
        }
    }
}
