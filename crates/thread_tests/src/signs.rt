//! What threads tell each other apart from the heap.

use std::sync::atomic::{AtomicBool, Ordering};
use std::thread;

/// How often one looks for a sign, before it gives up.
const LOOKS: u32 = 1_000_000_000;

/// Waits until the sign is given, and tells whether it was.
pub fn comes(sign: &AtomicBool) -> bool {
    for looks in 0..LOOKS {
        if sign.load(Ordering::SeqCst) {
            return true;
        }
        if looks % 64 == 0 {
            thread::yield_now();
        }
    }
    false
}
