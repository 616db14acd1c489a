/// A mutator's way past the gate.
#[derive(Clone, Copy, PartialEq, Eq)]
pub enum Passage {
    /// It runs, and goes on if nothing is requested.
    Look,
    /// It comes to the heap, and runs.
    Attach,
    /// It stops, because a flip or a checkpoint is requested.
    Park,
    /// It requests a flip or a checkpoint, and stops: from then on the request is its own.
    Request,
    /// It runs on, in this epoch.
    Resume(u32),
    /// Its registers are forwarded.
    Forwarded,
    /// It has its end, and goes.
    Leave,
    /// It has begun a checkpoint, and clears its request.
    Clear,
}
