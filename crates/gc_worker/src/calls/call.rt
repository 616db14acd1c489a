use crate::calls::did::Did;
use crate::task::Task;

/// One call of the plain machine: a mutator's instruction, or an end in its place, and what came of it. No value of it is made: contracts
/// speak of it.
pub struct Call {
    /// The mutator's number.
    pub by: usize,
    /// The instruction, or the end in its place.
    pub task: Task,
    /// What came of it.
    pub did: Did,
}
