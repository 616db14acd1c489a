use crate::calls::call::Call;
use plain_state::Identity;
use std::collections::LinkedList;

/// What a history has. No value of it is made: contracts speak of it.
pub enum Entry {
    /// A mutator made this call.
    Made(Call),
    /// A mutator exchanged the spaces, since it had asked for so many pages.
    Exchanged { by: usize, asked: usize },
    /// The epoch was traced, and these cells lost their targets.
    Emptied(LinkedList<Identity>),
}
