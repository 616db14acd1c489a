ghost use Rattle.std.specs.Prelude.{◌≡◌, ◌<◌, List, ℕ, length};
ghost use Rattle.atom_store.specs.Step.{place_in, words_after, reply_of};

use crate::reply::Reply;
use crate::step::Step;

/// Memory whose words are touched by one atomic step at a time.
pub trait Atoms {
    /// The words, by place.
    ghost words: { Self → List ℕ };

    /// Makes the step. It takes constant time, and no memory.
    fn act(&mut self, step: Step) -> Reply
        requires { place_in step < length (words self.old) }
        ensures words { words self.new ≡ words_after step (words self.old) }
        ensures reply { result ≡ reply_of step (words self.old) };
}
