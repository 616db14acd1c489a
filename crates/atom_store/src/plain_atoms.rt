ghost use Rattle.std.specs.Prelude.{◌≡◌, ◌<◌, IfOk, length, replicate, slice_index, slice_set};
ghost use Rattle.atom_store.specs.Step.{place_in, words_after, reply_of};

use crate::atoms::Atoms;
use crate::no_memory::NoMemory;
use crate::reply::Reply;
use crate::step::Step;
use std::alloc::Global;
use std::marker::Model;

/// Words in a vector, which only their owner touches.
#[derive(Debug, Drop)]
pub struct PlainAtoms {
    words: Vec<u64>,
}

impl Model for PlainAtoms {
    ghost use Rattle.std.specs.Prelude.{List, ℕ};

    ghost Value = { List ℕ };

    ghost view = { λ atoms. atoms.words.items };
}

impl PlainAtoms {
    /// Words that are all zero.
    pub fn new(alloc: Global, len: usize) -> Result<PlainAtoms, NoMemory>
        ensures { IfOk result (λ atoms. atoms ≡ replicate len 0) }
    {
        Ok(PlainAtoms {
            words: vec![in alloc; 0; len]?,
        })
    }

    /// The word at a place, as the step `Load` replies it.
    #[inline(always)]
    pub fn load(&self, place: usize) -> u64
        requires { place < length self.now }
        ensures { result ≡ slice_index self.now place }
    {
        self.words[place]
    }

    /// Writes the word at a place, as the step `Store` does.
    #[inline(always)]
    pub fn store(&mut self, place: usize, word: u64)
        requires { place < length self.old }
        ensures { self.new ≡ slice_set self.old place word }
    {
        self.words[place] = word;
    }

    pub fn words(&self) -> &[u64]
        ensures { result.now ≡ self.now }
    {
        &self.words
    }
}

impl Atoms for PlainAtoms {
    ghost words = { λ atoms. atoms };

    fn act(&mut self, step: Step) -> Reply {
        match step {
            Step::Load(place) => Reply::Value(self.words[place]),
            Step::Store(place, value) => {
                self.words[place] = value;
                Reply::Done
            }
            Step::Exchange(place, old, new) => {
                let word = &mut self.words[place];
                if *word != old {
                    return Reply::Lost(*word);
                }
                *word = new;
                Reply::Won
            }
        }
    }
}
