//! What a run tells of itself at its end.

ghost use Rattle.std.specs.Prelude.{◌≡◌, ◌++◌, IfOk, map};
ghost use Rattle.ael_threads.specs.Histories.{Each};
ghost use Rattle.ael_threads.specs.Runs.Outputs.{HasEnd, seat_kept, printed_by, seat_registers, seat_seen};
ghost use Rattle.ael_threads.specs.Readers.{seated};

use crate::mutator::Mutator;
use crate::opening::Seats;
use crate::words::Words;
use gc_worker::OpenError;
use plain_state::{End, REGISTERS};
use space_map::Spaces;
use std::alloc::{AllocError, Global};
use thiserror::Error;

/// What a mutator printed, and its end.
#[derive(Debug, Drop)]
pub struct Printed {
    pub numbers: Vec<u64>,
    pub end: End,
}

/// What is told of a run: the layout of its heap; what each mutator printed; how often the spaces were exchanged, and the words copied since,
/// if all are; the words in each mutator's registers; what each worker keeps, the mutators first: the header of a record that it copies, and
/// the address that it has reserved for it and one more, or zeros; and the words of the table, which tell the last checkpoint if they can be
/// begun.
#[derive(Drop)]
pub struct Outputs {
    pub spaces: Spaces,
    pub mutators: Vec<Printed>,
    pub cycles: u32,
    pub live: Option<u64>,
    pub regs: Vec<[u64; REGISTERS]>,
    pub kept: Vec<(u64, u64)>,
    pub words: Words,
}

/// Why nothing was run, or nothing can be told of it.
#[derive(Clone, Copy, Debug, PartialEq, Eq, Error)]
pub enum RunError {
    /// Fewer than `FEWEST_PAGES` at first, fewer in all than at first, or more than `MOST_PAGES`.
    #[error("{}", OpenError::BadPages)]
    BadPages,
    /// Memory was wanting, before the first step or after the last one.
    #[error("out of memory")]
    NoMemory,
}

impl From<OpenError> for RunError {
    ghost use Rattle.std.specs.Prelude.{◌≡◌};
    ghost use Rattle.ael_threads.specs.Runs.Outputs.{as_run_error};

    ghost from_gives = { λ why e. e ≡ as_run_error why };

    fn from(why: OpenError) -> RunError {
        match why {
            OpenError::BadPages => RunError::BadPages,
            OpenError::NoMemory => RunError::NoMemory,
        }
    }
}

impl From<AllocError> for RunError {
    ghost use Rattle.std.specs.Prelude.{◌≡◌};
    ghost use Rattle.ael_threads.specs.declared.programs.outputs.RunError.TheVariants.{NoMemory};

    ghost from_gives = { λ _ e. e ≡ NoMemory };

    fn from(_: AllocError) -> RunError {
        RunError::NoMemory
    }
}

/// What each of these printed, and its end.
pub(crate) fn all_printed(alloc: Global, mutators: &[Mutator]) -> Result<Vec<Printed>, AllocError>
    requires { Each HasEnd mutators.now }
    ensures { IfOk result (λ all. map printed_by all.items ≡ map seat_seen mutators.now) }
{
    let mut all = Vec::with_capacity(alloc, mutators.len())?;
    for mutator in mutators {
        let numbers = Vec::from_slice(alloc, mutator.outputs())?;
        let Some(end) = mutator.ended() else {
            unreachable!()
        };
        all.push_reserved(Printed { numbers, end });
    }
    Ok(all)
}

/// The words in the registers of each of these.
pub(crate) fn all_registers(
    alloc: Global,
    mutators: &[Mutator],
) -> Result<Vec<[u64; REGISTERS]>, AllocError>
    ensures { IfOk result (λ all. all.items ≡ map seat_registers mutators.now) }
{
    let mut all = Vec::with_capacity(alloc, mutators.len())?;
    for mutator in mutators {
        all.push_reserved(mutator.caller.worker.regs());
    }
    Ok(all)
}

/// What each worker keeps, the mutators first.
pub(crate) fn all_kept(alloc: Global, seats: &Seats) -> Result<Vec<(u64, u64)>, AllocError>
    ensures { IfOk result (λ all. all.items ≡ map seat_kept (seats.now.mutators.items ++ map seated seats.now.scanners.items)) }
{
    let mut all = Vec::with_capacity(alloc, seats.mutators.len() + seats.scanners.len())?;
    for mutator in &seats.mutators {
        all.push_reserved(mutator.kept());
    }
    for scanner in &seats.scanners {
        all.push_reserved(scanner.kept());
    }
    Ok(all)
}
