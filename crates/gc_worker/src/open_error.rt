use atom_store::NoMemory as OutOfMemory;
use space_map::BadPages as WrongPages;
use std::alloc::AllocError;
use thiserror::Error;

/// Why a heap was not opened.
#[derive(Clone, Copy, Debug, PartialEq, Eq, Error)]
pub enum OpenError {
    #[error("{}", WrongPages)]
    BadPages,
    #[error("out of memory")]
    NoMemory,
}

impl From<WrongPages> for OpenError {
    ghost use Rattle.std.specs.Prelude.{◌≡◌};
    ghost use Rattle.gc_worker.specs.declared.open_error.OpenError.TheVariants.{BadPages};

    ghost from_gives = { λ _ e. e ≡ BadPages };

    fn from(_: WrongPages) -> OpenError {
        OpenError::BadPages
    }
}

impl From<OutOfMemory> for OpenError {
    ghost use Rattle.std.specs.Prelude.{◌≡◌};
    ghost use Rattle.gc_worker.specs.declared.open_error.OpenError.TheVariants.{NoMemory};

    ghost from_gives = { λ _ e. e ≡ NoMemory };

    fn from(_: OutOfMemory) -> OpenError {
        OpenError::NoMemory
    }
}

impl From<AllocError> for OpenError {
    ghost use Rattle.std.specs.Prelude.{◌≡◌};
    ghost use Rattle.gc_worker.specs.declared.open_error.OpenError.TheVariants.{NoMemory};

    ghost from_gives = { λ _ e. e ≡ NoMemory };

    fn from(_: AllocError) -> OpenError {
        OpenError::NoMemory
    }
}
