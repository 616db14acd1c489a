//! The places from which acts are made. Each has an act of its own: what is called at one place alone, the compiler puts into its caller,
//! however large it is.

/// The loop over the instructions of a program.
pub(crate) struct InProgram;

/// Anywhere else.
pub(crate) struct Apart;
