//! Tests of the machines that make checkpoints.

mod beginning;
mod printing;
mod saving;
