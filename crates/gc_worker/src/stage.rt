pub mod after;
pub mod back;
pub mod forwarding_register;
pub mod goal;
pub mod write;

use crate::stage::after::After;
use crate::stage::back::Back;
use crate::stage::forwarding_register::ForwardingRegister;
use crate::stage::goal::Goal;
use crate::stage::write::Write;
use alloc_end::Place;
use fault_duty::Duty;
use forwarding::Evac;
use gate_core::{Flip, Gate, Recall, Snap};
use page_saves::{Guard, SaveRound};
use page_scan::Scan;
use page_slots::Open;
use record_access::Access;

/// What a worker is about to do.
#[derive(Clone, Copy)]
pub enum Stage {
    /// Look at the gate, which begins an instruction.
    Looks,
    /// Pass the gate, and then go on there.
    Passes(Gate, After),
    /// Make the flip that it requested.
    Flips(Flip),
    /// Forward this register, and those after it.
    Forwards(ForwardingRegister),
    /// Make the access of an instruction.
    Accesses(Access),
    /// Allocate a record.
    Places(Place),
    /// Make a round of the duty, and then go back.
    Serves(Duty, Back),
    /// Scan a page that was claimed, open it, and then go back.
    Scans(Scan, Back),
    /// Copy the record that the scan asks for, and go on with the scan.
    Evacuates(Evac, Scan, Back),
    /// Open the page that was scanned, and then go back.
    Opens(Open, Scan, Back),
    /// Read which checkpoint is in progress, and then go on there.
    Recalls(Recall, After),
    /// Look whether a page is saved, and save it if not, and then write on it.
    Guards(Guard, Write),
    /// Make a round for the checkpoint that is in progress, for this.
    Checkpoints(SaveRound, Goal),
    /// Begin the checkpoint that it requested.
    BeginsCheckpoint(Snap),
    /// Nothing more.
    Gone,
}
