//! The allocation of the record that an instruction makes.

ghost use Rattle.std.specs.Prelude.{◌≡◌, ◌+◌, ◌^◌, ◌<◌, MatchOption};
ghost use Rattle.atom_store.specs.declared.turn.Turn.TheVariants.{Finished};
ghost use Rattle.heap_words.specs.Decoded.{HeaderWord};
ghost use Rattle.record_layout.specs.Layout.{header_in};
ghost use Rattle.heap_state.specs.Invariant.Ghost.{header_kind, header_len};
ghost use Rattle.gc_worker.specs.Workers.Fits.{FitsStage, IsMaking, Takes};
ghost use Rattle.gc_worker.specs.Workers.Held.{pages_needed, at_stage, header_for, fields_for, fields_of, making_for, target_for};
ghost use Rattle.gc_worker.specs.Plain.Seen.{cell_made, mixed_made, register_for};
ghost use Rattle.gc_worker.specs.Steps.Stepped.{IsCall, IsPlacing, IsSound, instr_due, seen_by, stepped_by, uncounted};
ghost use Rattle.gc_worker.specs.Steps.Turned.{allocated_at, full_by, guarded_at, is_full, places, told, told_effect, told_full, told_place, turned, with_record};

use crate::stage::Stage;
use crate::stage::after::After;
use crate::stage::back::Back;
use crate::stage::goal::Goal;
use crate::state::State;
use crate::steps::stepped::Stepped;
use crate::task::due::Due;
use alloc_end::{Allocated, Place, Run, Shortage};
use atom_store::{Reply, Turn};
use fault_duty::Duty;
use gate_core::Gate;
use heap_words::{Kind as HeaderKind, Word};
use mutator_asm::{Instr, Operand};
use plain_state::{End, Kind, LONGEST_RECORD};
use record_layout::{Header, LAST_SERIAL};
use space_map::PAGE_WORDS;

/// The record that an instruction makes.
#[derive(Clone, Copy)]
pub struct Making {
    pub kind: Kind,
    /// The register that is to lead to it.
    pub into: u8,
    pub len: u16,
}

impl State {
    /// The header of the next record, which has this kind and so many values, if a header can say that.
    fn next_header(&self, kind: Kind, count: u16) -> Option<Header>
        ensures { result ≡ header_in (HeaderWord (header_kind kind) (header_len kind count) (self.now.account.serial + 1) self.now.number) }
    {
        header_after(
            self.serial,
            header_kind(kind),
            header_len(kind, count),
            self.number,
        )
    }

    /// The header of the record that the task makes, if it makes one, and the fields that this has if it is mixed.
    fn header_and_fields(&self) -> Option<(Header, u16)>
        ensures { MatchOption result (header_for self.now ≡ None) (λ r. (header_for self.now ≡ Some r.0) × (fields_for self.now ≡ r.1)) }
    {
        let making = self.making()?;
        let header = self.next_header(making.kind, making.len)?;
        Some((header, fields_of(making.kind)))
    }

    /// The record that the task makes, if it makes one.
    #[tactic(auto, using(crate::proofs::Plain::RecordsMade::made_of))]
    fn making(&self) -> Option<Making>
        ensures { result ≡ making_for self.now self.now.task }
    {
        let Due::Call = self.due else {
            return None;
        };
        let (kind, into, len) = match self.instr {
            Instr::New(into, len) => (Kind::Fields, into, len),
            Instr::Raw(into, len) => (Kind::Raw, into, len),
            Instr::Mix(into, fields, raw) => return self.mixed(into, fields, raw),
            Instr::Weak(into, a) => return self.cell(into, a),
            _ => return None,
        };
        match self.length(len) {
            Ok(len) => Some(Making { kind, into, len }),
            Err(_) => None,
        }
    }

    /// The mixed record that two operands name.
    fn mixed(&self, into: u8, fields: Operand, raw: Operand) -> Option<Making>
        ensures { result ≡ mixed_made (seen_by self.now) into fields raw }
    {
        match self.mixed_length(fields, raw) {
            Ok((fields, len)) => Some(Making {
                kind: Kind::Mixed(fields),
                into,
                len,
            }),
            Err(_) => None,
        }
    }

    /// The cell whose target a register names.
    fn cell(&self, into: u8, a: u8) -> Option<Making>
        ensures { result ≡ cell_made (seen_by self.now) into a }
    {
        match self.reference(a) {
            Ok(_) => Some(Making {
                kind: Kind::Weak,
                into,
                len: 1,
            }),
            Err(_) => None,
        }
    }

    /// The word that is to be the target of the cell that the task makes, or 0.
    fn target(&self) -> u64
        ensures { result ≡ target_for self.now }
    {
        match (self.due, self.instr) {
            (Due::Call, Instr::Weak(_, a)) => self.word(a),
            _ => 0,
        }
    }

    /// The pages that it needs.
    pub fn asked(&self) -> u32
        ensures { result ≡ pages_needed self.now }
    {
        match self.header_and_fields() {
            Some((header, _)) => (u32::from(header.len) + 1).div_ceil(PAGE_WORDS),
            None => 0,
        }
    }

    /// Its allocation begins.
    pub fn begin_placing(&mut self)
        requires { FitsStage self.old (places self.old (header_for self.old)) }
        ensures { self.new ≡ at_stage self.old (places self.old (header_for self.old)) }
    {
        match self.header_and_fields() {
            Some((header, fields)) => {
                let run = self.run.unwrap_or(Run { at: 0, end: 0 });
                let place = Place::new(
                    self.spaces,
                    run,
                    header,
                    self.epoch,
                    fields,
                    self.snap,
                    self.target(),
                );
                self.stage = Stage::Places(place);
                if self.running != 0 {
                    self.guard_at_place();
                }
            }
            None => self.stage = Stage::Looks,
        }
    }

    /// A step of the allocation.
    #[tactic(auto, using(crate::proofs::Words::Read::serial_fits))]
    #[inline(always)]
    pub fn place(&mut self, reply: Reply) -> Stepped
        requires at { IsPlacing self.old.stage }
        requires fits { IsSound self.old }
        requires takes { Takes self.old reply }
        requires after { IsSound (turned self.old reply) }
        ensures state { self.new ≡ uncounted (turned self.old reply) }
        ensures tells { result ≡ stepped_by self.old.number (told self.old reply) }
    {
        let Stage::Places(place) = &mut self.stage else {
            unreachable!()
        };
        match place.take(reply) {
            Turn::More => self.go_on_placing(),
            Turn::Finished(allocated) => self.has_allocated(allocated),
        }
    }

    /// The allocation goes on. If a checkpoint is in progress, and a word of the record is written next, it looks first whether the page is
    /// saved.
    #[inline(always)]
    pub fn go_on_placing(&mut self) -> Stepped
        requires at { IsPlacing self.old.stage }
        requires fits { FitsStage self.old (guarded_at self.old self.old.stage) }
        ensures state { self.new ≡ at_stage self.old (guarded_at self.old self.old.stage) }
        ensures tells { result ≡ Stepped.Moved }
    {
        if self.running != 0 {
            self.guard_at_place();
        }
        Stepped::Moved
    }

    /// What the allocation comes to.
    #[inline(always)]
    pub fn has_allocated(&mut self, allocated: Allocated) -> Stepped
        requires at { IsPlacing self.old.stage }
        requires serial { self.old.account.serial + 1 < 2 ^ 40 }
        requires making { IsMaking self.old.account self.old.registers self.old.task }
        requires fits { FitsStage (allocated_at self.old self.old.stage allocated) (allocated_at self.old self.old.stage allocated).stage }
        ensures state { self.new ≡ uncounted (allocated_at self.old self.old.stage allocated) }
        ensures tells { result ≡ stepped_by self.old.number (told_place self.old (Finished allocated)) }
    {
        let Stage::Places(place) = &self.stage else {
            unreachable!()
        };
        let run = place.run();
        match allocated {
            Allocated::Placed(at) => self.has_placed(run, at),
            Allocated::Full(shortage) => self.has_no_room(shortage),
        }
    }

    /// The record stands, and the register that the task names leads to it.
    #[tactic(auto, using(crate::proofs::Plain::RecordsMade::record_leads, crate::proofs::Plain::RecordsMade::making_is_call))]
    #[inline(always)]
    fn has_placed(&mut self, run: Run, at: u32) -> Stepped
        requires serial { self.old.account.serial + 1 < 2 ^ 40 }
        requires making { IsMaking self.old.account self.old.registers self.old.task }
        ensures state { self.new ≡ uncounted (with_record self.old run at (making_for self.old self.old.task)) }
        ensures tells { result ≡ stepped_by self.old.number (told_effect self.old.task) }
    {
        let into = self.register_for();
        self.run = Some(run);
        self.stage = Stage::Looks;
        self.serial += 1;
        self.load(into, Word::pointer(at).0)
    }

    /// The register that is to lead to the record that the instruction makes.
    #[inline(always)]
    fn register_for(&self) -> u8
        requires { IsCall self.now.task }
        ensures { result ≡ register_for (instr_due self.now.task) }
    {
        let Due::Call = self.due else { unreachable!() };
        match self.instr {
            Instr::New(d, _) | Instr::Raw(d, _) | Instr::Mix(d, _, _) | Instr::Weak(d, _) => d,
            _ => 0,
        }
    }

    /// Whether no flip can help: one was seen since the instruction began, and all pages of the space are in use; or the epoch is
    /// the last.
    fn is_full(&self, s: Shortage) -> bool
        ensures { result ≡ is_full self.now s }
    {
        self.has_seen_flip() && s.size == self.spaces.pages() || self.epoch == u32::MAX
    }

    /// The heap is full where the epoch is traced, and no flip can help.
    fn has_no_room(&mut self, s: Shortage) -> Stepped
        requires making { IsMaking self.old.account self.old.registers self.old.task }
        requires after { FitsStage (full_by self.old s s.traced) (full_by self.old s s.traced).stage }
        ensures state { self.new ≡ uncounted (full_by self.old s s.traced) }
        ensures tells { result ≡ stepped_by self.old.number (told_full self.old s s.traced) }
    {
        if !s.traced {
            let duty = Duty::new(self.spaces, None, self.epoch, self.number);
            self.stage = Stage::Serves(duty, Back::ToPlace);
            return Stepped::Moved;
        }
        if self.is_full(s) {
            let Shortage {
                asked,
                room,
                live,
                ..
            } = s;
            return self.end_with(End::HeapFull { asked, room, live });
        }
        if self.spaces.has_checkpoints() {
            self.checkpoint(Goal::ForFlip);
        } else {
            self.stage = Stage::Passes(Gate::request(self.spaces), After::Places);
        }
        Stepped::Moved
    }
}

/// The header of the record after the one with this serial, if a header can say that.
#[tactic(auto, using(crate::proofs::Words::Read::header_made, crate::proofs::Words::Read::no_header_long, crate::proofs::Words::Read::no_header_late))]
fn header_after(serial: u64, kind: HeaderKind, len: u32, mutator: u8) -> Option<Header>
    ensures { result ≡ header_in (HeaderWord kind len (serial + 1) mutator) }
{
    if u64::from(len) > LONGEST_RECORD || serial >= LAST_SERIAL {
        return None;
    }
    Some(Header {
        kind,
        len: len as u16,
        serial: serial + 1,
        mutator,
    })
}

/// The length that the header of a record of this kind with so many values has.
fn header_len(kind: Kind, count: u16) -> u32
    ensures { result ≡ header_len kind count }
{
    match kind {
        Kind::Fields | Kind::Raw => u32::from(count),
        Kind::Mixed(_) | Kind::Weak => u32::from(count) + 1,
    }
}

/// The fields that a mixed record of this kind has.
fn fields_of(kind: Kind) -> u16
    ensures { result ≡ fields_of kind }
{
    match kind {
        Kind::Fields | Kind::Raw | Kind::Weak => 0,
        Kind::Mixed(fields) => fields,
    }
}

fn header_kind(kind: Kind) -> HeaderKind
    ensures { result ≡ header_kind kind }
{
    match kind {
        Kind::Fields => HeaderKind::Fields,
        Kind::Raw => HeaderKind::Raw,
        Kind::Mixed(_) => HeaderKind::Mixed,
        Kind::Weak => HeaderKind::Weak,
    }
}
