//! The audit of an output.

ghost use Rattle.std.specs.Prelude.{◌≡◌, ◌<◌, ◌^◌, IfOk, length, map};
ghost use Rattle.crossing_map.specs.Crossing.{pairs_kept};
ghost use Rattle.dump_text.specs.Pieces.{kept_view};
ghost use Rattle.dump_text.specs.Reading.{dump_view};
ghost use Rattle.dump_text.specs.Said.{dump_said};
ghost use Rattle.dump_text.specs.Text.{IsDump};
ghost use Rattle.heap_audit.specs.Places.{HasForm, IsShort};
ghost use Rattle.heap_audit.specs.Verdict.{SaysYesIfTrue, TellsPlace, TellsVerdict, at_told};

use crate::audit_error::{AuditError, from_reading};
use crate::places::first_place::first_place;
use crate::places::place::Place;
use crate::reading::first_other::first_other;
use crate::reading::part::read_part;
use crate::told_heap::ToldHeap;
use crate::verdict::{At, Verdict};
use dump_text::{Dump, Kept};
use mutator_asm::Program;
use plain_machine::{PlainState, plain_run};
use plain_state::NoMemory;
use space_map::Spaces;
use std::alloc::Global;

/// What each worker keeps, as pairs.
fn pairs(alloc: Global, kept: &[Kept]) -> Result<Vec<(u64, u64)>, NoMemory>
    ensures { IfOk result (λ pairs. pairs_kept pairs.items ≡ map kept_view kept.now) }
{
    let mut pairs = Vec::new(alloc);
    for one in kept {
        pairs.push((one.header, one.place))?;
    }
    Ok(pairs)
}

/// A place as it is told: a register, or a word of the table.
fn at(spaces: Spaces, place: Place) -> At
    requires { IsShort place }
    ensures { result ≡ at_told spaces.pages place }
{
    spaces.known();
    let heap = spaces.word_place(0) as u32;
    let board = spaces.first_word(spaces.board_page());
    match place {
        Place::Size(space) => At::Word(spaces.size_place(space) as u32),
        Place::Area(space) => At::Word(spaces.area_place(space) as u32),
        Place::Register(m, j) => At::Register(m, j),
        Place::Board(x) => At::Word(heap + board + x),
        Place::Word(address) => At::Word(heap + address),
    }
}

/// The first place of a dump at which it doesn't show what it should of a plain state, as it is told; none if it represents that.
fn first_wrong(alloc: Global, dump: &Dump, plain: &PlainState) -> Result<Option<At>, NoMemory>
    requires dump { IsDump (dump_view dump.now) }
    requires form { HasForm (dump_said (dump_view dump.now)) plain.now }
    ensures { IfOk result (TellsPlace (dump_view dump.now) plain.now) }
{
    let kept = pairs(alloc, dump.kept.as_slice())?;
    let spaces = Spaces::new(dump.pages).unwrap();
    let heap = ToldHeap {
        spaces,
        registers: dump.registers.as_slice(),
        kept: kept.as_slice(),
        words: dump.words.as_slice(),
    };
    match first_place(alloc, &heap, plain)? {
        Some(place) => Ok(Some(at(spaces, place))),
        None => Ok(None),
    }
}

/// The verdict on the part that the bytes are.
fn verdict_on(alloc: Global, p: &Program, turns: u32, bytes: &[u8]) -> Result<Verdict, AuditError>
    requires { length bytes.now < 2 ^ 31 }
    ensures { TellsVerdict p.now.code turns bytes.now result }
{
    let part = match read_part(alloc, p.code.len() as u8, bytes) {
        Ok(part) => part,
        Err(error) => return Err(from_reading(error)),
    };
    let plain = plain_run(alloc, p, turns, part.order.as_slice())?;
    if let Some(line) = first_other(alloc, &plain, part.mutators.as_slice())? {
        return Ok(Verdict::No(At::Line(line as u32)));
    }
    match first_wrong(alloc, &part.dump, &plain)? {
        Some(at) => Ok(Verdict::No(at)),
        None => Ok(Verdict::Yes),
    }
}

/// Whether the bytes are what a run of the program may print, each mutator executing at most so many instructions: the lines of the plain
/// machine that executes the program in their order, and a dump that represents its state. Else where that is first seen.
pub fn audit(alloc: Global, p: &Program, turns: u32, bytes: &[u8]) -> Result<Verdict, AuditError>
    requires { length bytes.now < 2 ^ 31 }
    // The verdict on the part that the bytes are, or their first wrong line.
    ensures verdict { TellsVerdict p.now.code turns bytes.now result }
    // Yes, if this is a true output, unless memory runs out.
    ensures yes { SaysYesIfTrue p.now.code turns bytes.now result }
{
    verdict_on(alloc, p, turns, bytes)
}
