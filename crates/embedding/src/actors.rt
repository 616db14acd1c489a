//! The two actors: what each does, and how it ends.

ghost use Rattle.std.specs.Prelude.{◌≡◌, OnOk};
ghost use Rattle.embedding.specs.Actors.{HasFinished, HasPut, HasTaken, MayAct};

use crate::lists::{LIST, add, prepend};
use crate::signs::{FOUND, Outcome, Stop, announce, heed};
use ael_runtime::{Local, Mutator, Shared};
use std::sync::Wait;
use std::thread::yield_now;

/// How many lists are sent, and how many numbers each has.
const LISTS: u64 = 40;

const EACH: u64 = 10;

/// The box is a word of the board, which holds a list, or 0 if it is empty.
const BOX: u8 = 0;

#[derive(Clone, Copy)]
pub enum Role {
    Sender,
    Receiver,
}

/// An actor's mutator and its spare, and what came of its work.
pub type Ended = (Mutator, Mutator, Outcome);

/// An actor does its work, and leaves. If it fails its spare puts up the sign, for a mutator with an end makes no call any more. The actor
/// leaves before that: the spare may have to wait for a flip, which waits for all that have come and haven't left.
pub fn acts<R: Wait>(rt: &R, heap: &Shared, role: Role, mutator: Mutator, spare: Mutator) -> Ended
    requires mutator { MayAct heap.now.table.shared.table_id mutator }
    requires spare { MayAct heap.now.table.shared.table_id spare }
    ensures { HasFinished heap.now.table.shared.table_id spare result.0 result.1 result.2 }
{
    let mut local = Local::new(heap, mutator);
    let outcome = match role {
        Role::Sender => send(rt, &mut local),
        Role::Receiver => receive(rt, &mut local),
    };
    let mutator = local.leave(rt);
    match outcome {
        Ok(_) => (mutator, spare, outcome),
        Err(_) => (mutator, announce(rt, Local::new(heap, spare)), outcome),
    }
}

/// Sends the numbers from 1 on, in lists, and tells how many.
fn send<R: Wait>(rt: &R, local: &mut Local<'_>) -> Outcome
    ensures { local.new.table ≡ local.old.table }
{
    for list in 0..LISTS {
        local.set_number(rt, LIST, 0)?;
        for k in 1..=EACH {
            prepend(rt, local, list * EACH + k)?;
        }
        put(rt, local)?;
    }
    Ok(LISTS * EACH)
}

/// Puts the list in the box, once that is empty.
fn put<R: Wait>(rt: &R, local: &mut Local<'_>) -> Result<(), Stop>
    ensures of_heap { local.new.table ≡ local.old.table }
    ensures put { OnOk result (HasPut local.old local.new) }
{
    for _ in rt.forever() {
        heed(rt, local)?;
        local.read_shared(rt, FOUND, BOX)?;
        if local.number(FOUND) == Some(0) {
            local.share(rt, BOX, LIST)?;
            return Ok(());
        }
        yield_now();
    }
    unreachable!()
}

/// Receives the lists, and makes the checksum of their numbers.
fn receive<R: Wait>(rt: &R, local: &mut Local<'_>) -> Outcome
    ensures { local.new.table ≡ local.old.table }
{
    let mut sum = 0;
    for _ in 0..LISTS {
        take(rt, local)?;
        sum = add(rt, local, EACH, sum)?;
    }
    Ok(sum)
}

/// Waits for a list, and takes it out of the box.
fn take<R: Wait>(rt: &R, local: &mut Local<'_>) -> Result<(), Stop>
    ensures of_heap { local.new.table ≡ local.old.table }
    ensures taken { OnOk result (HasTaken local.new) }
{
    for _ in rt.forever() {
        heed(rt, local)?;
        local.take(rt, LIST, BOX)?;
        if local.is_record(LIST) {
            return Ok(());
        }
        yield_now();
    }
    unreachable!()
}
