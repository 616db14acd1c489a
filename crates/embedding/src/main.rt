//! A runtime of two actors on one heap, each on a thread of its own.
//!
//! The sender builds lists of numbers, and leaves each in a box. The receiver takes it out, and makes a checksum of the numbers.
//! The heap is so small that lists are moved while both work, and those that were read make room for new ones.
#![tactic(auto)]

mod actors;
mod lists;
mod signs;

ghost use Rattle.std.specs.Prelude.{◌≡◌, ◌≢◌, IsOk, OnOk, vec_len};
ghost use Rattle.gc_worker.specs.declared.stage.Stage.TheVariants.{Gone};
ghost use Rattle.ael_threads.specs.Histories.{Each};
ghost use Rattle.ael_threads.specs.Seats.{Seated, new_callers};
ghost use Rattle.embedding.specs.declared.signs.Stop.TheVariants.{PartnerStopped};

use crate::actors::{Role, acts};
use crate::signs::{Outcome, Stop};
use ael_runtime::{Config, Mutator, Seats, Shared};
use anyhow::Result;
use std::sync::Wait;
use std::thread::{Threads, join};

fn main(rt: HostRuntime) -> Result<()> {
    let config = Config {
        pages: 4,
        limit: 4,
        scanners: 0,
        snap: false,
    };
    let (heap, mut seats) = Shared::open_without_printing(rt.alloc(), 4, &config)?;
    let told = run(&rt, &heap, &mut seats);
    let _words = heap.close(seats);
    told
}

/// Gives each actor a mutator and a spare, and takes all back. Whatever comes of it, they leave.
fn run<R: Threads + Wait + Sync + Print>(rt: &R, heap: &Shared, seats: &mut Seats) -> Result<()>
    requires new { seats.old.mutators.items ≡ new_callers heap.now.table.shared.table_id heap.now.table.shared.key 0 4 }
    ensures gone { Each (λ (m : Seated). (m.table ≡ heap.now.table.shared.table_id) × (m.worker.stage ≡ Gone)) seats.new.mutators.items }
    ensures all { vec_len seats.new.mutators ≡ 4 }
    ensures same { seats.new.scanners ≡ seats.old.scanners }
{
    let spare = seats.take_mutator().unwrap();
    let other_spare = seats.take_mutator().unwrap();
    let receiver = seats.take_mutator().unwrap();
    let sender = seats.take_mutator().unwrap();
    let ((sender, spare, sent), (receiver, other_spare, received)) = join(
        rt,
        || acts(rt, heap, Role::Sender, sender, spare),
        || acts(rt, heap, Role::Receiver, receiver, other_spare),
    );
    let told = tell(rt, &sender, sent, received);
    seats.mutators.push_reserved(sender);
    seats.mutators.push_reserved(spare);
    seats.mutators.push_reserved(receiver);
    seats.mutators.push_reserved(other_spare);
    seats.retire(rt, heap);
    told
}

/// Prints the checksum, how many records the sender has made, and whether any were moved. An actor that has failed is an error.
fn tell<R: Print>(rt: &R, sender: &Mutator, sent: Outcome, received: Outcome) -> Result<()>
    ensures { OnOk result (IsOk sent × IsOk received) }
{
    let sum = match (sent, received) {
        (Ok(_), Ok(sum)) => sum,
        (Err(one), Err(other)) => return Err(cause(one, other).into()),
        (Err(why), Ok(_)) | (Ok(_), Err(why)) => return Err(why.into()),
    };
    println!(rt; "checksum {sum}")?;
    let moved = sender.epoch() > 0;
    println!(rt; "records {}, moved {moved}", sender.serial())?;
    Ok(())
}

/// Of two reasons to stop, that of the actor that didn't stop for the other.
fn cause(one: Stop, other: Stop) -> Stop
    ensures own { one ≢ PartnerStopped → result ≡ one }
    ensures others { one ≡ PartnerStopped → result ≡ other }
{
    match one {
        Stop::PartnerStopped => other,
        _ => one,
    }
}
