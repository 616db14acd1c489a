//! A mutator that keeps a list while the spaces are exchanged.

ghost use Rattle.std.specs.Prelude.{◌≡◌, None};

use crate::asserting::assert_same;
use crate::calling::{make, make_all, reg};
use ael_threads::{Mutator, Reg, Shared};
use mutator_asm::Instr::{Ld, Li, Mov, New, St};
use mutator_asm::Operand;
use std::process::Abort;
use std::sync::Wait;

/// How many links the list has, each with a number. They take two pages.
const LINKS: u64 = 30;

/// How many records of a page are made at most until an epoch has come. Here that is far more than it takes: a space holds only a few.
const RECORDS: u32 = 1_000;

const ZERO: Operand = Operand::Number(0);

const ONE: Operand = Operand::Number(1);

const TWO: Operand = Operand::Number(2);

/// The words of a page but for the header.
const PAGE: Operand = Operand::Number(63);

/// Makes the list, of which register 0 leads to the last link.
pub fn make_list<R: Wait + Abort>(rt: &R, h: &Shared, mutator: &mut Mutator)
    requires table { mutator.old.table ≡ h.now.table.shared.table_id }
    requires rests { mutator.old.worker.task ≡ None }
    ensures table { mutator.new.table ≡ mutator.old.table }
    ensures rests { mutator.new.worker.task ≡ None }
{
    for k in 0..LINKS {
        let link = [
            New(1, TWO),
            Li(2, k),
            St(1, ZERO, 2),
            St(1, ONE, 0),
            Mov(0, 1),
        ];
        make_all(rt, h, mutator, &link);
    }
}

/// The list is as it was made.
pub fn check_list<R: Wait + Abort>(rt: &R, h: &Shared, mutator: &mut Mutator)
    requires table { mutator.old.table ≡ h.now.table.shared.table_id }
    requires rests { mutator.old.worker.task ≡ None }
    ensures table { mutator.new.table ≡ mutator.old.table }
    ensures rests { mutator.new.worker.task ≡ None }
{
    for k in (0..LINKS).rev() {
        make_all(rt, h, mutator, &[Ld(2, 0, ZERO), Ld(0, 0, ONE)]);
        assert_same(rt, &reg(mutator, 2), &Reg::Number(k));
    }
    assert_same(rt, &reg(mutator, 0), &Reg::Number(0));
}

/// Makes records, of which it keeps only the last one, until it is in this epoch.
pub fn flip_until<R: Wait + Abort>(rt: &R, h: &Shared, mutator: &mut Mutator, epoch: u32)
    requires table { mutator.old.table ≡ h.now.table.shared.table_id }
    requires rests { mutator.old.worker.task ≡ None }
    ensures table { mutator.new.table ≡ mutator.old.table }
    ensures rests { mutator.new.worker.task ≡ None }
{
    for _ in 0..RECORDS {
        if mutator.epoch() == epoch {
            return;
        }
        make(rt, h, mutator, New(1, PAGE));
    }
    panic!(rt; "the spaces aren't exchanged");
}
