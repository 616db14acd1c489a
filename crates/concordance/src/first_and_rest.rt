//! Work on a list whose first element is worked on by a thread of its own.

ghost use Rattle.std.specs.Prelude.{◌≡◌, ◌<◌, ◌∷◌, List, length};
ghost use Rattle.concordance.specs.FirstAndRest.{GivesAt, TakesAt};

use std::marker::{Send, Sync};
use std::thread::{Threads, join_mut};

/// Calls one closure at the first element on a thread of its own, or last if none can be had, and another at the rest.
pub(crate) fn join_first<
    R: Threads,
    T: Send,
    A: Send,
    B,
    F: Fn(&mut T) -> A + Sync,
    G: Fn(&mut [T]) -> B,
>(rt: &R, all: &mut [T], one: &F, more: &G) -> (A, B)
    requires some { 0 < length all.old }
    requires takes { (x : T) (xs : List T) → all.old ≡ x ∷ xs → TakesAt F.Fn one.now x × TakesAt G.Fn more.now xs }
    ensures { (x y : T) × (xs ys : List T) × (all.old ≡ x ∷ xs) × (all.new ≡ y ∷ ys) × GivesAt F.Fn one.now x result.0 y × GivesAt G.Fn more.now xs result.1 ys }
{
    let Some((first, rest)) = all.split_first_mut() else {
        unreachable!("there is a first element");
    };
    join_mut(
        rt,
        &mut || -> A
            requires { TakesAt F.Fn one.now first.now }
            ensures { GivesAt F.Fn one.entry.now first.entry.now result first.exit.now }
        { call_at_one(one, first) },
        &mut || -> B
            requires { TakesAt G.Fn more.now rest.now }
            ensures { GivesAt G.Fn more.entry.now rest.entry.now result rest.exit.now }
        { call_at_all(more, rest) },
    )
}

fn call_at_one<T, A, F: Fn(&mut T) -> A>(f: &F, x: &mut T) -> A
    requires { TakesAt F.Fn f.now x.old }
    ensures { GivesAt F.Fn f.now x.old result x.new }
{
    f(x)
}

fn call_at_all<T, A, F: Fn(&mut [T]) -> A>(f: &F, xs: &mut [T]) -> A
    requires { TakesAt F.Fn f.now xs.old }
    ensures { GivesAt F.Fn f.now xs.old result xs.new }
{
    f(xs)
}
