//! The items of a schedule, read.

ghost use Rattle.std.specs.Prelude.{◌≡◌};
ghost use Rattle.std.specs.List.{position};
ghost use Rattle.mutator_asm.specs.Item.{is_star, within, worker_item, times_of, item_from, item_of};

use crate::text::token::number;
use mutator_asm::{Item, TIMES_MAX};
use plain_state::LAST_WORKER;

/// The worker of this number.
fn worker(token: &[u8]) -> Option<u8>
    ensures { result ≡ worker_item token.now }
{
    match number(token) {
        Ok(worker) if worker <= LAST_WORKER => Some(worker as u8),
        _ => None,
    }
}

/// How many steps a token says.
fn times(token: &[u8]) -> Option<u32>
    ensures { result ≡ times_of token.now }
{
    match number(token) {
        Ok(times) if times >= 1 && times <= TIMES_MAX => Some(times as u32),
        _ => None,
    }
}

/// Where the star stands.
fn star_at(token: &[u8]) -> Option<usize>
    ensures { result ≡ position is_star token.now }
{
    token.iter().position(|b| *b == b'*')
}

/// An item, where both its parts could be read.
fn item_from(worker: Option<u8>, times: Option<u32>) -> Option<Item>
    ensures { result ≡ item_from worker times }
{
    match (worker, times) {
        (Some(worker), Some(times)) => Some(Item { worker, times }),
        _ => None,
    }
}

/// The item that a token writes: `w` or `w*k`.
#[tactic(auto, unfolding(mutator_asm::specs::Item::item_of))]
pub fn read_item(token: &[u8]) -> Option<Item>
    ensures { result ≡ item_of token.now }
{
    match star_at(token) {
        Some(at) => {
            let (_, behind) = token.split_at(at + 1);
            item_from(worker(&token[..at]), times(behind))
        }
        None => item_from(worker(token), Some(1)),
    }
}
