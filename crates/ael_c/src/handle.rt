//! A handle that C keeps.

ghost use Rattle.std.specs.Prelude.{◌≡◌, MatchOption, is_none};
ghost use Rattle.std.specs.declared.option.Option.{Option};
ghost use Rattle.std.specs.declared.option.Option.TheVariants.{None, Some};
ghost use Rattle.ael_c.specs.declared.seat.Seat.{Seat};

use crate::loose::Loose;
use crate::seat::Seat;
use std::alloc::Global;
use std::marker::{Model, Send};
use std::mem;
use std::ptr::null_mut;

/// A pointer to a seat, or null.
#[repr(C)]
#[derive(Drop)]
pub struct Handle {
    at: *mut u8,
    alloc: Global,
    ghost value: { Option Seat },
}

impl Model for Handle {
    ghost use Rattle.ael_c.specs.Holding.{held};
    ghost use Rattle.ael_c.specs.contracts.seat.Seat.{the_row as seat_row};

    ghost also_owns = { λ h. held seat_row h.alloc h.at h.value };
}

// It may go to another thread, since what it leads to may.
unsafe impl Send for Handle {}

impl Handle {
    fn empty(alloc: Global) -> Handle
        ensures { result.value ≡ None }
    {
        Handle {
            at: null_mut(),
            alloc,
        }
    }

    fn of(seat: Loose<Seat, Global>) -> Handle
        ensures { result.value ≡ Some seat.value }
    {
        let Loose { at, alloc } = seat;
        Handle {
            at: at as *mut u8,
            alloc,
        }
    }

    fn into_loose(self) -> Option<Loose<Seat, Global>>
        ensures { MatchOption result (self.value ≡ None) (λ l. self.value ≡ Some l.value) }
    {
        let Handle { at, alloc } = self;
        if at == null_mut() {
            None
        } else {
            Some(Loose {
                at: at as *mut Seat,
                alloc,
            })
        }
    }

    /// Takes what it leads to, and leaves it null.
    pub fn take(&mut self, alloc: Global) -> Option<Box<Seat>>
        ensures left { self.new.value ≡ None }
        ensures took { MatchOption result (self.old.value ≡ None) (λ b. self.old.value ≡ Some b.value) }
    {
        match mem::replace(self, Handle::empty(alloc)).into_loose() {
            Some(seat) => Some(seat.into_box()),
            None => None,
        }
    }

    /// Makes it lead to this seat.
    pub fn put(&mut self, seat: Box<Seat>)
        requires { self.old.value ≡ None }
        ensures { self.new.value ≡ Some seat.value }
    {
        *self = Handle::of(Loose::of(seat));
    }

    /// Whether it leads nowhere.
    pub fn is_null(&mut self, alloc: Global) -> bool
        ensures same { self.new.value ≡ self.old.value }
        ensures null { result ≡ is_none self.old.value }
    {
        match self.take(alloc) {
            Some(seat) => {
                self.put(seat);
                false
            }
            None => true,
        }
    }
}
