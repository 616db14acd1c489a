use crate::stage::after::After;
use forwarding::Evac;

/// A register of a stopped mutator whose record is being copied.
#[derive(Clone, Copy)]
pub struct ForwardingRegister {
    pub register: u8,
    pub evac: Evac,
    pub after: After,
}
