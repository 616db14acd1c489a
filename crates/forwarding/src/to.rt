/// The result: the address of the one copy.
#[derive(Clone, Copy, Debug, PartialEq, Eq)]
pub struct To(pub u32);
