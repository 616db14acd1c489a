/// The parts of a space that hold records: those from its first word to `front` are copies, those from `low` to `end` are new.
/// All three are addresses.
#[derive(Clone, Copy, Debug, PartialEq, Eq)]
pub struct Area {
    pub front: u32,
    pub low: u32,
    pub end: u32,
}
