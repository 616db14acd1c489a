/// What a word of the heap is, by its lowest two bits.
#[derive(Clone, Copy, Debug, PartialEq, Eq)]
pub enum Tag {
    Number,
    /// The address of a record's header.
    Pointer,
    /// The first word of a record.
    Header,
    /// The first word of an old record whose copy is made, or is being made.
    Forward,
}
