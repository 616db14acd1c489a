/// The kind of a record: what its words after the header are.
#[derive(Clone, Copy, Debug, PartialEq, Eq)]
pub enum Kind {
    /// Tagged words, each a number or a pointer.
    Fields,
    /// Plain numbers without a tag.
    Raw,
    /// A count of fields, then that many tagged words, then plain numbers.
    Mixed,
    /// A target, which is a tagged word that keeps nothing alive, and a link.
    Weak,
}
