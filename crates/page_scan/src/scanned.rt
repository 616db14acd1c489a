/// What a scan comes to.
#[derive(Clone, Copy, Debug, PartialEq, Eq)]
pub enum Scanned {
    /// The copy of the record at this old address is asked for. The scan goes on once it is answered.
    Ask(u32),
    Ended {
        /// Whether FRONT ended the scan inside the page.
        at_front: bool,
    },
}
