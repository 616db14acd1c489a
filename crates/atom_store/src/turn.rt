/// What a machine tells of itself when it has taken a reply.
#[derive(Clone, Copy, Debug, PartialEq, Eq)]
pub enum Turn<T> {
    /// It has a next step.
    More,
    /// It has come to this result.
    Finished(T),
}
