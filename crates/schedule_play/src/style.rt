/// How steps are reported.
#[derive(Clone, Copy, Debug, PartialEq, Eq)]
pub enum Style {
    /// A line for each query, which is asked once: the round of actor 0 is the query's number.
    Queries,
    /// A line for each draw, look, answer and refused fix, with the actor's round.
    Rounds,
}
