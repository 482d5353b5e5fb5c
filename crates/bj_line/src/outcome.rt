use bj_base::Span;

/// What reading all tokens as one thing comes to.
#[derive(Drop)]
pub enum Outcome<T> {
    /// All tokens are this.
    Whole(T),
    /// The place of the first token with which nothing goes on; the end counts as one.
    Stuck(usize),
    /// Where a node stands that has too many above it.
    Deep(Span),
}
