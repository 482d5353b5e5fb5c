use bj_tree::{AnnotationTrees, Modifiers};

/// What a class or a member begins with [JLS 8.1, 8.3, 8.4, 8.8].
#[derive(Drop)]
pub(crate) struct Prefix {
    /// The place of its first token in the text.
    pub start: usize,
    /// Its annotations.
    pub annotations: AnnotationTrees,
    /// Its modifiers.
    pub modifiers: Modifiers,
}
