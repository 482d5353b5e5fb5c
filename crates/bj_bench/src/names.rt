use bj_core::{Name, Val};

/// A name on the bench, with what it stands for.
#[derive(Drop)]
pub struct BoundName {
    /// The name.
    pub name: Name,
    /// The object that it stands for.
    pub value: Val,
}
