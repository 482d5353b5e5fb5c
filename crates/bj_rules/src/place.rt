/// Where modifiers stand.
#[derive(Clone, Copy, Debug, PartialEq, Eq)]
pub enum Place {
    /// Before `class` [JLS 8.1.1].
    Class,
    /// Before `interface` [JLS 9.1.1].
    Interface,
    /// At a field of a class [JLS 8.3.1].
    Field,
    /// At a field of an interface [JLS 9.3].
    FieldOfInterface,
    /// At a method of a class [JLS 8.4.3].
    Method,
    /// At a method of an interface [JLS 9.4].
    MethodOfInterface,
    /// At a constructor [JLS 8.8.3].
    Constructor,
}
