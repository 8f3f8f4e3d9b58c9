//! What a reference refers to.

/// What a reference refers to: Specification, `StackFrame.id` and every `variablesReference`.
#[derive(Clone, Copy, Debug, PartialEq, Eq)]
pub enum ReferenceKind {
    /// A stack frame.
    Frame,
    /// What holds variables: a scope, a variable or a result.
    Holder,
}
