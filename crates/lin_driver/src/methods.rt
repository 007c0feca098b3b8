//! How forms are encoded.

/// How the forms of components are encoded.
#[derive(Clone, Copy, Debug, PartialEq, Eq)]
pub enum Method {
    /// By the regular encoder where the form is tail, else by the stack encoder.
    Auto,
    /// By the regular encoder alone.
    Regular,
    /// By the stack encoder alone.
    Stack,
}
