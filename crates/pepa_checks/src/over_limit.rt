//! Why something isn't made to its end.

/// A limit of a model is passed.
#[derive(Clone, Copy, Debug)]
pub(crate) struct OverLimit;
