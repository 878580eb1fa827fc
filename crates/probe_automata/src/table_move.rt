//! What a table answers.

/// The answer to an event: the state after it, the labels that are sent, and whether it was heard.
///
/// Where no word continues, `heard` is false, the state is unchanged and `signals` is 0. Bit l of `signals` is label l.
#[derive(Clone, Copy, Debug, PartialEq, Eq)]
pub struct Move {
    pub state: u32,
    pub signals: u64,
    pub heard: bool,
}
