//! What leaves choose between, and what they perform.

use pepa_model::Activity;
use pepa_rates::Rate;

/// One of the operands of a leaf's choice.
#[derive(Clone, Copy, Debug)]
pub(crate) enum Summand {
    /// The sequential constant of this number, which has the activities of its body.
    Constant(u32),
    /// An activity, by the index of its `(` and its action type's number, with its rate and the number of the leaf that
    /// follows it.
    Activity {
        at: usize,
        action: u32,
        rate: Rate,
        target: u32,
    },
}

/// An activity of a leaf, and the index of the `(` where it is written.
#[derive(Clone, Copy, Debug)]
pub(crate) struct Performed {
    pub(crate) at: usize,
    pub(crate) activity: Activity,
}
