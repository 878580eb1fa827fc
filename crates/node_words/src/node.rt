//! A node of a term whose components are numbers, and a transition whose target is one.

ghost use Rattle.std.specs.Prelude.{IsTrue, ◌↔◌};
ghost use Rattle.node_words.specs.Keys.{IsNumber, IsNode};
ghost use Rattle.node_words.specs.Entries.{FitsEntry};

use pepa_rates::Rate;

/// A node of a term: a leaf's number, a cooperation, a hiding or a watch. Components are numbers of an interner, from 1 to
/// 4,194,304; leaves are below 65,535, sets and states below 1,024, probes below 16.
#[derive(Clone, Copy, Debug, PartialEq, Eq)]
pub enum Node {
    Leaf(u32),
    Coop { left: u32, right: u32, set: u32 },
    Hide { child: u32, set: u32 },
    Watch { child: u32, probe: u32, state: u32 },
}

/// A transition to the term with the number `target`, from 1 to 4,194,304, by an action, at most 1,024. Bit j of `signals` is
/// label j.
#[derive(Clone, Copy, Debug, PartialEq, Eq)]
pub struct CodeStep {
    pub action: u32,
    pub signals: u64,
    pub rate: Rate,
    pub target: u32,
}

impl Node {
    /// Whether its numbers are in their ranges.
    pub fn is_in_range(&self) -> bool
        ensures { IsTrue result ↔ IsNode self.now }
    {
        match *self {
            Node::Leaf(leaf) => leaf < 65_535,
            Node::Coop { left, right, set } => is_number(left) && is_number(right) && set < 1024,
            Node::Hide { child, set } => is_number(child) && set < 1024,
            Node::Watch {
                child,
                probe,
                state,
            } => is_number(child) && probe < 16 && state < 1024,
        }
    }
}

impl CodeStep {
    /// Whether its action and its target are in their ranges.
    pub fn is_in_range(&self) -> bool
        ensures { IsTrue result ↔ FitsEntry self.now }
    {
        self.action <= 1024 && is_number(self.target)
    }
}

// Whether this is a number of an interner.
fn is_number(number: u32) -> bool
    ensures { IsTrue result ↔ IsNumber number }
{
    number >= 1 && number <= 4_194_304
}
