//! Guards: tests on counts of leaves.
ghost use Rattle.std.specs.Prelude.{◌≡◌, ◌↔◌, IfOk, IsTrue, length, map};
ghost use Rattle.probe_words.specs.Guards.{relation_code, same_condition, compares, holds_for, AsksBelow};
ghost use Rattle.probe_words.specs.Twins.{condition_of};

use sqlite_items::Items;
use std::alloc::{AllocError, Global};

/// How a count is compared with a number.
#[derive(Clone, Copy, Debug, PartialEq, Eq)]
pub enum Relation {
    /// `<`
    Less,
    /// `<=`
    AtMost,
    /// `>`
    More,
    /// `>=`
    AtLeast,
    /// `==`
    Equal,
    /// `!=`
    Unequal,
}

/// A test on counts of leaves.
#[derive(Debug, Drop)]
pub enum Guard {
    /// The count of this index, compared with a number.
    Count {
        which: u32,
        relation: Relation,
        number: u32,
    },
    /// `&&`
    Both(Box<Guard>, Box<Guard>),
    /// `||`
    Either(Box<Guard>, Box<Guard>),
    /// `!`
    Not(Box<Guard>),
}

/// Guards, which contracts see as their list.
pub type Guards = Items<Guard>;

impl Relation {
    fn code(self) -> u32
        ensures { result ≡ relation_code self }
    {
        match self {
            Relation::Less => 0,
            Relation::AtMost => 1,
            Relation::More => 2,
            Relation::AtLeast => 3,
            Relation::Equal => 4,
            Relation::Unequal => 5,
        }
    }

    fn compares(self, count: u32, number: u32) -> bool
        ensures { result ≡ compares self count number }
    {
        match self {
            Relation::Less => count < number,
            Relation::AtMost => count <= number,
            Relation::More => number < count,
            Relation::AtLeast => number <= count,
            Relation::Equal => count == number,
            Relation::Unequal => count != number,
        }
    }
}

impl Guard {
    /// Whether the guard holds for these counts.
    ///
    /// The caller sees to it that the guard asks for no count past their end.
    pub fn holds(&self, counts: &[u32]) -> bool
        requires { AsksBelow (length counts.now) (condition_of self.now) }
        ensures { result ≡ holds_for counts.now (condition_of self.now) }
    {
        match self {
            Guard::Count {
                which,
                relation,
                number,
            } => relation.compares(counts[*which as usize], *number),
            Guard::Both(left, right) => left.holds(counts) && right.holds(counts),
            Guard::Either(left, right) => left.holds(counts) || right.holds(counts),
            Guard::Not(inner) => !inner.holds(counts),
        }
    }

    /// Whether the guard asks for none but the first `count` counts: what `holds` asks for.
    pub fn asks_below(&self, count: usize) -> bool
        ensures { IsTrue result ↔ AsksBelow count (condition_of self.now) }
    {
        match self {
            Guard::Count { which, .. } => (*which as usize) < count,
            Guard::Both(left, right) => left.asks_below(count) && right.asks_below(count),
            Guard::Either(left, right) => left.asks_below(count) && right.asks_below(count),
            Guard::Not(inner) => inner.asks_below(count),
        }
    }

    /// An equal guard.
    pub fn copy(&self, alloc: Global) -> Result<Guard, AllocError>
        ensures { IfOk result (λ guard. condition_of guard ≡ condition_of self.now) }
    {
        match self {
            Guard::Count {
                which,
                relation,
                number,
            } => Ok(Guard::Count {
                which: *which,
                relation: *relation,
                number: *number,
            }),
            Guard::Both(left, right) => {
                let left = Box::new(alloc, left.copy(alloc)?)?;
                let right = Box::new(alloc, right.copy(alloc)?)?;
                Ok(Guard::Both(left, right))
            }
            Guard::Either(left, right) => {
                let left = Box::new(alloc, left.copy(alloc)?)?;
                let right = Box::new(alloc, right.copy(alloc)?)?;
                Ok(Guard::Either(left, right))
            }
            Guard::Not(inner) => {
                let inner = Box::new(alloc, inner.copy(alloc)?)?;
                Ok(Guard::Not(inner))
            }
        }
    }

    /// Whether both are the same test.
    pub fn is_same(&self, other: &Guard) -> bool
        ensures { result ≡ same_condition (condition_of self.now) (condition_of other.now) }
    {
        match self {
            Guard::Count {
                which,
                relation,
                number,
            } => match other {
                Guard::Count {
                    which: which2,
                    relation: relation2,
                    number: number2,
                } => *which == *which2
                    && relation.code() == relation2.code()
                    && *number == *number2,
                _ => false,
            },
            Guard::Both(left, right) => match other {
                Guard::Both(left2, right2) => left.is_same(left2) && right.is_same(right2),
                _ => false,
            },
            Guard::Either(left, right) => match other {
                Guard::Either(left2, right2) => left.is_same(left2) && right.is_same(right2),
                _ => false,
            },
            Guard::Not(inner) => match other {
                Guard::Not(inner2) => inner.is_same(inner2),
                _ => false,
            },
        }
    }
}

/// Equal guards.
pub fn copy_guards(alloc: Global, guards: &[Guard]) -> Result<Guards, AllocError>
    ensures { IfOk result (λ copy. map condition_of copy ≡ map condition_of guards.now) }
{
    let mut copy = Items::new(alloc);
    for guard in guards {
        copy.push(guard.copy(alloc)?)?;
    }
    Ok(copy)
}
