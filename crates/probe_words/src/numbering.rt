//! The positions of an expression.
ghost use Rattle.std.specs.Prelude.{◌≡◌, ◌<◌, ℕ, length, map, IfOk};
ghost use Rattle.probe_words.specs.Words.{IsProperPattern};
ghost use Rattle.probe_words.specs.Twins.{pattern_of};
ghost use Rattle.probe_words.specs.PositionsOf.{IsPositionsAnswer, ArePositionSets};
ghost use Rattle.probe_words.specs.Laying.{AreLabelled};

use crate::bit_sets::set_of;
use crate::expression::Expr;
use crate::laying::add;
use crate::position_list::{Position, PositionList, Positions, PositionsFault};
use crate::work::{Placed, Work};
use sqlite_items::Items;
use std::alloc::{AllocError, Global};

/// The positions with their labels.
fn labelled(
    alloc: Global,
    mut places: Items<Placed>,
    labels: &[u64],
) -> Result<PositionList, AllocError>
    requires { length places ≡ length labels.now }
    ensures { IfOk result (λ each. AreLabelled places labels.now each) }
{
    let mut each = Items::new(alloc);
    for label in labels {
        let Placed { letter, guards } = places.remove(0);
        let labels = *label;
        each.push(Position {
            letter,
            guards,
            labels,
        })?;
    }
    Ok(each)
}

/// The positions of the expression, or that there are more than 63.
///
/// The caller sees to it that repeat counts are from 0 to 63, the first at most the second, and labels below 64. No work grows with a
/// count whose part has no position.
pub fn positions(alloc: Global, expr: &Expr) -> Result<Positions, PositionsFault>
    requires { IsProperPattern (pattern_of expr.now) }
    ensures answer { IsPositionsAnswer (pattern_of expr.now) result }
    ensures sets { IfOk result (λ positions. ArePositionSets positions) }
{
    let mut work = Work {
        places: Items::new(alloc),
        labels: Items::new(alloc),
        follow: Items::new(alloc),
    };
    let part = add(alloc, &mut work, expr)?;
    let first = set_of(&part.first);
    let last = part.last;
    let empty = part.empty;
    let Work {
        places,
        labels,
        follow,
    } = work;
    let each = labelled(alloc, places, labels.as_slice())?;
    Ok(Positions {
        each,
        first,
        last,
        follow,
        empty,
    })
}
