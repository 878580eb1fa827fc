//! Laws of the words of a call. Each function's contract is a law, and a call costs nothing.
ghost use Rattle.std.specs.Prelude.{ℕ, List, Option};
ghost use Rattle.pepa_lexer.specs.AtMost.{AtMostOne};
ghost use Rattle.sim_replication.specs.Orders.{IsOrderInRange};
ghost use Rattle.sim_replication.specs.declared.order.Order.{Order};
ghost use Rattle.call_words.specs.declared.command.Command.TheVariants.{Run};
ghost use Rattle.call_words.specs.CommandWords.{GivesCommand, HasCommandOrNone};

/// Words give a command, or they give none.
pub fn command_or_none()
    ensures { (words : List (List ℕ)) → HasCommandOrNone words }
{}

/// Words give at most one command.
pub fn one_command()
    ensures { (words : List (List ℕ)) → AtMostOne (GivesCommand words) }
{}

/// An order that words give is in range.
pub fn order_in_range()
    ensures { (words : List (List ℕ)) (order : Order) (made : Option ℕ)
        → GivesCommand words (Run order made) → IsOrderInRange order }
{}
