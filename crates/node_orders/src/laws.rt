//! Laws of what is found of edges.

ghost use Rattle.std.specs.Prelude.{◌≡◌, ℕ, List, length};
ghost use Rattle.node_orders.specs.Cycles.{IsFirstCycle, HasNoCycle};
ghost use Rattle.node_orders.specs.Graphs.{EdgeOf, IsOrder};

/// A law: at most one node is the first that reaches itself, and where the nodes have an order along their edges, none does.
pub fn one_answer()
    ensures first { (edges : List (List ℕ)) (c d : ℕ) → IsFirstCycle (EdgeOf edges) c
        → IsFirstCycle (EdgeOf edges) d → c ≡ d }
    ensures none { (edges : List (List ℕ)) (order : List ℕ)
        → IsOrder (EdgeOf edges) (length edges) order → HasNoCycle (EdgeOf edges) }
{}
