//! Laws of the words that contracts cite. Each function's contract is a law, and a call costs nothing.
ghost use Rattle.std.specs.Prelude.{[], List};
ghost use Rattle.probe_words.specs.Words.{Pattern, IsProperPattern};
ghost use Rattle.probe_words.specs.CoreForm.{core_of};
ghost use Rattle.probe_words.specs.PositionsOf.{ArePositions};
ghost use Rattle.probe_words.specs.ProbeTables.{IsProbeTableOf, SameTable};
ghost use Rattle.probe_words.specs.Hearing.{ProbeEvent};
ghost use Rattle.probe_words.specs.declared.position_list.Positions.{Positions};
ghost use Rattle.probe_words.specs.declared.probe.ProbeTable.{ProbeTable};
ghost use Rattle.probe_automata.specs.TableMoves.{table_moves, AnswerAsHeard};

/// The table of an expression's positions answers every list of events, from state 0, as hearing does: by the words alone.
pub fn tables_answer_as_words()
    ensures { (r : Pattern) (p : Positions) (t : ProbeTable) →
        IsProperPattern r → ArePositions (core_of r) p → IsProbeTableOf p t →
        (events : List ProbeEvent) → AnswerAsHeard r [] events (table_moves t 0 events) }
{}

/// Two tables of the same positions are the same: the numbering of the sets that are reached has one solution.
pub fn positions_have_one_table()
    ensures { (p : Positions) (t u : ProbeTable) →
        IsProbeTableOf p t → IsProbeTableOf p u → SameTable t u }
{}
