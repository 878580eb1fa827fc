//! Laws of hearing that contracts cite. Each function's contract is a law, and a call costs nothing.
ghost use Rattle.std.specs.Prelude.{◌≡◌, ◌<◌, ◌↔◌, ◌++◌, ◌∷◌, [], ℕ, List};
ghost use Rattle.probe_words.specs.Words.{Pattern};
ghost use Rattle.probe_words.specs.WordKinds.{WholeWord};
ghost use Rattle.probe_words.specs.Hearing.{ProbeEvent, FitsWordKind, IsHeard, Hear, Out};
ghost use Rattle.probe_words.specs.declared.probe.ProbeTable.{ProbeTable};
ghost use Rattle.probe_hearing.specs.Watching.{HearsAll, IsWatched};
ghost use Rattle.probe_hearing.specs.TableHearing.{IsTableOfExpression, TableLeadsTo, AnswersAfter, state_by};

/// An event that isn't heard changes nothing and sends nothing, so what follows is heard as without it.
pub fn unheard_events_change_nothing()
    ensures events { (p : Pattern) (h next : List ProbeEvent) (e : ProbeEvent) →
        (IsHeard p h e → ⊥) → Hear p h e next ↔ (next ≡ h) }
    ensures labels { (p : Pattern) (h : List ProbeEvent) (e : ProbeEvent) (l : ℕ) →
        (IsHeard p h e → ⊥) → Out p h e l → ⊥ }
    ensures rest { (p : Pattern) (h es next : List ProbeEvent) (e : ProbeEvent) (sent : ℕ) →
        (IsHeard p h e → ⊥) → HearsAll p h (e ∷ es) next sent ↔ HearsAll p h es next sent }
{}

/// There is at most one result: the events heard after some events, and the labels sent at them, are determined.
pub fn one_result()
    ensures heard { (p : Pattern) (h es next other : List ProbeEvent) (sent more : ℕ) →
        HearsAll p h es next sent → HearsAll p h es other more → (next ≡ other) × (sent ≡ more) }
    ensures watched { (p : Pattern) (h next other : List ProbeEvent) (action signals : ℕ) →
        (counts : List ℕ) (out more : ℕ) → IsWatched p h action signals counts next out →
        IsWatched p h action signals counts other more → (next ≡ other) × (out ≡ more) }
{}

/// Where the expression has a table there is a result after each list that was heard, and the table leads by it to a state.
pub fn some_result()
    ensures heard { (p : Pattern) (t : ProbeTable) (h es : List ProbeEvent) (q : ℕ) →
        IsTableOfExpression p t → TableLeadsTo p t h q → (next : List ProbeEvent) × (sent : ℕ)
        × HearsAll p h es next sent × TableLeadsTo p t next (state_by t q es) }
    ensures watched { (p : Pattern) (t : ProbeTable) (h : List ProbeEvent) (q : ℕ) →
        IsTableOfExpression p t → TableLeadsTo p t h q → (action signals : ℕ) (counts : List ℕ) →
        (next : List ProbeEvent) × (out : ℕ) × IsWatched p h action signals counts next out }
{}

/// Before any event the table leads to state 0. Where it leads by some events to a state, its answer there to one event more is right
/// after these events, and it leads by the events then heard to the state of that answer. Each state to which it leads is one of its own.
pub fn tables_lead()
    ensures start { (p : Pattern) (t : ProbeTable) → TableLeadsTo p t [] 0 }
    ensures step { (p : Pattern) (t : ProbeTable) (h : List ProbeEvent) (q : ℕ) (e : ProbeEvent) →
        IsTableOfExpression p t → TableLeadsTo p t h q → AnswersAfter p t h q e }
    ensures inside { (p : Pattern) (t : ProbeTable) (h : List ProbeEvent) (q : ℕ) →
        IsTableOfExpression p t → TableLeadsTo p t h q → q < t.states }
{}

/// The expression begins anew after each word: where the events heard are a word of the repeated expression, what is heard and sent from
/// the start is heard and sent after them too.
pub fn begins_anew()
    ensures heard { (p : Pattern) (h g : List ProbeEvent) (e : ProbeEvent) →
        FitsWordKind p WholeWord h → IsHeard p g e → IsHeard p (h ++ g) e }
    ensures sent { (p : Pattern) (h g : List ProbeEvent) (e : ProbeEvent) (l : ℕ) →
        FitsWordKind p WholeWord h → Out p g e l → Out p (h ++ g) e l }
{}
