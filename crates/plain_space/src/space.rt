//! The plain space.
ghost use Rattle.std.specs.Prelude.{◌≡◌, ⊤, refl, None};
ghost use Rattle.std.proofs.Common.{◌∙◌, sym, subst, rules, arith};
ghost use Rattle.pepa_model.specs.PepaModel.{PepaModel};
ghost use Rattle.pepa_model.specs.Terms.{IsTermOf};
ghost use Rattle.pepa_steps.specs.States.{State, StandsFor};
ghost use Rattle.sim_space.specs.declared.space.Halt.TheVariants.{Memory};
ghost use Rattle.plain_space.specs.PlainLists.{PlainView, loaded_entries, IsLoadedAt};

use crate::lists::{Lists, weigh};
use pepa_model::{Model, Term};
use pepa_steps::{load, target};
use probe_attach::attach;
use sim_space::{Halt, Jump, Loaded, Space};
use std::alloc::Global;

/// A space whose states are terms, over one model.
///
/// It wants, has seen and has kept every state of the system, is never full, and works out each list anew, in buffers that it
/// keeps. Contracts see it as the model and the list that is loaded.
#[derive(Drop)]
pub struct PlainSpace<'a> {
    model: &'a Model,
    /// What was loaded, with no list where the last call was refused.
    lists: Option<Lists>,
}

impl<'a> std::marker::Model for PlainSpace<'a> {
    ghost use Rattle.std.specs.Prelude.{option_map};
    ghost use Rattle.std.specs.Coded.{codes};
    ghost use Rattle.pepa_model.specs.ExpressionCode.{expression_code, shape_code, definition_code};
    ghost use Rattle.plain_space.specs.PlainLists.{PlainView, IsPlainInside, buffers_of};

    ghost Value = { PlainView };

    ghost use Rattle.pepa_steps.specs.contracts.buffers.Buffers as buffers;

    ghost coded = { Prim.hlevel (codes, expression_code, shape_code, definition_code, buffers.the_row.coded) };

    ghost view = { λ s. record { model = s.model.now; buffers = option_map buffers_of s.lists } };

    ghost invariant = { λ s. IsPlainInside s.model.now s.lists };
}

impl<'a> PlainSpace<'a> {
    /// The space of this model, with no list loaded. It takes no memory.
    pub fn make(model: &'a Model) -> PlainSpace<'a>
        ensures { result ≡ record { model = model.entry.now; buffers = None } }
    {
        model.recall_invariant();
        PlainSpace { model, lists: None }
    }

    /// No list is loaded any more, since memory ran out.
    fn refused(&mut self) -> Halt
        ensures halt { result ≡ Memory }
        ensures none { self.new ≡ record self.old { buffers = None } }
    {
        self.lists = None;
        Halt::Memory
    }
}

impl<'a> Space for PlainSpace<'a> {
    type State = Term;

    ghost model = { λ s. s.model };

    ghost stands = { λ s x q. IsTermOf s.model x × StandsFor s.model q x };

    ghost list = { λ s. loaded_entries s.buffers };

    ghost loaded_at = { λ s x. IsLoadedAt s x };

    ghost wants = { λ s q. ⊤ };

    ghost seen = { λ s q. ⊤ };

    ghost kept = { λ s q. ⊤ };

    ghost fulls = { λ s. 0 };

    ghost later = { λ a b. b.model ≡ a.model };

    fn first(&mut self, alloc: Global) -> Result<Term, Halt> {
        match attach(alloc, self.model) {
            Ok(term) => Ok(term),
            Err(_) => Err(self.refused()),
        }
    }

    fn load(&mut self, alloc: Global, at: &Term) -> Result<Loaded, Halt> {
        self.model.recall_invariant();
        let mut lists = match self.lists.take() {
            Some(lists) => lists,
            None => Lists::new(alloc),
        };
        load(alloc, self.model, at, &mut lists.buffers)?;
        let scale = weigh(lists.buffers.entries(), &mut lists.rates, &mut lists.each)?;
        let loaded = Loaded {
            len: lists.buffers.entries().len() as u32,
            whole: scale.whole,
            den: scale.den,
        };
        self.lists = Some(lists);
        Ok(loaded)
    }

    fn step(&self, i: u32) -> Jump {
        let Some(lists) = &self.lists else {
            unreachable!();
        };
        let index = i as usize;
        let entry = &lists.buffers.entries()[index];
        Jump {
            action: entry.action,
            signals: entry.signals,
            rate: lists.rates[index],
            weight: lists.each[index],
        }
    }

    fn go(&mut self, alloc: Global, at: &Term, i: u32) -> Result<Term, Halt> {
        let Some(lists) = &self.lists else {
            unreachable!();
        };
        match target(alloc, self.model, at, &lists.buffers, i as usize) {
            Ok(term) => Ok(term),
            Err(_) => Err(self.refused()),
        }
    }

    ghost later_self = { λ s. refl };

    ghost later_than_later = { λ a b c h k. k ∙ h };

    ghost later_model = { λ a b h. h };

    ghost later_stands = { λ a b x q h st. let P : PepaModel → Type 0 = λ m. IsTermOf m x × StandsFor m q x in subst P (sym h) st };

    ghost later_same = { λ a b x q r h st su. let P : PepaModel → Type 0 = λ m. IsTermOf m x × StandsFor m r x in subst P h su };

    ghost later_wants = { λ a b q h. ((λ w. tt), (λ w. tt)) };

    ghost later_seen = { λ a b q h w. tt };

    ghost later_kept = { λ a b q h w. tt };

    ghost later_fulls = { λ a b h. omega arith };
}
