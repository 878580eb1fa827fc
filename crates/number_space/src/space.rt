//! The space over numbers.
ghost use Rattle.std.specs.Prelude.{◌≡◌, ⊤, ℕ, ◌∷◌, [], ◌++◌, IfErr, IfOk, None, OnErr, length};
ghost use Rattle.std.proofs.Common.{rules};
ghost use Rattle.pepa_model.specs.PepaModel.{PepaModel};
ghost use Rattle.sim_space.specs.SpaceAnswers.{AnswersNoStop, IsFullBy};
ghost use Rattle.plain_space.specs.PlainLists.{loaded_entries};
ghost use Rattle.number_space.specs.NumberedStates.{NumberView, NumberStandsFor, HasSomeNumber, IsLoadedFor, HasGrown};
ghost use Rattle.number_space.specs.GrowingLists.{grown_self, grown_twice, still_has, had_before, still_numbered};

use pepa_model::{Model, Term};
use plain_space::PlainSpace;
use sim_space::{Halt, Jump, Loaded, Space};
use std::alloc::Global;

/// A space whose states are the numbers of the terms that it answered, from 0 in their order, over one model.
///
/// It doesn't look for a term that it has: each state that it answers has a number of its own. It wants and has kept every state, and
/// is full once it has as many terms as it has room for.
#[derive(Drop)]
pub struct NumberSpace<'a> {
    model: &'a Model,
    inner: PlainSpace<'a>,
    known: Vec<Term>,
    room: u32,
    fulls: u64,
}

impl<'a> std::marker::Model for NumberSpace<'a> {
    ghost use Rattle.std.specs.Prelude.{◌≡◌};
    ghost use Rattle.std.specs.Coded.{codes};
    ghost use Rattle.pepa_model.specs.ExpressionCode.{expression_code, shape_code, definition_code};
    ghost use Rattle.number_space.specs.NumberedStates.{NumberView};

    ghost Value = { NumberView };

    ghost use Rattle.pepa_steps.specs.contracts.buffers.Buffers as buffers;
    ghost use Rattle.pepa_model.specs.contracts.term.Term as term;

    ghost coded = { Prim.hlevel (codes, expression_code, shape_code, definition_code, buffers.the_row.coded, term.the_row.coded) };

    ghost view = { λ s. record { space = s.inner; known = s.known.items; fulls = s.fulls } };

    ghost invariant = { λ s. s.inner.model ≡ s.model.now };
}

impl<'a> NumberSpace<'a> {
    /// The space of this model, with room for so many terms, none of them there, and no list loaded. It takes no memory.
    pub fn make(alloc: Global, model: &'a Model, room: u32) -> NumberSpace<'a>
        ensures { result ≡ record { space = record { model = model.entry.now; buffers = None }; known = []; fulls = 0 } }
    {
        NumberSpace {
            model,
            inner: PlainSpace::make(model),
            known: Vec::new(alloc),
            room,
            fulls: 0,
        }
    }

    /// The terms that it answered, each at its number.
    pub fn terms(&self) -> &[Term]
        ensures { result.now ≡ self.now.known }
    {
        self.known.as_slice()
    }

    /// The number of a term, which goes after those that are there.
    fn number_of(&mut self, term: Term) -> Result<u32, Halt>
        ensures number { IfOk result (λ n. n ≡ length self.old.known) }
        ensures more { IfOk result (λ n. self.new.known ≡ self.old.known ++ term ∷ []) }
        ensures grown { HasGrown self.old self.new }
        ensures full { IfErr result (IsFullBy self.old.fulls self.new.fulls) }
        ensures no_stop { AnswersNoStop result }
        ensures none { OnErr result (loaded_entries self.new.space.buffers ≡ []) }
    {
        let number = self.known.len();
        if number >= self.room as usize {
            self.fulls = self.fulls.saturating_add(1);
            self.inner = PlainSpace::make(self.model);
            return Err(Halt::Full);
        }
        let Ok(()) = self.known.push(term) else {
            self.inner = PlainSpace::make(self.model);
            return Err(Halt::Memory);
        };
        Ok(number as u32)
    }
}

impl<'a> Space for NumberSpace<'a> {
    type State = u32;

    ghost model = { λ s. s.space.model };

    ghost stands = { λ s x q. NumberStandsFor s.space.model s.known x q };

    ghost list = { λ s. loaded_entries s.space.buffers };

    ghost loaded_at = { λ s x. IsLoadedFor s x };

    ghost wants = { λ s q. ⊤ };

    ghost seen = { λ s q. HasSomeNumber s.space.model s.known q };

    ghost kept = { λ s q. ⊤ };

    ghost fulls = { λ s. s.fulls };

    ghost later = { λ a b. HasGrown a b };

    fn first(&mut self, alloc: Global) -> Result<u32, Halt> {
        let term = self.inner.first(alloc)?;
        self.number_of(term)
    }

    fn load(&mut self, alloc: Global, at: &u32) -> Result<Loaded, Halt> {
        self.inner.load(alloc, &self.known[*at as usize])
    }

    fn step(&self, i: u32) -> Jump {
        self.inner.step(i)
    }

    fn go(&mut self, alloc: Global, at: &u32, i: u32) -> Result<u32, Halt> {
        let term = self.inner.go(alloc, &self.known[*at as usize], i)?;
        self.number_of(term)
    }

    ghost later_self = { λ s. grown_self s };

    ghost later_than_later = { λ a b c h k. grown_twice a b c h k };

    ghost later_model = { λ a b h. h.model };

    ghost later_stands = { λ a b x q h st. still_has a b h x q st };

    ghost later_same = { λ a b x q r h st su. had_before a b h x q r st su };

    ghost later_wants = { λ a b q h. ((λ w. tt), (λ w. tt)) };

    ghost later_seen = { λ a b q h w. still_numbered a b h q w };

    ghost later_kept = { λ a b q h w. tt };

    ghost later_fulls = { λ a b h. h.fulls };
}
