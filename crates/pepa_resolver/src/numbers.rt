//! Numbers in place of the names of a process.

ghost use Rattle.std.specs.Prelude.{◌≡◌, ◌+◌, map, IfOk, OnOk};
ghost use Rattle.indexmap.specs.IndexMap.{keys};
ghost use Rattle.pepa_reader.specs.Trees.{rate_node_of, process_node_of, process_line_of};
ghost use Rattle.pepa_resolver.specs.Parts.{rates_in};
ghost use Rattle.pepa_resolver.specs.Sources.{name_in};
ghost use Rattle.pepa_resolver.specs.Values.{AreSmall, tokens_of};
ghost use Rattle.pepa_resolver.specs.Named.{NamedPrefix, NamedChoice, NamedCoop, NamedHide, ascending_set, named};
ghost use Rattle.pepa_resolver.specs.NamedTypes.{named_of};
ghost use Rattle.pepa_resolver.specs.Numbers.{place_in};
ghost use Rattle.pepa_resolver.specs.NumberSteps.{naming_by, outcome_by, bodies_by};
ghost use Rattle.pepa_resolver.specs.FirstBad.{earlier_of, refusal_from, earliest_in, line_sites};

use crate::bad_rates::{BadRate, earlier, refused};
use crate::named::NamedProcess;
use crate::source::Source;
use crate::values::Rates;
use indexmap::IndexMap;
use pepa_model::Name;
use pepa_rates::{Frac, Rate};
use pepa_reader::{ProcessLine, ProcessTree, RateTree};
use sqlite_items::Items;
use std::alloc::{AllocError, Global};

/// The numbers in ascending order, each once.
fn ascending(mut numbers: Vec<u32>) -> Items<u32>
    ensures { result ≡ ascending_set numbers.items }
{
    numbers.sort_unstable();
    numbers.dedup();
    Items::from_vec(numbers)
}

/// The number of the name at an index: its place in a table, or 0 if it isn't there. More names than a `u32` counts are told as
/// want of memory.
fn number_in(source: &Source, table: &IndexMap<Name, ()>, at: usize) -> Result<u32, AllocError>
    ensures { IfOk result (λ number. number ≡ place_in (keys table.now) (name_in source.now at)) }
{
    let place = source.position(table, at).unwrap_or(0);
    u32::try_from(place).map_err(|_| AllocError)
}

/// An index with the name that stands behind another.
pub(crate) fn behind(source: &Source, at: usize) -> usize
    ensures { name_in source.now result ≡ name_in source.now (at + 1) }
{
    at.saturating_add(1)
}

/// An activity and what follows it.
fn performing(
    alloc: Global,
    at: usize,
    action: u32,
    rate: Rate,
    next: NamedProcess,
) -> Result<NamedProcess, AllocError>
    ensures { IfOk result (λ made. named_of made ≡ NamedPrefix at action rate (named_of next)) }
{
    let next = Box::new(alloc, next)?;
    Ok(NamedProcess::Prefix {
        at,
        action,
        rate,
        next,
    })
}

/// The choice between two processes.
fn chosen(
    alloc: Global,
    left: NamedProcess,
    right: NamedProcess,
) -> Result<NamedProcess, AllocError>
    ensures { IfOk result (λ made. named_of made ≡ NamedChoice (named_of left) (named_of right)) }
{
    Ok(NamedProcess::Choice(Box::new(alloc, left)?, Box::new(alloc, right)?))
}

/// The cooperation of two processes.
fn cooperating(
    alloc: Global,
    left: NamedProcess,
    right: NamedProcess,
    set: Items<u32>,
) -> Result<NamedProcess, AllocError>
    ensures { IfOk result (λ made. named_of made ≡ NamedCoop (named_of left) (named_of right) set) }
{
    Ok(NamedProcess::Coop {
        left: Box::new(alloc, left)?,
        right: Box::new(alloc, right)?,
        set,
    })
}

/// A process with a set hidden.
fn hiding(alloc: Global, inner: NamedProcess, set: Items<u32>) -> Result<NamedProcess, AllocError>
    ensures { IfOk result (λ made. named_of made ≡ NamedHide (named_of inner) set) }
{
    Ok(NamedProcess::Hide {
        inner: Box::new(alloc, inner)?,
        set,
    })
}

/// What the names of a file stand for: its rates, its constants and its action types, the latter two at the place of their
/// number.
#[derive(Clone, Copy)]
pub(crate) struct Numbers<'t, 'i, 'n, 'v> {
    pub rates: Rates<'t, 'i, 'n, 'v>,
    pub constants: &'n IndexMap<Name, ()>,
    pub actions: &'n IndexMap<Name, ()>,
}

impl Numbers<'_, '_, '_, '_> {
    /// The number of the constant at an index.
    fn constant(&self, at: usize) -> Result<u32, AllocError>
        ensures { IfOk result (λ number. number ≡ (naming_by self.now).constant at) }
    {
        number_in(&self.rates.source, self.constants, at)
    }

    /// The number of the action type at an index.
    fn action(&self, at: usize) -> Result<u32, AllocError>
        ensures { IfOk result (λ number. number ≡ (naming_by self.now).action at) }
    {
        number_in(&self.rates.source, self.actions, at)
    }

    /// The number of the action type behind an index.
    fn action_behind(&self, at: usize) -> Result<u32, AllocError>
        ensures { IfOk result (λ number. number ≡ (naming_by self.now).action (at + 1)) }
    {
        self.action(behind(&self.rates.source, at))
    }

    /// The value of the rate of the activity that begins at this index. Its refusal is kept where none that begins before it is.
    fn rate(&self, start: usize, rate: &RateTree, bad: &mut Option<BadRate>) -> Rate
        requires { AreSmall (tokens_of self.now.rates) }
        ensures value { result ≡ (naming_by self.now).rate_of (rate_node_of rate.now) }
        ensures bad { bad.new ≡ earlier_of bad.old
            (refusal_from start (outcome_by self.now (rate_node_of rate.now))) }
    {
        let value = self.rates.rate(rate);
        let given = match &value {
            Ok(rate) => *rate,
            Err(_) => Rate::Passive(Frac { num: 1, den: 1 }),
        };
        *bad = earlier(*bad, refused(start, value));
        given
    }

    /// The set of the action types at these indices.
    fn set(&self, alloc: Global, words: &[usize]) -> Result<Items<u32>, AllocError>
        ensures { IfOk result (λ set. set ≡ ascending_set (map (naming_by self.now).action words.now)) }
    {
        let mut numbers = Vec::new(alloc);
        for word in words {
            numbers.push(self.action(*word)?)?;
        }
        Ok(ascending(numbers))
    }

    /// A process with numbers in place of its names. Of its refused rates and the one that is kept, the one that begins first is
    /// kept.
    pub(crate) fn process(
        &self,
        alloc: Global,
        process: &ProcessTree,
        bad: &mut Option<BadRate>,
    ) -> Result<NamedProcess, AllocError>
        requires { AreSmall (tokens_of self.now.rates) }
        ensures made { IfOk result (λ made. named_of made
            ≡ named (naming_by self.now) (process_node_of process.now)) }
        ensures bad { OnOk result (bad.new
            ≡ earliest_in (outcome_by self.now) bad.old (rates_in (process_node_of process.now))) }
    {
        match process {
            ProcessTree::Constant(at) => {
                let number = self.constant(*at)?;
                Ok(NamedProcess::Constant { at: *at, number })
            }
            ProcessTree::Prefix { at, rate, next } => {
                let action = self.action_behind(*at)?;
                let rate = self.rate(*at, rate, bad);
                let next = self.process(alloc, next, bad)?;
                performing(alloc, *at, action, rate, next)
            }
            ProcessTree::Choice(left, right) => {
                let left = self.process(alloc, left, bad)?;
                let right = self.process(alloc, right, bad)?;
                chosen(alloc, left, right)
            }
            ProcessTree::Coop {
                left,
                right,
                set,
                ..
            } => {
                let set = self.set(alloc, set.as_slice())?;
                let left = self.process(alloc, left, bad)?;
                let right = self.process(alloc, right, bad)?;
                cooperating(alloc, left, right, set)
            }
            ProcessTree::Hide { inner, set } => {
                let set = self.set(alloc, set.as_slice())?;
                let inner = self.process(alloc, inner, bad)?;
                hiding(alloc, inner, set)
            }
        }
    }

    /// The right sides of these lines with numbers in place of their names. Of their refused rates and the one that is kept, the
    /// one that begins first is kept.
    pub(crate) fn bodies(
        &self,
        alloc: Global,
        lines: &[ProcessLine],
        bad: &mut Option<BadRate>,
    ) -> Result<Items<NamedProcess>, AllocError>
        requires { AreSmall (tokens_of self.now.rates) }
        ensures bodies { IfOk result (λ bodies. map named_of bodies
            ≡ bodies_by (naming_by self.now) (map process_line_of lines.now)) }
        ensures bad { OnOk result (bad.new
            ≡ earliest_in (outcome_by self.now) bad.old (line_sites (map process_line_of lines.now))) }
    {
        let mut bodies = Items::new(alloc);
        for line in lines {
            let body = self.process(alloc, &line.body, bad)?;
            bodies.push(body)?;
        }
        Ok(bodies)
    }
}
