//! The values of rates.

ghost use Rattle.std.specs.Prelude.{◌≡◌, ℕ, ◌^◌, ◌≤◌, ◌<◌, length, map, slice_get, nat_eq};
ghost use Rattle.std.specs.Cmp.Lexicographic.{pointwise, bytes_decides, nat_list_eq_equiv};
ghost use Rattle.std.specs.Hash as fed;
ghost use Rattle.std.proofs.Common.{ap};
ghost use Rattle.indexmap.specs.IndexMap.{keys};
ghost use Rattle.pepa_rates.specs.Fraction.{reduced};
ghost use Rattle.token_grammar.specs.Terminals.{text_of, bytes_of, name_at};
ghost use Rattle.pepa_reader.specs.Trees.{rate_node_of};
ghost use Rattle.pepa_resolver.specs.Outcomes.{Good, fine_at, number_value, kind_value, sign_value, op_value, combined_outcome, inner_name, sum_outcome, active_outcome, weight_outcome, rate_outcome};
ghost use Rattle.pepa_resolver.specs.Values.{outcome_of, line_value, named_outcome, tokens_of, AreSmall};

use crate::source::Source;
use indexmap::IndexMap;
use pepa_lexer::{Kind, Sign};
use pepa_model::Name;
use pepa_rates::{Frac, Rate};
use pepa_reader::RateTree;

/// Why a rate has no value.
#[derive(Clone, Copy, Debug)]
pub(crate) enum Unvalued {
    /// A rate line that it needs is refused.
    NoValue,
    /// It is refused at the token of this index.
    BadAt(usize),
}

/// What the evaluation of a sum, a product or a part of one comes to.
pub(crate) type Amount = Result<Frac, Unvalued>;

/// What the evaluation of a whole rate comes to.
pub(crate) type RateValue = Result<Rate, Unvalued>;

/// The value n/d, refused at the index unless it is positive and in range.
fn fine(at: usize, n: u128, d: u128) -> Amount
    requires { 0 < d }
    ensures { outcome_of result ≡ fine_at at (reduced n d) }
{
    if n == 0 {
        return Err(Unvalued::BadAt(at));
    }
    Frac::make(n, d).map_err(|_| Unvalued::BadAt(at))
}

/// The value of an operator's sides together, refused at the index unless it is positive and in range.
fn operate(at: usize, sign: Sign, p: Frac, q: Frac) -> Amount
    ensures { outcome_of result ≡ fine_at at (sign_value sign p q) }
{
    p.valid();
    q.valid();
    let p_num = u128::from(p.num);
    let p_den = u128::from(p.den);
    let q_num = u128::from(q.num);
    let q_den = u128::from(q.den);
    match sign {
        Sign::Plus => fine(at, p_num * q_den + q_num * p_den, p_den * q_den),
        Sign::Minus => fine(
            at,
            (p_num * q_den).saturating_sub(q_num * p_den),
            p_den * q_den,
        ),
        Sign::Star => fine(at, p_num * q_num, p_den * q_den),
        Sign::Slash => fine(at, p_num * q_den, p_den * q_num),
        _ => Err(Unvalued::BadAt(at)),
    }
}

/// The value of a number of so many digits behind its point.
fn decimal(at: usize, digits: u128, scale: u32) -> Amount
    requires { scale ≤ 30 }
    ensures { outcome_of result ≡ fine_at at (reduced digits (10 ^ scale)) }
{
    fine(at, digits, 10u128.pow(scale))
}

/// The weight of a passive rate that is written without one.
fn one() -> Frac
    ensures { result ≡ record { num = 1; den = 1 } }
{
    Frac { num: 1, den: 1 }
}

/// The value of an active rate. A passive one is refused at the index.
fn active(at: usize, rate: &Rate) -> Amount
    ensures { outcome_of result ≡ inner_name at (Good rate.now) }
{
    match rate {
        Rate::Active(q) => Ok(*q),
        Rate::Passive(_) => Err(Unvalued::BadAt(at)),
    }
}

/// The value that a name has by its line, of which there may be no value yet.
fn line_value(values: &[RateValue], line: usize) -> RateValue
    ensures { outcome_of result ≡ line_value (slice_get values.now line) }
{
    match values.get(line) {
        Some(Ok(rate)) => Ok(*rate),
        _ => Err(Unvalued::NoValue),
    }
}

/// What the rates of a file are evaluated by: its source, the names of its rate lines, and the values of as many of those lines.
#[derive(Clone, Copy)]
pub(crate) struct Rates<'t, 'i, 'n, 'v> {
    pub source: Source<'t, 'i>,
    pub names: &'n IndexMap<Name, ()>,
    pub values: &'v [RateValue],
}

impl Rates<'_, '_, '_, '_> {
    /// The value of the number at the index.
    fn number(&self, at: usize) -> Amount
        requires { AreSmall (tokens_of self.now) }
        ensures { outcome_of result ≡ fine_at at (number_value (slice_get (tokens_of self.now) at)) }
    {
        let Some(token) = self.source.tokens.get(at) else {
            return Err(Unvalued::BadAt(at));
        };
        match token.kind {
            Kind::Number { digits, scale } => decimal(at, digits, scale),
            _ => Err(Unvalued::BadAt(at)),
        }
    }

    /// The value of the rate that the name at the index has.
    fn named(&self, at: usize) -> RateValue
        ensures { outcome_of result ≡ named_outcome self.now at }
    {
        match self.source.position(self.names, at) {
            Some(line) => line_value(self.values, line),
            None => Err(Unvalued::NoValue),
        }
    }

    /// The value of a name beside an operator or in brackets, where a passive rate is refused.
    fn inner_name(&self, at: usize) -> Amount
        ensures { outcome_of result ≡ inner_name at (named_outcome self.now at) }
    {
        match self.named(at) {
            Ok(rate) => active(at, &rate),
            Err(_) => Err(Unvalued::NoValue),
        }
    }

    /// The value of the operator at the index, from those of its sides.
    fn operator(&self, at: usize, p: Frac, q: Frac) -> Amount
        ensures { outcome_of result ≡ fine_at at (op_value (slice_get (tokens_of self.now) at) p q) }
    {
        let Some(token) = self.source.tokens.get(at) else {
            return Err(Unvalued::BadAt(at));
        };
        match token.kind {
            Kind::Sign(sign) => operate(at, sign, p, q),
            _ => Err(Unvalued::BadAt(at)),
        }
    }

    /// Both sides of the operator at the index together. The left one is judged first.
    fn combined(&self, at: usize, left: Amount, right: Amount) -> Amount
        ensures { outcome_of result
            ≡ combined_outcome (tokens_of self.now) at (outcome_of left) (outcome_of right) }
    {
        match (left, right) {
            (Err(Unvalued::BadAt(i)), _) | (_, Err(Unvalued::BadAt(i))) => Err(Unvalued::BadAt(i)),
            (Ok(p), Ok(q)) => self.operator(at, p, q),
            _ => Err(Unvalued::NoValue),
        }
    }

    /// The value of a sum, a product or a part of one.
    fn sum(&self, tree: &RateTree) -> Amount
        requires { AreSmall (tokens_of self.now) }
        ensures { outcome_of result
            ≡ sum_outcome (tokens_of self.now) (named_outcome self.now) (rate_node_of tree.now) }
    {
        match tree {
            RateTree::Number(at) => self.number(*at),
            RateTree::Name(at) => self.inner_name(*at),
            RateTree::Top { at, .. } => Err(Unvalued::BadAt(*at)),
            RateTree::Op { at, left, right } => {
                self.combined(*at, self.sum(left), self.sum(right))
            }
            RateTree::Bracket(inner) => self.sum(inner),
        }
    }

    /// The passive rate whose weight is the number at the index.
    fn weight(&self, at: usize) -> RateValue
        requires { AreSmall (tokens_of self.now) }
        ensures { outcome_of result
            ≡ weight_outcome at (number_value (slice_get (tokens_of self.now) at)) }
    {
        let weight = self.number(at)?;
        if weight.den == 1 {
            Ok(Rate::Passive(weight))
        } else {
            Err(Unvalued::BadAt(at))
        }
    }

    /// The value of a whole rate.
    pub(crate) fn rate(&self, tree: &RateTree) -> RateValue
        requires { AreSmall (tokens_of self.now) }
        ensures { outcome_of result
            ≡ rate_outcome (tokens_of self.now) (named_outcome self.now) (rate_node_of tree.now) }
    {
        match tree {
            RateTree::Name(at) => self.named(*at),
            RateTree::Top {
                weight: Some(at),
                ..
            } => self.weight(*at),
            RateTree::Top { weight: None, .. } => Ok(Rate::Passive(one())),
            sum => Ok(Rate::Active(self.sum(sum)?)),
        }
    }
}
