//! The texts of rates, and of the parts of a model.

ghost use Rattle.std.specs.Prelude.{◌≡◌, IfOk};
ghost use Rattle.pepa_model.specs.Terms.{term_of, LeafNode, CoopNode, HideNode};

use crate::rates::{active, passive};
use crate::reading::model_of;
use pepa_model::{Model, Term};
use pepa_text::{
    push_action, push_bracket, push_constant, push_expression, push_hiding, push_rate, push_shape,
    push_sign, push_term, push_text,
};
use std::alloc::{AllocError, Global};
use std::process::Abort;
use std::test::Fail;

// Its constants are P and Q; its action types tau, a, b and c; its leaves P, Q and what follows (a, 3/2); and its sets, from the
// left on, {a, b}, {}, {c} and {a}.
const MODEL: &[u8] = b"P = (a, 6/4).((b, 2*infty).P + (c, 1).Q);
Q = (b, T).Q + ((a, 1).P + (c, 2).P);
(P <b,a> (Q <> P))/{c} <a> Q";

#[test]
fn rates_are_written_in_lowest_terms(rt: HostRuntime) -> Result<(), Fail> {
    for (rate, want) in [
        (active(&rt, 6, 4), "3/2"),
        (active(&rt, 4, 2), "2"),
        (active(&rt, 1, 3), "1/3"),
        (passive(&rt, 2, 2), "infty"),
        (passive(&rt, 2, 1), "2*infty"),
        (passive(&rt, 1, 2), "1/2*infty"),
    ] {
        let mut text = Vec::new(rt.alloc());
        push_rate(rt.alloc(), &mut text, &rate)?;
        assert_eq!(rt; text.as_slice(), want.as_bytes(), "{rate:?}");
    }
    Ok(())
}

#[test]
fn brackets_are_written_where_they_are_wanted(rt: HostRuntime) -> Result<(), Fail> {
    let mut text = Vec::new(rt.alloc());
    push_bracket(&mut text, true, b"(")?;
    push_text(&mut text, b"P")?;
    push_bracket(&mut text, false, b")")?;
    assert_eq!(rt; text.as_slice(), b"(P".as_slice());
    Ok(())
}

#[test]
fn parts_of_a_model_are_written(rt: HostRuntime) -> Result<(), Fail> {
    let model = model_of(&rt, rt.alloc(), MODEL)?;
    write_parts(&rt, rt.alloc(), &model)
}

fn write_parts(rt: &impl Abort, alloc: Global, model: &Model) -> Result<(), Fail> {
    write_names(rt, alloc, model)?;
    write_sets(rt, alloc, model)?;
    write_component(rt, alloc, model, 0, "P")?;
    write_component(rt, alloc, model, 1, "Q")?;
    write_component(rt, alloc, model, 2, "(b, 2*infty).P + (c, 1).Q")?;
    write_system(rt, alloc, model)?;
    write_cooperation(rt, alloc, model)?;
    write_hiding(rt, alloc, model, 0, "P/{c}/{a}")?;
    write_hiding(rt, alloc, model, 2, "((b, 2*infty).P + (c, 1).Q)/{c}/{a}")
}

fn write_names(rt: &impl Abort, alloc: Global, model: &Model) -> Result<(), Fail> {
    let constants = &model.constants;
    let actions = &model.actions;
    assert!(rt; constants.len() == 2 && actions.len() == 4);
    let mut text = Vec::new(alloc);
    push_action(&mut text, model, 0)?;
    push_text(&mut text, b" ")?;
    push_action(&mut text, model, 3)?;
    push_text(&mut text, b" ")?;
    push_constant(&mut text, model, 1)?;
    assert_eq!(rt; text.as_slice(), b"tau c Q".as_slice());
    Ok(())
}

fn write_sets(rt: &impl Abort, alloc: Global, model: &Model) -> Result<(), Fail> {
    let sets = &model.sets;
    assert!(rt; sets.len() == 4);
    for (set, sign, hiding) in [
        (0, "<a,b>", "/{a,b}"),
        (1, "||", "/{}"),
        (2, "<c>", "/{c}"),
        (3, "<a>", "/{a}"),
    ] {
        assert!(rt; set < 4);
        let mut text = Vec::new(alloc);
        push_sign(&mut text, model, set)?;
        assert_eq!(rt; text.as_slice(), sign.as_bytes(), "{set}");
        let mut text = Vec::new(alloc);
        push_hiding(&mut text, model, set)?;
        assert_eq!(rt; text.as_slice(), hiding.as_bytes(), "{set}");
    }
    Ok(())
}

fn write_component(
    rt: &impl Abort,
    alloc: Global,
    model: &Model,
    leaf: u32,
    want: &str,
) -> Result<(), Fail> {
    model.recall_invariant();
    let leaves = &model.leaves;
    assert!(rt; (leaf as usize) < leaves.len());
    let mut text = Vec::new(alloc);
    push_expression(alloc, &mut text, model, model.leaf(leaf))?;
    assert_eq!(rt; text.as_slice(), want.as_bytes(), "{leaf}");
    Ok(())
}

fn write_system(rt: &impl Abort, alloc: Global, model: &Model) -> Result<(), Fail> {
    model.recall_invariant();
    let mut text = Vec::new(alloc);
    push_shape(alloc, &mut text, model, model.system())?;
    assert_eq!(rt; text.as_slice(), b"(P <a,b> (Q || P))/{c} <a> Q".as_slice());
    Ok(())
}

// What follows (a, 3/2) and Q cooperate over {a, b}, {c} is hidden in that, and this cooperates over {a} with P || Q.
fn cooperating(alloc: Global) -> Result<Term, AllocError>
    ensures { IfOk result (λ term. term_of term
        ≡ CoopNode (HideNode (CoopNode (LeafNode 2) (LeafNode 1) 0) 2) (CoopNode (LeafNode 0) (LeafNode 1) 1) 3) }
{
    let left = Box::new(alloc, Term::Leaf(2))?;
    let right = Box::new(alloc, Term::Leaf(1))?;
    let pair = Box::new(alloc, Term::Coop(left, right, 0))?;
    let hiding = Box::new(alloc, Term::Hide(pair, 2))?;
    let left = Box::new(alloc, Term::Leaf(0))?;
    let right = Box::new(alloc, Term::Leaf(1))?;
    let other = Box::new(alloc, Term::Coop(left, right, 1))?;
    Ok(Term::Coop(hiding, other, 3))
}

// {a} is hidden in what hides {c} in a leaf.
fn hiding(alloc: Global, leaf: u32) -> Result<Term, AllocError>
    ensures { IfOk result (λ term. term_of term ≡ HideNode (HideNode (LeafNode leaf) 2) 3) }
{
    let leaf = Box::new(alloc, Term::Leaf(leaf))?;
    let inner = Box::new(alloc, Term::Hide(leaf, 2))?;
    Ok(Term::Hide(inner, 3))
}

fn write_cooperation(rt: &impl Abort, alloc: Global, model: &Model) -> Result<(), Fail> {
    let leaves = &model.leaves;
    let sets = &model.sets;
    assert!(rt; leaves.len() == 3 && sets.len() == 4);
    let term = cooperating(alloc)?;
    let mut text = Vec::new(alloc);
    push_term(alloc, &mut text, model, &term)?;
    let want = "((b, 2*infty).P + (c, 1).Q <a,b> Q)/{c} <a> (P || Q)";
    assert_eq!(rt; text.as_slice(), want.as_bytes());
    Ok(())
}

fn write_hiding(
    rt: &impl Abort,
    alloc: Global,
    model: &Model,
    leaf: u32,
    want: &str,
) -> Result<(), Fail> {
    let leaves = &model.leaves;
    let sets = &model.sets;
    assert!(rt; (leaf as usize) < leaves.len() && sets.len() == 4);
    let term = hiding(alloc, leaf)?;
    let mut text = Vec::new(alloc);
    push_term(alloc, &mut text, model, &term)?;
    assert_eq!(rt; text.as_slice(), want.as_bytes(), "{leaf}");
    Ok(())
}
