//! Names and terms.

ghost use Rattle.std.specs.Prelude.{◌≡◌, IfOk};
ghost use Rattle.pepa_model.specs.Terms.{term_of, LeafNode, CoopNode, HideNode};

use pepa_model::{Name, Term, leaf_count};
use std::alloc::{AllocError, Global};
use std::test::Fail;

#[test]
fn names_are_their_bytes(rt: HostRuntime) -> Result<(), Fail> {
    let name = Name::make(rt.alloc(), b"think_1")?;
    assert_eq!(rt; name.as_bytes(), b"think_1".as_slice());
    assert!(rt; name.copy(rt.alloc())? == name);
    assert!(rt; Name::make(rt.alloc(), b"think_2")? != name);
    Ok(())
}

#[test]
fn a_term_has_its_leaf(rt: HostRuntime) -> Result<(), Fail> {
    let term = Term::Leaf(3).copy(rt.alloc())?;
    assert_eq!(rt; (leaf_count(&term, 3), leaf_count(&term, 2)), (1, 0));
    Ok(())
}

// 3 and 5 cooperate over set 1, set 2 is hidden in that, and this cooperates over set 0 with 3.
fn cooperating(alloc: Global) -> Result<Term, AllocError>
    ensures { IfOk result (λ term. term_of term
        ≡ CoopNode (HideNode (CoopNode (LeafNode 3) (LeafNode 5) 1) 2) (LeafNode 3) 0) }
{
    let left = Box::new(alloc, Term::Leaf(3))?;
    let right = Box::new(alloc, Term::Leaf(5))?;
    let pair = Box::new(alloc, Term::Coop(left, right, 1))?;
    let hiding = Box::new(alloc, Term::Hide(pair, 2))?;
    Ok(Term::Coop(hiding, Box::new(alloc, Term::Leaf(3))?, 0))
}

#[test]
fn a_copy_has_the_same_leaves(rt: HostRuntime) -> Result<(), Fail> {
    let term = cooperating(rt.alloc())?;
    let copy = term.copy(rt.alloc())?;
    assert_eq!(rt;
        (
            leaf_count(&term, 3),
            leaf_count(&term, 5),
            leaf_count(&term, 0)
        ),
        (2, 1, 0)
    );
    assert_eq!(rt;
        (
            leaf_count(&copy, 3),
            leaf_count(&copy, 5),
            leaf_count(&copy, 0)
        ),
        (2, 1, 0)
    );
    Ok(())
}
