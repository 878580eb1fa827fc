//! Whole models, worked out by hand from the rules of numbering.

use super::model_of;
use pepa_model::{Activity, Body, Model, Sequential, Shape2};
use pepa_rates::Rate;
use std::alloc::{AllocError, Global};
use std::fmt::Write;
use std::process::Abort;
use std::test::Fail;

/// `3` or `3/2`, and behind a passive one a `T`.
fn write_rate(out: &mut String, rate: &Rate) -> Result<(), AllocError> {
    let (value, kind) = match rate {
        Rate::Active(value) => (value, ""),
        Rate::Passive(weight) => (weight, "T"),
    };
    let num = value.num;
    let den = value.den;
    if den == 1 {
        write!(out, "{num}{kind}")
    } else {
        write!(out, "{num}/{den}{kind}")
    }
}

/// `c2`: the constant 2; `1:3/2.c0`: an activity of type 1 at 3/2 and what follows it; `(c0+c1)`: a choice.
fn write_expression(out: &mut String, expression: &Sequential) -> Result<(), AllocError> {
    match expression {
        Sequential::Constant(number) => write!(out, "c{number}"),
        Sequential::Prefix(action, rate, next) => {
            write!(out, "{action}:")?;
            write_rate(out, rate)?;
            write!(out, ".")?;
            write_expression(out, next)
        }
        Sequential::Choice(left, right) => {
            write!(out, "(")?;
            write_expression(out, left)?;
            write!(out, "+")?;
            write_expression(out, right)?;
            write!(out, ")")
        }
    }
}

/// `C2`: the compound constant 2; `(c0{1}c2)`: a cooperation over the set 1; `(c0/1)`: a hiding of the set 1.
fn write_shape(out: &mut String, shape: &Shape2) -> Result<(), AllocError> {
    match shape {
        Shape2::Leaf(expression) => write_expression(out, expression),
        Shape2::Constant(number) => write!(out, "C{number}"),
        Shape2::Coop(left, right, set) => {
            write!(out, "(")?;
            write_shape(out, left)?;
            write!(out, "{{{set}}}")?;
            write_shape(out, right)?;
            write!(out, ")")
        }
        Shape2::Hide(inner, set) => {
            write!(out, "(")?;
            write_shape(out, inner)?;
            write!(out, "/{set})")
        }
    }
}

/// `[(C0{1}c1)]`: what a compound constant stands for; `c1`: what a sequential one does.
fn write_body(out: &mut String, body: &Body) -> Result<(), AllocError> {
    match body {
        Body::Plain(expression) => write_expression(out, expression),
        Body::Compound(shape) => {
            write!(out, "[")?;
            write_shape(out, shape)?;
            write!(out, "]")
        }
    }
}

/// `1:3/2>4`: an activity of type 1 at 3/2, which the leaf 4 follows.
fn write_activities(out: &mut String, list: &[Activity]) -> Result<(), AllocError> {
    for activity in list {
        let action = activity.action;
        let target = activity.target;
        write!(out, " {action}:")?;
        write_rate(out, &activity.rate)?;
        write!(out, ">{target}")?;
    }
    Ok(())
}

fn bodies_text(alloc: Global, model: &Model) -> Result<String, AllocError> {
    let mut out = String::new(alloc);
    let bodies = &model.bodies;
    for body in bodies.as_slice() {
        write!(out, " ")?;
        write_body(&mut out, body)?;
    }
    Ok(out)
}

fn leaves_text(alloc: Global, model: &Model) -> Result<String, AllocError> {
    let mut out = String::new(alloc);
    let leaves = &model.leaves;
    for leaf in leaves.as_slice() {
        write!(out, " ")?;
        write_expression(&mut out, leaf)?;
    }
    Ok(out)
}

fn activities_text(alloc: Global, model: &Model) -> Result<String, AllocError> {
    let mut out = String::new(alloc);
    let lists = &model.activities;
    for list in lists.as_slice() {
        write_activities(&mut out, list.as_slice())?;
        write!(out, ";")?;
    }
    Ok(out)
}

/// `{1,2}`: a set.
fn write_set(out: &mut String, set: &[u32]) -> Result<(), AllocError> {
    let mut separator = "{";
    for action in set {
        write!(out, "{separator}{action}")?;
        separator = ",";
    }
    if set.is_empty() {
        write!(out, "{{")?;
    }
    write!(out, "}}")
}

fn sets_text(alloc: Global, model: &Model) -> Result<String, AllocError> {
    let mut out = String::new(alloc);
    let sets = &model.sets;
    for set in sets.as_slice() {
        write!(out, " ")?;
        write_set(&mut out, set.as_slice())?;
    }
    Ok(out)
}

fn system_text(alloc: Global, model: &Model) -> Result<String, AllocError> {
    let mut out = String::new(alloc);
    write_shape(&mut out, &model.system)?;
    Ok(out)
}

/// A name, of which each byte is a character.
fn write_name(out: &mut String, name: &[u8]) -> Result<(), AllocError> {
    match str::from_utf8(name) {
        Ok(name) => write!(out, "{name}"),
        Err(_) => write!(out, "?"),
    }
}

/// The names of the action types, and then those of the constants.
fn names_text(alloc: Global, model: &Model) -> Result<String, AllocError> {
    let mut out = String::new(alloc);
    let actions = &model.actions;
    for name in actions.keys() {
        write_name(&mut out, name.as_bytes())?;
        write!(out, " ")?;
    }
    write!(out, ":")?;
    let constants = &model.constants;
    for name in constants.keys() {
        write!(out, " ")?;
        write_name(&mut out, name.as_bytes())?;
    }
    Ok(out)
}

/// A text and the parts of its model, as they are written above.
#[derive(Clone, Copy)]
struct Row {
    text: &'static str,
    names: &'static str,
    bodies: &'static str,
    leaves: &'static str,
    activities: &'static str,
    sets: &'static str,
    system: &'static str,
}

fn is_text(
    rt: &impl Abort,
    found: Result<String, AllocError>,
    want: &str,
    text: &str,
) -> Result<(), Fail> {
    let found = found?;
    assert_eq!(rt; found.as_str(), want, "{text}");
    Ok(())
}

fn has_parts(rt: &impl Abort, alloc: Global, model: &Model, row: &Row) -> Result<(), Fail> {
    let text = row.text;
    is_text(rt, names_text(alloc, model), row.names, text)?;
    is_text(rt, bodies_text(alloc, model), row.bodies, text)?;
    is_text(rt, leaves_text(alloc, model), row.leaves, text)?;
    is_text(rt, activities_text(alloc, model), row.activities, text)?;
    is_text(rt, sets_text(alloc, model), row.sets, text)?;
    is_text(rt, system_text(alloc, model), row.system, text)
}

fn has_model(rt: &impl Abort, alloc: Global, row: &Row) -> Result<(), Fail> {
    let text = row.text;
    match model_of(rt, alloc, text.as_bytes()) {
        Ok(model) => has_parts(rt, alloc, &model, row),
        Err(end) => {
            assert_eq!(rt; Some(end), None, "{text}");
            Ok(())
        }
    }
}

fn have_models(rt: &impl Abort, alloc: Global, rows: &[Row]) -> Result<(), Fail> {
    for row in rows {
        has_model(rt, alloc, row)?;
    }
    Ok(())
}

const SEQUENTIAL: &[Row] = &[
    Row {
        text: "P = (a,1).P; P",
        names: "tau a : P",
        bodies: " 1:1.c0",
        leaves: " c0",
        activities: " 1:1>0;",
        sets: "",
        system: "c0",
    },
    // The body's expression is a leaf only where it stands elsewhere too.
    Row {
        text: "P = (a,1).P; (a,1).P",
        names: "tau a : P",
        bodies: " 1:1.c0",
        leaves: " c0 1:1.c0",
        activities: " 1:1>0; 1:1>0;",
        sets: "",
        system: "1:1.c0",
    },
    Row {
        text: "P = (a,1).(b,2).(c,3).P; P",
        names: "tau a b c : P",
        bodies: " 1:1.2:2.3:3.c0",
        leaves: " c0 2:2.3:3.c0 3:3.c0",
        activities: " 1:1>1; 2:2>2; 3:3>0;",
        sets: "",
        system: "c0",
    },
    Row {
        text: "P = Q + (a,1).P; Q = R + (b,2).R; R = (c,3).(P + Q); P",
        names: "tau a b c : P Q R",
        bodies: " (c1+1:1.c0) (c2+2:2.c2) 3:3.(c0+c1)",
        leaves: " c0 c1 c2 (c0+c1)",
        activities: " 3:3>3 2:2>2 1:1>0; 3:3>3 2:2>2; 3:3>3; 3:3>3 2:2>2 1:1>0 3:3>3 2:2>2;",
        sets: "",
        system: "c0",
    },
    Row {
        text: "P = (c,1).P + (a,1).P + (b,1).P; Q = (d,1).(P + (Q + P)) + (d,1).(P + Q + P) + (d,2).(P + Q); Q",
        names: "tau c a b d : P Q",
        bodies: " ((1:1.c0+2:1.c0)+3:1.c0) ((4:1.(c0+(c1+c0))+4:1.((c0+c1)+c0))+4:2.(c0+c1))",
        leaves: " c0 c1 (c0+(c1+c0)) ((c0+c1)+c0) (c0+c1)",
        activities: " 1:1>0 2:1>0 3:1>0; 4:1>2 4:1>3 4:2>4; \
            1:1>0 2:1>0 3:1>0 4:1>2 4:1>3 4:2>4 1:1>0 2:1>0 3:1>0; \
            1:1>0 2:1>0 3:1>0 4:1>2 4:1>3 4:2>4 1:1>0 2:1>0 3:1>0; \
            1:1>0 2:1>0 3:1>0 4:1>2 4:1>3 4:2>4;",
        sets: "",
        system: "c1",
    },
    Row {
        text: "Q = P; P = (tau,2*infty).(tau,1).Q; Q",
        names: "tau : Q P",
        bodies: " c1 0:2T.0:1.c0",
        leaves: " c0 c1 0:1.c0",
        activities: " 0:2T>2; 0:2T>2; 0:1>0;",
        sets: "",
        system: "c0",
    },
];

#[test]
fn sequential_models(rt: HostRuntime) -> Result<(), Fail> {
    have_models(&rt, rt.alloc(), SEQUENTIAL)
}

const EQUAL: &[Row] = &[
    Row {
        text: "P = (a,1).(b,1).P; Q = (c,1).(b,1).P + (d,1).((b,1).P + P); (b,1).P || ((b,1).P + P)",
        names: "tau a b c d : P Q",
        bodies: " 1:1.2:1.c0 (3:1.2:1.c0+4:1.(2:1.c0+c0))",
        leaves: " c0 c1 2:1.c0 (2:1.c0+c0)",
        activities: " 1:1>2; 3:1>2 4:1>3; 2:1>0; 2:1>0 1:1>2;",
        sets: " {}",
        system: "(2:1.c0{0}(2:1.c0+c0))",
    },
    // A leaf of the system that stands in a line too, and one that stands in a later line.
    Row {
        text: "A = (a,1).(b,1).B; B = (b,2).(tau,1).B; (tau,1).B || A",
        names: "tau a b : A B",
        bodies: " 1:1.2:1.c1 2:2.0:1.c1",
        leaves: " c0 c1 2:1.c1 0:1.c1",
        activities: " 1:1>2; 2:2>3; 2:1>1; 0:1>1;",
        sets: " {}",
        system: "(0:1.c1{0}c0)",
    },
    // Equal rates, and a rate of the other kind.
    Row {
        text: "r = 1.5; P = (a,r).(b,3/2).P + (c,1).(b,1.50).P; \
            (d,infty).(b,r).P || (d,1*T).(b,1+0.5).P <> (d,2*T).(b,3).P || (d,1).P",
        names: "tau a b c d : P",
        bodies: " (1:3/2.2:3/2.c0+3:1.2:3/2.c0)",
        leaves: " c0 2:3/2.c0 4:1T.2:3/2.c0 4:2T.2:3.c0 2:3.c0 4:1.c0",
        activities: " 1:3/2>1 3:1>1; 2:3/2>0; 4:1T>1; 4:2T>4; 2:3>0; 4:1>0;",
        sets: " {}",
        system: "(((4:1T.2:3/2.c0{0}4:1T.2:3/2.c0){0}4:2T.2:3.c0){0}4:1.c0)",
    },
    // An active rate and a passive one with the same number.
    Row {
        text: "P = (a,1).(b,1).P + (a,1).(b,infty).P; P",
        names: "tau a b : P",
        bodies: " (1:1.2:1.c0+1:1.2:1T.c0)",
        leaves: " c0 2:1.c0 2:1T.c0",
        activities: " 1:1>1 1:1>2; 2:1>0; 2:1T>0;",
        sets: "",
        system: "c0",
    },
    // Choices with their operands swapped are two.
    Row {
        text: "P = (a,1).((b,1).P + P) + (a,1).(P + (b,1).P); P",
        names: "tau a b : P",
        bodies: " (1:1.(2:1.c0+c0)+1:1.(c0+2:1.c0))",
        leaves: " c0 (2:1.c0+c0) (c0+2:1.c0)",
        activities: " 1:1>1 1:1>2; 2:1>0 1:1>1 1:1>2; 1:1>1 1:1>2 2:1>0;",
        sets: "",
        system: "c0",
    },
];

#[test]
fn equal_expressions(rt: HostRuntime) -> Result<(), Fail> {
    have_models(&rt, rt.alloc(), EQUAL)
}

const SYSTEMS: &[Row] = &[
    Row {
        text: "P = (a,2).P; Q = (a,3).Q1 + (a,1).Q2; Q1 = (b,1).Q; Q2 = (b,1).Q; P <a> Q",
        names: "tau a b : P Q Q1 Q2",
        bodies: " 1:2.c0 (1:3.c2+1:1.c3) 2:1.c1 2:1.c1",
        leaves: " c0 c1 c2 c3",
        activities: " 1:2>0; 1:3>2 1:1>3; 2:1>1; 2:1>1;",
        sets: " {1}",
        system: "(c0{0}c1)",
    },
    Row {
        text: "P = (a,1).P; Q = (b,infty).P; (P <b,a> Q) || P <> Q",
        names: "tau a b : P Q",
        bodies: " 1:1.c0 2:1T.c0",
        leaves: " c0 c1",
        activities: " 1:1>0; 2:1T>0;",
        sets: " {1,2} {}",
        system: "(((c0{0}c1){1}c0){1}c1)",
    },
    // The set of a hiding stands behind its component.
    Row {
        text: "P = (a,1).(b,1).P; (P/{b} <a> P)/{a,b} <b> P/{}",
        names: "tau a b : P",
        bodies: " 1:1.2:1.c0",
        leaves: " c0 2:1.c0",
        activities: " 1:1>1; 2:1>0;",
        sets: " {2} {1} {1,2} {}",
        system: "((((c0/0){1}c0)/2){0}(c0/3))",
    },
    // The set of a cooperation stands before those of its right operand.
    Row {
        text: "P = (a,1).(b,1).P; P <b> (P <a> P/{a,b}) || (P/{} || P)",
        names: "tau a b : P",
        bodies: " 1:1.2:1.c0",
        leaves: " c0 2:1.c0",
        activities: " 1:1>1; 2:1>0;",
        sets: " {2} {1} {1,2} {}",
        system: "((c0{0}(c0{1}(c0/2))){3}((c0/3){3}c0))",
    },
];

#[test]
fn systems(rt: HostRuntime) -> Result<(), Fail> {
    have_models(&rt, rt.alloc(), SYSTEMS)
}

const COMPOUND: &[Row] = &[
    Row {
        text: "S = R <a> (b,2).P; P = (a,1).P; R = P || (b,2).P + Q; Q = S2; S2 = (c,1).Q; S <c> R",
        names: "tau a b c : S P R Q S2",
        bodies: " [(C2{0}2:2.c1)] 1:1.c1 [(c1{1}(2:2.c1+c3))] c4 3:1.c3",
        leaves: " c1 c3 c4 2:2.c1 (2:2.c1+c3)",
        activities: " 1:1>0; 3:1>1; 3:1>1; 2:2>0; 2:2>0 3:1>1;",
        sets: " {1} {} {3}",
        system: "(C0{2}C2)",
    },
    // A set is the same in whatever order its words stand. Action types have their first places in sets too.
    Row {
        text: "S = P <z,y,z> P || P <y,z> P; P = (y,1).P; S <z> S <y> S",
        names: "tau z y : S P",
        bodies: " [(((c1{0}c1){1}c1){0}c1)] 2:1.c1",
        leaves: " c1",
        activities: " 2:1>0;",
        sets: " {1,2} {} {1} {2}",
        system: "((C0{2}C0){3}C0)",
    },
    Row {
        text: "S = R; R = P || P; P = (a,1).P; S/{a}",
        names: "tau a : S R P",
        bodies: " [C1] [(c2{0}c2)] 1:1.c2",
        leaves: " c2",
        activities: " 1:1>0;",
        sets: " {} {1}",
        system: "(C0/1)",
    },
    // A compound constant that isn't used has leaves and sets, too.
    Row {
        text: "P = (a,1).P; S = (a,1).(c,1).P <b> P; Q = (d,1).P; Q",
        names: "tau a c b d : P S Q",
        bodies: " 1:1.c0 [(1:1.2:1.c0{0}c0)] 4:1.c0",
        leaves: " c0 c2 1:1.2:1.c0 2:1.c0",
        activities: " 1:1>0; 4:1>0; 1:1>3; 2:1>0;",
        sets: " {3}",
        system: "c2",
    },
];

#[test]
fn compound_constants(rt: HostRuntime) -> Result<(), Fail> {
    have_models(&rt, rt.alloc(), COMPOUND)
}
