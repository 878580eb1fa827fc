//! The numbers in files, and the rates of their activities.

use super::resolved;
use indexmap::IndexMap;
use pepa_model::Name;
use pepa_rates::Rate;
use pepa_resolver::{NamedProcess, NumberedFile};
use std::alloc::{AllocError, Global};
use std::fmt::Write;
use std::test::Fail;

// `3/2`, and `2/1*T` where it is passive.
fn write_rate(out: &mut String, rate: &Rate) -> Result<(), AllocError> {
    match rate {
        Rate::Active(value) => {
            let num = value.num;
            let den = value.den;
            write!(out, "{num}/{den}")
        }
        Rate::Passive(weight) => {
            let num = weight.num;
            let den = weight.den;
            write!(out, "{num}/{den}*T")
        }
    }
}

fn write_set(out: &mut String, set: &[u32]) -> Result<(), AllocError> {
    write!(out, "{{")?;
    for action in set {
        write!(out, "{action},")?;
    }
    write!(out, "}}")
}

// `c2`: the constant 2; `(a1,3/2.c2)`: an activity of type 1, its rate and what follows it; `(c0+c1)`, `(c0{1,}c1)`, `(c0/{1,})`.
fn write_named(out: &mut String, process: &NamedProcess) -> Result<(), AllocError> {
    match process {
        NamedProcess::Constant { number, .. } => write!(out, "c{number}"),
        NamedProcess::Prefix {
            action,
            rate,
            next,
            ..
        } => {
            write!(out, "(a{action},")?;
            write_rate(out, rate)?;
            write!(out, ".")?;
            write_named(out, next)?;
            write!(out, ")")
        }
        NamedProcess::Choice(left, right) => {
            write!(out, "(")?;
            write_named(out, left)?;
            write!(out, "+")?;
            write_named(out, right)?;
            write!(out, ")")
        }
        NamedProcess::Coop { left, right, set } => {
            write!(out, "(")?;
            write_named(out, left)?;
            write_set(out, set.as_slice())?;
            write_named(out, right)?;
            write!(out, ")")
        }
        NamedProcess::Hide { inner, set } => {
            write!(out, "(")?;
            write_named(out, inner)?;
            write!(out, "/")?;
            write_set(out, set.as_slice())?;
            write!(out, ")")
        }
    }
}

fn write_names(out: &mut String, names: &IndexMap<Name, ()>) -> Result<(), Fail> {
    for name in names.keys() {
        let name = str::from_utf8(name.as_bytes())?;
        write!(out, "{name} ")?;
    }
    Ok(())
}

fn write_bodies(out: &mut String, found: &NumberedFile) -> Result<(), AllocError> {
    for body in found.bodies.as_slice() {
        write_named(out, body)?;
        write!(out, " ")?;
    }
    Ok(())
}

// The constants and the action types in order, then each body and the system.
pub(crate) fn line_of(alloc: Global, found: &NumberedFile) -> Result<String, Fail> {
    let mut out = String::new(alloc);
    write_names(&mut out, &found.constants)?;
    write!(out, ": ")?;
    write_names(&mut out, &found.actions)?;
    write!(out, ": ")?;
    write_bodies(&mut out, found)?;
    write_named(&mut out, &found.system)?;
    Ok(out)
}

#[test]
fn numbers(rt: HostRuntime) -> Result<(), Fail> {
    let table = [
        ("P = (a,1).P; P", "P : tau a : (a1,1/1.c0) c0"),
        (
            "P = (b,1).(tau,2).Q; Q = (a,1).P + (b,1).Q; P <c,b,c> Q/{a,c}",
            "P Q : tau b a c : (a1,1/1.(a0,2/1.c1)) ((a2,1/1.c0)+(a1,1/1.c1)) (c0{1,3,}(c1/{2,3,}))",
        ),
        (
            "S = P <z> P || P; P = (a,1).P; S",
            "S P : tau z a : ((c1{1,}c1){}c1) (a2,1/1.c1) c0",
        ),
        // The rates of names.
        ("r = 0.5; P = (r,r).P; P", "P : tau r : (a1,1/2.c0) c0"),
        (
            "r = 3/2; s = r*0.2; t = 2*infty; P = (a,s).P; Q = (b,t).P; P <a> Q",
            "P Q : tau a b : (a1,3/10.c0) (a2,2/1*T.c0) (c0{1,}c1)",
        ),
        (
            "Q2 = (a,z).Q2; z = 1; B = (a,1).B; y = z; Q1 = (a,x).Q2; x = y+1; B || Q1",
            "Q2 B Q1 : tau a : (a1,1/1.c0) (a1,1/1.c1) (a1,2/1.c0) (c1{}c2)",
        ),
    ];
    for (text, want) in table {
        let found = resolved(&rt, rt.alloc(), text.as_bytes())?;
        let line = line_of(rt.alloc(), &found)?;
        assert_eq!(rt; line.as_str(), want, "{text}");
    }
    Ok(())
}
