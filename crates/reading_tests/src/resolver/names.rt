//! The limits on lines, and names that are unknown or defined twice.

use super::is_judged;
use pepa_resolver::ResolveCause;
use std::test::Fail;

const FINE: &[&str] = &[
    "P = (a,1).P; P",
    "P = (tau,1).P; P",
    "P = (a,r).P; r = 1; P",
    "r = 1; P = (a,r).P; P",
    "a = 1; P = (a,a).P; P <a> P",
    "P = (a,1).Q; Q = (b,1).P; P || Q/{a}",
    "r = 1; s = r; t = s*r; P = (a,r+s+t).P; P",
    "r = 1; r1 = 2; r_ = 3; P = (a,r).P; P1 = (a,r1).P; P_ = (a,r_).P; P1 || P_",
    "r = 1; R = (r,r).R; R",
    "P = (a,1).P; P <taus,ta,a,a> P/{tau1}",
];

const TWICE: &[&str] = &[
    "r = 1; @r = 2; P = (a,r).P; P",
    "P = (a,1).P; @P = (b,1).P; P",
    // At the second of three, and at the lesser of two places.
    "r = 1; @r = 1; r = 1; P = (a,r).P; P",
    "r = 1; s = 1; @s = 2; r = 2; P = (a,r).P; P",
    "P = (a,1).P; r = 1; @r = 2; P = (b,1).P; P",
    "r = 1; P = (a,1).P; @P = (b,1).P; r = 2; P",
    // A later phase has a lesser place.
    "P = (a,s).Q; @P = (a,1).P; P",
    "r = s; @r = 1; P = (a,1).P; P",
    "P = (a,1).P/{tau}; @P = (b,1).P; P",
    "r = 0; @r = 1; P = (a,r).P; P",
];

const UNKNOWN: &[&str] = &[
    "@P",
    "P = @Q; P",
    "P = (a,1).@Q; P",
    "P = (a,1).(b,1).@Q; P",
    "P = (a,1).P + @Q; P",
    "P = @Q + (a,1).P; P",
    "P = (a,1).P; P <a> @Q",
    "P = (a,1).P; @Q <a> P",
    "P = (a,1).P; Q = P || @R; Q",
    "P = (a,1).P; @Q/{a}",
    "P = (a,1).P; @P1",
    "P = (a,@r).P; P",
    "P = (a,1).(b,@r).P; P",
    "P = (a,@a).P; P",
    "P = (a,1+@r).P; P",
    "P = (a,@r/2).P; P",
    "P = (a,2*(1-(@r))).P; P",
    "P = (a,1).P; (a,@r).P",
    // A rate line needs a line above it, and an activity does not.
    "r = @s; P = (a,1).P; P",
    "r = @r; P = (a,1).P; P",
    "r = @s; s = 1; P = (a,r).P; P",
    "r = 1; s = r*(2+@t); t = r; P = (a,t).P; P",
    "P = (a,r).P; r = @s; s = 1; P",
    // The lesser of two places.
    "P = (a,@s).P; r = t; P",
    "r = @t; P = (a,s).Q; P",
    "P = @Q; r = s; P",
    "P = (a,@s).Q; P",
    "P = (a,1).P + @Q; R = S; P",
    "P = (a,1).P; @Q || R",
    "P = (a,@r*s).P; P",
    "r = @s-t; P = (a,r).P; P",
    // A later phase has a lesser place.
    "P = (a,1).P; Q = P/{tau}; P || @R",
    "P = (a,1).P/{tau}; r = @s; P",
    "r = 0; P = (a,r).@Q; P",
];

const TAU: &[&str] = &[
    "P = (a,1).P; P <@tau> P",
    "P = (a,1).P; P/{@tau}",
    "P = (a,1).P; P <a,@tau,b,tau> P",
    "P = (a,1).P; P/{a,@tau,tau}",
    "P = (a,1).P; P/{a}/{b,@tau}",
    "P = (a,1).P; P <> P <@tau> P",
    "P = (a,1).P; P || P/{@tau}",
    "P = (tau,1).P/{@tau}; P",
    "P = (a,1).(P/{@tau}); P",
    "P = (a,1).P + P/{@tau}; P",
    // The least of several places.
    "P = (a,1).P; Q = P/{@tau}; Q <tau> Q",
    "P = (a,1).P; P/{@tau} <tau> P/{tau}",
    "P = (a,1).P; P <@tau> P/{tau}",
    "P = (a,1).P; P/{@tau} + P/{tau}",
    "P = (a,1).P; P/{@tau}/{tau}",
    // A later phase has a lesser place.
    "P = (a,0).P; P/{@tau}",
    "r = 0; P = (a,r).P; P <@tau> P",
];

#[test]
fn names_and_sets(rt: HostRuntime) -> Result<(), Fail> {
    let table = [
        (ResolveCause::BadRate, FINE),
        (ResolveCause::Twice, TWICE),
        (ResolveCause::UnknownName, UNKNOWN),
        (ResolveCause::TauInSet, TAU),
    ];
    for (cause, texts) in table {
        for text in texts {
            is_judged(&rt, rt.alloc(), cause, text)?;
        }
    }
    Ok(())
}
