//! The values of rates, and where they are refused.

use super::numbers::line_of;
use super::{is_judged, resolved};
use pepa_resolver::ResolveCause;
use std::test::Fail;

// Where each rate is refused, both in a line and in an activity. `m` is passive and `x` is 2.
#[test]
fn refused_rates(rt: HostRuntime) -> Result<(), Fail> {
    let table = [
        // A number: 2^42; half of 2^43 - 1; 29 digits behind the point.
        "@0",
        "@0.0",
        "@4398046511104",
        "@4398046511103.5",
        "@999999999999999999999999999999",
        "@0.00000000000000000000000000001",
        "@0.0000000000001",
        // A sum, a difference, a product and a quotient.
        "4398046511103@+1",
        "1/2097152@+1/2097153",
        "1@-1",
        "1@-2",
        "1/3@-1/3",
        "x@-2.0",
        "1/2097152@-1/2097153",
        "2097152@*2097152",
        "1/2097152@/2097152",
        "2097152@/(1/2097152)",
        "1/4398046511103@*0.5",
        "4398046511103@+1-1",
        "2*3@-6",
        "1@-2/4*2",
        // Parts go before the whole, and the left one first.
        "1/@0",
        "1-1/@0",
        "1/@4398046511104",
        "1/(1@-1)",
        "(1@-1)+(2-2)",
        "(1@-1)+0",
        "1@-1-1",
        "1@-1+0",
        "@0/0",
        "3-(2@-2)",
        "2*(1+(@0))",
        "x+@0*x",
        // A passive name.
        "(@m)",
        "((@m))",
        "@m+1",
        "1+@m",
        "@m-1",
        "1-@m",
        "@m*1",
        "1*@m",
        "@m/1",
        "1/@m",
        "2*(1+@m)",
        "(@m)*2",
        "@m+0",
        "@0+m",
        "@m*(1-1)",
        "(1@-1)*m",
        // A weight, which is a whole number from 1 to 2^42 - 1.
        "@0*infty",
        "@0.0*T",
        "@0.5*infty",
        "@1.5*T",
        "@4398046511104*infty",
    ];
    for rate in table {
        let line = format!(in rt.alloc(); "m = infty; x = 2; r = {rate}; P = (a,1).P; P")?;
        is_judged(&rt, rt.alloc(), ResolveCause::BadRate, &line)?;
        let activity = format!(in rt.alloc(); "P = (a,{rate}).P; m = infty; x = 2; P")?;
        is_judged(&rt, rt.alloc(), ResolveCause::BadRate, &activity)?;
    }
    Ok(())
}

#[test]
fn order_of_rates(rt: HostRuntime) -> Result<(), Fail> {
    let table = [
        // What begins first.
        "r = @0; s = 0; P = (a,r).P; P",
        "r = @0; P = (a,0).P; P",
        "P = (a,@0).P; r = 0; P",
        "P = (a,1).P; r = @0; Q = (a,0).P; P",
        "P = (a,@0).P; Q = (a,0).P; P",
        "P = (a,@0).(b,0).P; P",
        "P = (a,1).(b,@0).P; P",
        "P = (a,@0).P + (b,0).P; P",
        "P = (a,1).P + (b,@0).P; P",
        "P = (a,1).P; (b,@0).P <a> (c,0).P",
        "P = (a,1).P; P || (b,@0).P/{b}",
        "P = (a,@0).P; (b,0).P",
        "P = (a,1).P; (b,@0).P",
        // The rate of a name.
        "r = infty; s = r; P = (a,s).P; P",
        "P = (a,s).P; r = infty; s = r; P",
        "P = (a,(@s)).P; r = infty; s = r; P",
        "P = (a,1+@s).P; q = 0; r = infty; s = r; P",
        "r = 3; s = r-2; t = s@-1; P = (a,t).P; P",
        // A name has no value where its line is refused: that line has its own turn.
        "P = (a,s).P; s = 1@-1; P",
        "P = (a,(s)).P; s = 1@-1; P",
        "P = (a,s+1).P; s = 1@-1; P",
        "P = (a,1-s).P; s = 1@-1; P",
        "P = (a,s-s).P; s = 1@-1; P",
        "P = (a,s-s).P; r = 1@-1; s = r; P",
        "P = (a,(s+1)*2).P; r = 1@-1; q = r+1; s = q; P",
        "P = (a,s+1).(b,@0).P; s = 1-1; P",
        "r = 1@-1; s = r-r; P = (a,s).P; P",
        // What needs no value of it is judged.
        "P = (a,s+@0).P; s = 1-1; P",
        "P = (a,@0+s).P; s = 1-1; P",
        "P = (a,s*(1@-1)).P; s = 0; P",
        "P = (a,(1@-1)*s).P; s = 0; P",
        "P = (a,s+s+@0).P; s = 0; P",
        "P = (a,s*@m).P; s = 0; m = infty; P",
        "P = (a,2-(s+1)-@0).P; s = 0; P",
        // A name whose passive line is refused is no passive name.
        "r = @0*infty; P = (a,(r)).P; P",
        "P = (a,(r)).P; r = @0*infty; P",
        "P = (a,r+1).P; r = @0.5*infty; P",
        "P = (a,1/s).P; r = @0.5*infty; s = r; P",
    ];
    for text in table {
        is_judged(&rt, rt.alloc(), ResolveCause::BadRate, text)?;
    }
    Ok(())
}

// The value of each rate. `m` is passive with the weight 3, and `x` is 2.
#[test]
fn values(rt: HostRuntime) -> Result<(), Fail> {
    let table = [
        ("1", "1/1"),
        ("0.2", "1/5"),
        ("2.50", "5/2"),
        ("x", "2/1"),
        ("x*x", "4/1"),
        ("1+2*3", "7/1"),
        ("(1+2)*3", "9/1"),
        ("7-2-1", "4/1"),
        ("7-(2-1)", "6/1"),
        ("8/4/2", "1/1"),
        ("8/(4/2)", "4/1"),
        ("1/2+1/3", "5/6"),
        ("1/2-1/3", "1/6"),
        ("2/3-1/3", "1/3"),
        ("2/3*3/4", "1/2"),
        ("4398046511103*1", "4398046511103/1"),
        ("4398046511102+1", "4398046511103/1"),
        ("4398046511103-4398046511102", "1/1"),
        ("4398046511103/4398046511103", "1/1"),
        ("1/4398046511103", "1/4398046511103"),
        ("4398046511103/2*(2/4398046511103)", "1/1"),
        ("2097152*2097151", "4398044413952/1"),
        ("2199023255551.5", "4398046511103/2"),
        ("0.000000000001", "1/1000000000000"),
        ("1.50000000000000000000000000000", "3/2"),
        ("000000000000000000000000000003", "3/1"),
        ("infty", "1/1*T"),
        ("T", "1/1*T"),
        ("2*infty", "2/1*T"),
        ("2.0*infty", "2/1*T"),
        ("4398046511103*T", "4398046511103/1*T"),
        ("m", "3/1*T"),
    ];
    for (rate, value) in table {
        let text = format!(in rt.alloc(); "m = 3*T; x = 2; r = {rate}; P = (a,r).P; P")?;
        let found = resolved(&rt, rt.alloc(), text.as_bytes())?;
        let line = line_of(rt.alloc(), &found)?;
        let want = format!(in rt.alloc(); "P : tau a : (a1,{value}.c0) c0")?;
        assert_eq!(rt; line.as_str(), want.as_str(), "{rate}");
    }
    Ok(())
}
