//! Models and their texts in normal form.

use crate::reading::model_of;
use pepa_printer::print_model;
use sim_outside::Bytes;
use std::alloc::Global;
use std::process::Abort;
use std::test::Fail;

// Texts and how their models are printed.
const TEXTS: &[(&str, &str)] = &[
    // Numbers in lowest terms, and one blank behind an activity's comma and round `=`, `+` and the sign of a cooperation.
    (
        "r=6/4;P=(a,r).(b,2*infty).P;Q=(b,1).Q+((a,T).Q+(c,2).Q);P<b,a>(Q/{c})",
        "P = (a, 3/2).(b, 2*infty).P;\nQ = (b, 1).Q + ((a, infty).Q + (c, 2).Q);\nP <a,b> Q/{c}\n",
    ),
    ("P = (tau,0.25).P; P;", "P = (tau, 1/4).P;\nP\n"),
    (
        "P = (a,1*infty).P + (b,10/5).P; r = 1; /* */ P // P",
        "P = (a, infty).P + (b, 2).P;\nP\n",
    ),
    // Choices group to the left.
    (
        "P = ((a,1).P + (b,1).P) + (c,1).P; P",
        "P = (a, 1).P + (b, 1).P + (c, 1).P;\nP\n",
    ),
    (
        "P = (a,1).((b,1).P + ((c,1).P)); P",
        "P = (a, 1).((b, 1).P + (c, 1).P);\nP\n",
    ),
    // Cooperations group to the left, whatever their sets.
    (
        "P = (a,1).P; (P <> P) <a> P",
        "P = (a, 1).P;\nP || P <a> P\n",
    ),
    (
        "P = (a,1).P; P || (P <a> P)",
        "P = (a, 1).P;\nP || (P <a> P)\n",
    ),
    // A choice needs no brackets in a cooperation.
    (
        "P = (a,1).P; ((a,1).P + P) <a> (P + (b,1).P)",
        "P = (a, 1).P;\n(a, 1).P + P <a> P + (b, 1).P\n",
    ),
    // What is hidden.
    (
        "P = (a,1).P; (P <a> P)/{b}",
        "P = (a, 1).P;\n(P <a> P)/{b}\n",
    ),
    (
        "P = (a,1).P; (a,1).P/{a}",
        "P = (a, 1).P;\n((a, 1).P)/{a}\n",
    ),
    ("P = (a,1).P; (P + P)/{}", "P = (a, 1).P;\n(P + P)/{}\n"),
    (
        "P = (a,1).P; ((P)/{b})/{a} || (P/{a})",
        "P = (a, 1).P;\nP/{b}/{a} || P/{a}\n",
    ),
    // Sets in the order of the action types' first places, each type once.
    (
        "P = (b,1).P; Q = (a,1).Q; P <a,b,a> Q/{d,c,b}",
        "P = (b, 1).P;\nQ = (a, 1).Q;\nP <b,a> Q/{b,d,c}\n",
    ),
    // Lines in the order of the text, and constants by name.
    (
        "S = P || Q; Q = (a,1).P; P = (b,1).Q; R = Q; S/{a} <b> (S || R)",
        "S = P || Q;\nQ = (a, 1).P;\nP = (b, 1).Q;\nR = Q;\nS/{a} <b> (S || R)\n",
    ),
];

fn printed(rt: &impl Abort, alloc: Global, text: &[u8]) -> Result<Bytes, Fail> {
    let model = model_of(rt, alloc, text)?;
    Ok(print_model(alloc, &model)?)
}

// What is printed is printed again from its own model.
#[test]
fn models_are_printed_in_their_normal_form(rt: HostRuntime) -> Result<(), Fail> {
    for (text, want) in TEXTS {
        let once = printed(&rt, rt.alloc(), text.as_bytes())?;
        assert_eq!(rt; once.as_slice(), want.as_bytes(), "{text}");
        let twice = printed(&rt, rt.alloc(), once.as_slice())?;
        assert_eq!(rt; twice.as_slice(), want.as_bytes(), "{text}");
    }
    Ok(())
}
