//! The texts of made models.
use model_maker::{is_made_size, make_model};
use std::alloc::{AllocError, Global};
use std::test::Fail;

const ONE_USER: &str = "t = 1;
a = 4;
s = 3;
Idle = (think, t).Ready;
Ready = (ask, a).Wait;
Wait = (reply, infty).Idle;
Free = (ask, infty).Busy;
Busy = (reply, s).Free;
probe Idle :: ask:start, reply:stop;
Idle <ask,reply> (Free)
";

const EIGHT_USERS: &str = "
Idle || Idle || Idle || Idle || Idle || Idle || Idle || Idle <ask,reply> (Free || Free)
";

/// Whether the text of the model of this size has this length, and ends so.
fn ends_with(alloc: Global, size: u32, length: usize, end: &str) -> Result<bool, AllocError> {
    if !is_made_size(size) {
        return Ok(false);
    }
    let text = make_model(alloc, size)?;
    Ok(text.len() == length && text.as_slice().ends_with(end.as_bytes()))
}

#[test]
fn makes_models(rt: HostRuntime) -> Result<(), Fail> {
    let alloc = rt.alloc();
    for (size, length, end) in [
        (1, 208, ONE_USER),
        (2, 216, "\nIdle || Idle <ask,reply> (Free)\n"),
        (
            4,
            232,
            "\nIdle || Idle || Idle || Idle <ask,reply> (Free)\n",
        ),
        (
            5,
            248,
            "\nIdle || Idle || Idle || Idle || Idle <ask,reply> (Free || Free)\n",
        ),
        (8, 272, EIGHT_USERS),
        (9, 288, " || Idle <ask,reply> (Free || Free || Free)\n"),
        (96, 1152, " || Free)\n"),
        (97, 1168, " || Free)\n"),
        (100, 1192, " || Free)\n"),
    ] {
        assert!(rt; ends_with(alloc, size, length, end)?, "{size}");
    }
    Ok(())
}

#[test]
fn sizes_are_from_1_to_100(rt: HostRuntime) {
    for (size, is_one) in [
        (0, false),
        (1, true),
        (100, true),
        (101, false),
        (u32::MAX, false),
    ] {
        assert_eq!(rt; is_made_size(size), is_one);
    }
}
