//! Keys of nodes and words of transitions, worked out by a second program from the layout's words alone.

use intern_core::{EntryWords, Key};
use node_words::{CodeStep, Node, pack_entry, pack_key, unpack_entry, unpack_key};
use pepa_rates::{Frac, Rate};
use std::process::Abort;
use std::test::Fail;

// A node in range packs to this key and unpacks from it.
fn has_key(rt: &impl Abort, node: Node, key: Key) {
    assert!(rt; node.is_in_range());
    assert_eq!(rt; pack_key(&node), key);
    assert_eq!(rt; unpack_key(key), Some(node));
}

#[test]
fn keys_of_nodes(rt: HostRuntime) -> Result<(), Fail> {
    let table = [
        (Node::Leaf(0), 0, 0),
        (Node::Leaf(65534), 262136, 0),
        (Node::Leaf(7), 28, 0),
        (
            Node::Coop {
                left: 1,
                right: 4194304,
                set: 1023,
            },
            4093,
            18014398509481985,
        ),
        (
            Node::Coop {
                left: 4194304,
                right: 1,
                set: 0,
            },
            1,
            4299161600,
        ),
        (
            Node::Coop {
                left: 12,
                right: 345,
                set: 6,
            },
            25,
            1481763717132,
        ),
        (Node::Hide { child: 1, set: 0 }, 2, 1),
        (
            Node::Hide {
                child: 4194304,
                set: 1023,
            },
            4094,
            4194304,
        ),
        (
            Node::Watch {
                child: 1,
                probe: 0,
                state: 0,
            },
            3,
            1,
        ),
        (
            Node::Watch {
                child: 4194304,
                probe: 15,
                state: 1023,
            },
            4393751543871,
            4194304,
        ),
        (
            Node::Watch {
                child: 77,
                probe: 3,
                state: 500,
            },
            2147483648015,
            77,
        ),
    ];
    for (node, one, two) in table {
        has_key(&rt, node, Key { one, two });
    }
    Ok(())
}

#[test]
fn keys_of_no_node(rt: HostRuntime) -> Result<(), Fail> {
    let table = [
        (262140, 0, "leaf too large"),
        (28, 1, "leaf with a second word"),
        (1, 1, "no right component"),
        (1, 4294967296, "no left component"),
        (4097, 4294967297, "set too large"),
        (1, 4299161601, "left too large"),
        (1, 18014402804449281, "right too large"),
        (2, 0, "no child"),
        (2, 4194305, "child too large"),
        (4098, 1, "set too large"),
        (3, 0, "no child"),
        (67, 1, "probe too large"),
        (4398046511107, 1, "state too large"),
        (65539, 1, "between probe and state"),
        (18446744073709551615, 18446744073709551615, "all ones"),
    ];
    for (one, two, why) in table {
        assert_eq!(rt; unpack_key(Key { one, two }), None, "{why}");
    }
    Ok(())
}

// A transition in range packs to these words and unpacks from them.
fn has_words(rt: &impl Abort, step: CodeStep, words: [u64; 3]) {
    assert!(rt; step.is_in_range());
    assert_eq!(rt; pack_entry(&step), EntryWords(words));
    assert_eq!(rt; unpack_entry(&EntryWords(words)), Some(step));
}

#[test]
fn words_of_transitions(rt: HostRuntime) -> Result<(), Fail> {
    let table: [(u32, u64, bool, u64, u64, u32, [u64; 3]); 6] = [
        (0, 0, false, 1, 1, 1, [1, 0, 4398046511105]),
        (
            1024,
            18446744073709551615,
            true,
            4398046511103,
            4398046511102,
            4194304,
            [
                18446739675667234816,
                18446744073709551615,
                18446739675663040511,
            ],
        ),
        (3, 5, false, 3, 2, 17, [12884901905, 5, 8796093022211]),
        (1000, 1, true, 1, 4194304, 2, [30683246362626, 1, 1]),
        (
            1,
            0,
            false,
            5,
            2199023255553,
            9,
            [9223372041149743113, 0, 4398046511109],
        ),
        (
            2,
            9223372036854775808,
            false,
            4398046511103,
            1,
            4194304,
            [8594128896, 9223372036854775808, 8796093022207],
        ),
    ];
    for (action, signals, passive, num, den, target, words) in table {
        assert!(rt; num > 0 && den > 0);
        let Ok(fraction) = Frac::make(u128::from(num), u128::from(den)) else {
            assert!(rt; false, "{num}/{den} is out of range");
            continue;
        };
        let rate = if passive {
            Rate::Passive(fraction)
        } else {
            Rate::Active(fraction)
        };
        let step = CodeStep {
            action,
            signals,
            rate,
            target,
        };
        has_words(&rt, step, words);
    }
    Ok(())
}

#[test]
fn words_of_no_transition(rt: HostRuntime) -> Result<(), Fail> {
    let table = [
        ([0, 5, 8796093022211], "no target"),
        ([12889096193, 5, 8796093022211], "target too large"),
        ([4402341478417, 5, 8796093022211], "action too large"),
        ([12884901905, 5, 8796093022212], "not in lowest terms"),
        ([12884901905, 5, 8796093022208], "numerator 0"),
        ([12884901905, 5, 3], "denominator 0"),
    ];
    for (words, why) in table {
        assert_eq!(rt; unpack_entry(&EntryWords(words)), None, "{why}");
    }
    Ok(())
}
