//! Nodes as keys.
ghost use Rattle.std.specs.Prelude.{◌≡◌, ◌<◌, ◌≤◌, ◌%◌, ◌*◌, ◌+◌, MatchOption};
ghost use Rattle.node_words.specs.Keys.{IsNode, IsNumber, packed_key, IsUnpackedKey};

use crate::node::Node;
use intern_core::Key;

/// The key of a node in range.
pub fn pack_key(node: &Node) -> Key
    requires { IsNode node.now }
    ensures { result ≡ packed_key node.now }
{
    match *node {
        Node::Leaf(leaf) => Key {
            one: 4 * u64::from(leaf),
            two: 0,
        },
        Node::Coop { left, right, set } => Key {
            one: 1 + 4 * u64::from(set),
            two: u64::from(left) + (u64::from(right) << 32),
        },
        Node::Hide { child, set } => Key {
            one: 2 + 4 * u64::from(set),
            two: u64::from(child),
        },
        Node::Watch {
            child,
            probe,
            state,
        } => Key {
            one: 3 + 4 * u64::from(probe) + (u64::from(state) << 32),
            two: u64::from(child),
        },
    }
}

/// The node in range that has this key; none exactly where no node in range has it.
pub fn unpack_key(key: Key) -> Option<Node>
    ensures { IsUnpackedKey key result }
{
    match key.one % 4 {
        0 => unpack_leaf(key),
        1 => unpack_coop(key),
        2 => unpack_hide(key),
        _ => unpack_watch(key),
    }
}

fn unpack_leaf(key: Key) -> Option<Node>
    requires { key.one % 4 ≡ 0 }
    ensures { IsUnpackedKey key result }
{
    let leaf = key.one / 4;
    if leaf >= 65_535 || key.two != 0 {
        return None;
    }
    Some(Node::Leaf(leaf as u32))
}

fn unpack_coop(key: Key) -> Option<Node>
    requires { key.one % 4 ≡ 1 }
    ensures { IsUnpackedKey key result }
{
    let set = key.one / 4;
    let left = number(key.two % (1 << 32))?;
    let right = number(key.two / (1 << 32))?;
    if set >= 1024 {
        return None;
    }
    Some(Node::Coop {
        left,
        right,
        set: set as u32,
    })
}

fn unpack_hide(key: Key) -> Option<Node>
    requires { key.one % 4 ≡ 2 }
    ensures { IsUnpackedKey key result }
{
    let set = key.one / 4;
    let child = number(key.two)?;
    if set >= 1024 {
        return None;
    }
    Some(Node::Hide {
        child,
        set: set as u32,
    })
}

fn unpack_watch(key: Key) -> Option<Node>
    requires { key.one % 4 ≡ 3 }
    ensures { IsUnpackedKey key result }
{
    let probe = key.one % (1 << 32) / 4;
    let state = key.one / (1 << 32);
    let child = number(key.two)?;
    if probe >= 16 || state >= 1024 {
        return None;
    }
    Some(Node::Watch {
        child,
        probe: probe as u32,
        state: state as u32,
    })
}

// A word that is a number of an interner.
pub(crate) fn number(word: u64) -> Option<u32>
    ensures { MatchOption result (¬ IsNumber word) (λ n. (n ≡ word) × IsNumber word) }
{
    if word == 0 || word > 4_194_304 {
        return None;
    }
    Some(word as u32)
}
