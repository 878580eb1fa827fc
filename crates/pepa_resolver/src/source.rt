//! A text and its tokens.
ghost use Rattle.std.specs.Prelude.{◌≡◌, ◌↔◌, ◌<◌, IsTrue, length, position, nat_eq, bytes_eq, Some, slice_get};
ghost use Rattle.std.specs.Cmp.Lexicographic.{pointwise, bytes_decides, nat_list_eq_equiv};
ghost use Rattle.std.specs.Hash as fed;
ghost use Rattle.std.proofs.Common.{ap};
ghost use Rattle.indexmap.specs.IndexMap.{keys};
ghost use Rattle.pepa_lexer.specs.declared.kinds.Token.{Token};
ghost use Rattle.token_grammar.specs.Terminals.{text_of, name_at};
ghost use Rattle.pepa_resolver.specs.NamesAnswers.{IsTau};

use indexmap::{Equivalent, IndexMap};
use pepa_lexer::{Kind, Place, Token};
use pepa_model::Name;
use sqlite_items::at as item;
use std::hash::Hash;
use token_grammar::{Text, bytes_of};

/// A text and its tokens.
#[derive(Clone, Copy)]
pub(crate) struct Source<'t, 'i> {
    pub(crate) tokens: &'t [Token],
    pub(crate) input: &'i [u8],
}

/// The bytes of a name, to look it up by.
#[derive(Clone, Copy, PartialEq, Eq, Hash)]
pub(crate) struct Spelling<'i> {
    bytes: &'i [u8],
}

impl Equivalent<Name> for Spelling<'_> {
    ghost equivalent = { λ s name. pointwise nat_eq s.bytes.now name };

    ghost respects_hash = { λ s name same. ap (fed.slice fed.u8) ((bytes_decides s.bytes.now name).0 same) };

    ghost respects_eq = { λ s x y. nat_list_eq_equiv.congr s.bytes.now x y };

    fn equivalent(&self, key: &Name) -> bool {
        self.bytes == key.as_bytes()
    }
}

impl<'t, 'i> Source<'t, 'i> {
    /// The bytes of the token at an index, or none.
    pub(crate) fn name(&self, at: usize) -> &'i [u8]
        ensures { result.now ≡ name_at self.now.input.now self.now.tokens.now at }
    {
        let text = Text {
            tokens: self.tokens,
            input: self.input,
        };
        text.name(at)
    }

    /// Whether `tau` stands at an index.
    pub(crate) fn is_tau(&self, at: usize) -> bool
        ensures { IsTrue result ↔ IsTau self.now.input.now self.now.tokens.now at }
    {
        let Some(token) = item(self.tokens, at) else {
            return false;
        };
        match token.kind {
            Kind::Small => bytes_of(self.input, token) == b"tau".as_slice(),
            _ => false,
        }
    }

    /// Where the token at an index stands.
    pub(crate) fn place(&self, at: usize) -> Place
        requires { at < length self.now.tokens.now }
        ensures { (token : Token) × (slice_get self.now.tokens.now at ≡ Some token)
            × (result ≡ token.place) }
    {
        self.tokens[at].place
    }

    /// Where the name at an index stands in a table.
    pub(crate) fn position(&self, table: &IndexMap<Name, ()>, at: usize) -> Option<usize>
        ensures { result ≡ position (bytes_eq (name_at self.now.input.now self.now.tokens.now at))
            (keys table.now) }
    {
        table.get_index_of(Spelling {
            bytes: self.name(at),
        })
    }
}
