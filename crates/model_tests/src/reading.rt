//! The models of texts.

use pepa_checks::check;
use pepa_lexer::tokens;
use pepa_model::Model;
use pepa_reader::read_file;
use std::alloc::Global;
use std::process::Abort;
use std::test::Fail;

/// The model of a text, which has one.
pub(crate) fn model_of(rt: &impl Abort, alloc: Global, text: &[u8]) -> Result<Model, Fail> {
    assert!(rt; text.len() <= 1 << 20);
    let list = tokens(alloc, text)?;
    let tree = read_file(alloc, list.as_slice(), text)?;
    Ok(check(alloc, &tree, list.as_slice(), text)?)
}
