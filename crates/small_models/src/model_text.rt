//! A text read as a model.

use pepa_checks::check;
use pepa_lexer::tokens;
use pepa_model::Model;
use pepa_reader::read_file;
use std::alloc::Global;

/// The model of a text; none where the text is too long or is refused, or memory ran out.
pub fn model_of(alloc: Global, text: &[u8]) -> Option<Model> {
    if text.len() > 1 << 20 {
        return None;
    }
    let list = tokens(alloc, text).ok()?;
    let tree = read_file(alloc, list.as_slice(), text).ok()?;
    check(alloc, &tree, list.as_slice(), text).ok()
}
