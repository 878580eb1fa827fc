//! The names of lines in a table.
ghost use Rattle.std.specs.Prelude.{◌≡◌, [], ◌∷◌, ◌++◌, map, true, false, None, IfOk, MatchBool};
ghost use Rattle.std.specs.List.{Contains};
ghost use Rattle.indexmap.specs.IndexMap.{keys};
ghost use Rattle.pepa_resolver.specs.Sources.{name_in};
ghost use Rattle.pepa_resolver.specs.Faults.{IsRepeated};
ghost use Rattle.pepa_resolver.specs.Finding.{FindsLeast};

use crate::lesser::least;
use crate::source::Source;
use indexmap::IndexMap;
use pepa_model::Name;
use std::alloc::{AllocError, Global};

/// The names of lines, each once, and the least index of one that has an earlier line.
#[derive(Drop)]
pub(crate) struct LineNames {
    pub(crate) names: IndexMap<Name, ()>,
    pub(crate) repeated: Option<usize>,
}

/// Puts the name at an index behind the others, unless it is there, and tells whether it wasn't.
fn add_name(
    alloc: Global,
    names: &mut IndexMap<Name, ()>,
    source: &Source,
    at: usize,
) -> Result<bool, AllocError>
    ensures { IfOk result (λ added. MatchBool added
        ((¬ Contains (keys names.old) (name_in source.now at))
        × (keys names.new ≡ keys names.old ++ name_in source.now at ∷ []))
        (Contains (keys names.old) (name_in source.now at) × (keys names.new ≡ keys names.old))) }
{
    let name = Name::make(alloc, source.name(at))?;
    Ok(names.insert(name, ())?.is_none())
}

/// The names at these indices, and the least index of one that stands earlier too.
pub(crate) fn line_names(
    alloc: Global,
    source: &Source,
    ats: &[usize],
) -> Result<LineNames, AllocError>
    ensures found { IfOk result
        (λ lines. FindsLeast (IsRepeated (name_in source.now) ats.now) lines.repeated) }
    ensures names { IfOk result (λ lines. lines.repeated ≡ None
        → keys lines.names ≡ map (name_in source.now) ats.now) }
{
    let mut names = IndexMap::new(alloc);
    let mut repeated = None;
    for at in ats {
        if !add_name(alloc, &mut names, source, *at)? {
            repeated = least(repeated, Some(*at));
        }
    }
    Ok(LineNames { names, repeated })
}
