//! The values of the rate lines.

ghost use Rattle.std.specs.Prelude.{◌≡◌, map, IfOk};
ghost use Rattle.indexmap.specs.IndexMap.{keys};
ghost use Rattle.pepa_reader.specs.Trees.{rate_line_of};
ghost use Rattle.pepa_resolver.specs.Parts.{rate_ats};
ghost use Rattle.pepa_resolver.specs.Sources.{name_in};
ghost use Rattle.pepa_resolver.specs.Outcomes.{AreOutcomes};
ghost use Rattle.pepa_resolver.specs.Values.{outcome_of, AreSmall};

use crate::source::Source;
use crate::values::{RateValue, Rates};
use indexmap::IndexMap;
use pepa_model::Name;
use pepa_reader::RateLine;
use sqlite_items::Items;
use std::alloc::{AllocError, Global};

/// The values of the rate lines, in order, each from those above it.
pub(crate) fn line_values(
    alloc: Global,
    source: Source,
    names: &IndexMap<Name, ()>,
    lines: &[RateLine],
) -> Result<Items<RateValue>, AllocError>
    requires small { AreSmall source.tokens.now }
    requires names { keys names.now ≡ map (name_in source) (rate_ats (map rate_line_of lines.now)) }
    ensures { IfOk result (λ values. AreOutcomes source.entry.tokens.now (name_in source.entry)
        (map rate_line_of lines.now) (map outcome_of values)) }
{
    let mut values = Items::new(alloc);
    for line in lines {
        let rates = Rates {
            source,
            names,
            values: values.as_slice(),
        };
        let value = rates.rate(&line.rate);
        values.push(value)?;
    }
    Ok(values)
}
