//! What is asked of a model's probes.

use pepa_model::Name;
use sqlite_items::Items;

/// The names of events, in the order in which they happen.
pub type Names = Items<Name>;

/// What is asked of a model's probes.
#[derive(Debug, Drop)]
pub enum ProbeAsk {
    /// A line for each probe.
    All,
    /// What one probe makes of some events.
    Events {
        /// The probe's number: 1 to 16.
        number: u32,
        /// The events' names, at least one, each the name of an action type.
        names: Names,
    },
}
