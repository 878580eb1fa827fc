//! The interner's words as atomic words under one rule: every pass has seen a prefix of one history.
#![tactic(auto)]

mod begins;
mod desk;
mod listing;
mod meaning;
mod notes;
mod noting;
mod opening;
mod pass;
mod plays;
mod rule;
mod stepping;
mod steps;
mod table;
mod view;

pub use begins::Begins;
pub use desk::{Desk, Place};
pub use listing::{
    step_claim_block, step_load_list, step_load_word, step_store_word, step_swap_list,
};
pub use meaning::{Meaning, Setting};
pub use notes::Note;
pub use noting::{meet, note};
pub use pass::Pass;
pub use plays::Beginning;
pub use rule::Chain;
pub use stepping::{
    step_claim, step_load_link, step_load_one, step_load_two, step_store_one, step_store_two,
    step_swap_link,
};
pub use steps::Steps;
pub use table::{Passes, Table};
pub use view::View;
