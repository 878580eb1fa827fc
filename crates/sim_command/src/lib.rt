//! The commands of `pepaprobe`, from its words and its input to its answer.
#![tactic(auto)]

mod answer;
mod answered;
pub mod laws;
mod model_answers;
mod model_reading;
mod model_runs;
mod model_steps;
mod top_call;

pub use answer::{
    answer_check, answer_gen, answer_print, answer_probe, answer_run_alone, answer_steps,
    command_answer,
};
pub use answered::Answered;
pub use call_words::{Command, WordsFault, read_words};
pub use model_reading::{ModelFault, read_model};
pub use top_call::pepaprobe;
