//! The answer of each command.
ghost use Rattle.std.specs.Prelude.{ℕ, ◌≤◌, ◌^◌, List, length, Err, IfOk, None, Some};
ghost use Rattle.model_maker.specs.MadeModel.{IsMadeSize, made_text};
ghost use Rattle.sim_replication.specs.Orders.{IsOrderInRange};
ghost use Rattle.sim_command.specs.ModelFaults.{ReadsModel};
ghost use Rattle.sim_command.specs.RunAnswers.{IsGenAnswer};
ghost use Rattle.sim_command.specs.Inputs.{IsCommandInRange};
ghost use Rattle.sim_command.specs.Answer.{IsTextAnswer, IsAnswer};

use crate::answered::{Answered, fine, refusal};
use crate::model_answers::{check_answer, print_answer, probe_answer};
use crate::model_reading::{ModelFault, read_model};
use crate::model_runs::run_answer;
use crate::model_steps::steps_answer;
use call_words::Command;
use model_maker::make_model;
use sim_replication::Order;
use sim_report::{Fault, ProbeAsk};
use std::alloc::{AllocError, Global};

/// The answer of `steps` to an input of at most 2^20 bytes: the transitions of its model's system.
pub fn answer_steps(alloc: Global, input: &[u8]) -> Result<Answered, AllocError>
    requires { length input.now ≤ 2 ^ 20 }
    ensures { IfOk result (IsAnswer Command.Steps input.now) }
{
    match read_model(alloc, input) {
        Ok(model) => steps_answer(alloc, &model),
        Err(fault) => no_model(alloc, fault),
    }
}

/// The answer of `check` to an input of at most 2^20 bytes: how many parts its model has.
pub fn answer_check(alloc: Global, input: &[u8]) -> Result<Answered, AllocError>
    requires { length input.now ≤ 2 ^ 20 }
    ensures { IfOk result (IsAnswer Command.Check input.now) }
{
    match read_model(alloc, input) {
        Ok(model) => check_answer(alloc, &model),
        Err(fault) => no_model(alloc, fault),
    }
}

/// The answer of `print` to an input of at most 2^20 bytes: its model in its normal form.
pub fn answer_print(alloc: Global, input: &[u8]) -> Result<Answered, AllocError>
    requires { length input.now ≤ 2 ^ 20 }
    ensures { IfOk result (IsAnswer Command.Print input.now) }
{
    match read_model(alloc, input) {
        Ok(model) => print_answer(alloc, &model),
        Err(fault) => no_model(alloc, fault),
    }
}

/// The answer of `probe` to an input of at most 2^20 bytes: what is asked of its model's probes.
pub fn answer_probe(alloc: Global, input: &[u8], ask: &ProbeAsk) -> Result<Answered, AllocError>
    requires { length input.now ≤ 2 ^ 20 }
    ensures { IfOk result (IsAnswer (Command.Probe ask.now) input.now) }
{
    match read_model(alloc, input) {
        Ok(model) => probe_answer(alloc, &model, ask),
        Err(fault) => no_model(alloc, fault),
    }
}

/// The answer of `run` to an input of at most 2^20 bytes: the report of all replications of its model, or the first that stops. They
/// are run one after another, whatever number of workers the order has.
pub fn answer_run_alone(alloc: Global, input: &[u8], order: &Order) -> Result<Answered, AllocError>
    requires bytes { length input.now ≤ 2 ^ 20 }
    requires range { IsOrderInRange order.now }
    ensures { IfOk result (IsAnswer (Command.Run order.now None) input.now) }
{
    match read_model(alloc, input) {
        Ok(model) => run_answer(alloc, &model, order),
        Err(fault) => no_model(alloc, fault),
    }
}

/// The answer of `gen`: the text of the made model of this size, which is from 1 to 100.
pub fn answer_gen(alloc: Global, size: u32) -> Result<Answered, AllocError>
    requires { IsMadeSize size }
    ensures { IfOk result (IsGenAnswer size) }
{
    let text = make_model(alloc, size)?;
    Ok(fine(text))
}

/// The answer of a command, where these are the bytes of the source: at most 2^20. `run --made` and `gen` don't look at them.
pub fn command_answer(
    alloc: Global,
    command: &Command,
    input: &[u8],
) -> Result<Answered, AllocError>
    requires bytes { length input.now ≤ 2 ^ 20 }
    requires range { IsCommandInRange command.now }
    ensures { IfOk result (IsAnswer command.now input.now) }
{
    match command {
        Command::Steps => answer_steps(alloc, input),
        Command::Check => answer_check(alloc, input),
        Command::Print => answer_print(alloc, input),
        Command::Probe(ask) => answer_probe(alloc, input, ask),
        Command::Run { order, made } => answer_run(alloc, input, order, *made),
        Command::Gen(size) => answer_gen(alloc, *size),
    }
}

/// The answer of `run`, for the made model where there is a size of one.
fn answer_run(
    alloc: Global,
    input: &[u8],
    order: &Order,
    made: Option<u32>,
) -> Result<Answered, AllocError>
    requires bytes { length input.now ≤ 2 ^ 20 }
    requires range { IsCommandInRange (Command.Run order.now made) }
    ensures { IfOk result (IsAnswer (Command.Run order.now made) input.now) }
{
    match made {
        None => answer_run_alone(alloc, input, order),
        Some(size) => answer_made(alloc, order, size),
    }
}

/// The answer of `run` for the made model of a size.
fn answer_made(alloc: Global, order: &Order, size: u32) -> Result<Answered, AllocError>
    requires range { IsOrderInRange order.now }
    requires size { IsMadeSize size }
    ensures { IfOk result (IsTextAnswer (Command.Run order.now (Some size)) (made_text size)) }
{
    let text = make_model(alloc, size)?;
    answer_run_alone(alloc, text.as_slice(), order)
}

/// The answer where an input has no model: its first fault.
fn no_model(alloc: Global, fault: ModelFault) -> Result<Answered, AllocError>
    ensures { (command : Command) (input : List ℕ) → ReadsModel input (Err fault)
        → IfOk result (IsTextAnswer command input) }
{
    match fault {
        ModelFault::Refused { place, name } => {
            Ok(refusal(alloc, 3, &Fault::Model { place, name }))
        }
        ModelFault::Memory => Err(AllocError),
    }
}
