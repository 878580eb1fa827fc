//! Laws of the definitions. Each function's contract is a law, and a call costs nothing.
ghost use Rattle.std.specs.Prelude.{ℕ, List};
ghost use Rattle.call_words.specs.declared.command.Command.{Command};
ghost use Rattle.pepa_model.specs.PepaModel.{PepaModel, IsModel};
ghost use Rattle.sim_command.specs.OutcomeLaws.{HasSomeOutcome, HasModelAnswer, HasAnswerIfRead, HasSomeAnswer};
ghost use Rattle.sim_command.specs.AnswerLaws.{HasOneModel, HasOneModelFault, HasModelOrFault, HasOneAnswer, HasAnswerOfPrinted, HasSoundEndings, HasCommandsInRange, HasAnswerOfItsOwn};

/// An input has at most one model or one fault, and not both.
pub fn one_outcome()
    ensures model { (input : List ℕ) → HasOneModel input }
    ensures fault { (input : List ℕ) → HasOneModelFault input }
    ensures apart { (input : List ℕ) → HasModelOrFault input }
{}

/// A command has at most one answer, whatever bytes the source has.
pub fn one_answer()
    ensures { (command : Command) (input : List ℕ) → HasOneAnswer command input }
{}

/// A printed text that is short enough to be read has the answers of the text that it was printed from, to each command: so
/// it is printed as the same bytes, and `check` counts the same parts.
pub fn printed_again()
    ensures { (command : Command) (input : List ℕ) → HasAnswerOfPrinted command input }
{}

/// Over a source that tells its input, an output that tells its bytes, and no call of them that fails, a call ends with `usage`, with
/// `model too long`, for want of memory with nothing written, or with exactly the answer written.
pub fn sound_ending()
    ensures { (words : List (List ℕ)) (input written : List ℕ) → HasSoundEndings words input written }
{}

/// A command that words give has its numbers in their ranges.
pub fn commands_in_range()
    ensures { (words : List (List ℕ)) → HasCommandsInRange words }
{}

/// The answers of `run --made` and of `gen` are the same whatever the source has.
pub fn own_answers()
    ensures { (command : Command) → HasAnswerOfItsOwn command }
{}

/// An input of at most 2^20 bytes has a model or a first fault. The law is a double negation: it can't have neither.
pub fn some_outcome()
    ensures { (input : List ℕ) → HasSomeOutcome input }
{}

/// Each command has an answer for each model, and so to each text that has one. A command whose numbers are in their ranges has an answer
/// to each input of at most 2^20 bytes, and to any where it doesn't work on it: that is a double negation, it can't have none.
pub fn some_answer()
    ensures of_model { (command : Command) (m : PepaModel) → IsModel m → HasModelAnswer command m }
    ensures if_read { (command : Command) (input : List ℕ) → HasAnswerIfRead command input }
    ensures of_input { (command : Command) (input : List ℕ) → HasSomeAnswer command input }
{}
