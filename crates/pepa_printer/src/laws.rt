//! Laws of the definitions. Each function's contract is a law, and a call costs nothing.
ghost use Rattle.std.specs.Prelude.{◌≡◌};
ghost use Rattle.pepa_model.specs.PepaModel.{PepaModel, IsModel};
ghost use Rattle.pepa_checks.specs.CheckedFiles.{IsTextOf};
ghost use Rattle.pepa_printer.specs.ModelText.{model_text};

/// The printed text of a model is a text of this model and of no other, and two models have two texts.
pub fn printed_texts()
    ensures reads_back { (m : PepaModel) → IsModel m → IsTextOf (model_text m) m }
    ensures no_other { (m n : PepaModel) → IsModel m → IsTextOf (model_text m) n → n ≡ m }
    ensures one_text_each { (m n : PepaModel) → IsModel m → IsModel n → model_text m ≡ model_text n → m ≡ n }
{}
