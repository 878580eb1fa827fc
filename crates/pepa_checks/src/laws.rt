//! Laws of the checks: a file has one outcome.

ghost use Rattle.std.specs.Prelude.{◌≡◌, ℕ, ◌<◌, List, length};
ghost use Rattle.pepa_lexer.specs.declared.kinds.Token.{Token};
ghost use Rattle.pepa_lexer.specs.TokenLists.{IsTokens};
ghost use Rattle.pepa_reader.specs.declared.trees.FileTree.{FileTree};
ghost use Rattle.token_grammar.specs.Terminals.{terminals};
ghost use Rattle.pepa_reader.specs.Trees.{file_node_of};
ghost use Rattle.pepa_reader.specs.FileAnswers.{IsFileTree};
ghost use Rattle.pepa_model.specs.PepaModel.{PepaModel, IsModel};
ghost use Rattle.pepa_checks.specs.declared.cause.CheckCause.{CheckCause};
ghost use Rattle.pepa_rates.specs.declared.rate.Rate.{Rate};
ghost use Rattle.pepa_resolver.specs.Named.{Named};
ghost use Rattle.pepa_resolver.specs.ResolvedFiles.{IsNumberedFile};
ghost use Rattle.pepa_checks.specs.StructureAnswers.{IsStructured};
ghost use Rattle.pepa_checks.specs.StructuredFiles.{IsStoppedFor};
ghost use Rattle.pepa_checks.specs.CheckedFiles.{IsRefusedFor, IsModelOf, IsTextOf, IsShortTextOf};
ghost use Rattle.pepa_checks.specs.Existence.{HasTokensOrFault, HasTreeOrFault, HasModelOrRefusal};

/// A law: a file that is refused is refused at one of its tokens.
pub fn is_refused_at_a_token()
    ensures { (input : List ℕ) (tokens : List Token) (tree : FileTree) (cause : CheckCause) (i : ℕ)
        → IsFileTree (terminals input tokens) tree
        → IsRefusedFor input tokens (file_node_of tree) cause i → i < length tokens }
{}

/// A law: a file is refused for at most one cause, at one index.
pub fn one_refusal()
    ensures { (input : List ℕ) (tokens : List Token) (tree : FileTree) (cause other : CheckCause)
        (i j : ℕ) → IsFileTree (terminals input tokens) tree
        → IsRefusedFor input tokens (file_node_of tree) cause i
        → IsRefusedFor input tokens (file_node_of tree) other j → (cause ≡ other) × (i ≡ j) }
{}

/// A law: a file that is refused has no model.
pub fn refused_or_read()
    ensures { (input : List ℕ) (tokens : List Token) (tree : FileTree) (cause : CheckCause) (i : ℕ)
        (m : PepaModel) → IsFileTree (terminals input tokens) tree
        → IsRefusedFor input tokens (file_node_of tree) cause i
        → ¬ IsModelOf input tokens (file_node_of tree) m }
{}

/// A law: a file that is refused up to its structure has no numbers in place of its names, or its structure has a fault.
pub fn refused_or_structured()
    ensures { (input : List ℕ) (tokens : List Token) (tree : FileTree) (cause : CheckCause) (i : ℕ)
        (values : List Rate) (bodies : List Named) (system : Named)
        → IsFileTree (terminals input tokens) tree → IsStoppedFor input tokens (file_node_of tree) cause i
        → IsNumberedFile input tokens (file_node_of tree) values bodies system → ¬ IsStructured bodies system }
{}

/// A law: a text has at most one model, however long it is.
pub fn one_model()
    ensures { (input : List ℕ) (m n : PepaModel) → IsTextOf input m → IsTextOf input n → m ≡ n }
{}

/// A law: an input has tokens, or a fault of them.
pub fn some_tokens()
    ensures { (input : List ℕ) → HasTokensOrFault input }
{}

/// A law: tokens are a file whose items are short enough, or they have a fault. It is a double negation: they
/// can't have neither.
pub fn some_tree_or_fault()
    ensures { (input : List ℕ) (tokens : List Token)
        → IsTokens input tokens → HasTreeOrFault input tokens }
{}

/// A law: a file has a model or the cause of a refusal. It is a double negation: a file can't have neither.
pub fn some_model_or_refusal()
    ensures { (input : List ℕ) (tokens : List Token) (tree : FileTree)
        → IsFileTree (terminals input tokens) tree → HasModelOrRefusal input tokens tree }
{}

/// A law: the model of a text that is short enough to be read keeps what each model keeps.
pub fn model_of_short_text()
    ensures { (input : List ℕ) (m : PepaModel) → IsShortTextOf input m → IsModel m }
{}
