//! Laws of names, sets and rates.

ghost use Rattle.std.specs.Prelude.{◌≡◌, ◌↔◌, ℕ, ◌<◌, List, length, Some, slice_get};
ghost use Rattle.std.specs.List.{Contains};
ghost use Rattle.std.specs.List.Sorted.{IsStrictlyIncreasing};
ghost use Rattle.pepa_rates.specs.declared.rate.Rate.{Rate};
ghost use Rattle.pepa_lexer.specs.declared.kinds.Token.{Token};
ghost use Rattle.pepa_reader.specs.declared.trees.FileTree.{FileTree};
ghost use Rattle.token_grammar.specs.Terminals.{terminals};
ghost use Rattle.pepa_reader.specs.Trees.{ProcessNode, FileNode, file_node_of};
ghost use Rattle.pepa_reader.specs.FileAnswers.{IsFileTree};
ghost use Rattle.pepa_resolver.specs.declared.refusal.ResolveCause.{ResolveCause};
ghost use Rattle.pepa_resolver.specs.Parts.{constants_in, processes_of};
ghost use Rattle.pepa_resolver.specs.Faults.{HasNone, UnknownAt};
ghost use Rattle.pepa_resolver.specs.NamesAnswers.{IsNamesRefusedFor};
ghost use Rattle.pepa_resolver.specs.Named.{Named, ascending_set};
ghost use Rattle.pepa_resolver.specs.Numbers.{words_in, place_in, constants_of, actions_of};
ghost use Rattle.pepa_resolver.specs.ResolvedFiles.{IsNumberedFile};

/// A law: a file that is refused for its lines, names, sets or rates is refused at one of its tokens.
pub fn is_refused_at_a_token()
    ensures { (input : List ℕ) (tokens : List Token) (tree : FileTree) (cause : ResolveCause) (i : ℕ)
        → IsFileTree (terminals input tokens) tree
        → IsNamesRefusedFor input tokens (file_node_of tree) cause i → i < length tokens }
{}

/// A law: the numbers of a set ascend, each is below the next, and they are the numbers that it is of.
pub fn sets_ascend()
    ensures ascending { (numbers : List ℕ) → IsStrictlyIncreasing (ascending_set numbers) }
    ensures same { (numbers : List ℕ) (n : ℕ)
        → Contains (ascending_set numbers) n ↔ Contains numbers n }
{}

/// A law: at the number of a word of a file stands its name among the action types, and at that of a constant its name among
/// the constants.
pub fn numbers_stand_for_names()
    ensures actions { (name : ℕ → List ℕ) (file : FileNode) (process : ProcessNode) (i : ℕ)
        → Contains (processes_of file) process → Contains (words_in process) i
        → slice_get (actions_of name file) (place_in (actions_of name file) (name i)) ≡ Some (name i) }
    ensures constants { (name : ℕ → List ℕ) (file : FileNode) (process : ProcessNode) (i : ℕ)
        → Contains (processes_of file) process → HasNone (UnknownAt name file)
        → Contains (constants_in process) i
        → slice_get (constants_of name file) (place_in (constants_of name file) (name i))
        ≡ Some (name i) }
{}

/// A law: a file is refused for at most one of these causes, at one index.
pub fn one_refusal()
    ensures { (input : List ℕ) (tokens : List Token) (tree : FileTree) (cause other : ResolveCause)
        (i j : ℕ) → IsFileTree (terminals input tokens) tree
        → IsNamesRefusedFor input tokens (file_node_of tree) cause i
        → IsNamesRefusedFor input tokens (file_node_of tree) other j → (cause ≡ other) × (i ≡ j) }
{}

/// A law: a file that is refused has no numbers in place of its names.
pub fn refused_or_numbered()
    ensures { (input : List ℕ) (tokens : List Token) (tree : FileTree) (cause : ResolveCause) (i : ℕ)
        (values : List Rate) (bodies : List Named) (system : Named)
        → IsFileTree (terminals input tokens) tree
        → IsNamesRefusedFor input tokens (file_node_of tree) cause i
        → ¬ IsNumberedFile input tokens (file_node_of tree) values bodies system }
{}
