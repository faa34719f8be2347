//! The limits, at each number and one past it.

ghost use Rattle.std.specs.Prelude.{◌≡◌, ◌≤◌, ◌<◌, ◌++◌, ◌∷◌, ℕ, Err, List, Ok, [], codes, false, length, Some, true};
ghost use Rattle.at_model.specs.Classes.{Classes};
ghost use Rattle.at_model.specs.Trees.{Tree, Text, depth, nodes};
ghost use Rattle.at_model.specs.Paths.{IsIndex};
ghost use Rattle.at_model.specs.Edits.{Edit, Limit, edited, edited_within, is_short, is_within_limits, is_within_nodes, tokens_short, usual_nodes};
ghost use Rattle.at_model.specs.Lines.{From_root, Insert, IsLine, IsVersion, Line, Spells, Token};
ghost use Rattle.at_model.specs.Machine.{Refuses, after, verdict};
ghost use Rattle.at_model.specs.Playing.{Plays};
ghost use Rattle.at_model.specs.Replies as code;
ghost use Rattle.at_model.specs.Samples.{calc};
ghost use Rattle.at_model.specs.SampleLines.{block_path, decl_y_term, opened, says, statement_path};
ghost use Rattle.at_model.specs.SampleSessions.{letters, renaming};

/// A token has at most 4,096 bytes.
pub fn token_lengths()
    ensures longest { (text : List ℕ) → length text ≡ 4096 → is_short (Text text) ≡ true }
    ensures too_long { (text : List ℕ) → length text ≡ 4097 → is_short (Text text) ≡ false }
    ensures played { Plays calc opened
        (record { line = renaming 4096; reply = codes "0 ok 1" } ∷ record { line = renaming 4097; reply = codes "0 refused 12 limit" } ∷ []) }
{}

/// A tree has at most 16,777,216 nodes, or 65,536 where nothing is said, and is at most 512 deep.
pub fn tree_sizes()
    ensures largest { (t : Tree) → nodes t ≡ 16777216 → depth t ≡ 512 → tokens_short t ≡ true → is_within_limits t ≡ true }
    ensures too_many { (t : Tree) → nodes t ≡ 16777217 → is_within_limits t ≡ false }
    ensures too_deep { (t : Tree) → depth t ≡ 513 → is_within_limits t ≡ false }
    ensures usual { (t : Tree) → nodes t ≡ 65536 → depth t ≡ 512 → tokens_short t ≡ true → is_within_nodes usual_nodes t ≡ true }
    ensures one_too_many { (t : Tree) → nodes t ≡ 65537 → is_within_nodes usual_nodes t ≡ false }
    ensures never_more { (t : Tree) → nodes t ≡ 16777217 → is_within_nodes 16777217 t ≡ false }
{}

/// An edit leaves at most as many nodes as the tree may have, by the greatest and by the usual number; and a line that leaves nine
/// nodes is refused where there may be eight.
pub fn sizes_of_edits()
    ensures largest { (classes : Classes) (t u : Tree) (e : Edit) → edited classes t e ≡ Ok u → nodes u ≡ 16777216
        → edited_within 16777216 classes t e ≡ Ok u }
    ensures too_many { (classes : Classes) (t u : Tree) (e : Edit) → edited classes t e ≡ Ok u → nodes u ≡ 16777216
        → edited_within 16777215 classes t e ≡ Err Limit }
    ensures usual { (classes : Classes) (t u : Tree) (e : Edit) → edited classes t e ≡ Ok u → nodes u ≡ 65536
        → edited_within usual_nodes classes t e ≡ Ok u }
    ensures one_too_many { (classes : Classes) (t u : Tree) (e : Edit) → edited classes t e ≡ Ok u → nodes u ≡ 65537
        → edited_within usual_nodes classes t e ≡ Err Limit }
    ensures nine { (after (record opened { limit = 9 }) (verdict calc (record opened { limit = 9 })
        (says (Insert (From_root block_path) (codes "Stmt") 0 decl_y_term)))).version ≡ 1 }
    ensures eight { verdict calc (record opened { limit = 8 }) (says (Insert (From_root block_path) (codes "Stmt") 0 decl_y_term)) ≡ Refuses code.Limit }
{}

/// The sessions are 0 to 999, an index has at most nine digits, and a version at most 64 bits.
pub fn numbers_of_lines()
    ensures session { (l : Line) → IsLine l → l.session ≡ 1000 → ⊥ }
    ensures last_index { IsIndex (Some 999999999) }
    ensures no_index { IsIndex (Some 1000000000) → ⊥ }
    ensures last_version { IsVersion (Some 18446744073709551615) }
    ensures no_version { IsVersion (Some 18446744073709551616) → ⊥ }
{}

/// A line has at most 65,535 bytes: the one that writes a name has 27 beside the name.
pub fn line_lengths()
    ensures line { (n : ℕ) → n ≤ 65508 → Spells (renaming n) (says (Token (From_root (statement_path 0)) (codes "ID") (Text (letters n)))) }
    ensures too_long { (n : ℕ) (l : Line) → 65508 < n → Spells (renaming n) l → ⊥ }
{}
