//! Laws over the definitions: each is the contract of a function that does nothing.

ghost use Rattle.std.specs.Prelude.{◌≡◌, nat_eq, ℕ, Bool, Some, None, Ok, true, option_and_then};
ghost use Rattle.at_model.specs.Classes.{Classes};
ghost use Rattle.at_model.specs.Drawers.{Key};
ghost use Rattle.at_model.specs.Trees.{Tree, class_of, conforms};
ghost use Rattle.at_model.specs.Paths.{Node, tree_at};
ghost use Rattle.at_model.specs.Run.{Location};
ghost use Rattle.at_model.specs.Meaning.{content};
ghost use Rattle.at_model.specs.Edits.{Edit, carried, edited, left_by};
ghost use Rattle.at_model.specs.Alike.{AlikeAt, IsInjective, LocationLike, Names};
ghost use Rattle.at_model.specs.Touches.{touches_in};
ghost use Rattle.at_store.specs.Shown.{IsIdle, Shown, contents as contents_of, path, tree};
ghost use Rattle.at_store.specs.Shifting.{brings_of, touched_by};
ghost use Rattle.at_store.specs.Touching.{AreMarked, Change, ChangeLike, change_of};
ghost use Rattle.at_store.specs.Numbers.{IsApart, IsFresh, contents, path_in, path_in_new, relabel, relabel_edit};

/// A number stands for at most one node, and each node has its number.
pub fn paths()
    ensures injective { (s : Tree) → IsInjective (λ k. path_in k s) }
    ensures found { (s : Tree) (k : ℕ) (n : Node) → path_in k s ≡ Some n → (u : Tree) × (tree_at s n ≡ Some u) × (class_of u ≡ k) }
    ensures named { (s : Tree) → IsApart s → (n : Node) (u : Tree) → tree_at s n ≡ Some u → path_in (class_of u) s ≡ Some n }
{}

/// The numbers show what the tree of classes shows.
pub fn contents_are_alike()
    ensures { (numbers tree : Tree) (class : ℕ → ℕ) → IsApart numbers → tree ≡ relabel class numbers → (l : Location ℕ)
        → AlikeAt (Names (λ k. path_in k numbers)) (contents numbers tree) (content tree) l }
{}

/// An edit leaves of the tree of classes what it leaves of the numbers.
pub fn edits()
    ensures { (s : Tree) (class : ℕ → ℕ) (e : Edit) → relabel class (left_by s e) ≡ left_by (relabel class s) (relabel_edit class e) }
{}

/// After an edit that is accepted each number stands once, and where its node is carried: a number of
/// what is gone stands nowhere.
pub fn numbers_are_carried()
    ensures apart { (classes : Classes) (class : ℕ → ℕ) (s t : Tree) (e : Edit) → IsApart s → conforms classes (relabel class s) 0 ≡ true
        → edited classes (relabel class s) (relabel_edit class e) ≡ Ok t → IsFresh s e → IsApart (left_by s e) }
    ensures carried { (classes : Classes) (class : ℕ → ℕ) (s t : Tree) (e : Edit) → IsApart s → conforms classes (relabel class s) 0 ≡ true
        → edited classes (relabel class s) (relabel_edit class e) ≡ Ok t → IsFresh s e
        → (k : ℕ) → path_in_new k e ≡ None → path_in k (left_by s e) ≡ option_and_then (carried e) (path_in k s) }
{}

/// An edit touches by numbers, where those are marked that it removes, and where it is told what comes, what it touches by paths.
pub fn touches_by_marks()
    ensures { (s : Tree) (class : ℕ → ℕ) → IsApart s → (leaves : ℕ → Bool) (brings : Key → ℕ → Bool) (c : Change ℕ) (e : Edit) (l : Location ℕ)
        (m : Location Node) → ChangeLike (Names (λ k. path_in k s)) c (change_of e) → AreMarked s leaves c
        → ((key : Key) (mark : ℕ) → brings key mark ≡ brings_of (relabel class s) e key mark) → LocationLike (Names (λ k. path_in k s)) l m
        → touched_by nat_eq (contents s (relabel class s)) leaves brings c l ≡ touches_in (relabel class s) e m }
{}

/// The numbers of a store name the nodes of its tree, each one of them, and what it shows at each number is what the tree shows.
pub fn numbers_name_nodes()
    ensures injective { (s : Shown) → IsInjective (path s) }
    ensures found { (s : Shown) (k : ℕ) (n : Node) → path s k ≡ Some n → (u : Tree) × (tree_at (tree s) n ≡ Some u) }
    ensures named { (s : Shown) → IsIdle s → (n : Node) (u : Tree) → tree_at (tree s) n ≡ Some u → (k : ℕ) × (path s k ≡ Some n) }
    ensures alike { (s : Shown) → IsIdle s → (l : Location ℕ) → AlikeAt (Names (path s)) (contents_of s) (content (tree s)) l }
{}
