//! Laws of drawers: a fold over one comes to what the fold over the list comes to.

ghost use Rattle.std.specs.Prelude.{◌≡◌, ℕ, suc, Bool, List, Some, false, true};
ghost use Rattle.at_model.specs.Bodies.{Call, Equals, Expr, Name, Scope, TokenOf, bound, drawer_of, elements_of, eval, exists_in, expr, first_in, named, no_exprs, ref_of, text_of};
ghost use Rattle.at_model.specs.Classes.{Classes};
ghost use Rattle.at_model.specs.Drawers.{Key, has_key, mark_of};
ghost use Rattle.at_model.specs.Meaning.{Among, Answer, Answers, Equations, content};
ghost use Rattle.at_model.specs.Paths.{Node};
ghost use Rattle.at_model.specs.Rules.{Rules, evaluation, is_inherited, own_equation};
ghost use Rattle.at_model.specs.Run.{Contents, Idx, Instance, Is, Run, Slot, Text, Tok, Up, Value};
ghost use Rattle.at_model.specs.Seeking.{AreDrawn, AreShortened, IsByKey, IsPlain, IsTest, IsText, Shortens, is_in_drawer, over_those, those};
ghost use Rattle.at_model.specs.Edits.{Edit};
ghost use Rattle.at_model.specs.Touches.{touches, touches_in};
ghost use Rattle.at_model.specs.Trees.{Tree};

/// In a drawer of a tree stand the children of the component whose key's text has the mark.
pub fn what_stands_in_a_drawer()
    ensures { (t : Tree) → AreDrawn (content t) }
{}

/// Where a test by key comes to `false`, without a fault, at all that doesn't stand under the mark, the folds over what does come to
/// what those over the list come to, and by less.
pub fn a_fold_over_a_drawer()
    ensures first { (look : Contents Node) (plain : Instance Node → Value Node → Bool) (key : Key) (m : ℕ)
        (test : Node → Run Node (Value Node)) (ns : List Node) → IsByKey look (λ i v. plain i v ≡ true) key m test ns
        → Shortens look (λ i v. plain i v ≡ true) (first_in test ns) (first_in test (those (is_in_drawer look key m) ns)) }
    ensures exists { (look : Contents Node) (plain : Instance Node → Value Node → Bool) (key : Key) (m : ℕ)
        (test : Node → Run Node (Value Node)) (ns : List Node) → IsByKey look (λ i v. plain i v ≡ true) key m test ns
        → Shortens look (λ i v. plain i v ≡ true) (exists_in test ns) (exists_in test (those (is_in_drawer look key m) ns)) }
{}

/// What tests by key: a token of the element itself, where each class has the key; and an attribute that isn't inherited, whose equation
/// in each class is `false`, or compares the token with the argument.
pub fn what_tests_by_key()
    ensures token { (look : Contents Node) (equation also : Equations Node) (classes : Classes) (same : Node → Node → Bool) (scope : Scope Node)
        (key : Key) (i : ℕ) (bytes : List ℕ) (ns : List Node) → named scope.names i ≡ Text bytes
        → ((n : Node) → Among n ns → (has_key key (look (Is n)) ≡ true) × IsText (look (Tok n key.token)))
        → IsByKey look (IsPlain look equation also) key (mark_of bytes)
        (λ n. eval classes same (Equals (TokenOf (Name 0) key.token) (Name (suc i))) (bound scope n)) ns }
    ensures attribute { (look : Contents Node) (same : Node → Node → Bool) (rules also : Rules) (scope : Scope Node) (key : Key)
        (attribute i : ℕ) (bytes : List ℕ) (ns : List Node) → is_inherited rules attribute ≡ false
        → is_inherited also attribute ≡ false → named scope.names i ≡ Text bytes
        → ((n : Node) → Among n ns → (e : Expr) × (own_equation rules (look (Is n)) attribute ≡ Some e)
        × (own_equation also (look (Is n)) attribute ≡ Some e)
        × IsTest key (has_key key (look (Is n))) e × (has_key key (look (Is n)) ≡ true → IsText (look (Tok n key.token))))
        → IsByKey look (IsPlain look (evaluation rules same) (evaluation also same)) key (mark_of bytes)
        (λ n. eval rules.classes same (Call (Name 0) attribute (expr (Name (suc i)) no_exprs)) (bound scope n)) ns }
{}

/// What looks into a drawer for those that pass the test shortens what goes over the list for them, and may go by a test that is
/// shortened itself.
pub fn a_search_shortens_its_fold()
    ensures first { (look : Contents Node) (equation also : Equations Node) (part : ℕ) (key : Key) (v w : Value Node)
        (test short : Node → Run Node (Value Node)) → AreDrawn look
        → ((n : Node) → Shortens look (IsPlain look equation also) (test n) (short n))
        → ((n : Node) → ref_of v ≡ Some n → IsByKey look (IsPlain look equation also) key (mark_of (text_of w)) test (look (Slot n part)))
        → Shortens look (IsPlain look equation also) (over_those (elements_of part v) (first_in test))
        (over_those (drawer_of part key v w) (first_in short)) }
    ensures exists { (look : Contents Node) (equation also : Equations Node) (part : ℕ) (key : Key) (v w : Value Node)
        (test short : Node → Run Node (Value Node)) → AreDrawn look
        → ((n : Node) → Shortens look (IsPlain look equation also) (test n) (short n))
        → ((n : Node) → ref_of v ≡ Some n → IsByKey look (IsPlain look equation also) key (mark_of (text_of w)) test (look (Slot n part)))
        → Shortens look (IsPlain look equation also) (over_those (elements_of part v) (exists_in test))
        (over_those (drawer_of part key v w) (exists_in short)) }
{}

/// What is no drawer is touched as ever, whatever stands in the tree.
pub fn what_is_no_drawer_is_touched_as_ever()
    ensures is { (t : Tree) (e : Edit) (n : Node) → touches_in t e (Is n) ≡ touches e (Is n) }
    ensures token { (t : Tree) (e : Edit) (n : Node) (part : ℕ) → touches_in t e (Tok n part) ≡ touches e (Tok n part) }
    ensures slot { (t : Tree) (e : Edit) (n : Node) (part : ℕ) → touches_in t e (Slot n part) ≡ touches e (Slot n part) }
    ensures up { (t : Tree) (e : Edit) (n : Node) → touches_in t e (Up n) ≡ touches e (Up n) }
    ensures index { (t : Tree) (e : Edit) (n : Node) → touches_in t e (Idx n) ≡ touches e (Idx n) }
{}

/// Where each equation is shortened, each question has just the answers that it had: values, faults and circles.
pub fn what_is_shortened_means_the_same()
    ensures shorter { (look : Contents Node) (equation also : Equations Node) → AreShortened look equation also
        → (q : Instance Node) (a : Answer Node) → Answers look equation q a → Answers look also q a }
    ensures longer { (look : Contents Node) (equation also : Equations Node) → AreShortened look equation also
        → (q : Instance Node) (a : Answer Node) → Answers look also q a → Answers look equation q a }
{}
