//! Worked sessions of lines that are refused.

ghost use Rattle.std.specs.Prelude.{◌≡◌, ◌∷◌, ◌++◌, [], codes};
ghost use Rattle.at_model.specs.Playing.{◌⟼◌, Plays};
ghost use Rattle.at_model.specs.Lines.{From_root, Insert, Unmark, Version};
ghost use Rattle.at_model.specs.Replies as code;
ghost use Rattle.at_model.specs.Machine.{Leaves, Refuses, verdict};
ghost use Rattle.at_model.specs.Samples.{calc};
ghost use Rattle.at_model.specs.SampleLines.{block_path, mark, nested, opened, says};
ghost use Rattle.at_model.specs.SampleSessions.{at_last_version, calc_overloaded, calc_with_argument, calc_with_numbers, full_of_marks, marking, some_marks};

/// Of two refusals that a line has, the first in their order is told.
pub fn the_first_refusal_is_told()
    ensures stale { Plays calc opened
        ("0 at 5 ask $u value()" ⟼ "0 refused 2 stale 0"
        ∷ "0 at 5 show /Nix" ⟼ "0 refused 2 stale 0"
        ∷ []) }
    ensures mark { Plays calc opened
        ("0 ask /Nix value($u)" ⟼ "0 refused 3 mark"
        ∷ []) }
    ensures path { Plays calc opened
        ("0 ask /Nix nosuch()" ⟼ "0 refused 4 path"
        ∷ "0 insert /Nix Init 0 Expr()" ⟼ "0 refused 4 path"
        ∷ []) }
    ensures component { Plays calc opened
        ("0 insert /Block Init 0 Expr()" ⟼ "0 refused 5 component"
        ∷ "0 token /Block/Stmt:1 ID 5" ⟼ "0 refused 5 component"
        ∷ []) }
    ensures class { Plays calc opened
        ("0 set /Block/Stmt:0 Num(Expr())" ⟼ "0 refused 6 class"
        ∷ "0 insert /Block Stmt 9 Expr()" ⟼ "0 refused 6 class"
        ∷ []) }
    ensures fit { Plays calc opened
        ("0 insert /Block Stmt 9 Num(1)" ⟼ "0 refused 7 fit"
        ∷ "0 put /Block/Stmt:0 Init Block([])" ⟼ "0 refused 7 fit"
        ∷ []) }
    ensures attribute { Plays calc opened
        ("0 ask / local()" ⟼ "0 refused 13 attribute"
        ∷ []) }
{}

/// At the last version no edit is accepted, but each other refusal comes before that one.
pub fn the_last_version_is_looked_at_last()
    ensures { Plays calc at_last_version
        ("0 drop /Block/Stmt:0" ⟼ "0 refused 12 limit"
        ∷ "0 token /Block/Stmt:0 ID \"x\"" ⟼ "0 refused 12 limit"
        ∷ "0 at 0 drop /Block/Stmt:0" ⟼ "0 refused 2 stale 18446744073709551615"
        ∷ "0 insert /Block Init 0 Num(1)" ⟼ "0 refused 5 component"
        ∷ "0 set /Block/Stmt:0 Expr()" ⟼ "0 refused 6 class"
        ∷ "0 set /Block Num(1)" ⟼ "0 refused 7 fit"
        ∷ "0 insert /Block Stmt 3 Decl(\"z\",-)" ⟼ "0 refused 8 index"
        ∷ "0 put /Block/Stmt:0 Init Num(8)" ⟼ "0 refused 9 taken"
        ∷ "0 drop /Block" ⟼ "0 refused 10 fixed"
        ∷ "0 mark u /" ⟼ "0 ok 18446744073709551615"
        ∷ "0 at 18446744073709551615 version" ⟼ "0 ok 18446744073709551615"
        ∷ []) }
{}

/// A session has at most a hundred marks, whatever another one has, and a name that is taken is told first.
pub fn marks_of_two_sessions()
    ensures { Plays calc full_of_marks
        ("0 mark v /" ⟼ "0 refused 12 limit"
        ∷ "0 mark m99 /" ⟼ "0 refused 9 taken"
        ∷ "1 mark m99 /Block" ⟼ "1 ok 0"
        ∷ "0 where m99" ⟼ "0 = /"
        ∷ "0 unmark m50" ⟼ "0 ok 0"
        ∷ "0 mark v /" ⟼ "0 ok 0"
        ∷ "0 mark w /" ⟼ "0 refused 12 limit"
        ∷ "1 where m99" ⟼ "1 = /Block"
        ∷ "0 where m50" ⟼ "0 refused 3 mark"
        ∷ []) }
{}

/// Null and the nodes of a class or below it fit a parameter of the class.
pub fn a_parameter_takes_a_class()
    ensures { Plays calc_with_argument opened
        ("0 ask /Block/Stmt:1/Expr begins(/Block/Stmt:1/Expr/Left)" ⟼ "0 = true"
        ∷ "0 ask /Block/Stmt:1/Expr begins(/Block/Stmt:1/Expr/Right)" ⟼ "0 = false"
        ∷ "0 ask /Block/Stmt:1/Expr begins(null)" ⟼ "0 = false"
        ∷ "0 ask /Block/Stmt:1/Expr begins(/Block/Stmt:0)" ⟼ "0 refused 14 arguments"
        ∷ "0 ask /Block/Stmt:1/Expr begins(\"x\")" ⟼ "0 refused 14 arguments"
        ∷ "0 ask /Block/Stmt:1/Expr begins()" ⟼ "0 refused 14 arguments"
        ∷ "0 ask /Block/Stmt:1/Expr begins(null,null)" ⟼ "0 refused 14 arguments"
        ∷ []) }
{}

/// Ints are read as arguments where an attribute takes ints or booleans, and an int is at most so far from 0; so it is with one
/// that is computed and passed.
pub fn numbers_are_arguments()
    ensures taken { Plays calc_with_numbers opened
        ("0 ask / next(3)" ⟼ "0 = 4"
        ∷ "0 ask / next(-4)" ⟼ "0 = -3"
        ∷ "0 ask / next(1048576)" ⟼ "0 = 1048577"
        ∷ "0 ask / next(1048577)" ⟼ "0 refused 14 arguments"
        ∷ "0 ask / next(true)" ⟼ "0 refused 14 arguments"
        ∷ "0 ask / far(1)" ⟼ "0 = 1000001"
        ∷ "0 ask / far(2)" ⟼ "0 fault long in /.far"
        ∷ []) }
    ensures unread { Plays calc opened
        ("0 ask / next(3)" ⟼ "0 refused 1 syntax"
        ∷ "0 at 5 ask $u next(true)" ⟼ "0 refused 1 syntax"
        ∷ "0 post / next(3)" ⟼ "0 refused 1 syntax"
        ∷ []) }
{}

/// Of attributes that share a name the one is asked that has as many parameters as there are arguments, and its name is told as it was
/// written. Where none has as many the arguments don't fit.
pub fn overloaded_attributes_are_told_apart()
    ensures { Plays calc_overloaded opened
        ("0 ask / next(3)" ⟼ "0 = 4"
        ∷ "0 ask / next()" ⟼ "0 fault zero in /.next"
        ∷ "0 ask / next(3,4)" ⟼ "0 refused 14 arguments"
        ∷ "0 ask /Block next()" ⟼ "0 refused 13 attribute"
        ∷ []) }
{}

/// A hundred marks are made, and no more.
pub fn a_hundred_marks()
    ensures { Plays calc opened (marking 100 ++ "0 mark m100 /" ⟼ "0 refused 12 limit" ∷ []) }
{}

/// A mark is forgotten and the others stay; the version is told and all stay; and an index is looked at
/// before how deep the tree would be.
pub fn marks_beside_others()
    ensures forgotten { verdict calc (record opened { marks = some_marks }) (says (Unmark (codes "u")))
        ≡ Leaves (mark 1 "u" [] ∷ mark 0 "v" [] ∷ mark 1 "w" [] ∷ []) }
    ensures kept { verdict calc (record opened { marks = some_marks }) (says Version) ≡ Leaves some_marks }
    ensures index { verdict calc opened (says (Insert (From_root block_path) (codes "Stmt") 3 (nested 510))) ≡ Refuses code.Index }
{}
