//! Worked sessions: lines, and the reply that each gets.

ghost use Rattle.std.specs.Prelude.{◌∷◌, []};
ghost use Rattle.at_model.specs.Playing.{◌⟼◌, Plays};
ghost use Rattle.at_model.specs.Samples.{calc, sum_rules};
ghost use Rattle.at_model.specs.SampleLines.{opened, sum_opened};

/// A value, a declaration, and a value that is asked twice.
pub fn values_are_asked()
    ensures value { Plays calc opened
        ("0 ask /Block/Stmt:1/Expr value()" ⟼ "0 = 3"
        ∷ []) }
    ensures decl { Plays calc opened
        ("0 ask /Block/Stmt:1/Expr/Left decl()" ⟼ "0 = /Block/Stmt:0"
        ∷ []) }
    ensures twice { Plays calc opened
        ("0 ask /Block/Stmt:1/Expr value()" ⟼ "0 = 3"
        ∷ "0 ask /Block/Stmt:1/Expr value()" ⟼ "0 = 3"
        ∷ []) }
{}

/// A value follows the tokens on which it rests: a number of the sum, the number that is declared, and the
/// name that is declared.
pub fn a_token_is_edited()
    ensures summand { Plays calc opened
        ("0 ask /Block/Stmt:1/Expr value()" ⟼ "0 = 3"
        ∷ "0 token /Block/Stmt:1/Expr/Right Value 5" ⟼ "0 ok 1"
        ∷ "0 ask /Block/Stmt:1/Expr value()" ⟼ "0 = 6"
        ∷ []) }
    ensures declared { Plays calc opened
        ("0 ask /Block/Stmt:1/Expr value()" ⟼ "0 = 3"
        ∷ "0 token /Block/Stmt:0/Init Value 4" ⟼ "0 ok 1"
        ∷ "0 ask /Block/Stmt:1/Expr value()" ⟼ "0 = 6"
        ∷ []) }
    ensures name { Plays calc opened
        ("0 ask /Block/Stmt:1/Expr value()" ⟼ "0 = 3"
        ∷ "0 token /Block/Stmt:0 ID \"y\"" ⟼ "0 ok 1"
        ∷ "0 ask /Block/Stmt:1/Expr value()" ⟼ "0 fault null in /Block/Stmt:1/Expr/Left.value"
        ∷ []) }
{}

/// A statement comes in front of the others, or goes, and another declaration comes in its place.
pub fn a_list_is_edited()
    ensures inserted { Plays calc opened
        ("0 ask /Block/Stmt:1/Expr value()" ⟼ "0 = 3"
        ∷ "0 insert /Block Stmt 0 Decl(\"y\",-)" ⟼ "0 ok 1"
        ∷ "0 ask /Block/Stmt:2/Expr value()" ⟼ "0 = 3"
        ∷ []) }
    ensures dropped { Plays calc opened
        ("0 drop /Block/Stmt:0" ⟼ "0 ok 1"
        ∷ "0 ask /Block/Stmt:0/Expr/Left value()" ⟼ "0 fault null in /Block/Stmt:0/Expr/Left.value"
        ∷ []) }
    ensures replaced { Plays calc opened
        ("0 ask /Block/Stmt:1/Expr value()" ⟼ "0 = 3"
        ∷ "0 drop /Block/Stmt:0" ⟼ "0 ok 1"
        ∷ "0 insert /Block Stmt 0 Decl(\"x\",Num(9))" ⟼ "0 ok 2"
        ∷ "0 ask /Block/Stmt:1/Expr value()" ⟼ "0 = 11"
        ∷ []) }
{}

/// An optional is emptied and filled again, and refused where it is filled.
pub fn an_optional_is_edited()
    ensures { Plays calc opened
        ("0 ask /Block/Stmt:1/Expr value()" ⟼ "0 = 3"
        ∷ "0 drop /Block/Stmt:0/Init" ⟼ "0 ok 1"
        ∷ "0 ask /Block/Stmt:1/Expr value()" ⟼ "0 = 2"
        ∷ "0 put /Block/Stmt:0 Init Num(7)" ⟼ "0 ok 2"
        ∷ "0 ask /Block/Stmt:1/Expr value()" ⟼ "0 = 9"
        ∷ "0 put /Block/Stmt:0 Init Num(8)" ⟼ "0 refused 9 taken"
        ∷ []) }
{}

/// A mark is where its node is, and belongs to its session.
pub fn a_mark_follows_its_node()
    ensures { Plays calc opened
        ("1 mark u /Block/Stmt:1/Expr/Left" ⟼ "1 ok 0"
        ∷ "2 insert /Block Stmt 0 Decl(\"y\",-)" ⟼ "2 ok 1"
        ∷ "1 ask $u decl()" ⟼ "1 = /Block/Stmt:1"
        ∷ "1 where u" ⟼ "1 = /Block/Stmt:2/Expr/Left"
        ∷ "2 where u" ⟼ "2 refused 3 mark"
        ∷ []) }
{}

/// Nodes of the same content are two, and a node is the same as itself.
pub fn nodes_are_told_apart()
    ensures { Plays calc opened
        ("0 set /Block/Stmt:1/Expr Add(Num(1),Num(1))" ⟼ "0 ok 1"
        ∷ "0 ask /Block/Stmt:1/Expr same()" ⟼ "0 = false"
        ∷ "0 ask /Block/Stmt:1/Expr alike()" ⟼ "0 = true"
        ∷ []) }
{}

/// A declaration that uses itself is told where the chain comes back, and has its value again when it is
/// set right.
pub fn a_circle_is_closed_and_opened()
    ensures { Plays calc opened
        ("0 set /Block/Stmt:0/Init Use(\"x\")" ⟼ "0 ok 1"
        ∷ "0 ask /Block/Stmt:1/Expr value()" ⟼ "0 circular /Block/Stmt:0.value"
        ∷ "0 set /Block/Stmt:0/Init Num(1)" ⟼ "0 ok 2"
        ∷ "0 ask /Block/Stmt:1/Expr value()" ⟼ "0 = 3"
        ∷ []) }
{}

/// What is decided asks no more, and of a fault and a circle the first that evaluation meets is told.
pub fn what_comes_first_is_told()
    ensures { Plays calc opened
        ("0 ask / c1()" ⟼ "0 = false"
        ∷ "0 ask / c2()" ⟼ "0 fault zero in /.c2"
        ∷ "0 ask / c3()" ⟼ "0 circular /.circ"
        ∷ []) }
{}

/// An edit that expects an old version is refused, and changes nothing.
pub fn an_old_version_is_expected()
    ensures { Plays calc opened
        ("0 token /Block/Stmt:1/Expr/Right Value 5" ⟼ "0 ok 1"
        ∷ "1 at 0 token /Block/Stmt:1/Expr/Right Value 7" ⟼ "1 refused 2 stale 1"
        ∷ "1 show /Block/Stmt:1/Expr/Right" ⟼ "1 = Num(5)"
        ∷ "1 at 1 version" ⟼ "1 ok 1"
        ∷ []) }
{}

/// After each edit that is refused the tree is as it was.
pub fn a_refused_edit_leaves_the_tree()
    ensures fit { Plays calc opened
        ("0 set /Block Num(1)" ⟼ "0 refused 7 fit"
        ∷ "0 show /" ⟼ "0 = Program(Block([Decl(\"x\",Num(1)),Print(Add(Use(\"x\"),Num(2)))]))"
        ∷ "0 insert /Block Stmt 0 Num(1)" ⟼ "0 refused 7 fit"
        ∷ "0 show /" ⟼ "0 = Program(Block([Decl(\"x\",Num(1)),Print(Add(Use(\"x\"),Num(2)))]))"
        ∷ []) }
    ensures fixed { Plays calc opened
        ("0 drop /Block" ⟼ "0 refused 10 fixed"
        ∷ "0 show /" ⟼ "0 = Program(Block([Decl(\"x\",Num(1)),Print(Add(Use(\"x\"),Num(2)))]))"
        ∷ []) }
    ensures each { Plays calc opened
        ("0 insert /Block Stmt 0 Num(1)" ⟼ "0 refused 7 fit"
        ∷ "0 drop /Block" ⟼ "0 refused 10 fixed"
        ∷ "0 put /Block/Stmt:0 Init Num(1)" ⟼ "0 refused 9 taken"
        ∷ "0 insert /Block Stmt 3 Block([])" ⟼ "0 refused 8 index"
        ∷ "0 show /" ⟼ "0 = Program(Block([Decl(\"x\",Num(1)),Print(Add(Use(\"x\"),Num(2)))]))"
        ∷ []) }
{}

/// A quote in a token is escaped in lines and replies, and not in the text itself.
pub fn a_text_with_quotes()
    ensures { Plays calc opened
        ("0 token /Block/Stmt:0 ID \"a\\\"b\"" ⟼ "0 ok 1"
        ∷ "0 show /Block/Stmt:0" ⟼ "0 = Decl(\"a\\\"b\",Num(1))"
        ∷ "0 ask /Block local(\"a\\\"b\")" ⟼ "0 = /Block/Stmt:0"
        ∷ []) }
{}

/// The refusals of questions, paths and edits, one after the other, and a question that is answered by null.
pub fn each_refusal_is_told()
    ensures { Plays calc opened
        ("0 ask / value()" ⟼ "0 refused 13 attribute"
        ∷ "0 ask /Block local()" ⟼ "0 refused 14 arguments"
        ∷ "0 ask /Block/Stmt:5 value()" ⟼ "0 refused 4 path"
        ∷ "0 show /Block/Stmt" ⟼ "0 refused 4 path"
        ∷ "0 insert /Block Init 0 Num(1)" ⟼ "0 refused 5 component"
        ∷ "0 insert /Block Stmt 3 Decl(\"z\",-)" ⟼ "0 refused 8 index"
        ∷ "0 set /Block/Stmt:0 Expr()" ⟼ "0 refused 6 class"
        ∷ "0 token /Block/Stmt:0 ID 5" ⟼ "0 refused 7 fit"
        ∷ "0 ask /Block local(\"q\")" ⟼ "0 = null"
        ∷ []) }
{}

/// The index of a statement after one before it went, and that of the block, which stands in no list.
pub fn an_index_follows_the_list()
    ensures { Plays calc opened
        ("0 ask /Block/Stmt:1 pos()" ⟼ "0 = 1"
        ∷ "0 drop /Block/Stmt:0" ⟼ "0 ok 1"
        ∷ "0 ask /Block/Stmt:0 pos()" ⟼ "0 = 0"
        ∷ "0 ask /Block pos()" ⟼ "0 = -1"
        ∷ []) }
{}

/// Ints wrap at 32 bits, and join a text in decimal.
pub fn ints_wrap_and_join()
    ensures wraps { Plays calc opened
        ("0 ask / big()" ⟼ "0 = -2147483648"
        ∷ []) }
    ensures joins { Plays calc opened
        ("0 ask / join()" ⟼ "0 = \"n0-7\""
        ∷ []) }
{}

/// The other sample: a sum of tokens, and edits of one of them.
pub fn the_other_sample()
    ensures asked { Plays sum_rules sum_opened
        ("0 ask / total()" ⟼ "0 = 11"
        ∷ "0 show /Right" ⟼ "0 = Num(4)"
        ∷ "0 ask / nosuch()" ⟼ "0 refused 13 attribute"
        ∷ "0 show /Middle" ⟼ "0 refused 4 path"
        ∷ []) }
    ensures edited { Plays sum_rules sum_opened
        ("0 token /Right Value 5" ⟼ "0 ok 1"
        ∷ "0 ask / total()" ⟼ "0 = 13"
        ∷ "0 token / Left 5" ⟼ "0 refused 5 component"
        ∷ "0 token /Right Value \"5\"" ⟼ "0 refused 7 fit"
        ∷ "0 token /Right Value 2147483647" ⟼ "0 ok 2"
        ∷ "0 ask / total()" ⟼ "0 = 1"
        ∷ "0 show /" ⟼ "0 = Sum(Num(3),Num(2147483647))"
        ∷ "0 version" ⟼ "0 ok 2"
        ∷ []) }
{}
