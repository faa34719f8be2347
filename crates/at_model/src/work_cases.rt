//! Worked cases of what questions keep: sessions, and the work of each of their lines.

ghost use Rattle.std.specs.Prelude.{◌∷◌, []};
ghost use Rattle.at_model.specs.Working.{◌⇢◌, Works};
ghost use Rattle.at_model.specs.Samples.{calc, sum_rules};
ghost use Rattle.at_model.specs.SampleLines.{opened, sum_opened};

/// The work of each line: of questions that come again, also after a token on which they rest is another one,
/// after a declaration came before the others, and after an initial value went and came again.
pub fn works_of_values()
    ensures again { Works calc opened
        ("0 ask /Block/Stmt:1/Expr value()" ⇢ 8
        ∷ "0 ask /Block/Stmt:1/Expr value()" ⇢ 0
        ∷ []) }
    ensures decl { Works calc opened
        ("0 ask /Block/Stmt:1/Expr/Left decl()" ⇢ 3
        ∷ "0 ask /Block/Stmt:1/Expr value()" ⇢ 5
        ∷ []) }
    ensures token { Works calc opened
        ("0 ask /Block/Stmt:1/Expr value()" ⇢ 8
        ∷ "0 token /Block/Stmt:1/Expr/Right Value 5" ⇢ 0
        ∷ "0 ask /Block/Stmt:1/Expr value()" ⇢ 2
        ∷ []) }
    ensures declared { Works calc opened
        ("0 ask /Block/Stmt:1/Expr value()" ⇢ 8
        ∷ "0 token /Block/Stmt:0/Init Value 4" ⇢ 0
        ∷ "0 ask /Block/Stmt:1/Expr value()" ⇢ 4
        ∷ []) }
    ensures name { Works calc opened
        ("0 ask /Block/Stmt:1/Expr value()" ⇢ 8
        ∷ "0 token /Block/Stmt:0 ID \"y\"" ⇢ 0
        ∷ "0 ask /Block/Stmt:1/Expr value()" ⇢ 3
        ∷ []) }
    ensures inserted { Works calc opened
        ("0 ask /Block/Stmt:1/Expr value()" ⇢ 8
        ∷ "0 insert /Block Stmt 0 Decl(\"y\",-)" ⇢ 0
        ∷ "0 ask /Block/Stmt:2/Expr value()" ⇢ 5
        ∷ []) }
    ensures optional { Works calc opened
        ("0 ask /Block/Stmt:1/Expr value()" ⇢ 8
        ∷ "0 drop /Block/Stmt:0/Init" ⇢ 0
        ∷ "0 ask /Block/Stmt:1/Expr value()" ⇢ 3
        ∷ "0 put /Block/Stmt:0 Init Num(7)" ⇢ 0
        ∷ "0 ask /Block/Stmt:1/Expr value()" ⇢ 4
        ∷ "0 put /Block/Stmt:0 Init Num(8)" ⇢ 0
        ∷ []) }
{}

/// The work of lines where a declaration goes: of a fault only what has a value is kept, and behind another
/// declaration all is added anew but the value of the number that is not touched. An index is added anew after
/// a statement before it went.
pub fn works_after_drops()
    ensures fault { Works calc opened
        ("0 drop /Block/Stmt:0" ⇢ 0
        ∷ "0 ask /Block/Stmt:0/Expr/Left value()" ⇢ 3
        ∷ []) }
    ensures replaced { Works calc opened
        ("0 ask /Block/Stmt:1/Expr value()" ⇢ 8
        ∷ "0 drop /Block/Stmt:0" ⇢ 0
        ∷ "0 insert /Block Stmt 0 Decl(\"x\",Num(9))" ⇢ 0
        ∷ "0 ask /Block/Stmt:1/Expr value()" ⇢ 7
        ∷ []) }
    ensures index { Works calc opened
        ("0 ask /Block/Stmt:1 pos()" ⇢ 1
        ∷ "0 drop /Block/Stmt:0" ⇢ 0
        ∷ "0 ask /Block/Stmt:0 pos()" ⇢ 1
        ∷ "0 ask /Block pos()" ⇢ 1
        ∷ []) }
{}

/// Refused lines and commands that are no question have no work, and neither has a question for attributes
/// that aren't lazy.
pub fn lines_without_work()
    ensures refused { Works calc opened
        ("0 ask /Block/Stmt:1/Expr value()" ⇢ 8
        ∷ "0 at 5 ask /Block/Stmt:1/Expr value()" ⇢ 0
        ∷ "0 ask / value()" ⇢ 0
        ∷ "0 drop /Block" ⇢ 0
        ∷ "0 mark u /Block/Stmt:1/Expr" ⇢ 0
        ∷ "0 show $u" ⇢ 0
        ∷ "0 ask $u value()" ⇢ 0
        ∷ []) }
    ensures not_lazy { Works sum_rules sum_opened
        ("0 ask / total()" ⇢ 0
        ∷ "0 token /Right Value 5" ⇢ 0
        ∷ "0 ask / total()" ⇢ 0
        ∷ []) }
{}
