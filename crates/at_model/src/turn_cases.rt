//! Worked cases of questions in turns: texts, numbers, refusals, and sessions with what is answered behind each line.

ghost use Rattle.std.specs.Prelude.{◌≡◌, ◌++◌, ◌∷◌, [], codes, false, length, true, map, None, pos, Some};
ghost use Rattle.at_model.specs.Trees as tree;
ghost use Rattle.at_model.specs.Lines.{From_mark, From_root, IsCommand, Post, Token, Wait, last_post, line_text};
ghost use Rattle.at_model.specs.Replies.{Circular, Memory, Opened, Plain, Refused, Shows, reply_text};
ghost use Rattle.at_model.specs.Replies as code;
ghost use Rattle.at_model.specs.Machine.{Posts, Refuses, after, given_one, verdict};
ghost use Rattle.at_model.specs.Playing.{◌⟼◌, Plays, Writes};
ghost use Rattle.at_model.specs.Samples.{calc};
ghost use Rattle.at_model.specs.SampleLines.{opened, plain_step, printed_path, says};
ghost use Rattle.at_model.specs.SampleSessions.{posting, value_posted, with_questions};

/// The texts of lines that post and wait, and of what is told of questions. The longest answer for want of memory has 58 bytes.
pub fn turns_as_text()
    ensures post { line_text (says posting) ≡ codes "0 post /Block/Stmt:1/Expr value()" }
    ensures wait { line_text (says (Wait 1)) ≡ codes "0 wait 1" }
    ensures opened { reply_text (record { session = Some 0; done = None; form = Opened 1 }) ≡ codes "0 open 1\n" }
    ensures question { reply_text (record { session = Some 0; done = None; form = Refused code.Question }) ≡ codes "0 refused 15 question\n" }
    ensures value { reply_text (record { session = Some 0; done = Some (record { number = 1; version = 0 }); form = Shows (Plain (tree.Int (pos 3))) })
        ≡ codes "0 done 1 0 = 3\n" }
    ensures refused { reply_text (record { session = Some 0; done = Some (record { number = 1; version = 1 }); form = Refused code.Path })
        ≡ codes "0 done 1 1 refused 4 path\n" }
    ensures circle { reply_text (record { session = Some 0; done = Some (record { number = 1; version = 0 }); form = Circular [] (codes "circ") })
        ≡ codes "0 done 1 0 circular /.circ\n" }
    ensures memory { reply_text
        (record { session = Some 999; done = Some (record { number = 18446744073709551615; version = 18446744073709551615 }); form = Memory })
        ≡ codes "999 done 18446744073709551615 18446744073709551615 memory\n" }
    ensures longest { length (codes "999 done 18446744073709551615 18446744073709551615 memory\n") ≡ 58 }
{}

/// The number of a question is 1 at least and has at most 64 bits, and no zero in front.
pub fn numbers_of_questions()
    ensures zero { IsCommand (Wait 0) → ⊥ }
    ensures first { IsCommand (Wait 1) }
    ensures last { IsCommand (Wait 18446744073709551615) }
    ensures past_last { IsCommand (Wait 18446744073709551616) → ⊥ }
    ensures no_lines { Plays calc opened
        ("0 wait 0" ⟼ "0 refused 1 syntax"
        ∷ "0 wait 01" ⟼ "0 refused 1 syntax"
        ∷ "0 wait 1" ⟼ "0 refused 15 question"
        ∷ []) }
{}

/// A session has at most a hundred open questions, and there is a last number. An old version and a mark that is missing are told
/// first; where the path leads is not looked at.
pub fn what_is_not_posted()
    ensures stale { verdict calc (with_questions 100) (record { session = 0; expected = Some 5; command = Post (From_mark (codes "v") []) (codes "decl") [] })
        ≡ Refuses (code.Stale 0) }
    ensures mark { verdict calc (with_questions 100) (says (Post (From_mark (codes "v") []) (codes "decl") [])) ≡ Refuses code.Mark }
    ensures hundred { verdict calc (with_questions 100) (says posting) ≡ Refuses code.Limit }
    ensures one_fewer { verdict calc (with_questions 99) (says posting) ≡ Posts (value_posted 100) }
    ensures other_session { verdict calc (with_questions 100) (record { session = 1; expected = None; command = posting })
        ≡ Posts (record (value_posted 101) { session = 1 }) }
    ensures no_number { verdict calc (record opened { posts = last_post }) (says posting) ≡ Refuses code.Limit }
    ensures last_number { verdict calc (record opened { posts = 18446744073709551614 }) (says posting) ≡ Posts (value_posted last_post) }
    ensures path { verdict calc opened (says (Post (From_root (plain_step "Nix" ∷ [])) (codes "value") []))
        ≡ Posts (record (value_posted 1) { place = From_root (plain_step "Nix" ∷ []) }) }
{}

/// A turn is counted, and an edit begins the count anew.
pub fn turns_are_counted()
    ensures posted { after opened (verdict calc opened (says posting)) ≡ with_questions 1 }
    ensures turn { map (λ q. q.turns) (given_one 1 (with_questions 2)).posted ≡ 1 ∷ 0 ∷ [] }
    ensures edit { map (λ q. q.turns)
        (after (given_one 1 (with_questions 2)) (verdict calc (given_one 1 (with_questions 2))
        (says (Token (From_root (printed_path ++ plain_step "Right" ∷ [])) (codes "Value") (tree.Int (pos 5)))))).posted
        ≡ 0 ∷ 0 ∷ [] }
{}

/// A question that is waited for is answered on the tree as it is, to the session that posted it; no other session waits for it, and
/// no one waits for what is answered.
pub fn a_question_is_waited_for()
    ensures value { Plays calc opened
        ("0 post /Block/Stmt:1/Expr value()" ⟼ "0 open 1"
        ∷ "1 wait 1" ⟼ "1 refused 15 question"
        ∷ "0 wait 1" ⟼ "0 done 1 0 = 3"
        ∷ "0 wait 1" ⟼ "0 refused 15 question"
        ∷ []) }
    ensures edited { Plays calc opened
        ("0 post /Block/Stmt:1/Expr value()" ⟼ "0 open 1"
        ∷ "1 token /Block/Stmt:1/Expr/Right Value 5" ⟼ "1 ok 1"
        ∷ "0 wait 1" ⟼ "0 done 1 1 = 6"
        ∷ []) }
    ensures greater { Plays calc opened
        ("0 post /Block/Stmt:1/Expr value()" ⟼ "0 open 1"
        ∷ "0 post /Block/Stmt:1/Expr/Left decl()" ⟼ "0 open 2"
        ∷ "0 wait 2" ⟼ "0 done 2 0 = /Block/Stmt:0"
        ∷ "0 wait 1" ⟼ "0 done 1 0 = 3"
        ∷ []) }
{}

/// The question with the least number is answered first. Where its words lead is looked at when it is answered.
pub fn a_question_is_answered_by_a_turn()
    ensures least { Plays calc opened
        ("0 post /Block/Stmt:1/Expr value()" ⟼ "0 open 1"
        ∷ "1 post /Block/Stmt:1/Expr/Left decl()" ⟼ "1 open 2\n0 done 1 0 = 3"
        ∷ "0 version" ⟼ "0 ok 0\n1 done 2 0 = /Block/Stmt:0"
        ∷ []) }
    ensures circle { Plays calc opened
        ("0 post / circ()" ⟼ "0 open 1\n0 done 1 0 circular /.circ"
        ∷ []) }
    ensures path { Plays calc opened
        ("0 post /Block/Stmt:1/Expr value()" ⟼ "0 open 1"
        ∷ "0 drop /Block/Stmt:0" ⟼ "0 ok 1\n0 done 1 1 refused 4 path"
        ∷ []) }
    ensures attribute { Plays calc opened
        ("0 post / nosuch()" ⟼ "0 open 1\n0 done 1 0 refused 13 attribute"
        ∷ "0 post /Block/Stmt:1/Expr value(null)" ⟼ "0 open 2\n0 done 2 0 refused 14 arguments"
        ∷ []) }
{}

/// A question has the marks that its words name as they were when it was posted. They go with their nodes, whatever becomes of the
/// session's own marks.
pub fn marks_of_a_question()
    ensures gone { Plays calc opened
        ("0 mark u /Block/Stmt:1/Expr/Left" ⟼ "0 ok 0"
        ∷ "0 post $u decl()" ⟼ "0 open 1"
        ∷ "0 drop /Block/Stmt:1" ⟼ "0 ok 1\n0 done 1 1 refused 3 mark"
        ∷ []) }
    ensures forgotten { Plays calc opened
        ("0 mark u /Block/Stmt:1/Expr/Left" ⟼ "0 ok 0"
        ∷ "0 post $u decl()" ⟼ "0 open 1"
        ∷ "0 unmark u" ⟼ "0 ok 0"
        ∷ "0 wait 1" ⟼ "0 done 1 0 = /Block/Stmt:0"
        ∷ []) }
    ensures carried { Plays calc opened
        ("0 mark u /Block/Stmt:1/Expr/Left" ⟼ "0 ok 0"
        ∷ "0 post $u decl()" ⟼ "0 open 1"
        ∷ "0 unmark u" ⟼ "0 ok 0"
        ∷ "0 mark u /Block" ⟼ "0 ok 0"
        ∷ "0 insert /Block Stmt 0 Decl(\"y\",-)" ⟼ "0 ok 1"
        ∷ "0 wait 1" ⟼ "0 done 1 1 = /Block/Stmt:1"
        ∷ []) }
    ensures none { Plays calc opened
        ("0 post $v decl()" ⟼ "0 refused 3 mark"
        ∷ "0 wait 7" ⟼ "0 refused 15 question"
        ∷ []) }
{}

/// Behind the last line a question that is open is answered, or for want of memory.
pub fn outputs_of_questions()
    ensures answered { Writes calc 1 opened (codes "0 post /Block/Stmt:1/Expr value()\n") (false ∷ false ∷ []) (codes "0 open 1\n0 done 1 0 = 3\n")
        (record opened { posts = 1 }) }
    ensures memory { Writes calc 1 opened (codes "0 post /Block/Stmt:1/Expr value()\n") (false ∷ true ∷ []) (codes "0 open 1\n0 done 1 0 memory\n")
        (record opened { posts = 1 }) }
{}
