//! Worked cases of edits, lines and replies: each is the contract of a function that does nothing.

ghost use Rattle.std.specs.Prelude.{◌≡◌, ℕ, pos, true, false, List, [], ◌∷◌, map, replicate, Some, None, Ok, Err, codes};
ghost use Rattle.at_model.specs.Trees as tree;
ghost use Rattle.at_model.specs.Terms as term;
ghost use Rattle.at_model.specs.Paths.{path_text, node_at, path_of};
ghost use Rattle.at_model.specs.Run.{Location, Is, Tok, Slot, Up, Idx};
ghost use Rattle.at_model.specs.Run as run;
ghost use Rattle.at_model.specs.Edits.{edited, carried};
ghost use Rattle.at_model.specs.Edits as edit;
ghost use Rattle.at_model.specs.Touches.{touches};
ghost use Rattle.at_model.specs.Lines.{
  Line,
  Place,
  From_root,
  From_mark,
  Argument,
  Command,
  Ask,
  Set,
  Put,
  Drop,
  Insert,
  Token,
  Show,
  Mark,
  Unmark,
  Where,
  Version,
  last_version,
  line_text,
  lines,
};
ghost use Rattle.at_model.specs.Lines as line;
ghost use Rattle.at_model.specs.Replies.{
  Reply,
  Done,
  Shows,
  Fails,
  Circular,
  Refused,
  Memory,
  At,
  Plain,
  Written,
  reply_text,
};
ghost use Rattle.at_model.specs.Replies as code;
ghost use Rattle.at_model.specs.Machine.{State, Verdict, Refuses, Leaves, Tells, Edits, Asks, after, verdict};
ghost use Rattle.at_model.specs.Playing.{Writes};
ghost use Rattle.at_model.specs.Samples.{
  calc,
  calc_classes,
  calc_tree,
  program,
  decl,
  num,
  print_sum,
  block,
  statement,
  init_of,
};
ghost use Rattle.at_model.specs.SampleLines.{
  decl_x,
  decl_y,
  decl_y_term,
  num_term,
  nested,
  block_path,
  statement_path,
  left_path,
  plain_step,
  opened,
  mark,
  says,
};

/// The texts of paths, and the path of a node.
pub fn paths_as_text()
    ensures path { path_text left_path ≡ codes "/Block/Stmt:1/Expr/Left" }
    ensures root { path_text [] ≡ codes "/" }
    ensures node { node_at calc_classes calc_tree (statement_path 1) ≡ Some (statement 1) }
    ensures back { path_of calc_classes calc_tree (statement 1) ≡ Some (statement_path 1) }
{}

/// A new first statement moves the others, and a mark on one of them follows it.
pub fn an_insert_moves_what_is_behind()
    ensures first { carried (edit.Insert block 0 0 decl_y) (statement 0) ≡ Some (statement 1) }
    ensures second { carried (edit.Insert block 0 0 decl_y) (statement 1) ≡ Some (statement 2) }
    ensures above { carried (edit.Insert block 0 0 decl_y) block ≡ Some block }
    ensures state { after (record opened { marks = mark 1 "u" (statement 1) ∷ [] })
        (verdict calc (record opened { marks = mark 1 "u" (statement 1) ∷ [] }) (says (Insert (From_root block_path) (codes "Stmt") 0 decl_y_term)))
        ≡ record opened { tree = program (decl_y ∷ decl_x ∷ print_sum ∷ []); version = 1; marks = mark 1 "u" (statement 2) ∷ [] } }
{}

/// A mark is asked where its node is now, and only by the session that made it.
pub fn a_mark_is_asked_where_it_is()
    ensures own { verdict calc (record opened { tree = program (decl_y ∷ decl_x ∷ print_sum ∷ []); version = 1; marks = mark 1 "u" (statement 2) ∷ [] })
        (record { session = 1; expected = None; command = Where (codes "u") })
        ≡ Tells (At (statement_path 2)) }
    ensures other { verdict calc (record opened { tree = program (decl_y ∷ decl_x ∷ print_sum ∷ []); version = 1; marks = mark 1 "u" (statement 2) ∷ [] })
        (record { session = 2; expected = None; command = Where (codes "u") })
        ≡ Refuses code.Mark }
{}

/// A mark is made, used, and forgotten; a session has at most a hundred, and one of each name.
pub fn marks()
    ensures made { after opened (verdict calc opened (says (Mark (codes "u") (From_root (statement_path 1)))))
        ≡ record opened { marks = mark 0 "u" (statement 1) ∷ [] } }
    ensures used { verdict calc (record opened { marks = mark 0 "u" (statement 1) ∷ [] })
        (says (Show (From_mark (codes "u") (plain_step "Expr" ∷ plain_step "Right" ∷ []))))
        ≡ Tells (Written (num_term (pos 2))) }
    ensures forgotten { after (record opened { marks = mark 0 "u" (statement 1) ∷ [] })
        (verdict calc (record opened { marks = mark 0 "u" (statement 1) ∷ [] }) (says (Unmark (codes "u"))))
        ≡ opened }
    ensures unknown { verdict calc opened (says (Unmark (codes "u"))) ≡ Refuses code.Mark }
    ensures taken { verdict calc (record opened { marks = replicate 100 (mark 0 "u" []) }) (says (Mark (codes "u") (From_root []))) ≡ Refuses code.Taken }
    ensures too_many { verdict calc (record opened { marks = replicate 100 (mark 0 "u" []) }) (says (Mark (codes "v") (From_root []))) ≡ Refuses code.Limit }
{}

/// What is dropped is gone with its marks, and what stood behind it moves to the front.
pub fn a_drop_moves_what_is_behind()
    ensures gone { carried (edit.Drop (statement 0)) (statement 0) ≡ None }
    ensures below { carried (edit.Drop (statement 0)) (init_of 0) ≡ None }
    ensures behind { carried (edit.Drop (statement 0)) (statement 1) ≡ Some (statement 0) }
    ensures before { carried (edit.Drop (statement 1)) (statement 0) ≡ Some (statement 0) }
    ensures state { after (record opened { marks = mark 1 "u" (statement 1) ∷ mark 1 "v" (init_of 0) ∷ [] })
        (verdict calc (record opened { marks = mark 1 "u" (statement 1) ∷ mark 1 "v" (init_of 0) ∷ [] }) (says (Drop (From_root (statement_path 0)))))
        ≡ record opened { tree = program (print_sum ∷ []); version = 1; marks = mark 1 "u" (statement 0) ∷ [] } }
{}

/// An optional is emptied, and filled again; a filled one is taken.
pub fn an_optional_is_emptied_and_filled()
    ensures emptied { edited calc_classes calc_tree (edit.Drop (init_of 0)) ≡ Ok (program (decl (codes "x") tree.Empty ∷ print_sum ∷ [])) }
    ensures filled { edited calc_classes (program (decl (codes "x") tree.Empty ∷ print_sum ∷ [])) (edit.Put (statement 0) 1 (num (pos 7)))
        ≡ Ok (program (decl (codes "x") (tree.Filled (num (pos 7))) ∷ print_sum ∷ [])) }
    ensures taken { verdict calc opened (says (Put (From_root (statement_path 0)) (codes "Init") (num_term (pos 8)))) ≡ Refuses code.Taken }
{}

/// Edits that are refused, each for its first reason.
pub fn refused_edits()
    ensures index { verdict calc opened (says (Insert (From_root block_path) (codes "Stmt") 3 decl_y_term)) ≡ Refuses code.Index }
    ensures fixed { verdict calc opened (says (Drop (From_root block_path))) ≡ Refuses code.Fixed }
    ensures root { verdict calc opened (says (Drop (From_root []))) ≡ Refuses code.Fixed }
    ensures fit { verdict calc opened (says (Set (From_root block_path) (num_term (pos 1)))) ≡ Refuses code.Fit }
    ensures kind { verdict calc opened (says (Token (From_root (statement_path 0)) (codes "ID") (tree.Int (pos 5)))) ≡ Refuses code.Fit }
    ensures component { verdict calc opened (says (Insert (From_root block_path) (codes "Init") 0 (num_term (pos 1)))) ≡ Refuses code.Component }
    ensures class { verdict calc opened (says (Set (From_root (statement_path 0)) (term.Node (codes "Expr") term.no_cells))) ≡ Refuses code.Class }
    ensures last { verdict calc (record opened { version = last_version }) (says (Drop (From_root (statement_path 0)))) ≡ Refuses code.Limit }
{}

/// A tree may be 512 deep, and no deeper.
pub fn the_deepest_tree()
    ensures too_deep { verdict calc opened (says (Insert (From_root block_path) (codes "Stmt") 0 (nested 510))) ≡ Refuses code.Limit }
    ensures deepest { (after opened (verdict calc opened (says (Insert (From_root block_path) (codes "Stmt") 0 (nested 509))))).version ≡ 1 }
{}

/// A line that expects another version is refused, whatever else it says; one that expects this version is not.
pub fn a_stale_line()
    ensures stale { verdict calc (record opened { version = 1 })
        (record { session = 1; expected = Some 0; command = Token (From_root (statement_path 0)) (codes "ID") (tree.Int (pos 5)) })
        ≡ Refuses (code.Stale 1) }
    ensures current_edit { verdict calc (record opened { version = 1 })
        (record { session = 1; expected = Some 1; command = Drop (From_root (statement_path 0)) })
        ≡ Edits (edit.Drop (statement 0)) (program (print_sum ∷ [])) }
    ensures stale_edit { verdict calc (record opened { version = 1 }) (record { session = 1; expected = Some 0; command = Drop (From_root (statement_path 0)) })
        ≡ Refuses (code.Stale 1) }
    ensures current { verdict calc (record opened { version = 1 }) (record { session = 1; expected = Some 1; command = Version }) ≡ Leaves [] }
{}

/// Questions at a path that leads nowhere, of an attribute that there isn't, with arguments that
/// don't fit; and one that is asked.
pub fn questions()
    ensures path { verdict calc opened (says (Ask (From_root (statement_path 5)) (codes "value") [])) ≡ Refuses code.Path }
    ensures argument { verdict calc opened (says (Ask (From_root []) (codes "nosuch") (line.Ref (From_root (plain_step "Nix" ∷ [])) ∷ [])))
        ≡ Refuses code.Path }
    ensures mark { verdict calc opened (says (Ask (From_root (plain_step "Nix" ∷ [])) (codes "value") (line.Ref (From_mark (codes "u") []) ∷ [])))
        ≡ Refuses code.Mark }
    ensures attribute { verdict calc opened (says (Ask (From_root []) (codes "value") [])) ≡ Refuses code.Attribute }
    ensures arguments { verdict calc opened (says (Ask (From_root block_path) (codes "local") [])) ≡ Refuses code.Arguments }
    ensures kind { verdict calc opened (says (Ask (From_root block_path) (codes "local") (line.Null ∷ []))) ≡ Refuses code.Arguments }
    ensures asked { verdict calc opened (says (Ask (From_root block_path) (codes "local") (line.Text (codes "q") ∷ [])))
        ≡ Asks (record { node = block; attribute = 2; arguments = run.Text (codes "q") ∷ [] }) }
{}

/// The drop of the first statement touches the slot, the indexes of both statements and all of the
/// first one, and neither the class nor the parent of the second.
pub fn what_a_drop_touches()
    ensures yes { map (touches (edit.Drop (statement 0))) (Slot block 0 ∷ Idx (statement 0) ∷ Idx (statement 1) ∷ Is (statement 0) ∷ Tok (statement 0) 0
        ∷ Slot (statement 0) 1 ∷ Up (statement 0) ∷ Is (init_of 0) ∷ Tok (init_of 0) 0 ∷ Up (init_of 0) ∷ Idx (init_of 0) ∷ [])
        ≡ true ∷ true ∷ true ∷ true ∷ true ∷ true ∷ true ∷ true ∷ true ∷ true ∷ true ∷ [] }
    ensures no { map (touches (edit.Drop (statement 0))) (Is (statement 1) ∷ Up (statement 1) ∷ Slot (statement 1) 0 ∷ Is block ∷ Up block ∷ Slot [] 0 ∷ [])
        ≡ false ∷ false ∷ false ∷ false ∷ false ∷ false ∷ [] }
{}

/// The text of a line with every kind of argument.
pub fn a_line_as_text()
    ensures { line_text (record {
      session = 0;
      expected = Some 3;
      command = Ask (From_root block_path) (codes "local")
          (line.Text (codes "a\"b") ∷ line.Ref (From_mark (codes "u") (plain_step "Left" ∷ [])) ∷ line.Null ∷ []);
    })
        ≡ codes "0 at 3 ask /Block local(\"a\\\"b\",$u/Left,null)" }
{}

/// The texts of replies.
pub fn replies_as_text()
    ensures done { reply_text (record { session = Some 0; done = None; form = Done 1 }) ≡ codes "0 ok 1\n" }
    ensures value { reply_text (record { session = Some 0; done = None; form = Shows (Plain (tree.Int (pos 3))) }) ≡ codes "0 = 3\n" }
    ensures term { reply_text (record { session = Some 1; done = None; form = Shows (Written (num_term (pos 5))) }) ≡ codes "1 = Num(5)\n" }
    ensures fault { reply_text (record { session = Some 0; done = None; form = Fails run.Null left_path (codes "value") })
        ≡ codes "0 fault null in /Block/Stmt:1/Expr/Left.value\n" }
    ensures circle { reply_text (record { session = Some 0; done = None; form = Circular [] (codes "circ") }) ≡ codes "0 circular /.circ\n" }
    ensures stale { reply_text (record { session = Some 1; done = None; form = Refused (code.Stale 1) }) ≡ codes "1 refused 2 stale 1\n" }
    ensures syntax { reply_text (record { session = None; done = None; form = Refused code.Syntax }) ≡ codes "? refused 1 syntax\n" }
    ensures memory { reply_text (record { session = Some 12; done = None; form = Memory }) ≡ codes "12 memory\n" }
{}

/// The bytes of lines, what is written for them, and the state that they leave.
pub fn outputs_of_bytes()
    ensures version { Writes calc 1 opened (codes "\n0 version") (false ∷ []) (codes "0 ok 0\n") opened }
    ensures refused { Writes calc 1 opened (codes "x version") (false ∷ []) (codes "? refused 1 syntax\n") opened }
    ensures memory { Writes calc 1 opened (codes "7 version") (true ∷ []) (codes "7 memory\n") opened }
{}

/// Empty lines are none, and a last line needs no newline.
pub fn lines_of_bytes()
    ensures several { lines (codes "\n0 version\n\n\n0 show /") ≡ codes "0 version" ∷ codes "0 show /" ∷ [] }
    ensures ended { lines (codes "0 version\n") ≡ codes "0 version" ∷ [] }
    ensures none { lines (codes "\n\n") ≡ [] }
{}
