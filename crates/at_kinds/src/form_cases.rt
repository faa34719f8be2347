//! Worked cases of expressions: the kind of each form, and the body that it means. They stand in an equation of Block, where no
//! other class is named, with the parameters `Decl d` and `String n` and the index name i. Each is the contract of a function
//! that does nothing.

ghost use Rattle.std.specs.Prelude.{◌≡◌, ◌∷◌, [], codes, false, negsuc, true};
ghost use Rattle.at_model.specs.Bodies as body;
ghost use Rattle.at_jrag.specs.Syntax as written;
ghost use Rattle.at_rules.specs.declared.body.Kind.TheVariants as known;
ghost use Rattle.at_kinds.specs.Judging.{Is, Wrong, body_of, judged};
ghost use Rattle.at_kinds.specs.SampleForms.{
  Means,
  MeansComputed,
  MeansIn,
  arguments,
  between,
  call,
  call_of,
  cast,
  choice,
  fold,
  here,
  inside,
  inside_with,
  int,
  longer,
  longer_body,
  name,
  no,
  null,
  number,
  seven,
  statement,
  statement_body,
  test,
  text,
  this,
  two,
  yes,
};
ghost use Rattle.at_kinds.specs.declared.arguments.Arguments.TheVariants.{Computed};
ghost use Rattle.at_kinds.specs.declared.code.RuleCode.TheVariants as code;
ghost use Rattle.at_kinds.specs.declared.signatures.WrittenKind.TheVariants as wanted;
ghost use Rattle.at_kinds.specs.declared.typing.kinds.ExprKind.TheVariants as kind;

/// Numbers, texts, `true` and `false`, `null`, and `this`, which has the class of the equation.
pub fn literals()
    ensures number { Means seven kind.Int (int 7) }
    ensures negative { Means (number (negsuc 6)) kind.Int (body.IntLiteral (negsuc 6)) }
    ensures text { Means (text (codes "x")) kind.Text (body.TextLiteral (codes "x")) }
    ensures yes { Means yes kind.Bool (body.TruthLiteral true) }
    ensures no { Means no kind.Bool (body.TruthLiteral false) }
    ensures null { Means null kind.Null body.NullLiteral }
    ensures this { Means this (kind.Class 2) body.This }
    ensures parens { Means (written.Paren here seven) kind.Int (int 7) }
{}

/// Parameters in their order, the index, and what is bound nowhere.
pub fn names()
    ensures first { Means (name (codes "d")) (kind.Class 3) (body.Name 0) }
    ensures second { Means (name (codes "n")) kind.Text (body.Name 1) }
    ensures index { Means (name (codes "i")) kind.Int body.IndexName }
    ensures unknown { judged (inside 2) (name (codes "x")) ≡ Wrong code.UnknownName here }
{}

/// The operators on two ints, and the sign.
pub fn arithmetic()
    ensures add { Means (between written.Add seven two) kind.Int (body.Arithmetic body.Add (int 7) (int 2)) }
    ensures subtract { Means (between written.Subtract seven two) kind.Int (body.Arithmetic body.Subtract (int 7) (int 2)) }
    ensures multiply { Means (between written.Multiply seven two) kind.Int (body.Arithmetic body.Multiply (int 7) (int 2)) }
    ensures divide { Means (between written.Divide seven two) kind.Int (body.Arithmetic body.Divide (int 7) (int 2)) }
    ensures remainder { Means (between written.Remainder seven two) kind.Int (body.Arithmetic body.Remainder (int 7) (int 2)) }
    ensures negate { Means (written.Negate here (name (codes "i"))) kind.Int (body.Negate body.IndexName) }
{}

/// The four comparisons.
pub fn comparisons()
    ensures below { Means (between written.Below seven two) kind.Bool (body.Compare body.Below (int 7) (int 2)) }
    ensures at_most { Means (between written.AtMost seven two) kind.Bool (body.Compare body.AtMost (int 7) (int 2)) }
    ensures above { Means (between written.Above seven two) kind.Bool (body.Compare body.Above (int 7) (int 2)) }
    ensures at_least { Means (between written.AtLeast seven two) kind.Bool (body.Compare body.AtLeast (int 7) (int 2)) }
{}

/// `==` and `!=` of two ints, two truth values, two nodes, and null.
pub fn equality()
    ensures same { Means (between written.Same seven two) kind.Bool (body.Same (int 7) (int 2)) }
    ensures differs { Means (between written.Differs seven two) kind.Bool (body.Differ (int 7) (int 2)) }
    ensures truths { Means (between written.Same yes no) kind.Bool (body.Same (body.TruthLiteral true) (body.TruthLiteral false)) }
    ensures nodes { Means (between written.Same (name (codes "d")) this) kind.Bool (body.Same (body.Name 0) body.This) }
    ensures null { Means (between written.Differs (name (codes "d")) null) kind.Bool (body.Differ (body.Name 0) body.NullLiteral) }
{}

/// `!`, `&&` and `||`.
pub fn truth_values()
    ensures not { Means (written.Not here yes) kind.Bool (body.Not (body.TruthLiteral true)) }
    ensures and { Means (between written.And yes no) kind.Bool (body.And (body.TruthLiteral true) (body.TruthLiteral false)) }
    ensures or { Means (between written.Or yes no) kind.Bool (body.Or (body.TruthLiteral true) (body.TruthLiteral false)) }
{}

/// A text joined with a text, and with an int, and `equals`. Two texts are compared by no `==`.
pub fn texts()
    ensures join { Means (between written.Add (name (codes "n")) (text (codes "x"))) kind.Text (body.Join (body.Name 1) (body.TextLiteral (codes "x"))) }
    ensures join_int { Means (between written.Add (name (codes "n")) seven) kind.Text (body.JoinInt (body.Name 1) (int 7)) }
    ensures equals { Means (call_of (name (codes "n")) (codes "equals") (text (codes "x") ∷ [])) kind.Bool
        (body.Equals (body.Name 1) (body.TextLiteral (codes "x"))) }
    ensures same { judged (inside 2) (between written.Same (name (codes "n")) (name (codes "n"))) ≡ Wrong code.Kind here }
{}

/// `c ? a : b`, of the wider kind of the two.
pub fn choices()
    ensures ints { Means (choice yes seven two) kind.Int (body.Choose (body.TruthLiteral true) (int 7) (int 2)) }
    ensures below { Means (choice no (name (codes "d")) statement) (kind.Class 1)
        (body.Choose (body.TruthLiteral false) (body.Name 0) statement_body) }
    ensures above { Means (choice no statement (name (codes "d"))) (kind.Class 1)
        (body.Choose (body.TruthLiteral false) statement_body (body.Name 0)) }
    ensures null { Means (choice no null (name (codes "d"))) (kind.Class 3) (body.Choose (body.TruthLiteral false) body.NullLiteral (body.Name 0)) }
    ensures none { judged (inside 2) (choice no this (name (codes "d"))) ≡ Wrong code.Kind here }
{}

/// Casts and `instanceof`: the class is the one that is named.
pub fn classes()
    ensures cast { Means (cast (codes "Decl") statement) (kind.Class 3) (body.CastTo 3 statement_body) }
    ensures test { Means (test statement (codes "Decl")) kind.Bool (body.InstanceOf statement_body 3) }
{}

/// What the accessors of a node get: a child, one in an optional, an element of a list, tokens; whether an optional is filled, how
/// many elements a list has. A list itself is none of these.
pub fn accessors()
    ensures child { MeansIn 8 (call (codes "getRight") []) (kind.Class 5) (body.Child body.This 1) }
    ensures optional { MeansIn 3 (call (codes "getInit") []) (kind.Class 5) (body.Child body.This 1) }
    ensures element { Means (call (codes "getStmt") (seven ∷ [])) (kind.Class 1) (body.Element body.This 0 (int 7)) }
    ensures text { MeansIn 3 (call (codes "getID") []) kind.Text (body.TokenOf body.This 0) }
    ensures int { MeansIn 7 (call (codes "getValue") []) kind.Int (body.TokenOf body.This 0) }
    ensures has { MeansIn 3 (call (codes "hasInit") []) kind.Bool (body.Has body.This 1) }
    ensures count { Means (call (codes "getNumStmt") []) kind.Int (body.Count body.This 0) }
    ensures list { judged (inside 2) (call (codes "getStmtList") []) ≡ Wrong code.Kind here }
    ensures of_another { Means (call_of (name (codes "d")) (codes "getInit") []) (kind.Class 5) (body.Child (body.Name 0) 1) }
{}

/// Calls of attributes, of this node and of another one, with their arguments in their order.
pub fn calls()
    ensures own { Means (call (codes "local") (name (codes "n") ∷ [])) (kind.Class 3) (body.Call body.This 0 (arguments (body.Name 1 ∷ []))) }
    ensures of_another { Means (call_of statement (codes "covers") (name (codes "d") ∷ name (codes "n") ∷ [])) kind.Bool
        (body.Call statement_body 1 (arguments (body.Name 0 ∷ body.Name 1 ∷ []))) }
    ensures none { Means (call_of (call_of (name (codes "d")) (codes "getInit") []) (codes "value") []) kind.Int
        (body.Call (body.Child (body.Name 0) 1) 2 (arguments [])) }
{}

/// A text that is joined is no argument where only what was given is. Where what is computed may be passed it is looked at when it is
/// passed, and so is an int; a literal, a parameter that is a text, and a boolean are passed as they stand.
pub fn computed_arguments()
    ensures refused { judged (inside 2) (call (codes "local") (longer ∷ [])) ≡ Wrong code.Argument here }
    ensures text { MeansComputed (call (codes "local") (longer ∷ [])) (kind.Class 3)
        (body.Call body.This 0 (arguments (body.Passed longer_body ∷ []))) }
    ensures given { MeansComputed (call (codes "local") (name (codes "n") ∷ [])) (kind.Class 3) (body.Call body.This 0 (arguments (body.Name 1 ∷ []))) }
    ensures int { MeansComputed (call (codes "level") (name (codes "i") ∷ written.Not here yes ∷ [])) kind.Int
        (body.Call body.This 3 (arguments (body.Passed body.IndexName ∷ body.Not (body.TruthLiteral true) ∷ []))) }
    ensures literal { MeansComputed (call (codes "level") (seven ∷ no ∷ [])) kind.Int
        (body.Call body.This 3 (arguments (int 7 ∷ body.TruthLiteral false ∷ []))) }
    ensures other { judged (inside_with Computed 2) (call (codes "level") (yes ∷ no ∷ [])) ≡ Wrong code.Argument here }
{}

/// Folds over a list of this node, and of another one. The fold's name comes before the parameters.
pub fn folds()
    ensures exists { Means
        (fold written.Exists (call (codes "getStmtList") []) (call_of (name (codes "s")) (codes "covers") (name (codes "d") ∷ name (codes "n") ∷ []))) kind.Bool
        (body.Exists body.This 0 (body.Call (body.Name 0) 1 (arguments (body.Name 1 ∷ body.Name 2 ∷ [])))) }
    ensures first { Means (fold written.First (call (codes "getStmtList") []) (test (name (codes "s")) (codes "Print"))) (kind.Class 1)
        (body.First body.This 0 (body.InstanceOf (body.Name 0) 4)) }
    ensures sum { Means (fold written.Sum (call (codes "getStmtList") []) (name (codes "i"))) kind.Int (body.Sum body.This 0 body.IndexName) }
    ensures of_another { Means (fold written.Sum (call_of (cast (codes "Block") statement) (codes "getStmtList") []) seven) kind.Int
        (body.Sum (body.CastTo 2 statement_body) 0 (int 7)) }
{}

/// The body of an equation has the kind that is wanted, or one within it.
pub fn bodies()
    ensures within { body_of (inside 2) (name (codes "d")) (wanted.Known (known.Class 1)) ≡ Is (body.Name 0) }
    ensures other { body_of (inside 2) (name (codes "d")) (wanted.Known known.Int) ≡ Wrong code.Kind here }
{}
