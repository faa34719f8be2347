//! Laws of open questions: each is the contract of a function that does nothing.

ghost use Rattle.std.specs.Prelude.{◌≡◌, [], Bool, List, Option, Some, ℕ};
ghost use Rattle.std.specs.List.{AllByRecursion};
ghost use Rattle.at_model.specs.Edits.{Edit};
ghost use Rattle.at_model.specs.Trees.{Tree};
ghost use Rattle.at_model.specs.Rules.{Rules};
ghost use Rattle.at_model.specs.Replies.{Reply};
ghost use Rattle.at_model.specs.Lines.{Line};
ghost use Rattle.at_model.specs.Enduring.{IsOrderly};
ghost use Rattle.at_model.specs.Machine.{Answered, Edits, Given, Posted, State, Turns, Waits, after, line_of, seen_by, verdict};
ghost use Rattle.at_model.specs.Waited.{IsWaited};

/// After an edit each open question has been given no turn.
pub fn an_edit_begins_the_count_anew()
    ensures { (s : State) (e : Edit) (t : Tree) → AllByRecursion (λ q. q.turns ≡ 0) (after s (Edits e t)).posted }
{}

/// Turns change nothing but the open questions.
pub fn turns_change_open_questions_alone()
    ensures turn { (rules : Rules) (old : State) (number : ℕ) (new : State) (said : Option (Bool × Reply))
        → Turns rules old number new said → new ≡ record old { posted = new.posted } }
    ensures turns { (rules : Rules) (limit : ℕ) (old : State) (told : List (Bool × Reply)) (new : State)
        → Given rules limit old told new → new ≡ record old { posted = new.posted } }
{}

/// Where no question is open, turns tell nothing and change nothing.
pub fn no_turns_where_no_question_is_open()
    ensures { (rules : Rules) (limit : ℕ) (s new : State) (told : List (Bool × Reply)) → s.posted ≡ [] → Given rules limit s told new → (told ≡ [])
        × (new ≡ s) }
{}

/// However many turns a question needs while its session waits, it is then no longer open, nothing else has changed, and it is
/// answered as it would have been at once, or for want of memory.
pub fn what_is_waited_for_is_answered_as_asked()
    ensures { (rules : Rules) (number : ℕ) (old new : State) (said : Bool × Reply) → Answered rules number old new said → IsWaited rules number old new said }
{}

/// A session that waits is told the answer to a question of its own.
pub fn who_waits_is_told()
    ensures { (rules : Rules) (old : State) (l : Line) (number : ℕ) (new : State) (said : Bool × Reply) → IsOrderly old
        → verdict rules old l ≡ Waits number → Answered rules number old new said → said.1.session ≡ Some l.session }
{}

/// What becomes of an open question's words rests on the tree and on its own marks alone: so it stays over every line but an edit.
pub fn words_are_judged_by_the_tree()
    ensures { (rules : Rules) (s t : State) (q : Posted) → t.tree ≡ s.tree → verdict rules (seen_by q t) (line_of q) ≡ verdict rules (seen_by q s) (line_of q) }
{}
