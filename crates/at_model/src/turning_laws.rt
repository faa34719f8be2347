//! Laws of questions that are given turns: each is the contract of a function that does nothing.

ghost use Rattle.std.specs.Prelude.{◌≡◌, ◌≤◌, ◌+◌, ◌*◌, None, Option, Some, length, ℕ};
ghost use Rattle.at_model.specs.Asking.{IsWellFormed};
ghost use Rattle.at_model.specs.Instances.{instances};
ghost use Rattle.at_model.specs.Meaning.{Answer, Answers, Equations, content, equations};
ghost use Rattle.at_model.specs.Paths.{Node};
ghost use Rattle.at_model.specs.Rules.{Rules};
ghost use Rattle.at_model.specs.Run.{Contents, Instance, Known};
ghost use Rattle.at_model.specs.Trees.{Tree};
ghost use Rattle.at_model.specs.Turning.{IsOn, Silent, Turned, UnderWay, posted, turns_of};
ghost use Rattle.at_model.specs.WellFormed.{AreWellFormed, IsTreeSound};

/// After so many turns without an answer, whatever is kept at each of them, twice the number of the instances there are is
/// at least two more than the turns. So a question that was given that many turns is answered by the next one.
pub fn a_question_has_few_turns()
    ensures { (rules : Rules) → AreWellFormed rules → (t : Tree) → IsTreeSound rules.classes t → (q : Instance Node) → IsWellFormed rules t q
        → (n : ℕ) (u : UnderWay Node) → Silent (content t) (equations rules) n (posted q) u → n + 2 ≤ 2 * length (instances rules t q.arguments) }
{}

/// A question as it is posted, and after each turn, is a chain of demands with values that hold, and no instance stands twice
/// in it.
pub fn a_turn_leaves_a_question_on_its_tree()
    ensures begun { (look : Contents Node) (equation : Equations Node) (q : Instance Node) → IsOn look equation q (posted q) }
    ensures stays { (look : Contents Node) (equation : Equations Node) (q : Instance Node) (kept : Known Node)
        (u new : UnderWay Node) (o : Option (Answer Node))
        → IsOn look equation q u → Turned look equation kept u new o → IsOn look equation q new }
{}

/// A turn without an answer counts one, and at the post the count is 0: so how many there were is read off the question.
pub fn a_turn_counts_one()
    ensures none { (q : Instance Node) → turns_of (posted q) ≡ 0 }
    ensures one { (look : Contents Node) (equation : Equations Node) (kept : Known Node) (u new : UnderWay Node) → Turned look equation kept u new None
        → turns_of new ≡ turns_of u + 1 }
{}

/// What a turn answers is the answer that the equations give the question.
pub fn an_answer_is_that_of_the_question()
    ensures { (look : Contents Node) (equation : Equations Node) (q : Instance Node) (kept : Known Node) (u new : UnderWay Node) (a : Answer Node)
        → IsOn look equation q u → Turned look equation kept u new (Some a) → Answers look equation q a }
{}
