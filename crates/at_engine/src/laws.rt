//! Laws over the definitions: each is the contract of a function that does nothing.

ghost use Rattle.std.specs.Prelude.{◌≡◌, ℕ, Bool, Option, Some};
ghost use Rattle.at_model.specs.Meaning.{Among, Answer};
ghost use Rattle.at_model.specs.Rules.{Rules};
ghost use Rattle.at_model.specs.Run.{Contents, Instance};
ghost use Rattle.at_rules.specs.Circular.{HasNoneCircular};
ghost use Rattle.at_store.specs.Shown.{Shown};
ghost use Rattle.at_cache.specs.Kept.{Entries};
ghost use Rattle.at_cache.specs.Traced.{Memories, Trace};
ghost use Rattle.at_demand.specs.Answered.{HasWorthyFor};
ghost use Rattle.at_evaluate.specs.Sparing.{HasWorthy};
ghost use Rattle.at_demand.specs.Turns.{AreTurnsOfChain, BreaksOffChain, under_way};
ghost use Rattle.at_demand.specs.Went.{HasCause, IsAsked, asked};
ghost use Rattle.at_demand.specs.State.{State};
ghost use Rattle.at_demand.specs.declared.question.Question.{Question};
ghost use Rattle.at_engine.specs.Keeping.{KeepsWhole};
ghost use Rattle.at_engine.specs.Making.{WentOn, questions_of};
ghost use Rattle.at_engine.specs.Posted.{came_to};
ghost use Rattle.at_engine.specs.Stepping.{GoesBy, edits_in};
ghost use Rattle.at_engine.specs.Turning.{AreTurns, BreaksOff};
ghost use Rattle.at_engine.specs.declared.engine.Engine.{Engine};

use at_cache::Keeper;

/// Where no attribute is circular, turns are those of a question's chain.
pub fn turns_where_none_is_circular()
    ensures turns { (rules : Rules) → HasNoneCircular rules → (s : Shown) (m : Memories) (given : ℕ) (before after : Entries)
        (o : Option Question) (i : Instance ℕ) (end : Question) (a : Option (Answer ℕ)) → AreTurns rules s m given before o i after end a
        → AreTurnsOfChain rules s m given before (came_to o i) after (under_way end) a }
    ensures breaks { (rules : Rules) → HasNoneCircular rules → (s : Shown) (m : Memories) (limit : ℕ) (before after : Entries)
        (o : Option Question) (i : Instance ℕ)
        → BreaksOff rules s m limit before o i after → BreaksOffChain rules s m limit before (came_to o i) after }
{}

/// Where no attribute is circular, all that is worthy of a question is kept for each answer, and what belongs together is kept together, whether memory
/// ran out or not.
pub fn where_none_is_circular()
    ensures worthy { (rules : Rules) → HasNoneCircular rules → (look : Contents ℕ) (i : Instance ℕ) (a : Answer ℕ) (entries : Entries)
        → HasWorthyFor rules look i a entries → HasWorthy rules look i entries }
    ensures whole { (rules : Rules) → HasNoneCircular rules → (wants : Bool) → KeepsWhole rules wants }
{}

/// What could be kept again before lines and turns is made by a question behind them only if an edit that one of these lines made touched what
/// was looked at for its value, of the tree as it was then; or something that was used for it was put with another value, or a turn put it
/// itself; or one of these edits let go of it, where more was in memory than the engine's bound allowed, or much more than was kept.
pub fn what_is_made_behind_lines_has_a_cause<K: Keeper>()
    ensures { (old new : Engine K) (by : GoesBy K.contents K.memories old new) (later : State)
        (x : IsAsked (questions_of K.contents K.memories new) later) (i : Instance ℕ) (t : Trace)
        → (K.memories old.demand.keeper).traced i ≡ Some t → Among i x.makes.made
        → (w : WentOn K.contents K.memories (edits_in K.contents K.memories old new by) old new)
        × HasCause (questions_of K.contents K.memories old) i t (edits_in K.contents K.memories old new by) later
        (asked (questions_of K.contents K.memories new) later (edits_in K.contents K.memories old new by) w x) }
{}
