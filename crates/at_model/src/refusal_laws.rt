//! Laws of refusals: each is the contract of a function that does nothing.

ghost use Rattle.std.specs.Prelude.{◌≡◌, ◌≤◌, ◌<◌, ◌⊎◌, ℕ, Err, Ok, false, nat_le, true};
ghost use Rattle.at_model.specs.Classes.{Classes};
ghost use Rattle.at_model.specs.Trees.{Tree, nodes};
ghost use Rattle.at_model.specs.Edits.{Edit, Limit, Refusal, edited, edited_within, left_by};
ghost use Rattle.at_model.specs.Rules.{Rules};
ghost use Rattle.at_model.specs.Lines.{Line};
ghost use Rattle.at_model.specs.Replies.{Code};
ghost use Rattle.at_model.specs.Machine.{Refuses, State, verdict};
ghost use Rattle.at_model.specs.Refusing.{Applies, Breaks, number, rank};

/// An edit is refused for the first reason that there is, and where it leaves a tree there is none.
pub fn an_edit_is_refused_for_its_first_reason()
    ensures refused { (classes : Classes) (t : Tree) (e : Edit) (r : Refusal) → edited classes t e ≡ Err r
        → Breaks classes t e r × ((q : Refusal) → rank q < rank r → Breaks classes t e q → ⊥) }
    ensures accepted { (classes : Classes) (t : Tree) (e : Edit) (new : Tree) → edited classes t e ≡ Ok new
        → ((r : Refusal) → Breaks classes t e r → ⊥) × (left_by t e ≡ new) }
{}

/// With more room what was accepted is accepted, and leaves the same tree. What is left where a tree may have so many nodes is what
/// the edit leaves anyhow, and has no more; and what is refused is refused anyhow, or would have more.
pub fn more_room_accepts_more()
    ensures more { (n m : ℕ) (classes : Classes) (t : Tree) (e : Edit) (u : Tree) → edited_within n classes t e ≡ Ok u → n ≤ m
        → edited_within m classes t e ≡ Ok u }
    ensures same { (n : ℕ) (classes : Classes) (t : Tree) (e : Edit) (u : Tree) → edited_within n classes t e ≡ Ok u
        → (edited classes t e ≡ Ok u) × (nat_le (nodes u) n ≡ true) }
    ensures accepted { (n : ℕ) (classes : Classes) (t : Tree) (e : Edit) (u : Tree) → edited classes t e ≡ Ok u → nat_le (nodes u) n ≡ true
        → edited_within n classes t e ≡ Ok u }
    ensures refused { (n : ℕ) (classes : Classes) (t : Tree) (e : Edit) (r : Refusal) → edited_within n classes t e ≡ Err r
        → (edited classes t e ≡ Err r) ⊎ ((u : Tree) × (r ≡ Limit) × (edited classes t e ≡ Ok u) × (nat_le (nodes u) n ≡ false)) }
{}

/// The code by which a line is refused applies to it, and none of a lower number does; and no code applies to a line
/// that isn't refused.
pub fn a_line_is_refused_for_its_first_reason()
    ensures refused { (rules : Rules) (s : State) (l : Line) (c : Code) → verdict rules s l ≡ Refuses c
        → Applies rules s l c × ((d : Code) → number d < number c → Applies rules s l d → ⊥) }
    ensures accepted { (rules : Rules) (s : State) (l : Line) → ((c : Code) → verdict rules s l ≡ Refuses c → ⊥)
        → (c : Code) → Applies rules s l c → ⊥ }
{}
