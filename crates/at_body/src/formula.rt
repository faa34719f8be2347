//! Formulas of instances.

ghost use Rattle.std.specs.Prelude.{◌≡◌, ◌++◌, [], ◌∷◌, ℕ, IfSome, List, OnErr, OnOk, length, true};
ghost use Rattle.at_model.specs.Run.{Instance, Truth};
ghost use Rattle.at_model.specs.of_fixpoints.Formulas.{Formula as Meant, Asks, Known, is_known_as, is_surely};
ghost use Rattle.at_body.specs.Operators.{is_operator};
ghost use Rattle.at_body.specs.Pieces.{AreTwo, HasTop, IsMade, IsTop, combined, is_value, piled, put_together, stacked, top_of};
ghost use Rattle.at_body.specs.Stacked.{below};
ghost use Rattle.std.specs.Option.{MatchOption};

use super::inst::Inst;
use super::stack::Stack;
use std::alloc::{AllocError, Global};
use std::marker::Model;
use std::mem;

/// A piece of a formula: what is known, what is asked, or an operator on the two formulas in front of it.
#[derive(Debug, Drop)]
pub enum Piece {
    Known(bool),
    Asks(Inst),
    Both,
    Either,
}

/// A formula of instances, by its pieces, the operands before their operator. In one list it is let go without recursion, however
/// deep it is, and whoever goes over it once, with a stack, knows the operator above each piece.
#[derive(Debug, Drop)]
pub struct Formula {
    pieces: Vec<Piece>,
}

impl Model for Formula {
    ghost use Rattle.std.specs.Prelude.{◌≡◌, [], ◌∷◌, ℕ};
    ghost use Rattle.at_model.specs.of_fixpoints.Formulas.{Formula as Meant};
    ghost use Rattle.at_body.specs.Pieces.{formula_of, stacked};
    ghost use Rattle.at_body.specs.FormulaCodes.{formula_code};

    ghost Value = { Meant ℕ };

    ghost coded = { formula_code };

    ghost view = { λ f. formula_of f.pieces.items };

    ghost invariant = { λ f. stacked [] f.pieces.items ≡ formula_of f.pieces.items ∷ [] };
}

impl Formula {
    /// The formula of these pieces, the operands before their operator; none where they are those of no formula, or of several.
    pub fn of(pieces: Vec<Piece>) -> Option<Formula>
        ensures { IfSome result (λ f. stacked [] pieces.items ≡ f ∷ []) }
    {
        let count = formulas_in(pieces.as_slice())?;
        if count != 1 {
            return None;
        }
        Some(Formula { pieces })
    }

    /// Its pieces, the operands before their operator: its instances stand there from left to right.
    pub fn pieces(&self) -> &[Piece]
        ensures { stacked [] result.now ≡ self.now ∷ [] }
    {
        self.pieces.as_slice()
    }

    /// Its pieces, taken out.
    pub fn into_pieces(self) -> Vec<Piece>
        ensures { stacked [] result.items ≡ self ∷ [] }
    {
        self.pieces
    }
}

/// How many formulas the pieces are those of; none where an operator lacks an operand.
fn formulas_in(pieces: &[Piece]) -> Option<usize>
    ensures { IfSome result (λ n. length (stacked [] pieces.now) ≡ n) }
{
    let mut count = 0;
    for piece in pieces {
        count = with_piece(count, piece)?;
    }
    Some(count)
}

/// How many formulas there are with a piece more above so many; none where it is an operator that lacks an operand.
fn with_piece(count: usize, piece: &Piece) -> Option<usize>
    ensures { IfSome result (λ n. (fs : List (Meant ℕ)) → length fs ≡ count → length (piled piece.now fs) ≡ n) }
{
    if !is_operator(piece) {
        return count.checked_add(1);
    }
    if count < 2 {
        return None;
    }
    Some(count - 1)
}

/// Whether the piece is an operator.
fn is_operator(piece: &Piece) -> bool
    ensures { result ≡ is_operator piece.now }
{
    match piece {
        Piece::Known(_) => false,
        Piece::Asks(_) => false,
        Piece::Both => true,
        Piece::Either => true,
    }
}

/// What a formula surely is, whatever its instances have, and whether it is just a value.
#[derive(Clone, Copy)]
pub struct Surely {
    no: bool,
    yes: bool,
    known: bool,
}

impl Surely {
    /// Of a value.
    fn of_value(value: bool) -> Surely
        ensures { IsTop (Known (Truth value)) result }
    {
        Surely {
            no: !value,
            yes: value,
            known: true,
        }
    }

    /// Of an instance: nothing.
    fn of_instance() -> Surely
        ensures { (i : Instance ℕ) → IsTop (Asks i) result }
    {
        Surely {
            no: false,
            yes: false,
            known: false,
        }
    }

    /// Of both formulas, or of either of them.
    fn of_two(conjunction: bool, left: Surely, right: Surely) -> Surely
        ensures { (f g : Meant ℕ) → IsTop f left → IsTop g right → IsTop (combined conjunction f g) result }
    {
        if conjunction {
            return Surely {
                no: left.no || right.no,
                yes: left.yes && right.yes,
                known: false,
            };
        }
        Surely {
            no: left.no && right.no,
            yes: left.yes || right.yes,
            known: false,
        }
    }

    /// Whether it surely has the truth value.
    fn is(self, value: bool) -> bool
        ensures { (f : Meant ℕ) → IsTop f self → result ≡ is_surely value f }
    {
        if value {
            return self.yes;
        }
        self.no
    }

    /// Whether it is just that truth value.
    fn is_known_as(self, value: bool) -> bool
        ensures { (f : Meant ℕ) → IsTop f self → result ≡ is_known_as value f }
    {
        self.known && self.is(value)
    }
}

/// Formulas under way, the newest on top. The pieces of each stand behind those of the formulas below it.
#[derive(Drop)]
pub struct Pile {
    pieces: Vec<Piece>,
    surely: Stack<Surely>,
}

impl Model for Pile {
    ghost use Rattle.std.specs.Prelude.{[], List, ℕ};
    ghost use Rattle.at_model.specs.of_fixpoints.Formulas.{Formula as Meant};
    ghost use Rattle.at_body.specs.Pieces.{AreTops, stacked};
    ghost use Rattle.std.specs.Coded.{coded_list};
    ghost use Rattle.at_body.specs.FormulaCodes.{formula_code};

    ghost Value = { List (Meant ℕ) };

    ghost coded = { coded_list formula_code };

    ghost view = { λ p. stacked [] p.pieces.items };

    ghost invariant = { λ p. AreTops (stacked [] p.pieces.items) p.surely };
}

impl Pile {
    /// None.
    pub(crate) fn new(alloc: Global) -> Pile
        ensures { result ≡ [] }
    {
        Pile {
            pieces: Vec::new(alloc),
            surely: Stack::new(alloc),
        }
    }

    /// Takes all out; their memory stays.
    pub(crate) fn clear(&mut self)
        ensures { self.new ≡ [] }
    {
        self.pieces.clear();
        self.surely.clear();
    }

    /// Puts a value on top.
    pub(crate) fn push_known(&mut self, value: bool) -> Result<(), AllocError>
        ensures { OnOk result (self.new ≡ Known (Truth value) ∷ self.old) }
    {
        put(
            &mut self.pieces,
            &mut self.surely,
            Piece::Known(value),
            Surely::of_value(value),
        )
    }

    /// Puts an instance on top.
    pub(crate) fn push_asks(&mut self, inst: Inst) -> Result<(), AllocError>
        ensures { OnOk result (self.new ≡ Asks inst ∷ self.old) }
    {
        put(
            &mut self.pieces,
            &mut self.surely,
            Piece::Asks(inst),
            Surely::of_instance(),
        )
    }

    /// Whether the one on top surely has the truth value.
    pub(crate) fn is_surely(&self, value: bool) -> bool
        requires { HasTop self.now }
        ensures { result ≡ is_surely value (top_of self.now) }
    {
        match self.surely.get(0) {
            Some(top) => top.is(value),
            None => unreachable!(),
        }
    }

    /// Whether the one on top is just that truth value.
    pub(crate) fn is_known_as(&self, value: bool) -> bool
        requires { HasTop self.now }
        ensures { result ≡ is_known_as value (top_of self.now) }
    {
        match self.surely.get(0) {
            Some(top) => top.is_known_as(value),
            None => unreachable!(),
        }
    }

    /// Takes off the one on top, which is just a value.
    pub(crate) fn drop_known(&mut self)
        requires top { HasTop self.old }
        requires known { is_value (top_of self.old) ≡ true }
        ensures { self.new ≡ below self.old }
    {
        let _ = take_last(&mut self.pieces);
        let _ = self.surely.pop();
    }

    /// Puts both formulas on top together, or either of them; a value that leaves the other one to decide is left out.
    pub(crate) fn join(&mut self, conjunction: bool) -> Result<(), AllocError>
        requires { AreTwo self.old }
        ensures { OnOk result (self.new ≡ put_together conjunction self.old) }
    {
        let Some(right) = self.surely.pop() else {
            unreachable!()
        };
        if right.is_known_as(conjunction) {
            let _ = take_last(&mut self.pieces);
            return Ok(());
        }
        let Some(left) = self.surely.pop() else {
            unreachable!()
        };
        put(
            &mut self.pieces,
            &mut self.surely,
            operator(conjunction),
            Surely::of_two(conjunction, left, right),
        )
    }

    /// The one formula that is there, taken out.
    pub(crate) fn take(&mut self, alloc: Global) -> Formula
        requires { IsMade self.old }
        ensures { self.old ≡ result ∷ [] }
    {
        self.surely.clear();
        Formula {
            pieces: mem::replace(&mut self.pieces, Vec::new(alloc)),
        }
    }
}

/// Both formulas, or either of them.
fn operator(conjunction: bool) -> Piece
    ensures { (f g : Meant ℕ) (fs : List (Meant ℕ)) → piled result (g ∷ f ∷ fs) ≡ combined conjunction f g ∷ fs }
{
    if conjunction {
        return Piece::Both;
    }
    Piece::Either
}

/// Takes off the last piece.
fn take_last(pieces: &mut Vec<Piece>) -> Option<Piece>
    ensures { MatchOption result (pieces.old.items ≡ []) (λ p. pieces.old.items ≡ pieces.new.items ++ p ∷ []) }
{
    pieces.pop()
}

/// Puts a piece behind the others, and on top what its formula surely is. An error where memory is wanting; then nothing is left.
fn put(
    pieces: &mut Vec<Piece>,
    surely: &mut Stack<Surely>,
    piece: Piece,
    what: Surely,
) -> Result<(), AllocError>
    ensures pieces { OnOk result (pieces.new.items ≡ pieces.old.items ++ piece ∷ []) }
    ensures surely { OnOk result (surely.new ≡ what ∷ surely.old) }
    ensures no_pieces { OnErr result (pieces.new.items ≡ []) }
    ensures nothing { OnErr result (surely.new ≡ []) }
{
    if pieces.push(piece).is_ok() && surely.push(what).is_ok() {
        return Ok(());
    }
    pieces.clear();
    surely.clear();
    Err(AllocError)
}
