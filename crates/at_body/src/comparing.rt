//! Texts that are compared where they stand.

ghost use Rattle.std.specs.Prelude.{◌≡◌, ◌<◌, ◌+◌, ◌-◌, ◌++◌, [], ◌∷◌, ℕ, List, bytes_eq, length, map, IfOk, IfSome, OnOk};
ghost use Rattle.at_model.specs.Bodies.{Name, TokenOf, named};
ghost use Rattle.at_model.specs.Classes.{Classes};
ghost use Rattle.at_model.specs.Rules.{Rules as Meant};
ghost use Rattle.at_model.specs.Run.{Contents, Gives, Text, Tok, Truth};
ghost use Rattle.at_model.specs.TypedRuns.{ClassAt};
ghost use Rattle.at_store.specs.Shown.{contents, IsIdle};
ghost use Rattle.at_rules.specs.Bodies.{body_view};
ghost use Rattle.at_body.specs.declared.todo.Todo.TheVariants.{Right};
ghost use Rattle.at_body.specs.Comparing.{AreTexts, IsComparison, IsLent, ReadsAs, IsToken, looks};
ghost use Rattle.at_body.specs.Rest.{GoesOn, evaluated_for, load, place_of, weight, with_two};
ghost use Rattle.at_body.specs.Size.{size};
ghost use Rattle.at_body.specs.Typed.{Enters, IsOver, IsTypedNow};
ghost use Rattle.at_body.specs.Values.{value_view};

use super::calling::own_part;
use super::reads::Reads;
use super::starting::node_in;
use super::todo::{Binary, Now};
use super::trial::{Trial, at};
use super::value::Value;
use at_rules::Body;
use at_store::{Loc, Node, Store, Token};
use std::alloc::AllocError;

/// What is looked at for a text.
#[derive(Clone, Copy)]
pub enum Looked {
    Nothing,
    /// The token of the node.
    Token(Node, usize),
    /// The component of the node, and the token of its child there.
    OfChild(Node, usize, Node, usize),
}

/// A text where it stands, and what is looked at for it.
#[derive(Clone, Copy)]
pub struct Lent<'a> {
    text: &'a str,
    looked: Looked,
}

/// Whether two texts are the same, and what is looked at for each.
#[derive(Drop)]
pub struct Compared {
    same: bool,
    left: Looked,
    right: Looked,
}

impl<'a> Trial<'a> {
    /// Compares two values. Texts that are tokens of nodes at hand, literals and arguments are compared where they stand.
    pub(crate) fn compared(
        &mut self,
        store: &'a Store,
        comparison: Binary,
        left: &'a Body,
        right: &'a Body,
    ) -> Result<Now<'a>, AllocError>
        requires idle_store { IsIdle store.now }
        requires compares { IsComparison comparison }
        requires typed { (meant : Meant) × (at : ClassAt ℕ) × IsOver meant at (contents store.now)
            × Enters meant at (record self.old { todo = Right comparison right ∷ self.old.todo }) left.now }
        ensures same { (classes : Classes)
            → IfOk result (λ now. GoesOn (contents store.now) classes self.old.reads
            (evaluated_for classes self.old (Right comparison right.entry) (body_view left.now)) now self.new) }
        ensures less { IfOk result (λ now. weight now self.new < size (body_view left.now) + size (body_view right.now) + 3 + load self.old.todo) }
        ensures typed { (meant : Meant) (at : ClassAt ℕ) → IsOver meant at (contents store.now)
            → Enters meant at (record self.old { todo = Right comparison right.entry ∷ self.old.todo }) left.now
            → IfOk result (λ now. IsTypedNow meant at now self.new) }
    {
        let texts = self.same_texts(store, left, right)?;
        match texts {
            Some(same) => Ok(Now::Back(Value::Bool(tells(&comparison, same)))),
            None => self.operands(store, comparison, left, right),
        }
    }

    /// Whether the expressions stand for the same text, where both texts are lent; what they stand for is looked at then.
    fn same_texts(
        &mut self,
        store: &'a Store,
        left: &Body,
        right: &Body,
    ) -> Result<Option<bool>, AllocError>
        requires idle_store { IsIdle store.now }
        ensures { IfOk result (AreTexts (contents store.now) (body_view left.now) (body_view right.now) self.old self.new) }
    {
        let Some(found) = self.texts(store, left, right) else {
            return Ok(None);
        };
        note(&mut self.reads, found.left)?;
        note(&mut self.reads, found.right)?;
        Ok(Some(found.same))
    }

    /// The texts that the expressions stand for, compared; none where one isn't lent.
    fn texts<'s>(&'s self, store: &'s Store, left: &'s Body, right: &'s Body) -> Option<Compared>
        requires idle_store { IsIdle store.now }
        ensures { IfSome result (λ c. (v : List ℕ) × (w : List ℕ) × (c.same ≡ bytes_eq v w)
            × IsLent (contents store.now) (body_view left.now) (place_of self.now) v (looks c.left)
            × IsLent (contents store.now) (body_view right.now) (place_of self.now) w (looks c.right)) }
    {
        let Some(first) = self.lent(store, left) else {
            return None;
        };
        let Some(second) = self.lent(store, right) else {
            return None;
        };
        Some(Compared {
            same: first.text == second.text,
            left: first.looked,
            right: second.looked,
        })
    }

    /// The text that the expression stands for, where it is a literal, an argument or a token of a node at hand.
    fn lent<'s>(&'s self, store: &'s Store, body: &'s Body) -> Option<Lent<'s>>
        requires idle_store { IsIdle store.now }
        ensures { IfSome result (λ l. IsLent (contents store.now) (body_view body.now) (place_of self.now) l.text.now (looks l.looked)) }
    {
        match body {
            Body::Text(text) => Some(Lent {
                text: text.as_str(),
                looked: Looked::Nothing,
            }),
            Body::Name(position) => self.lent_name(*position),
            Body::TokenOf(node, part) => self.lent_token(store, node, *part),
            _ => None,
        }
    }

    /// The text that a name stands for; none of an element, and of an argument that is no text.
    fn lent_name(&self, position: usize) -> Option<Lent<'_>>
        ensures { (look : Contents ℕ) → IfSome result (λ l. IsLent look (Name position) (place_of self.now) l.text.now (looks l.looked)) }
    {
        match self.bound.get(position) {
            Some(_) => None,
            None => self.lent_argument(position),
        }
    }

    /// The text of the argument that a name behind those of the folds stands for; none where it is no text.
    fn lent_argument(&self, position: usize) -> Option<Lent<'_>>
        ensures { IfSome result (λ l. (looks l.looked ≡ [])
            × ReadsAs (named (map value_view self.now.arguments) (position - length self.now.bound)) l.text.now) }
    {
        let passed = position.saturating_sub(self.bound.len());
        let Some(argument) = at(self.arguments.as_slice(), passed) else {
            return None;
        };
        let Some(text) = text_in(argument) else {
            return None;
        };
        Some(Lent {
            text,
            looked: Looked::Nothing,
        })
    }

    /// The text of a token of `this`, of an element, or of a child of `this`; none of another node, and of a token that is no text.
    fn lent_token<'s>(&'s self, store: &'s Store, node: &Body, part: usize) -> Option<Lent<'s>>
        requires idle_store { IsIdle store.now }
        ensures { IfSome result (λ l. IsLent (contents store.now) (TokenOf (body_view node.now) part) (place_of self.now) l.text.now (looks l.looked)) }
    {
        match self.at_hand(node) {
            Some(value) => {
                let Some(near) = node_in(&value) else {
                    return None;
                };
                lent_at_hand(store, near, part)
            }
            None => self.lent_child(store, node, part),
        }
    }

    /// The text of a token of a child of `this`; none of another node, and of a token that is no text.
    fn lent_child<'s>(&'s self, store: &'s Store, node: &Body, part: usize) -> Option<Lent<'s>>
        requires idle_store { IsIdle store.now }
        ensures { IfSome result (λ l. IsLent (contents store.now) (TokenOf (body_view node.now) part) (place_of self.now) l.text.now (looks l.looked)) }
    {
        let Some(slot) = own_part(node) else {
            return None;
        };
        let Some(child) = store.child(self.this, slot) else {
            return None;
        };
        let Some(text) = token_text(store, child, part) else {
            return None;
        };
        Some(Lent {
            text,
            looked: Looked::OfChild(self.this, slot, child, part),
        })
    }
}

/// The text of a token of a node; none where it is no text.
fn lent_at_hand(store: &Store, node: Node, part: usize) -> Option<Lent<'_>>
    requires idle_store { IsIdle store.now }
    ensures { IfSome result (λ l. (looks l.looked ≡ Tok node part ∷ []) × IsToken (contents store.now) node part l.text.now) }
{
    let Some(text) = token_text(store, node, part) else {
        return None;
    };
    Some(Lent {
        text,
        looked: Looked::Token(node, part),
    })
}

/// The text of a token; none where it is no text.
pub fn token_text(store: &Store, node: Node, part: usize) -> Option<&str>
    requires idle_store { IsIdle store.now }
    ensures { IfSome result (λ text. IsToken (contents store.now) node part text.now) }
{
    match store.token(node, part) {
        Token::Str(text, _) => Some(text),
        Token::Int(_) | Token::Bool(_) => None,
    }
}

/// The text that a value is; none where it is no text.
pub fn text_in(value: &Value) -> Option<&str>
    ensures { IfSome result (λ text. ReadsAs (value_view value.now) text.now) }
{
    match value {
        Value::Text(text) => Some(text.as_ref().as_str()),
        Value::Int(_) | Value::Bool(_) | Value::Ref(_) => None,
    }
}

/// Notes what is looked at for a text.
fn note(reads: &mut Reads, looked: Looked) -> Result<(), AllocError>
    ensures { OnOk result (reads.new ≡ reads.old ++ looks looked) }
{
    match looked {
        Looked::Nothing => Ok(()),
        Looked::Token(node, part) => {
            reads.push(Loc::Tok(node, part))?;
            Ok(())
        }
        Looked::OfChild(node, slot, child, part) => {
            reads.push(Loc::Slot(node, slot))?;
            reads.push(Loc::Tok(child, part))?;
            Ok(())
        }
    }
}

/// What a comparison of two texts tells, by whether they are the same.
pub fn tells(comparison: &Binary, same: bool) -> bool
    requires { IsComparison comparison.now }
    ensures { (v w : List ℕ) → same ≡ bytes_eq v w → with_two comparison.now (Text v) (Text w) ≡ Gives (Truth result) }
{
    match comparison {
        Binary::Same | Binary::Equals => same,
        Binary::Differ => !same,
        _ => unreachable!(),
    }
}
