//! What is done with one value, and with two.

ghost use Rattle.std.specs.Prelude.{◌≡◌, ◌++◌, ◌+◌, ℕ, List, length, nat_le, string_bytes, IfOk};
ghost use Rattle.std.specs.Fmt.{signed_decimal};
ghost use Rattle.at_model.specs.Classes.{Classes};
ghost use Rattle.at_model.specs.Run.{Contents, Int, Ref, Text};
ghost use Rattle.at_model.specs.Bodies.{max_text, int_of, text_of, computed, joined, passed, is_in_order, element_at, child_of, element_of, count_of, has_of, token_of, is_instance, cast_to};
ghost use Rattle.at_store.specs.Shown.{contents, IsIdle};
ghost use Rattle.at_body.specs.Typed.{AreOperands, ComesTo, IsOperand};
ghost use Rattle.at_body.specs.ValueKinds.{IsInt, IsRef};
ghost use Rattle.at_body.specs.Values.{value_view};
ghost use Rattle.at_rules.specs.Bodies.{operator_view, order_view};
ghost use Rattle.at_body.specs.declared.trial.Trial.{Trial};
ghost use Rattle.at_body.specs.Rest.{GoesOn, OnlyReads, rest, weight, onto, load, with_one, with_two};

use super::todo::{Binary, Now, Unary};
use super::trial::Trial;
use super::value::{FaultKind, Value};
use at_class::ClassId;
use at_rules::{Operator, Order, Rules};
use at_store::{Loc, Node, Store};
use itoa::Buffer;
use std::alloc::AllocError;

/// The most bytes that a text has.
const MAX_TEXT: usize = 65535;

impl<'a> Trial<'a> {
    /// What is done with one value.
    #[inline(always)]
    pub(crate) fn unary(
        &mut self,
        rules: &'a Rules,
        store: &'a Store,
        unary: Unary,
        value: &Value,
    ) -> Result<Now<'a>, AllocError>
        requires idle_store { IsIdle store.now }
        requires operand { IsOperand unary (value_view value.now) }
        ensures same { IfOk result (λ now. GoesOn (contents store.now) rules.now.classes self.old.reads
            (onto rules.now.classes self.old (with_one rules.now.classes unary (value_view value.now))) now self.new) }
        ensures less { IfOk result (λ now. weight now self.new ≡ load self.old.todo) }
        ensures told { IfOk result (λ now. ComesTo (contents store.now) (with_one rules.now.classes unary (value_view value.now)) now
            × OnlyReads self.old self.new) }
    {
        match unary {
            Unary::Negate => Ok(Now::Back(value.negated())),
            Unary::Not => Ok(Now::Back(Value::Bool(!value.truth()))),
            Unary::InstanceOf(class) => self.instance_of(rules, store, class, value.node()),
            Unary::CastTo(class) => self.cast_to(rules, store, class, value.node()),
            Unary::Child(part) => self.child(store, part, value.node()),
            Unary::Count(part) => self.count(store, part, value.node()),
            Unary::Has(part) => self.has(store, part, value.node()),
            Unary::Token(part) => self.token(store, part, value.node()),
            Unary::Passed => passed(value),
        }
    }

    /// What is done with two values.
    #[inline(always)]
    pub(crate) fn binary(
        &mut self,
        store: &'a Store,
        binary: Binary,
        left: Value,
        right: &Value,
    ) -> Result<Now<'a>, AllocError>
        requires idle_store { IsIdle store.now }
        requires operands { AreOperands binary (value_view left) (value_view right.now) }
        ensures same { (classes : Classes)
            → IfOk result (λ now. GoesOn (contents store.now) classes self.old.reads
            (onto classes self.old (with_two binary (value_view left) (value_view right.now))) now self.new) }
        ensures less { IfOk result (λ now. weight now self.new ≡ load self.old.todo) }
        ensures told { IfOk result (λ now. ComesTo (contents store.now) (with_two binary (value_view left) (value_view right.now)) now
            × OnlyReads self.old self.new) }
    {
        match binary {
            Binary::Arithmetic(operator) => Ok(computed(operator, left.int(), right.int())),
            Binary::Compare(order) => {
                Ok(Now::Back(Value::Bool(is_in_order(order, left.int(), right.int()))))
            }
            Binary::Join => joined(left.into_text()?, right.text()),
            Binary::JoinInt => joined_int(left.into_text()?, right),
            Binary::Same => Ok(Now::Back(Value::Bool(left.is_same(right)))),
            Binary::Differ => Ok(Now::Back(Value::Bool(!left.is_same(right)))),
            Binary::Equals => Ok(Now::Back(Value::Bool(left.text() == right.text()))),
            Binary::Element(part) => self.element(store, part, &left, right),
        }
    }

    /// What is done with two values, of which the right one is an int.
    pub(crate) fn with_int(
        &mut self,
        store: &'a Store,
        binary: Binary,
        left: Value,
        right: &i32,
    ) -> Result<Now<'a>, AllocError>
        requires idle_store { IsIdle store.now }
        requires operands { AreOperands binary (value_view left) (Int right.now) }
        ensures same { (classes : Classes)
            → IfOk result (λ now. GoesOn (contents store.now) classes self.old.reads
            (onto classes self.old (with_two binary (value_view left) (Int right.now))) now self.new) }
        ensures less { IfOk result (λ now. weight now self.new ≡ load self.old.todo) }
        ensures told { IfOk result (λ now. ComesTo (contents store.now) (with_two binary (value_view left) (Int right.now)) now × OnlyReads self.old self.new) }
    {
        match binary {
            Binary::Arithmetic(operator) => Ok(computed(operator, left.int(), *right)),
            Binary::Compare(order) => {
                Ok(Now::Back(Value::Bool(is_in_order(order, left.int(), *right))))
            }
            _ => {
                let value = int_value(right);
                self.binary(store, binary, left, &value)
            }
        }
    }

    /// Whether it is a node of that class or below.
    fn instance_of(
        &mut self,
        rules: &'a Rules,
        store: &'a Store,
        class: ClassId,
        node: Option<Node>,
    ) -> Result<Now<'a>, AllocError>
        requires idle_store { IsIdle store.now }
        ensures same { IfOk result (λ now. GoesOn (contents store.now) rules.now.classes self.old.reads
            (onto rules.now.classes self.old (is_instance rules.now.classes class node)) now self.new) }
        ensures less { IfOk result (λ now. weight now self.new ≡ load self.old.todo) }
        ensures told { IfOk result (λ now. ComesTo (contents store.now) (is_instance rules.now.classes class node) now × OnlyReads self.old self.new) }
    {
        match node {
            Some(node) => {
                self.reads.push(Loc::Is(node))?;
                Ok(Now::Back(Value::Bool(rules.classes().is_sub(store.class(node), class))))
            }
            None => Ok(Now::Back(Value::Bool(false))),
        }
    }

    /// The node of that class or below, null, or a fault.
    fn cast_to(
        &mut self,
        rules: &'a Rules,
        store: &'a Store,
        class: ClassId,
        node: Option<Node>,
    ) -> Result<Now<'a>, AllocError>
        requires idle_store { IsIdle store.now }
        ensures same { IfOk result (λ now. GoesOn (contents store.now) rules.now.classes self.old.reads
            (onto rules.now.classes self.old (cast_to rules.now.classes class node)) now self.new) }
        ensures less { IfOk result (λ now. weight now self.new ≡ load self.old.todo) }
        ensures told { IfOk result (λ now. ComesTo (contents store.now) (cast_to rules.now.classes class node) now × OnlyReads self.old self.new) }
    {
        match node {
            Some(node) => {
                self.reads.push(Loc::Is(node))?;
                if rules.classes().is_sub(store.class(node), class) {
                    return Ok(Now::Back(Value::Ref(Some(node))));
                }
                Ok(Now::Fail(FaultKind::Cast))
            }
            None => Ok(Now::Back(Value::Ref(None))),
        }
    }

    /// The child, or a fault.
    fn child(
        &mut self,
        store: &'a Store,
        part: usize,
        node: Option<Node>,
    ) -> Result<Now<'a>, AllocError>
        requires idle_store { IsIdle store.now }
        ensures same { (classes : Classes)
            → IfOk result (λ now. GoesOn (contents store.now) classes self.old.reads (onto classes self.old (child_of part (Ref node))) now self.new) }
        ensures less { IfOk result (λ now. weight now self.new ≡ load self.old.todo) }
        ensures told { IfOk result (λ now. ComesTo (contents store.now) (child_of part (Ref node)) now × OnlyReads self.old self.new) }
    {
        match node {
            Some(node) => {
                self.reads.push(Loc::Slot(node, part))?;
                match store.child(node, part) {
                    Some(child) => Ok(Now::Back(Value::Ref(Some(child)))),
                    None => Ok(Now::Fail(FaultKind::Absent)),
                }
            }
            None => Ok(Now::Fail(FaultKind::Null)),
        }
    }

    /// How many nodes are in a component, or a fault.
    fn count(
        &mut self,
        store: &'a Store,
        part: usize,
        node: Option<Node>,
    ) -> Result<Now<'a>, AllocError>
        requires idle_store { IsIdle store.now }
        ensures same { (classes : Classes)
            → IfOk result (λ now. GoesOn (contents store.now) classes self.old.reads (onto classes self.old (count_of part (Ref node))) now self.new) }
        ensures less { IfOk result (λ now. weight now self.new ≡ load self.old.todo) }
        ensures told { IfOk result (λ now. ComesTo (contents store.now) (count_of part (Ref node)) now × OnlyReads self.old self.new) }
    {
        match node {
            Some(node) => {
                self.reads.push(Loc::Slot(node, part))?;
                Ok(Now::Back(Value::of_count(store.children(node, part).len())))
            }
            None => Ok(Now::Fail(FaultKind::Null)),
        }
    }

    /// Whether there is a node in a component, or a fault.
    fn has(
        &mut self,
        store: &'a Store,
        part: usize,
        node: Option<Node>,
    ) -> Result<Now<'a>, AllocError>
        requires idle_store { IsIdle store.now }
        ensures same { (classes : Classes)
            → IfOk result (λ now. GoesOn (contents store.now) classes self.old.reads (onto classes self.old (has_of part (Ref node))) now self.new) }
        ensures less { IfOk result (λ now. weight now self.new ≡ load self.old.todo) }
        ensures told { IfOk result (λ now. ComesTo (contents store.now) (has_of part (Ref node)) now × OnlyReads self.old self.new) }
    {
        match node {
            Some(node) => {
                self.reads.push(Loc::Slot(node, part))?;
                Ok(Now::Back(Value::Bool(store.children(node, part).len() > 0)))
            }
            None => Ok(Now::Fail(FaultKind::Null)),
        }
    }

    /// The token, or a fault.
    fn token(
        &mut self,
        store: &'a Store,
        part: usize,
        node: Option<Node>,
    ) -> Result<Now<'a>, AllocError>
        requires idle_store { IsIdle store.now }
        ensures same { (classes : Classes)
            → IfOk result (λ now. GoesOn (contents store.now) classes self.old.reads (onto classes self.old (token_of part (Ref node))) now self.new) }
        ensures less { IfOk result (λ now. weight now self.new ≡ load self.old.todo) }
        ensures told { IfOk result (λ now. ComesTo (contents store.now) (token_of part (Ref node)) now × OnlyReads self.old self.new) }
    {
        match node {
            Some(node) => {
                self.reads.push(Loc::Tok(node, part))?;
                Ok(Now::Back(Value::of_token(store.token(node, part))?))
            }
            None => Ok(Now::Fail(FaultKind::Null)),
        }
    }

    /// The element at an index, or a fault.
    fn element(
        &mut self,
        store: &'a Store,
        part: usize,
        node: &Value,
        index: &Value,
    ) -> Result<Now<'a>, AllocError>
        requires idle_store { IsIdle store.now }
        requires node { IsRef (value_view node.now) }
        requires index { IsInt (value_view index.now) }
        ensures same { (classes : Classes)
            → IfOk result (λ now. GoesOn (contents store.now) classes self.old.reads
            (onto classes self.old (element_of part (value_view node.now) (value_view index.now))) now self.new) }
        ensures less { IfOk result (λ now. weight now self.new ≡ load self.old.todo) }
        ensures told { IfOk result (λ now. ComesTo (contents store.now) (element_of part (value_view node.now) (value_view index.now)) now
            × OnlyReads self.old self.new) }
    {
        match node.node() {
            Some(node) => {
                self.reads.push(Loc::Slot(node, part))?;
                match element_at(store.children(node, part), index.int()) {
                    Some(element) => Ok(Now::Back(Value::Ref(Some(element)))),
                    None => Ok(Now::Fail(FaultKind::Index)),
                }
            }
            None => Ok(Now::Fail(FaultKind::Null)),
        }
    }
}

/// The value of an int.
pub(crate) fn int_value(number: &i32) -> Value
    ensures { value_view result ≡ Int number.now }
{
    Value::Int(*number)
}

/// The value of a text. An error where memory is wanting.
pub(crate) fn text_value(text: &String) -> Result<Value, AllocError>
    ensures { IfOk result (λ v. value_view v ≡ Text (string_bytes text.now)) }
{
    Value::of_text(text.clone()?)
}

/// What an operator gives.
fn computed<'a>(operator: Operator, left: i32, right: i32) -> Now<'a>
    ensures same { (classes : Classes) (t : Trial) → onto classes t (computed (operator_view operator) left right) ≡ rest classes result t }
    ensures less { (t : Trial) → weight result t ≡ load t.todo }
    ensures told { (look : Contents ℕ) → ComesTo look (computed (operator_view operator) left right) result }
{
    match operator {
        Operator::Multiply => Now::Back(Value::Int(left.wrapping_mul(right))),
        Operator::Add => Now::Back(Value::Int(left.wrapping_add(right))),
        Operator::Subtract => Now::Back(Value::Int(left.wrapping_sub(right))),
        Operator::Divide => match right {
            0 => Now::Fail(FaultKind::Zero),
            divisor => Now::Back(Value::Int(left.wrapping_div(divisor))),
        },
        Operator::Remainder => match right {
            0 => Now::Fail(FaultKind::Zero),
            divisor => Now::Back(Value::Int(left.wrapping_rem(divisor))),
        },
    }
}

/// The value, or the fault of an int that is too far from 0 and of a text that is too long to be passed.
fn passed<'a>(value: &Value) -> Result<Now<'a>, AllocError>
    ensures same { (classes : Classes) (t : Trial) → IfOk result (λ now. onto classes t (passed (value_view value.now)) ≡ rest classes now t) }
    ensures less { (t : Trial) → IfOk result (λ now. weight now t ≡ load t.todo) }
    ensures told { (look : Contents ℕ) → IfOk result (λ now. ComesTo look (passed (value_view value.now)) now) }
{
    if value.may_pass() {
        Ok(Now::Back(value.copy()?))
    } else {
        Ok(Now::Fail(FaultKind::Long))
    }
}

/// Whether the comparison holds.
fn is_in_order(order: Order, left: i32, right: i32) -> bool
    ensures { result ≡ is_in_order (order_view order) left right }
{
    match order {
        Order::Below => left < right,
        Order::AtMost => left <= right,
        Order::Above => right < left,
        Order::AtLeast => right <= left,
    }
}

/// The texts behind each other, or a fault where that is too long.
fn joined<'a>(left: String, right: &str) -> Result<Now<'a>, AllocError>
    ensures same { (classes : Classes) (t : Trial) → IfOk result (λ now. onto classes t (joined (string_bytes left ++ right.now)) ≡ rest classes now t) }
    ensures less { (t : Trial) → IfOk result (λ now. weight now t ≡ load t.todo) }
    ensures told { (look : Contents ℕ) → IfOk result (λ now. ComesTo look (joined (string_bytes left ++ right.now)) now) }
{
    if fits(left.as_str(), right) {
        let mut text = left;
        text.push_str(right)?;
        return Ok(Now::Back(Value::of_text(text)?));
    }
    Ok(Now::Fail(FaultKind::Long))
}

/// Whether the texts behind each other are no longer than a text may be.
fn fits(left: &str, right: &str) -> bool
    ensures { result ≡ nat_le (length left.now + length right.now) max_text }
{
    if left.len() > MAX_TEXT {
        return false;
    }
    right.len() <= MAX_TEXT - left.len()
}

/// The text and the int in decimal, or a fault where that is too long.
fn joined_int<'a>(left: String, right: &Value) -> Result<Now<'a>, AllocError>
    requires { IsInt (value_view right.now) }
    ensures same { (classes : Classes) (t : Trial)
        → IfOk result (λ now. onto classes t (joined (string_bytes left ++ signed_decimal (int_of (value_view right.now)))) ≡ rest classes now t) }
    ensures less { (t : Trial) → IfOk result (λ now. weight now t ≡ load t.todo) }
    ensures told { (look : Contents ℕ) → IfOk result (λ now. ComesTo look (joined (string_bytes left ++ signed_decimal (int_of (value_view right.now)))) now) }
{
    let mut digits = Buffer::new();
    let number = right.int();
    joined(left, digits.format(number))
}

/// The node at an index.
fn element_at(nodes: &[Node], index: i32) -> Option<Node>
    ensures { result ≡ element_at nodes.now index }
{
    let index = usize::try_from(index).ok()?;
    nodes.get(index).copied()
}
