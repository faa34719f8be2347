//! An evaluation that can be put aside where it demands an instance.

ghost use Rattle.std.specs.Prelude.{◌≡◌, ◌<◌, ◌≤◌, ◌+◌, ◌-◌, ◌++◌, ◌∷◌, [], ℕ, List, length, IfOk, IfSome, IsSome, OnOk, map, option_copied, slice_get};
ghost use Rattle.at_model.specs.Classes.{Classes};
ghost use Rattle.at_model.specs.Follow.{follow};
ghost use Rattle.at_model.specs.Run.{Contents, Gives, Location, Ref};
ghost use Rattle.at_model.specs.Bodies.{named, index_of, demand_of, no_exprs};
ghost use Rattle.at_model.specs.Rules.{Rules as Meant};
ghost use Rattle.at_model.specs.TypedRuns.{ClassAt};
ghost use Rattle.at_model.specs.WellFormed.{IsHierarchy};
ghost use Rattle.at_store.specs.Located.{loc_view};
ghost use Rattle.at_store.specs.Shown.{contents, IsIdle};
ghost use Rattle.at_body.specs.Size.{size, sizes};
ghost use Rattle.at_body.specs.Typed.{Calls, ComesTo, Enters, IsOver, IsTypedNow, IsTypedStep, Takes, Uses, class_shown};
ghost use Rattle.at_body.specs.ValueKinds.{IsTruth};
ghost use Rattle.at_body.specs.Values.{value_view};
ghost use Rattle.at_rules.specs.Bodies.{body_view, bodies_view};
ghost use Rattle.at_body.specs.Others.{IsOther};
ghost use Rattle.at_body.specs.Standing.{scope};
ghost use Rattle.at_body.specs.declared.todo.Now.TheVariants.{Ask, Enter};
ghost use Rattle.at_body.specs.declared.todo.Todo.TheVariants.{And, Choose, Elements, Or, Right, Use};
ghost use Rattle.at_body.specs.declared.trial.Trial.{Trial};
ghost use Rattle.at_body.specs.Rest.{GoesOn, OnlyReads, ev, evaluated_for, rest, weight, place_of, onto, begun, resumed, used, called, reached, left, load, cost};

use super::arguments::Arguments;
use super::inst::Inst;
use super::reads::Reads;
use super::stack::Stack;
use super::todo::{Asking, Binary, Fold, Now, Search, Todo, Unary};
use super::using::{int_value, text_value};
use super::value::{FaultKind, Value};
use at_rules::{AttrId, Body, Rules};
use at_store::{Loc, Node, Store};
use std::alloc::{AllocError, Global};
use std::mem;

/// An evaluation under way: where it stands, what is left to do, and the locations that it has looked at.
pub struct Trial<'a> {
    pub(crate) this: Node,
    pub(crate) child: Option<Node>,
    pub(crate) bound: Stack<Node>,
    pub(crate) arguments: Arguments,
    pub(crate) todo: Stack<Todo<'a>>,
    pub(crate) reads: Reads,
}

/// One call, where each exit that lets it go would else have a case for each field.
impl Drop for Trial<'_> {
    fn drop(self) {
        let Trial {
            this: _,
            child: _,
            bound: _,
            arguments: _,
            todo: _,
            reads: _,
        } = self;
    }
}

/// Where an evaluation has come to.
#[derive(Drop)]
pub enum Step {
    /// Its value.
    Value(Value),
    /// Its fault.
    Fault(FaultKind),
    /// It waits for the value of this instance.
    Need(Inst),
}

impl<'a> Trial<'a> {
    /// A trial of nothing yet, without memory.
    pub fn new(alloc: Global) -> Trial<'a> {
        Trial {
            this: Node::default(),
            child: None,
            bound: Stack::new(alloc),
            arguments: Arguments::none(),
            todo: Stack::new(alloc),
            reads: Reads::new(alloc),
        }
    }

    /// Goes on with the value that it waits for, which is of its kind, up to the end or to the next demand. An error where memory is
    /// wanting; then the trial is of no use any more.
    pub fn resume(
        &mut self,
        alloc: Global,
        rules: &'a Rules,
        store: &'a Store,
        value: Value,
    ) -> Result<Step, AllocError>
        requires idle_store { IsIdle store.now }
        requires over { IsOver rules.now (class_shown store.now) (contents store.now) }
        requires takes { Takes rules.now (class_shown store.now) self.old (value_view value) }
        ensures found { IfOk result (λ step. follow (contents store.now) self.old.reads (resumed rules.now.classes self.old (value_view value))
            ≡ (reached rules.now.classes step self.new, self.new.reads)) }
        ensures less { IfOk result (λ step. left step self.new ≤ load self.old.todo) }
        ensures typed { IfOk result (λ step. IsTypedStep rules.now (class_shown store.now) step self.new) }
    {
        self.advance(alloc, rules, store, Now::Back(value))
    }

    /// Stands there, and has nothing to do.
    pub(crate) fn stand(
        &mut self,
        this: Node,
        child: Option<Node>,
        bound: &Stack<Node>,
        arguments: Arguments,
    ) -> Result<(), AllocError>
        ensures this { OnOk result (self.new.this ≡ this) }
        ensures child { OnOk result (self.new.child ≡ child) }
        ensures bound { OnOk result (self.new.bound ≡ bound.now) }
        ensures arguments { OnOk result (self.new.arguments ≡ arguments) }
        ensures idle { OnOk result (self.new.todo ≡ []) }
        ensures reads { OnOk result (self.new.reads ≡ self.old.reads) }
    {
        self.this = this;
        self.child = child;
        self.bound.copy_from(bound)?;
        self.arguments = arguments;
        self.todo.clear();
        Ok(())
    }

    /// The locations that it has looked at, in order.
    pub fn reads(&self) -> &Reads
        ensures { result.now ≡ self.now.reads }
    {
        &self.reads
    }

    /// The locations that it has looked at, in order, taken out of it.
    pub fn take_reads(&mut self, alloc: Global) -> Vec<Loc>
        ensures { map loc_view result.items ≡ self.old.reads }
    {
        mem::replace(&mut self.reads, Reads::new(alloc)).into_vec()
    }

    /// Goes on up to the end or to a demand.
    pub(crate) fn advance(
        &mut self,
        alloc: Global,
        rules: &'a Rules,
        store: &'a Store,
        mut now: Now<'a>,
    ) -> Result<Step, AllocError>
        requires idle_store { IsIdle store.now }
        requires over { IsOver rules.now (class_shown store.now) (contents store.now) }
        requires typed { IsTypedNow rules.now (class_shown store.now) now self.old }
        ensures found { IfOk result (λ step. follow (contents store.now) self.old.reads (rest rules.now.classes now.entry self.old)
            ≡ (reached rules.now.classes step self.new, self.new.reads)) }
        ensures less { IfOk result (λ step. left step self.new ≤ weight now.entry self.old) }
        ensures typed { IfOk result (λ step. IsTypedStep rules.now (class_shown store.now) step self.new) }
    {
        loop {
            now = match now {
                Now::Enter(body) => self.enter(alloc, rules, store, body)?,
                Now::Back(value) => match self.todo.pop() {
                    Some(todo) => self.back(alloc, rules, store, todo, value)?,
                    None => return Ok(Step::Value(value)),
                },
                Now::Fail(kind) => return Ok(Step::Fault(kind)),
                Now::Ask(attribute, node, arguments) => {
                    return Ok(asked(attribute, node, arguments));
                }
            };
        }
    }

    /// The first thing to do for the value of an expression. The forms that are met most stand in front of the others, since
    /// room for all arms of a `match` is made at each call.
    fn enter(
        &mut self,
        alloc: Global,
        rules: &'a Rules,
        store: &'a Store,
        body: &'a Body,
    ) -> Result<Now<'a>, AllocError>
        requires idle_store { IsIdle store.now }
        requires over { IsOver rules.now (class_shown store.now) (contents store.now) }
        requires typed { Enters rules.now (class_shown store.now) self.old body.now }
        ensures same { IfOk result (λ now. GoesOn (contents store.now) rules.now.classes self.old.reads
            (begun rules.now.classes self.old (body_view body.now)) now self.new) }
        ensures less { IfOk result (λ now. weight now self.new < size (body_view body.now) + load self.old.todo) }
        ensures typed { IfOk result (λ now. IsTypedNow rules.now (class_shown store.now) now self.new) }
    {
        match body {
            Body::TokenOf(a, part) => self.operand(rules, store, Unary::Token(*part), a),
            Body::Arithmetic(operator, a, b) => {
                self.operands(store, Binary::Arithmetic(*operator), a, b)
            }
            Body::Call(a, attribute, passed) => self.call(alloc, store, a, *attribute, passed),
            _ => self.enter_any(rules, store, body),
        }
    }

    /// The same for an expression of any other form.
    fn enter_any(
        &mut self,
        rules: &'a Rules,
        store: &'a Store,
        body: &'a Body,
    ) -> Result<Now<'a>, AllocError>
        requires idle_store { IsIdle store.now }
        requires over { IsOver rules.now (class_shown store.now) (contents store.now) }
        requires typed { Enters rules.now (class_shown store.now) self.old body.now }
        requires other { IsOther body.now }
        ensures same { IfOk result (λ now. GoesOn (contents store.now) rules.now.classes self.old.reads
            (begun rules.now.classes self.old (body_view body.now)) now self.new) }
        ensures less { IfOk result (λ now. weight now self.new < size (body_view body.now) + load self.old.todo) }
        ensures typed { IfOk result (λ now. IsTypedNow rules.now (class_shown store.now) now self.new) }
    {
        match body {
            Body::Int(n) => Ok(Now::Back(int_value(n))),
            Body::Truth(b) => Ok(Now::Back(Value::Bool(*b))),
            Body::Text(text) => Ok(Now::Back(text_value(text)?)),
            Body::Null => Ok(Now::Back(Value::Ref(None))),
            Body::This => Ok(Now::Back(Value::Ref(Some(self.this)))),
            Body::Name(position) => self.name(*position),
            Body::IndexName => self.index(store),
            Body::Negate(a) => self.operand(rules, store, Unary::Negate, a),
            Body::Not(a) => self.operand(rules, store, Unary::Not, a),
            Body::Compare(o, a, b) => self.operands(store, Binary::Compare(*o), a, b),
            Body::Join(a, b) => self.operands(store, Binary::Join, a, b),
            Body::JoinInt(a, b) => self.operands(store, Binary::JoinInt, a, b),
            Body::Same(a, b) => self.compared(store, Binary::Same, a, b),
            Body::Differ(a, b) => self.compared(store, Binary::Differ, a, b),
            Body::And(a, b) => self.then(Todo::And(b), a),
            Body::Or(a, b) => self.then(Todo::Or(b), a),
            Body::Choose(test, yes, no) => self.then(Todo::Choose(yes, no), test),
            Body::Equals(a, b) => self.compared(store, Binary::Equals, a, b),
            Body::InstanceOf(a, class) => self.operand(rules, store, Unary::InstanceOf(*class), a),
            Body::CastTo(class, a) => self.operand(rules, store, Unary::CastTo(*class), a),
            Body::Child(a, part) => self.operand(rules, store, Unary::Child(*part), a),
            Body::Element(a, part, b) => self.operands(store, Binary::Element(*part), a, b),
            Body::Count(a, part) => self.operand(rules, store, Unary::Count(*part), a),
            Body::Has(a, part) => self.operand(rules, store, Unary::Has(*part), a),
            Body::Passed(a) => self.operand(rules, store, Unary::Passed, a),
            Body::Exists(a, part, b) => self.over(Fold::Exists, a, *part, b),
            Body::First(a, part, b) => self.over(Fold::First, a, *part, b),
            Body::Sum(a, part, b) => self.over(Fold::Sum(0), a, *part, b),
            Body::SeekAny(a, lookup, b) => self.under(Search::Any, a, lookup, b),
            Body::SeekFirst(a, lookup, b) => self.under(Search::First, a, lookup, b),
            Body::TokenOf(_, _) => unreachable!(),
            Body::Arithmetic(_, _, _) => unreachable!(),
            Body::Call(_, _, _) => unreachable!(),
        }
    }

    /// Evaluates an expression, for a use of its value.
    #[inline(always)]
    pub(crate) fn then(&mut self, todo: Todo<'a>, body: &'a Body) -> Result<Now<'a>, AllocError>
        ensures { IfOk result (λ now. (now ≡ Enter body.entry) × (self.new ≡ record self.old { todo = todo.entry ∷ self.old.todo })) }
    {
        self.todo.push(todo)?;
        Ok(Now::Enter(body))
    }

    /// Evaluates the operand, for a use of its value.
    #[inline(always)]
    fn operand(
        &mut self,
        rules: &'a Rules,
        store: &'a Store,
        unary: Unary,
        operand: &'a Body,
    ) -> Result<Now<'a>, AllocError>
        requires idle_store { IsIdle store.now }
        requires over { IsOver rules.now (class_shown store.now) (contents store.now) }
        requires typed { Enters rules.now (class_shown store.now) (record self.old { todo = Use unary ∷ self.old.todo }) operand.now }
        ensures same { IfOk result (λ now. GoesOn (contents store.now) rules.now.classes self.old.reads
            (evaluated_for rules.now.classes self.old (Use unary) (body_view operand.now)) now self.new) }
        ensures less { IfOk result (λ now. weight now self.new < size (body_view operand.now) + 2 + load self.old.todo) }
        ensures typed { IfOk result (λ now. IsTypedNow rules.now (class_shown store.now) now self.new) }
    {
        match self.at_hand(operand) {
            Some(value) => self.unary(rules, store, unary, &value),
            None => self.then(Todo::Use(unary), operand),
        }
    }

    /// Evaluates the operands, the left one first, for a use of both values.
    #[inline(always)]
    pub(crate) fn operands(
        &mut self,
        store: &'a Store,
        binary: Binary,
        left: &'a Body,
        right: &'a Body,
    ) -> Result<Now<'a>, AllocError>
        requires idle_store { IsIdle store.now }
        requires typed { (meant : Meant) × (at : ClassAt ℕ) × IsOver meant at (contents store.now)
            × Enters meant at (record self.old { todo = Right binary right ∷ self.old.todo }) left.now }
        ensures same { (classes : Classes)
            → IfOk result (λ now. GoesOn (contents store.now) classes self.old.reads
            (evaluated_for classes self.old (Right binary right.entry) (body_view left.now)) now self.new) }
        ensures less { IfOk result (λ now. weight now self.new < size (body_view left.now) + size (body_view right.now) + 3 + load self.old.todo) }
        ensures typed { (meant : Meant) (at : ClassAt ℕ) → IsOver meant at (contents store.now)
            → Enters meant at (record self.old { todo = Right binary right.entry ∷ self.old.todo }) left.now
            → IfOk result (λ now. IsTypedNow meant at now self.new) }
    {
        match self.at_hand(left) {
            Some(value) => self.right_operand(store, binary, value, right),
            None => self.then(Todo::Right(binary, right), left),
        }
    }

    /// Evaluates the right operand, for a use of both values.
    #[inline(always)]
    fn right_operand(
        &mut self,
        store: &'a Store,
        binary: Binary,
        left: Value,
        right: &'a Body,
    ) -> Result<Now<'a>, AllocError>
        requires idle_store { IsIdle store.now }
        requires typed { (meant : Meant) × (at : ClassAt ℕ) × IsOver meant at (contents store.now)
            × Uses meant at self.old (Right binary right) (value_view left) }
        ensures same { (classes : Classes)
            → IfOk result (λ now. GoesOn (contents store.now) classes self.old.reads
            (used classes (Right binary right.entry) self.old (value_view left)) now self.new) }
        ensures less { IfOk result (λ now. weight now self.new < size (body_view right.now) + 2 + load self.old.todo) }
        ensures typed { (meant : Meant) (at : ClassAt ℕ) → IsOver meant at (contents store.now)
            → Uses meant at self.old (Right binary right.entry) (value_view left) → IfOk result (λ now. IsTypedNow meant at now self.new) }
    {
        match right {
            Body::Int(n) => self.with_int(store, binary, left, n),
            _ => self.right_value(store, binary, left, right),
        }
    }

    /// Evaluates a right operand of any form, for a use of both values.
    fn right_value(
        &mut self,
        store: &'a Store,
        binary: Binary,
        left: Value,
        right: &'a Body,
    ) -> Result<Now<'a>, AllocError>
        requires idle_store { IsIdle store.now }
        requires typed { (meant : Meant) × (at : ClassAt ℕ) × IsOver meant at (contents store.now)
            × Uses meant at self.old (Right binary right) (value_view left) }
        ensures same { (classes : Classes)
            → IfOk result (λ now. GoesOn (contents store.now) classes self.old.reads
            (used classes (Right binary right.entry) self.old (value_view left)) now self.new) }
        ensures less { IfOk result (λ now. weight now self.new < size (body_view right.now) + 2 + load self.old.todo) }
        ensures typed { (meant : Meant) (at : ClassAt ℕ) → IsOver meant at (contents store.now)
            → Uses meant at self.old (Right binary right.entry) (value_view left) → IfOk result (λ now. IsTypedNow meant at now self.new) }
    {
        match self.at_hand(right) {
            Some(value) => self.binary(store, binary, left, &value),
            None => self.then(Todo::Apply(binary, left), right),
        }
    }

    /// The value of an expression for which nothing has to be done first: of a literal that is no text, of `this`, of the
    /// name of a fold.
    pub(crate) fn at_hand(&self, body: &Body) -> Option<Value>
        ensures { (classes : Classes) → IfSome result (λ value. ev classes (body_view body.now) (place_of self.now) ≡ Gives (value_view value)) }
    {
        match body {
            Body::Int(n) => Some(Value::Int(*n)),
            Body::Truth(b) => Some(Value::Bool(*b)),
            Body::Null => Some(Value::Ref(None)),
            Body::This => Some(Value::Ref(Some(self.this))),
            Body::Name(position) => self.bound_element(*position),
            _ => None,
        }
    }

    /// The element that the name of a fold stands for; none for a name behind those.
    fn bound_element(&self, position: usize) -> Option<Value>
        ensures { IfSome result (λ value. named (scope (place_of self.now)).names position ≡ value_view value) }
    {
        match self.bound.get(position) {
            Some(node) => Some(Value::Ref(Some(node))),
            None => None,
        }
    }

    /// Evaluates the node over whose elements in a component the fold of an expression goes.
    fn over(
        &mut self,
        fold: Fold,
        node: &'a Body,
        part: usize,
        body: &'a Body,
    ) -> Result<Now<'a>, AllocError>
        ensures { IfOk result (λ now. (now ≡ Enter node.entry) × (self.new ≡ record self.old { todo = Elements fold part body.entry ∷ self.old.todo })) }
    {
        self.then(Todo::Elements(fold, part, body), node)
    }

    /// What a name stands for.
    fn name(&self, position: usize) -> Result<Now<'a>, AllocError>
        requires there { IsSome (slice_get (scope (place_of self.now)).names position) }
        ensures same { (classes : Classes)
            → IfOk result (λ now. resumed classes self.now (named (scope (place_of self.now)).names position) ≡ rest classes now self.now) }
        ensures less { IfOk result (λ now. weight now self.now ≡ load self.now.todo) }
        ensures told { (look : Contents ℕ) → IfOk result (λ now. ComesTo look (Gives (named (scope (place_of self.now)).names position)) now) }
    {
        match self.bound.get(position) {
            Some(node) => Ok(Now::Back(Value::Ref(Some(node)))),
            None => self.argument(position),
        }
    }

    /// What a name behind those of the folds stands for.
    fn argument(&self, position: usize) -> Result<Now<'a>, AllocError>
        requires there { IsSome (slice_get self.now.arguments (position - length self.now.bound)) }
        ensures same { (classes : Classes)
            → IfOk result (λ now. resumed classes self.now (named (map value_view self.now.arguments) (position - length self.now.bound))
            ≡ rest classes now self.now) }
        ensures less { IfOk result (λ now. weight now self.now ≡ load self.now.todo) }
        ensures told { (look : Contents ℕ)
            → IfOk result (λ now. ComesTo look (Gives (named (map value_view self.now.arguments) (position - length self.now.bound))) now) }
    {
        let passed = position.saturating_sub(self.bound.len());
        match at(self.arguments.as_slice(), passed) {
            Some(value) => Ok(Now::Back(value.copy()?)),
            None => unreachable!(),
        }
    }

    /// The index of the child on the way down.
    fn index(&mut self, store: &'a Store) -> Result<Now<'a>, AllocError>
        requires idle_store { IsIdle store.now }
        requires child { IsSome self.old.child }
        ensures same { (classes : Classes)
            → IfOk result (λ now. GoesOn (contents store.now) classes self.old.reads (onto classes self.old (index_of self.old.child)) now self.new) }
        ensures less { IfOk result (λ now. weight now self.new ≡ load self.old.todo) }
        ensures told { IfOk result (λ now. ComesTo (contents store.now) (index_of self.old.child) now × OnlyReads self.old self.new) }
    {
        match self.child {
            Some(child) => {
                self.reads.push(Loc::Idx(child))?;
                Ok(Now::Back(Value::of_count(store.index_in(child))))
            }
            None => unreachable!(),
        }
    }

    /// Uses a value.
    fn back(
        &mut self,
        alloc: Global,
        rules: &'a Rules,
        store: &'a Store,
        todo: Todo<'a>,
        value: Value,
    ) -> Result<Now<'a>, AllocError>
        requires idle_store { IsIdle store.now }
        requires over { IsOver rules.now (class_shown store.now) (contents store.now) }
        requires typed { Uses rules.now (class_shown store.now) self.old todo (value_view value) }
        ensures same { IfOk result (λ now. GoesOn (contents store.now) rules.now.classes self.old.reads
            (used rules.now.classes todo.entry self.old (value_view value)) now self.new) }
        ensures less { IfOk result (λ now. weight now self.new < cost todo.entry + load self.old.todo) }
        ensures typed { IfOk result (λ now. IsTypedNow rules.now (class_shown store.now) now self.new) }
    {
        match todo {
            Todo::Use(unary) => self.unary(rules, store, unary, &value),
            Todo::Right(binary, right) => self.right_operand(store, binary, value, right),
            Todo::Apply(binary, left) => self.binary(store, binary, left, &value),
            Todo::And(right) => Ok(and(&value, right)),
            Todo::Or(right) => Ok(or(&value, right)),
            Todo::Choose(yes, no) => Ok(choose(&value, yes, no)),
            Todo::Arguments(attribute, arguments) => {
                self.first_argument(alloc, attribute, value.node(), arguments)
            }
            Todo::Argument(call, others) => self.pass(call, value, others),
            Todo::Elements(fold, part, body) => {
                self.elements(store, fold, part, body, value.node())
            }
            Todo::Element(fold, body, node, others) => {
                let _ = self.bound.pop();
                self.decide(fold, body, node, others, &value)
            }
            Todo::Under(search, lookup, body) => {
                self.elements_under(store, search, lookup, body, value.node())
            }
            Todo::Among(search, mark, body, others) => {
                self.behind(search, mark, body, &others, &value)
            }
        }
    }

    /// Evaluates the first argument of a call, or demands the attribute where it has none, which takes no memory.
    pub(crate) fn first_argument(
        &mut self,
        alloc: Global,
        attribute: AttrId,
        node: Option<Node>,
        arguments: &'a [Body],
    ) -> Result<Now<'a>, AllocError>
        ensures same { (classes : Classes)
            → IfOk result (λ now. called classes self.old attribute (Ref node) [] (bodies_view arguments.now) ≡ rest classes now self.new) }
        ensures less { IfOk result (λ now. weight now self.new < sizes (bodies_view arguments.now) + 2 + load self.old.todo) }
        ensures reads { IfOk result (λ now. self.new.reads ≡ self.old.reads) }
        ensures typed { (meant : Meant) (at : ClassAt ℕ) → Calls meant at self.old attribute node [] (bodies_view arguments.now)
            → IfOk result (λ now. IsTypedNow meant at now self.new) }
    {
        match arguments.split_first() {
            Some((argument, others)) => {
                let call = Asking {
                    attribute,
                    node,
                    done: Vec::with_capacity(alloc, arguments.len())?,
                };
                let boxed = Box::new(alloc, call)?;
                self.then(Todo::Argument(boxed, others), argument)
            }
            None => Ok(demand(attribute, node, Arguments::none())),
        }
    }

    /// Passes an argument to a call, and goes on with the others.
    fn pass(
        &mut self,
        mut call: Box<Asking>,
        value: Value,
        others: &'a [Body],
    ) -> Result<Now<'a>, AllocError>
        ensures same { (classes : Classes)
            → IfOk result (λ now. called classes self.old call.value.attribute (Ref call.value.node)
            (map value_view call.value.done.items ++ value_view value ∷ []) (bodies_view others.now)
            ≡ rest classes now self.new) }
        ensures less { IfOk result (λ now. weight now self.new < sizes (bodies_view others.now) + 2 + load self.old.todo) }
        ensures reads { IfOk result (λ now. self.new.reads ≡ self.old.reads) }
        ensures typed { (meant : Meant) (at : ClassAt ℕ)
            → Calls meant at self.old call.value.attribute call.value.node
            (map value_view call.value.done.items ++ value_view value ∷ []) (bodies_view others.now)
            → IfOk result (λ now. IsTypedNow meant at now self.new) }
    {
        call.done.push(value)?;
        self.next_argument(call, others)
    }

    /// Evaluates the next argument, or demands the call once all are there.
    fn next_argument(
        &mut self,
        call: Box<Asking>,
        others: &'a [Body],
    ) -> Result<Now<'a>, AllocError>
        ensures same { (classes : Classes)
            → IfOk result (λ now. called classes self.old call.value.attribute (Ref call.value.node)
            (map value_view call.value.done.items) (bodies_view others.now)
            ≡ rest classes now self.new) }
        ensures less { IfOk result (λ now. weight now self.new < sizes (bodies_view others.now) + 2 + load self.old.todo) }
        ensures reads { IfOk result (λ now. self.new.reads ≡ self.old.reads) }
        ensures typed { (meant : Meant) (at : ClassAt ℕ)
            → Calls meant at self.old call.value.attribute call.value.node (map value_view call.value.done.items) (bodies_view others.now)
            → IfOk result (λ now. IsTypedNow meant at now self.new) }
    {
        match others.split_first() {
            Some((argument, others)) => self.then(Todo::Argument(call, others), argument),
            None => {
                let Asking {
                    attribute,
                    node,
                    done,
                } = Box::into_inner(call);
                Ok(demand(attribute, node, Arguments::of(done)?))
            }
        }
    }
}

/// The demand of an attribute of a node, with these arguments, or the fault of one that is asked of null.
fn demand<'a>(attribute: AttrId, node: Option<Node>, arguments: Arguments) -> Now<'a>
    ensures same { (classes : Classes) (t : Trial) → onto classes t (demand_of attribute (Ref node) (map value_view arguments)) ≡ rest classes result t }
    ensures less { (t : Trial) → weight result t < 2 + load t.todo }
    ensures typed { (meant : Meant) (at : ClassAt ℕ) (t : Trial)
        → Calls meant at t attribute node (map value_view arguments) no_exprs → IsTypedNow meant at result t }
{
    match node {
        Some(node) => Now::Ask(attribute, node, arguments),
        None => Now::Fail(FaultKind::Null),
    }
}

/// The step of a demand.
fn asked(attribute: AttrId, node: Node, arguments: Arguments) -> Step
    ensures same { (tree : Contents ℕ) (seen : List (Location ℕ)) (classes : Classes) (t : Trial)
        → follow tree seen (rest classes (Ask attribute node arguments) t) ≡ (reached classes result t, seen) }
    ensures less { (t : Trial) → left result t ≤ weight (Ask attribute node arguments) t }
    ensures typed { (meant : Meant) (at : ClassAt ℕ) (t : Trial) → IsHierarchy meant.classes
        → IsTypedNow meant at (Ask attribute node arguments) t → IsTypedStep meant at result t }
{
    Step::Need(Inst::new(node, attribute, arguments))
}

/// The argument at a position.
pub(crate) fn at(arguments: &[Value], position: usize) -> Option<&Value>
    ensures { option_copied result ≡ slice_get arguments.now position }
{
    arguments.iter().nth(position)
}

/// The right operand of `&&` where the left one is true.
fn and<'a>(left: &Value, right: &'a Body) -> Now<'a>
    requires { IsTruth (value_view left.now) }
    ensures same { (classes : Classes) (t : Trial) → used classes (And right.entry) t (value_view left.now) ≡ rest classes result t }
    ensures less { (t : Trial) → weight result t < cost (And right.entry) + load t.todo }
    ensures typed { (meant : Meant) (at : ClassAt ℕ) (t : Trial) → Uses meant at t (And right.entry) (value_view left.now) → IsTypedNow meant at result t }
{
    if left.truth() {
        return Now::Enter(right);
    }
    Now::Back(Value::Bool(false))
}

/// The right operand of `||` where the left one is false.
fn or<'a>(left: &Value, right: &'a Body) -> Now<'a>
    requires { IsTruth (value_view left.now) }
    ensures same { (classes : Classes) (t : Trial) → used classes (Or right.entry) t (value_view left.now) ≡ rest classes result t }
    ensures less { (t : Trial) → weight result t < cost (Or right.entry) + load t.todo }
    ensures typed { (meant : Meant) (at : ClassAt ℕ) (t : Trial) → Uses meant at t (Or right.entry) (value_view left.now) → IsTypedNow meant at result t }
{
    if left.truth() {
        return Now::Back(Value::Bool(true));
    }
    Now::Enter(right)
}

/// The expression that a truth value chooses.
fn choose<'a>(test: &Value, yes: &'a Body, no: &'a Body) -> Now<'a>
    requires { IsTruth (value_view test.now) }
    ensures same { (classes : Classes) (t : Trial) → used classes (Choose yes.entry no.entry) t (value_view test.now) ≡ rest classes result t }
    ensures less { (t : Trial) → weight result t < cost (Choose yes.entry no.entry) + load t.todo }
    ensures typed { (meant : Meant) (at : ClassAt ℕ) (t : Trial) → Uses meant at t (Choose yes.entry no.entry) (value_view test.now)
        → IsTypedNow meant at result t }
{
    if test.truth() {
        return Now::Enter(yes);
    }
    Now::Enter(no)
}
