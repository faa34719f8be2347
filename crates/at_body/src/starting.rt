//! The start of an evaluation: the node, the nodes among its arguments, and its equation.

ghost use Rattle.std.specs.Prelude.{◌≡◌, ◌++◌, [], ℕ, nat_eq, map, true, IfOk, IsSome, OnOk, None};
ghost use Rattle.at_model.specs.Kinds.{AreTyped};
ghost use Rattle.at_model.specs.Rules.{evaluation, by_inherited, attribute_name, is_inherited, own_equation, start_of};
ghost use Rattle.at_model.specs.Bodies.{ref_of};
ghost use Rattle.at_model.specs.Run.{Contents};
ghost use Rattle.at_model.specs.TypedRuns.{ClassAt};
ghost use Rattle.at_model.specs.Support.{argument_classes};
ghost use Rattle.at_model.specs.Follow.{follow};
ghost use Rattle.at_store.specs.Shown.{contents, IsIdle};
ghost use Rattle.at_body.specs.Asked.{MayBeAsked};
ghost use Rattle.at_body.specs.Values.{value_view};
ghost use Rattle.at_body.specs.declared.todo.Now.TheVariants.{Enter};
ghost use Rattle.at_body.specs.Rest.{GoesOn, place_of, rest, reached};
ghost use Rattle.at_body.specs.Starting.{IsAlone, by_rule, evaluation_of_forms, form_by_rule, formula_at, inherited_form_of, own_form_of, own_of};
ghost use Rattle.at_body.specs.Typed.{IsOver, IsTypedStep, class_shown};
ghost use Rattle.at_body.specs.TypedStart.{Begins, HasEquation, IsEquation};

use super::arguments::Arguments;
use super::inst::Inst;
use super::reads::Reads;
use super::todo::Now;
use super::trial::{Step, Trial};
use super::value::Value;
use at_class::ClassId;
use at_rules::{AttrId, Body, Rules};
use at_store::{Loc, Node, Store};
use at_tree::reader::MAX_DEPTH;
use std::alloc::{AllocError, Global};

impl<'a> Trial<'a> {
    /// Begins the evaluation of a well-typed instance, over well-formed rules and a sound tree, and goes on up to the end or to a
    /// demand, which is well typed, too. An error where memory is wanting.
    pub fn start(
        alloc: Global,
        rules: &'a Rules,
        store: &'a Store,
        inst: &Inst,
    ) -> Result<(Trial<'a>, Step), AllocError>
        requires { MayBeAsked rules.now store.now inst.now }
        ensures found { IfOk result (λ r. follow (contents store.now) [] (evaluation rules.now nat_eq inst.now)
            ≡ (reached rules.now.classes r.1 r.0, r.0.reads)) }
        ensures typed { IfOk result (λ r. IsTypedStep rules.now (class_shown store.now) r.1 r.0) }
    {
        let mut trial = Trial::new(alloc);
        let step = trial.restart(alloc, rules, store, inst)?;
        Ok((trial, step))
    }

    /// Begins the evaluation of another instance as `start` does, in the lists of the trial, so that it takes no memory for what they
    /// have room for. What the trial was counts for nothing. An error where memory is wanting.
    pub fn restart(
        &mut self,
        alloc: Global,
        rules: &'a Rules,
        store: &'a Store,
        inst: &Inst,
    ) -> Result<Step, AllocError>
        requires { MayBeAsked rules.now store.now inst.now }
        ensures found { IfOk result (λ step. follow (contents store.now) [] (evaluation rules.now nat_eq inst.now)
            ≡ (reached rules.now.classes step self.new, self.new.reads)) }
        ensures typed { IfOk result (λ step. IsTypedStep rules.now (class_shown store.now) step self.new) }
    {
        let body = self.seek(rules, store, inst)?;
        self.advance(alloc, rules, store, Now::Enter(body))
    }

    /// Stands where the equation of a well-typed instance stands, with nothing done but what is looked at up to there.
    pub(crate) fn seek(
        &mut self,
        rules: &'a Rules,
        store: &'a Store,
        inst: &Inst,
    ) -> Result<&'a Body, AllocError>
        requires { MayBeAsked rules.now store.now inst.now }
        ensures same { IfOk result (λ body. follow (contents store.now) [] (evaluation rules.now nat_eq inst.now)
            ≡ follow (contents store.now) self.new.reads (rest rules.now.classes (Enter body) self.new)) }
        ensures formed { IfOk result (λ body. follow (contents store.now) [] (evaluation_of_forms rules.now inst.now)
            ≡ follow (contents store.now) self.new.reads (formula_at rules.now (start_of rules.now inst.now.attribute) body.now (place_of self.new))) }
        ensures equation { IfOk result (λ body. IsEquation rules.now (class_shown store.now) self.new body.now inst.now.attribute) }
        ensures alone { IfOk result (λ body. IsAlone self.new) }
    {
        let node = inst.node();
        let arguments = inst.shared_arguments()?;
        self.clear(node, arguments);
        self.reads.push(Loc::Is(node))?;
        look_at(self.arguments.as_slice(), &mut self.reads)?;
        self.begin(rules, store, store.class(node), inst.attribute())
    }

    /// Stands at the node with these arguments, and has nothing to do and has looked at nothing.
    fn clear(&mut self, node: Node, arguments: Arguments)
        ensures this { self.new.this ≡ node }
        ensures top { self.new.child ≡ None }
        ensures arguments { self.new.arguments ≡ arguments }
        ensures alone { IsAlone self.new }
        ensures unread { self.new.reads ≡ [] }
    {
        self.this = node;
        self.child = None;
        self.arguments = arguments;
        self.bound.clear();
        self.todo.clear();
        self.reads.clear();
    }

    /// Begins with the equation.
    fn begin(
        &mut self,
        rules: &'a Rules,
        store: &'a Store,
        class: ClassId,
        attribute: AttrId,
    ) -> Result<&'a Body, AllocError>
        requires idle_store { IsIdle store.now }
        requires alone { IsAlone self.old }
        requires top { self.old.child ≡ None }
        requires formed { AreTyped rules.now }
        requires over { IsOver rules.now (class_shown store.now) (contents store.now) }
        requires typed { Begins rules.now (class_shown store.now) (contents store.now) self.old class attribute }
        ensures same { IfOk result (λ body. GoesOn (contents store.now) rules.now.classes self.old.reads
            (by_rule rules.now self.old.this attribute (map value_view self.old.arguments) class) (Enter body) self.new) }
        ensures formed { IfOk result (λ body. follow (contents store.now) self.old.reads
            (form_by_rule rules.now self.old.this attribute (map value_view self.old.arguments) class)
            ≡ follow (contents store.now) self.new.reads (formula_at rules.now (start_of rules.now attribute) body.now (place_of self.new))) }
        ensures equation { IfOk result (λ body. IsEquation rules.now (class_shown store.now) self.new body.now attribute) }
        ensures alone { IfOk result (λ body. IsAlone self.new) }
    {
        if rules.is_inherited(attribute) {
            return self.climb(rules, store, attribute, MAX_DEPTH);
        }
        Ok(self.own(rules, class, attribute))
    }

    /// Begins with the own equation.
    fn own(&self, rules: &'a Rules, class: ClassId, attribute: AttrId) -> &'a Body
        requires alone { IsAlone self.now }
        requires top { self.now.child ≡ None }
        requires there { IsSome (own_equation rules.now class attribute) }
        ensures same { own_of rules.now self.now.this attribute (map value_view self.now.arguments) class ≡ rest rules.now.classes (Enter result) self.now }
        ensures formed { own_form_of rules.now self.now.this attribute (map value_view self.now.arguments) class
            ≡ formula_at rules.now (start_of rules.now attribute) result.now (place_of self.now) }
        ensures equation { (at : ClassAt ℕ) (look : Contents ℕ) → AreTyped rules.now → Begins rules.now at look self.now class attribute
            → IsEquation rules.now at self.now result.now attribute }
    {
        match rules.own_body(class, attribute) {
            Some(body) => body,
            None => unreachable!(),
        }
    }

    /// Goes up to where the inherited equation stands.
    fn climb(
        &mut self,
        rules: &'a Rules,
        store: &'a Store,
        attribute: AttrId,
        mut height: usize,
    ) -> Result<&'a Body, AllocError>
        requires idle_store { IsIdle store.now }
        requires alone { IsAlone self.old }
        requires formed { AreTyped rules.now }
        requires inherited { is_inherited rules.now attribute ≡ true }
        requires typed { (class : ℕ) × Begins rules.now (class_shown store.now) (contents store.now) self.old class attribute }
        requires above { HasEquation rules.now (class_shown store.now) (contents store.now) (attribute_name rules.now attribute) height self.old.this }
        ensures same { IfOk result (λ body. GoesOn (contents store.now) rules.now.classes self.old.reads
            (by_inherited rules.now nat_eq (attribute_name rules.now attribute) (map value_view self.old.arguments) height self.old.this)
            (Enter body) self.new) }
        ensures formed { IfOk result (λ body. follow (contents store.now) self.old.reads
            (inherited_form_of rules.now attribute (map value_view self.old.arguments) height self.old.this)
            ≡ follow (contents store.now) self.new.reads (formula_at rules.now (start_of rules.now attribute) body.now (place_of self.new))) }
        ensures equation { IfOk result (λ body. IsEquation rules.now (class_shown store.now) self.new body.now attribute) }
        ensures alone { IfOk result (λ body. IsAlone self.new) }
    {
        while height > 0 {
            height -= 1;
            let node = self.this;
            self.reads.push(Loc::Up(node))?;
            let Some((parent, part)) = store.up(node) else {
                unreachable!()
            };
            self.reads.push(Loc::Is(parent))?;
            self.this = parent;
            self.child = Some(node);
            if let Some(body) = rules.inherited_body(store.class(parent), part, attribute) {
                return Ok(body);
            }
        }
        unreachable!()
    }
}

/// Looks at the classes of the nodes among the arguments.
#[inline(always)]
pub fn look_at(arguments: &[Value], reads: &mut Reads) -> Result<(), AllocError>
    ensures { OnOk result (reads.new ≡ reads.old ++ argument_classes (map value_view arguments.now)) }
{
    let mut rest = arguments;
    while let Some((value, others)) = rest.split_first() {
        if let Some(node) = node_in(value) {
            reads.push(Loc::Is(node))?;
        }
        rest = others;
    }
    Ok(())
}

/// The node to which an argument refers; none for null, and for one that is no reference.
pub(crate) fn node_in(argument: &Value) -> Option<Node>
    ensures { result ≡ ref_of (value_view argument.now) }
{
    match argument {
        Value::Ref(node) => *node,
        Value::Int(_) | Value::Bool(_) | Value::Text(_) => None,
    }
}
