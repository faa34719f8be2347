//! A trial of the equation of a circular attribute, which comes to a formula.

ghost use Rattle.std.specs.Prelude.{◌≡◌, ◌<◌, ◌≤◌, ◌+◌, ◌*◌, ◌++◌, ◌∷◌, [], ℕ, Bool, IfOk, IsSome, List, None, OnOk, Some, cond, length, map, nat_eq, not};
ghost use Rattle.at_model.specs.Bodies.{Call, no_exprs, truth_of};
ghost use Rattle.at_model.specs.Rules.{Rules as Meant, start_of};
ghost use Rattle.at_model.specs.Run.{Contents, Ref, Run, Truth};
ghost use Rattle.at_model.specs.Follow.{follow};
ghost use Rattle.at_model.specs.TypedRuns.{ClassAt};
ghost use Rattle.at_model.specs.of_fixpoints.Evaluations.{evaluation};
ghost use Rattle.at_model.specs.of_fixpoints.Formulas.{Formula as Meaning, Known, starts_from, turned};
ghost use Rattle.at_rules.specs.Bodies.{body_view, bodies_view};
ghost use Rattle.at_store.specs.Located.{loc_view};
ghost use Rattle.at_store.specs.Shown.{contents, IsIdle};
ghost use Rattle.at_body.specs.Asked.{MayBeAsked};
ghost use Rattle.at_body.specs.declared.forming.Forming.{Forming};
ghost use Rattle.at_body.specs.declared.task.Doing.TheVariants.{Evaluate, Form, Made};
ghost use Rattle.at_body.specs.declared.task.Task.TheVariants.{Right};
ghost use Rattle.at_body.specs.Forms.{CarriesOn, GoesOn, among, asked_of, called, completed, cost, folded, followed, form_size, formed, gone_over, joining, left, load, place_of, reached, rest, settled, stepped, told, use_cost, used, waiting_cost, weight};
ghost use Rattle.at_body.specs.Pieces.{HasTop, top_of};
ghost use Rattle.at_body.specs.Rest as trial;
ghost use Rattle.at_body.specs.Size.{most, size, sizes, tests};
ghost use Rattle.at_body.specs.Stacked.{below};
ghost use Rattle.at_body.specs.Starting.{IsAlone};
ghost use Rattle.at_body.specs.Typed.{IsOver, IsTypedStep, PlaceKinds, class_shown};
ghost use Rattle.at_body.specs.TypedForms.{AreTasks, Calls, Completes, Continues, Decides, Evaluates, Folds, Forms, GoesOver, IsForm, IsTypedDoing, IsTypedProgress, Takes, Uses};
ghost use Rattle.at_body.specs.ValueKinds.{IsTruth};
ghost use Rattle.at_body.specs.Values.{value_view};

use super::arguments::Arguments;
use super::folding::children;
use super::formula::{Formula, Pile};
use super::inst::Inst;
use super::reads::Reads;
use super::stack::Stack;
use super::task::{Doing, Purpose, Task};
use super::todo::{Asking, Now};
use super::trial::{Step, Trial};
use super::value::{FaultKind, Value};
use at_rules::{AttrId, Body, Rules};
use at_store::{Loc, Node, Store};
use std::alloc::{AllocError, Global};
use std::mem;

/// A formula under way: where it stands, what is left to do, and the formulas that wait for others. A trial evaluates each expression
/// of which the value is wanted, and has the locations that were looked at.
pub struct Forming<'a> {
    pub(crate) start: bool,
    pub(crate) this: Node,
    pub(crate) child: Option<Node>,
    pub(crate) bound: Stack<Node>,
    pub(crate) arguments: Arguments,
    pub(crate) tasks: Stack<Task<'a>>,
    pub(crate) pile: Pile,
    pub(crate) purpose: Option<Purpose<'a>>,
    pub(crate) trial: Trial<'a>,
}

/// One call, where each exit that lets it go would else have a case for each field.
impl Drop for Forming<'_> {
    fn drop(self) {
        let Forming {
            start: _,
            this: _,
            child: _,
            bound: _,
            arguments: _,
            tasks: _,
            pile: _,
            purpose: _,
            trial: _,
        } = self;
    }
}

/// Where it has come to.
#[derive(Drop)]
pub enum Progress {
    /// The formula of the instance.
    Formula(Formula),
    /// Its fault.
    Fault(FaultKind),
    /// It waits for the value of this instance.
    Need(Inst),
}

impl<'a> Forming<'a> {
    /// Begins the evaluation of a well-typed instance of a circular attribute, over well-formed rules and a sound tree, and goes on up
    /// to the end or to a demand, which is well typed, too. An error where memory is wanting.
    pub fn start(
        alloc: Global,
        rules: &'a Rules,
        store: &'a Store,
        inst: &Inst,
    ) -> Result<(Forming<'a>, Progress), AllocError>
        requires asked { MayBeAsked rules.now store.now inst.now }
        requires circular { IsSome (start_of rules.now inst.now.attribute) }
        ensures found { IfOk result (λ r. follow (contents store.now) [] ((evaluation rules.now nat_eq).formula inst.now)
            ≡ (reached rules.now r.1 r.0, r.0.trial.reads)) }
        ensures typed { IfOk result (λ r. IsTypedProgress rules.now (class_shown store.now) (contents store.now) r.1 r.0) }
    {
        let mut forming = Forming::new(alloc);
        let progress = forming.restart(alloc, rules, store, inst)?;
        Ok((forming, progress))
    }

    /// Nothing yet, without memory.
    pub fn new(alloc: Global) -> Forming<'a> {
        Forming {
            start: false,
            this: Node::default(),
            child: None,
            bound: Stack::new(alloc),
            arguments: Arguments::none(),
            tasks: Stack::new(alloc),
            pile: Pile::new(alloc),
            purpose: None,
            trial: Trial::new(alloc),
        }
    }

    /// Begins the evaluation of another instance as `start` does, in the lists that are there, so that it takes no memory for what they
    /// have room for. An error where memory is wanting.
    pub fn restart(
        &mut self,
        alloc: Global,
        rules: &'a Rules,
        store: &'a Store,
        inst: &Inst,
    ) -> Result<Progress, AllocError>
        requires asked { MayBeAsked rules.now store.now inst.now }
        requires circular { IsSome (start_of rules.now inst.now.attribute) }
        ensures found { IfOk result (λ p. follow (contents store.now) [] ((evaluation rules.now nat_eq).formula inst.now)
            ≡ (reached rules.now p self.new, self.new.trial.reads)) }
        ensures typed { IfOk result (λ p. IsTypedProgress rules.now (class_shown store.now) (contents store.now) p self.new) }
    {
        let body = self.trial.seek(rules, store, inst)?;
        self.settle(rules, inst.attribute())?;
        self.advance(alloc, rules, store, Doing::Form(true, body))
    }

    /// Stands where the trial stands, with nothing to do, for the attribute.
    fn settle(&mut self, rules: &'a Rules, attribute: AttrId) -> Result<(), AllocError>
        requires circular { IsSome (start_of rules.now attribute) }
        requires alone { IsAlone self.old.trial }
        ensures start { OnOk result (start_of rules.now attribute ≡ Some self.new.start) }
        ensures place { OnOk result (place_of self.new ≡ trial.place_of self.old.trial) }
        ensures tasks { OnOk result (self.new.tasks ≡ []) }
        ensures pile { OnOk result (self.new.pile ≡ []) }
        ensures trial { OnOk result (self.new.trial ≡ self.old.trial) }
    {
        self.start = match rules.start_of(attribute) {
            Some(start) => start,
            None => unreachable!(),
        };
        self.this = self.trial.this;
        self.child = self.trial.child;
        self.arguments = self.trial.arguments.share()?;
        self.bound.clear();
        self.tasks.clear();
        self.pile.clear();
        Ok(())
    }

    /// Goes on with the value that it waits for, which is of its kind, up to the end or to the next demand. An error where memory is
    /// wanting; then it is of no use any more.
    pub fn resume(
        &mut self,
        alloc: Global,
        rules: &'a Rules,
        store: &'a Store,
        value: Value,
    ) -> Result<Progress, AllocError>
        requires idle_store { IsIdle store.now }
        requires over { IsOver rules.now (class_shown store.now) (contents store.now) }
        requires takes { Takes rules.now (class_shown store.now) (contents store.now) self.old (value_view value) }
        ensures found { IfOk result (λ p. follow (contents store.now) self.old.trial.reads (told rules.now self.old (value_view value))
            ≡ (reached rules.now p self.new, self.new.trial.reads)) }
        ensures less { IfOk result (λ p. left p self.new ≤ trial.load self.old.trial.todo + waiting_cost self.old.purpose + load self.old.tasks) }
        ensures typed { IfOk result (λ p. IsTypedProgress rules.now (class_shown store.now) (contents store.now) p self.new) }
    {
        let Some(purpose) = mem::replace(&mut self.purpose, None) else {
            unreachable!()
        };
        let step = self.trial.resume(alloc, rules, store, value)?;
        self.advance(alloc, rules, store, stepped(purpose, step))
    }

    /// The locations that it has looked at, in order.
    pub fn reads(&self) -> &Reads
        ensures { result.now ≡ self.now.trial.reads }
    {
        self.trial.reads()
    }

    /// The locations that it has looked at, in order, taken out of it.
    pub fn take_reads(&mut self, alloc: Global) -> Vec<Loc>
        ensures { map loc_view result.items ≡ self.old.trial.reads }
    {
        self.trial.take_reads(alloc)
    }

    /// Goes on up to the end or to a demand.
    fn advance(
        &mut self,
        alloc: Global,
        rules: &'a Rules,
        store: &'a Store,
        mut doing: Doing<'a>,
    ) -> Result<Progress, AllocError>
        requires idle_store { IsIdle store.now }
        requires over { IsOver rules.now (class_shown store.now) (contents store.now) }
        requires typed { IsTypedDoing rules.now (class_shown store.now) (contents store.now) doing self.old }
        ensures found { IfOk result (λ p. follow (contents store.now) self.old.trial.reads (rest rules.now doing.entry self.old)
            ≡ (reached rules.now p self.new, self.new.trial.reads)) }
        ensures less { IfOk result (λ p. left p self.new ≤ weight doing.entry self.old) }
        ensures typed { IfOk result (λ p. IsTypedProgress rules.now (class_shown store.now) (contents store.now) p self.new) }
    {
        loop {
            doing = match doing {
                Doing::Form(positive, body) => self.form(rules, positive, body)?,
                Doing::Evaluate(purpose, body) => {
                    self.evaluate(alloc, rules, store, purpose, body)?
                }
                Doing::Use(purpose, value) => self.used(alloc, store, purpose, value)?,
                Doing::Made => match self.tasks.pop() {
                    Some(task) => self.made(alloc, task)?,
                    None => return Ok(Progress::Formula(self.pile.take(alloc))),
                },
                Doing::Fail(kind) => return Ok(Progress::Fault(kind)),
                Doing::Wait(purpose, inst) => {
                    self.purpose = Some(purpose);
                    return Ok(Progress::Need(inst));
                }
            };
        }
    }

    /// The first thing to do for the formula of an expression, or (false) of its negation.
    fn form(
        &mut self,
        rules: &'a Rules,
        positive: bool,
        body: &'a Body,
    ) -> Result<Doing<'a>, AllocError>
        ensures same { IfOk result (λ d. rest rules.now (Form positive body.entry) self.old ≡ rest rules.now d self.new) }
        ensures less { IfOk result (λ d. weight d self.new < form_size (body_view body.now) + load self.old.tasks) }
        ensures reads { IfOk result (λ d. self.new.trial.reads ≡ self.old.trial.reads) }
        ensures typed { (at : ClassAt ℕ) (look : Contents ℕ) → Forms rules.now at self.old body.now
            → IfOk result (λ d. IsTypedDoing rules.now at look d self.new) }
    {
        match body {
            Body::Not(a) => Ok(Doing::Form(!positive, a)),
            Body::And(a, b) => self.sides(positive, positive, a, b),
            Body::Or(a, b) => self.sides(!positive, positive, a, b),
            Body::Choose(test, yes, no) => {
                Ok(Doing::Evaluate(Purpose::Choose(positive, yes, no), test))
            }
            Body::Call(a, attribute, passed) => {
                Ok(self.call(rules, positive, body, a, *attribute, passed))
            }
            Body::Exists(a, part, b) => {
                Ok(Doing::Evaluate(Purpose::Elements(positive, *part, b), a))
            }
            Body::SeekAny(a, lookup, b) => {
                Ok(Doing::Evaluate(Purpose::Under(positive, lookup, b), a))
            }
            _ => Ok(Doing::Evaluate(Purpose::Formula(positive), body)),
        }
    }

    /// The left side, and then the right one, of both or (false) of either.
    fn sides(
        &mut self,
        conjunction: bool,
        positive: bool,
        left: &'a Body,
        right: &'a Body,
    ) -> Result<Doing<'a>, AllocError>
        ensures { IfOk result (λ d. (d ≡ Form positive left.entry)
            × (self.new ≡ record self.old { tasks = Right conjunction positive right.entry ∷ self.old.tasks })) }
    {
        self.tasks.push(Task::Right(conjunction, positive, right))?;
        Ok(Doing::Form(positive, left))
    }

    /// The receiver of a call that is left in the formula; another call is evaluated.
    fn call(
        &self,
        rules: &'a Rules,
        positive: bool,
        body: &'a Body,
        receiver: &'a Body,
        attribute: AttrId,
        arguments: &'a [Body],
    ) -> Doing<'a>
        requires is { body_view body.now ≡ Call (body_view receiver.now) attribute (bodies_view arguments.now) }
        ensures same { rest rules.now (Form positive body.entry) self.now ≡ rest rules.now result self.now }
        ensures less { weight result self.now < form_size (body_view body.now) + load self.now.tasks }
        ensures typed { (at : ClassAt ℕ) (look : Contents ℕ) → Forms rules.now at self.now body.now → IsTypedDoing rules.now at look result self.now }
    {
        if positive && starts_from(self.start, rules.start_of(attribute)) {
            return Doing::Evaluate(Purpose::Arguments(attribute, arguments), receiver);
        }
        Doing::Evaluate(Purpose::Formula(positive), body)
    }

    /// Evaluates an expression where it stands, up to its end or to a demand.
    fn evaluate(
        &mut self,
        alloc: Global,
        rules: &'a Rules,
        store: &'a Store,
        purpose: Purpose<'a>,
        body: &'a Body,
    ) -> Result<Doing<'a>, AllocError>
        requires idle_store { IsIdle store.now }
        requires over { IsOver rules.now (class_shown store.now) (contents store.now) }
        requires typed { Evaluates rules.now (class_shown store.now) self.old purpose body.now }
        ensures same { IfOk result (λ d. GoesOn (contents store.now) rules.now self.old.trial.reads
            (rest rules.now (Evaluate purpose.entry body.entry) self.old) d self.new) }
        ensures less { IfOk result (λ d. weight d self.new < size (body_view body.now) + 1 + use_cost purpose.entry + load self.old.tasks) }
        ensures typed { IfOk result (λ d. IsTypedDoing rules.now (class_shown store.now) (contents store.now) d self.new) }
    {
        let arguments = self.arguments.share()?;
        self.trial
            .stand(self.this, self.child, &self.bound, arguments)?;
        let step = self.trial.advance(alloc, rules, store, Now::Enter(body))?;
        Ok(stepped(purpose, step))
    }

    /// Uses a value.
    fn used(
        &mut self,
        alloc: Global,
        store: &'a Store,
        purpose: Purpose<'a>,
        value: Value,
    ) -> Result<Doing<'a>, AllocError>
        requires idle_store { IsIdle store.now }
        requires typed { (meant : Meant) × (at : ClassAt ℕ) × IsOver meant at (contents store.now) × Uses meant at self.old purpose (value_view value) }
        ensures same { (meant : Meant) → IfOk result (λ d. GoesOn (contents store.now) meant self.old.trial.reads
            (used meant purpose.entry self.old (value_view value)) d self.new) }
        ensures less { IfOk result (λ d. weight d self.new < use_cost purpose.entry + load self.old.tasks) }
        ensures typed { (meant : Meant) (at : ClassAt ℕ) → IsOver meant at (contents store.now) → Uses meant at self.old purpose.entry (value_view value)
            → IfOk result (λ d. IsTypedDoing meant at (contents store.now) d self.new) }
    {
        match purpose {
            Purpose::Formula(positive) => self.known(turned(&value, positive)),
            Purpose::Choose(positive, yes, no) => Ok(choose(&value, positive, yes, no)),
            Purpose::Arguments(attribute, arguments) => {
                self.first_argument(alloc, attribute, value.node(), arguments)
            }
            Purpose::Argument(call, others) => self.pass(call, value, others),
            Purpose::Elements(positive, part, body) => {
                self.elements(store, positive, part, body, value.node())
            }
            Purpose::Under(positive, lookup, body) => {
                self.elements_under(alloc, store, positive, lookup, body, value.node())
            }
        }
    }

    /// The formula is a value.
    pub(crate) fn known(&mut self, value: bool) -> Result<Doing<'a>, AllocError>
        ensures { IfOk result (λ d. (d ≡ Made) × (self.new ≡ record self.old { pile = Known (Truth value) ∷ self.old.pile })) }
    {
        self.pile.push_known(value)?;
        Ok(Doing::Made)
    }

    /// The formula is an instance; or the fault of an attribute that is asked of null.
    fn asks(
        &mut self,
        attribute: AttrId,
        node: Option<Node>,
        arguments: Arguments,
    ) -> Result<Doing<'a>, AllocError>
        ensures does { IfOk result (λ d. CarriesOn (λ meant. asked_of meant self.old attribute (Ref node) (map value_view arguments)) 1
            self.old d self.new) }
        ensures typed { (meant : Meant) (at : ClassAt ℕ) (look : Contents ℕ) → IsOver meant at look
            → Calls meant at self.old attribute node (map value_view arguments) no_exprs → IfOk result (λ d. IsTypedDoing meant at look d self.new) }
    {
        match node {
            Some(node) => {
                self.pile.push_asks(Inst::new(node, attribute, arguments))?;
                Ok(Doing::Made)
            }
            None => Ok(Doing::Fail(FaultKind::Null)),
        }
    }

    /// Evaluates the first argument of a call that is left in the formula, where it has one.
    fn first_argument(
        &mut self,
        alloc: Global,
        attribute: AttrId,
        node: Option<Node>,
        arguments: &'a [Body],
    ) -> Result<Doing<'a>, AllocError>
        ensures does { IfOk result (λ d. CarriesOn (λ meant. called meant self.old attribute (Ref node) [] (bodies_view arguments.now))
            (2 * sizes (bodies_view arguments.now) + 2) self.old d self.new) }
        ensures typed { (meant : Meant) (at : ClassAt ℕ) (look : Contents ℕ) → IsOver meant at look
            → Calls meant at self.old attribute node [] (bodies_view arguments.now) → IfOk result (λ d. IsTypedDoing meant at look d self.new) }
    {
        match arguments.split_first() {
            Some((argument, others)) => {
                let call = Asking {
                    attribute,
                    node,
                    done: Vec::with_capacity(alloc, arguments.len())?,
                };
                let boxed = Box::new(alloc, call)?;
                Ok(Doing::Evaluate(Purpose::Argument(boxed, others), argument))
            }
            None => self.asks(attribute, node, Arguments::none()),
        }
    }

    /// Passes an argument to a call that is left in the formula, and goes on with the others.
    fn pass(
        &mut self,
        mut call: Box<Asking>,
        value: Value,
        others: &'a [Body],
    ) -> Result<Doing<'a>, AllocError>
        ensures does { IfOk result (λ d. CarriesOn (λ meant. called meant self.old call.value.attribute (Ref call.value.node)
            (map value_view call.value.done.items ++ value_view value ∷ []) (bodies_view others.now))
            (2 * sizes (bodies_view others.now) + 2) self.old d self.new) }
        ensures typed { (meant : Meant) (at : ClassAt ℕ) (look : Contents ℕ) → IsOver meant at look
            → Calls meant at self.old call.value.attribute call.value.node
            (map value_view call.value.done.items ++ value_view value ∷ []) (bodies_view others.now)
            → IfOk result (λ d. IsTypedDoing meant at look d self.new) }
    {
        call.done.push(value)?;
        self.next_argument(call, others)
    }

    /// Evaluates the next argument, or leaves the call in the formula once all are there.
    fn next_argument(
        &mut self,
        call: Box<Asking>,
        others: &'a [Body],
    ) -> Result<Doing<'a>, AllocError>
        ensures does { IfOk result (λ d. CarriesOn (λ meant. called meant self.old call.value.attribute (Ref call.value.node)
            (map value_view call.value.done.items) (bodies_view others.now)) (2 * sizes (bodies_view others.now) + 2) self.old d self.new) }
        ensures typed { (meant : Meant) (at : ClassAt ℕ) (look : Contents ℕ) → IsOver meant at look
            → Calls meant at self.old call.value.attribute call.value.node (map value_view call.value.done.items) (bodies_view others.now)
            → IfOk result (λ d. IsTypedDoing meant at look d self.new) }
    {
        match others.split_first() {
            Some((argument, others)) => {
                Ok(Doing::Evaluate(Purpose::Argument(call, others), argument))
            }
            None => {
                let Asking {
                    attribute,
                    node,
                    done,
                } = Box::into_inner(call);
                self.asks(attribute, node, Arguments::of(done)?)
            }
        }
    }

    /// Goes over the elements in a component of a node, or gives a fault.
    fn elements(
        &mut self,
        store: &'a Store,
        positive: bool,
        part: usize,
        body: &'a Body,
        node: Option<Node>,
    ) -> Result<Doing<'a>, AllocError>
        requires idle_store { IsIdle store.now }
        ensures same { (meant : Meant) → IfOk result (λ d. GoesOn (contents store.now) meant self.old.trial.reads
            (folded meant self.old positive part (body_view body.now) node) d self.new) }
        ensures less { IfOk result (λ d. weight d self.new < 3 * tests (size (body_view body.now)) most + 1 + load self.old.tasks) }
        ensures typed { (meant : Meant) (at : ClassAt ℕ) → IsOver meant at (contents store.now) → Folds meant at self.old part body.now node
            → IfOk result (λ d. IsTypedDoing meant at (contents store.now) d self.new) }
    {
        match node {
            Some(node) => {
                self.trial.reads.push(Loc::Slot(node, part))?;
                self.next_element(positive, body, children(store, node, part))
            }
            None => Ok(Doing::Fail(FaultKind::Null)),
        }
    }

    /// The formula at the next element, or that there is none.
    fn next_element(
        &mut self,
        positive: bool,
        body: &'a Body,
        nodes: &'a [Node],
    ) -> Result<Doing<'a>, AllocError>
        ensures same { (meant : Meant) → IfOk result (λ d. gone_over meant self.old positive (body_view body.now) nodes.now ≡ rest meant d self.new) }
        ensures less { IfOk result (λ d. weight d self.new + 2 ≤ 3 * tests (size (body_view body.now)) (length nodes.now) + load self.old.tasks) }
        ensures reads { IfOk result (λ d. self.new.trial.reads ≡ self.old.trial.reads) }
        ensures typed { (meant : Meant) (at : ClassAt ℕ) (look : Contents ℕ) → GoesOver meant at self.old body.now nodes.now
            → IfOk result (λ d. IsTypedDoing meant at look d self.new) }
    {
        match nodes.split_first() {
            Some((node, others)) => {
                self.bound.push(*node)?;
                self.tasks.push(Task::Element(positive, body, others))?;
                Ok(Doing::Form(positive, body))
            }
            None => self.known(!positive),
        }
    }

    /// Does with the formula on top what is left to do.
    fn made(&mut self, alloc: Global, task: Task<'a>) -> Result<Doing<'a>, AllocError>
        requires typed { (meant : Meant) × (at : ClassAt ℕ) × Continues meant at self.old task }
        ensures does { IfOk result (λ d. CarriesOn (λ meant. completed meant self.old.start (task.entry ∷ self.old.tasks) self.old.pile (place_of self.old))
            (cost task.entry) self.old d self.new) }
        ensures typed { (meant : Meant) (at : ClassAt ℕ) (look : Contents ℕ) → Continues meant at self.old task.entry
            → IfOk result (λ d. IsTypedDoing meant at look d self.new) }
    {
        match task {
            Task::Right(conjunction, positive, right) => {
                self.right(conjunction, positive, right)
            }
            Task::Join(conjunction) => {
                self.pile.join(conjunction)?;
                Ok(Doing::Made)
            }
            Task::Element(positive, body, others) => {
                let _ = self.bound.pop();
                self.decide(positive, body, others)
            }
            Task::Among(positive, mark, body, others) => {
                let _ = self.bound.pop();
                self.decide_among(alloc, positive, mark, body, &others)
            }
        }
    }

    /// The right side, where the left one doesn't decide.
    fn right(
        &mut self,
        conjunction: bool,
        positive: bool,
        right: &'a Body,
    ) -> Result<Doing<'a>, AllocError>
        requires top { HasTop self.old.pile }
        ensures does { IfOk result (λ d. CarriesOn (λ meant. settled meant self.old (not conjunction) conjunction
            (formed meant self.old.start positive (body_view right.now) (place_of self.old)))
            (form_size (body_view right.now) + 2) self.old d self.new) }
        ensures typed { (meant : Meant) (at : ClassAt ℕ) (look : Contents ℕ) → Continues meant at self.old (Right conjunction positive right.entry)
            → IfOk result (λ d. IsTypedDoing meant at look d self.new) }
    {
        if self.pile.is_surely(!conjunction) {
            return Ok(Doing::Made);
        }
        self.keep(conjunction)?;
        Ok(Doing::Form(positive, right))
    }

    /// The next element, where this one doesn't decide.
    fn decide(
        &mut self,
        positive: bool,
        body: &'a Body,
        others: &'a [Node],
    ) -> Result<Doing<'a>, AllocError>
        requires top { HasTop self.old.pile }
        ensures does { IfOk result (λ d. CarriesOn (λ meant. settled meant self.old positive (not positive)
            (among meant self.old.start positive (body_view body.now) (place_of self.old) others.now))
            (3 * tests (size (body_view body.now)) (length others.now)) self.old d self.new) }
        ensures typed { (meant : Meant) (at : ClassAt ℕ) (look : Contents ℕ) → IsForm meant at (top_of self.old.pile)
            → Decides meant at self.old body.now others.now → IfOk result (λ d. IsTypedDoing meant at look d self.new) }
    {
        if self.pile.is_surely(positive) {
            return Ok(Doing::Made);
        }
        self.keep(!positive)?;
        self.next_element(positive, body, others)
    }

    /// Keeps the formula on top as the left side; a value that leaves the right side to decide isn't kept.
    pub(crate) fn keep(&mut self, conjunction: bool) -> Result<(), AllocError>
        requires { HasTop self.old.pile }
        ensures same { (meant : Meant) (r : Run ℕ (Meaning ℕ)) → OnOk result
            (joining meant self.old conjunction r ≡ followed meant self.new r) }
        ensures less { OnOk result (load self.new.tasks ≤ 1 + load self.old.tasks) }
        ensures stays { OnOk result (self.new ≡ record self.old { tasks = self.new.tasks; pile = self.new.pile }) }
        ensures typed { (meant : Meant) (at : ClassAt ℕ) (s : PlaceKinds) → IsForm meant at (top_of self.old.pile)
            → AreTasks meant at s self.old.tasks (below self.old.pile) → OnOk result (AreTasks meant at s self.new.tasks self.new.pile) }
    {
        if self.pile.is_known_as(conjunction) {
            self.pile.drop_known();
            return Ok(());
        }
        self.tasks.push(Task::Join(conjunction))?;
        Ok(())
    }
}

/// What is done once an evaluation has come to that step.
fn stepped<'a>(purpose: Purpose<'a>, step: Step) -> Doing<'a>
    ensures { result ≡ stepped purpose.entry step }
{
    match step {
        Step::Value(value) => Doing::Use(purpose, value),
        Step::Fault(kind) => Doing::Fail(kind),
        Step::Need(inst) => Doing::Wait(purpose, inst),
    }
}

/// The expression that a truth value chooses.
fn choose<'a>(test: &Value, positive: bool, yes: &'a Body, no: &'a Body) -> Doing<'a>
    requires { IsTruth (value_view test.now) }
    ensures { result ≡ Form positive (cond (truth_of (value_view test.now)) yes.entry no.entry) }
{
    if test.truth() {
        return Doing::Form(positive, yes);
    }
    Doing::Form(positive, no)
}

/// Whether an attribute of that start is circular and starts from the value.
fn starts_from(value: bool, start: Option<bool>) -> bool
    ensures { result ≡ starts_from value start }
{
    match start {
        Some(from) => from == value,
        None => false,
    }
}

/// The truth value as it is, or (false) the other one.
fn turned(value: &Value, positive: bool) -> bool
    requires { IsTruth (value_view value.now) }
    ensures { Truth result ≡ turned positive (value_view value.now) }
{
    if positive {
        return value.truth();
    }
    !value.truth()
}
