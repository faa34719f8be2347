//! The recursion of an evaluation in one go: over the parts of expressions, and through the instances that they demand.

ghost use Rattle.std.specs.Prelude.{◌≡◌, ◌≤◌, [], IfOk, IfSome, OnOk, IsTrue, drop, false, length, map, take, true};
ghost use Rattle.at_model.specs.of_fixpoints.Fixpoints.{HasValue};
ghost use Rattle.at_store.specs.Shown.{contents};
ghost use Rattle.at_rules.specs.Bodies.{bodies_view, body_view};
ghost use Rattle.at_body.specs.Comparing.{IsComparison};
ghost use Rattle.at_body.specs.Rest.{ev, ev_all, over};
ghost use Rattle.at_body.specs.Standing.{inside};
ghost use Rattle.at_body.specs.Values.{value_view};
ghost use Rattle.at_evaluate.specs.Parts.{beside_text, call_of, either_of, fold_of, one_of, two_of};
ghost use Rattle.at_evaluate.specs.Place.{place_at};
ghost use Rattle.at_evaluate.specs.Valued.{meaning};
ghost use Rattle.at_evaluate.specs.InParts.{EndsEvaluated, EndsRecalled, EndsTold, EvaluatesTo, GivesLevel, HasGrown, IsEmptied, IsHeld, IsHeldAfresh, IsHeldFor, IsHeldFrom, held_by};
ghost use Rattle.at_evaluate.specs.InParts.{AsksEachInner, AsksInner, MayHaveCome, MayHavePassedBy, Seeks};
ghost use Rattle.at_evaluate.specs.Sparing.{AreSpare, HasWorthy};

use super::keeping::{FEW, is_circular, is_inner, is_small};
use super::operands::value_at_once;
use super::{Direct, Level};
use crate::applying::{node_of, truth_in, with_one, with_two};
use crate::basis::Basis;
use crate::comparing::{compare, compare_with, lent};
use crate::folding::{Next, chosen, settle};
use crate::form::{Form, form_of};
use crate::here::{Here, begin};
use crate::near::{asked_of_each, plain_value};
use crate::passing::pass_by;
use crate::stop::Stop;
use at_body::{Arguments, Binary, Fold, Inst, Reads, Unary, Value, come_to};
use at_cache::Keeper;
use at_rules::{AttrId, Body};
use at_store::{Loc, Node};
use std::alloc::{AllocError, Global};

mod seeking;

// How many instances are evaluated at most, one behind the other, so that one which used them may be kept again.
const IN_THE_WAY: usize = 16;

// A fresh level has room for so many locations and instances.
const READS: usize = 32;

const USES: usize = 8;

// A level is used again where its evaluation looked at no more locations than that.
const SPARED: usize = 1024;

impl Level {
    // Takes all out; the memory stays.
    fn clear(&mut self)
        ensures { IsEmptied self.new }
    {
        self.reads.clear();
        self.uses.clear();
    }

    // What stands behind the first so many locations and instances, taken out.
    fn split_off(&mut self, reads: usize, uses: usize) -> Result<Level, AllocError>
        requires reads { reads ≤ length self.old.reads }
        requires uses { uses ≤ length self.old.uses.items }
        ensures front { OnOk result ((self.new.reads ≡ take reads self.old.reads) × (self.new.uses.items ≡ take uses self.old.uses.items)) }
        ensures tail { IfOk result (λ l. (l.reads ≡ drop reads self.old.reads) × (l.uses.items ≡ drop uses self.old.uses.items)) }
    {
        Ok(Level {
            reads: self.reads.split_off(reads)?,
            uses: self.uses.split_off(uses)?,
        })
    }
}

impl Direct {
    /// The value of an instance that isn't kept, by expressions that nest so deep at most, with those of the instances that they demand; then all
    /// that is worthy of it is kept. An error where that gives up, or memory is wanting: what came to be kept up to there stays.
    pub fn answer<K: Keeper>(
        &mut self,
        keeper: &mut K,
        basis: &Basis<'_>,
        inst: &Inst,
        deepest: usize,
    ) -> Result<Value, Stop>
        requires { IsHeld basis.now.rules.now (contents basis.now.store.now) (held_by K.contents K.memories keeper.old self.old) }
        ensures value { IfOk result (λ v. HasValue (contents basis.now.store.now) (meaning basis.now.rules.now) inst.now (value_view v)) }
        ensures all { AreSpare basis.now.rules.now (contents basis.now.store.now) (K.contents keeper.old)
            → IfOk result (λ v. HasWorthy basis.now.rules.now (contents basis.now.store.now) inst.now (K.contents keeper.new)) }
        ensures grown { HasGrown basis.now.rules.now basis.now.store.now inst.now
            (held_by K.contents K.memories keeper.old self.old) (held_by K.contents K.memories keeper.new self.new) }
    {
        let mut asks = self.level();
        let needed = inst.copy(self.alloc)?;
        self.told(keeper, basis, &mut asks, needed, deepest)
    }

    // The level of an evaluation that ended, emptied, or a fresh one. One with room for many locations isn't used again: below a long chain each
    // instance that waits would hold such a one.
    #[inline(always)]
    fn level(&mut self) -> Level
        ensures { GivesLevel self.old self.new result }
    {
        match self.spare.pop() {
            Some(level) if level.reads.len() <= SPARED => emptied(level),
            _ => fresh_level(self.alloc),
        }
    }

    // The value of an instance that an evaluation demands: it is known, or can be verified, or is evaluated at once.
    #[cycle(direct)]
    fn told<K: Keeper>(
        &mut self,
        keeper: &mut K,
        basis: &Basis<'_>,
        level: &mut Level,
        needed: Inst,
        above: usize,
    ) -> Result<Value, Stop>
        requires { IsHeld basis.now.rules.now (contents basis.now.store.now) (held_by K.contents K.memories keeper.old self.old) }
        ensures { EndsTold basis.now.rules.now basis.now.store.now needed (held_by K.contents K.memories keeper.old self.old)
            (held_by K.contents K.memories keeper.new self.new) level.old level.new result }
    {
        let recalled = self.recall(keeper, basis, level, &needed)?;
        if let Some(value) = recalled {
            return Ok(value);
        }
        if is_inner(basis.rules, needed.attribute()) {
            return self.inner(keeper, basis, level, needed, above);
        }
        if is_circular(basis.rules, needed.attribute()) {
            return Err(Stop::GivesUp);
        }
        let verified = self.verify(keeper, basis, level, &needed, above)?;
        match verified {
            Some(value) => Ok(value),
            None => self.afresh(keeper, basis, level, needed, above),
        }
    }

    // The value of an instance that isn't known and isn't lazy, in the evaluation that asks. Where that looks at many locations it is remembered.
    #[cycle(direct)]
    fn inner<K: Keeper>(
        &mut self,
        keeper: &mut K,
        basis: &Basis<'_>,
        level: &mut Level,
        needed: Inst,
        above: usize,
    ) -> Result<Value, Stop>
        requires { IsHeldFor basis.now.rules.now (contents basis.now.store.now) (held_by K.contents K.memories keeper.old self.old) false needed }
        ensures { EndsTold basis.now.rules.now basis.now.store.now needed (held_by K.contents K.memories keeper.old self.old)
            (held_by K.contents K.memories keeper.new self.new) level.old level.new result }
    {
        let reads = level.reads.len();
        let uses = level.uses.len();
        let value = self.evaluate(keeper, basis, level, &needed, above)?;
        if is_small(basis, level.reads.as_slice(), reads, FEW) {
            return Ok(value);
        }
        let below = level.split_off(reads, uses)?;
        self.remember(keeper, basis, level, &below, needed, &value)?;
        Ok(value)
    }

    // The value of a lazy instance that isn't kept, where it can be kept again; it is taken then. What stands in the way is
    // evaluated first, one behind the other, as long as these are few.
    #[cycle(direct)]
    fn verify<K: Keeper>(
        &mut self,
        keeper: &mut K,
        basis: &Basis<'_>,
        level: &mut Level,
        needed: &Inst,
        above: usize,
    ) -> Result<Option<Value>, Stop>
        requires { IsHeldAfresh basis.now.rules.now (contents basis.now.store.now) (held_by K.contents K.memories keeper.old self.old) needed.now }
        ensures { EndsRecalled basis.now.rules.now basis.now.store.now needed.now (held_by K.contents K.memories keeper.old self.old)
            (held_by K.contents K.memories keeper.new self.new) level.old level.new result }
    {
        for _ in 0..IN_THE_WAY {
            let again = self.keep_again(keeper, basis, level, needed)?;
            if let Some(value) = again {
                return Ok(Some(value));
            }
            let Some(other) = self.in_the_way(keeper, basis, needed)? else {
                return Ok(None);
            };
            let mut aside = self.level();
            self.afresh(keeper, basis, &mut aside, other, above)?;
            self.spare.push(aside)?;
        }
        Ok(None)
    }

    // The value of a lazy instance that isn't kept, by an evaluation of its own; it is kept at its end, and taken then. Where nothing that it used
    // has changed it is kept again, and not made.
    #[cycle(direct)]
    fn afresh<K: Keeper>(
        &mut self,
        keeper: &mut K,
        basis: &Basis<'_>,
        level: &mut Level,
        needed: Inst,
        above: usize,
    ) -> Result<Value, Stop>
        requires { IsHeldAfresh basis.now.rules.now (contents basis.now.store.now) (held_by K.contents K.memories keeper.old self.old) needed }
        ensures { EndsTold basis.now.rules.now basis.now.store.now needed (held_by K.contents K.memories keeper.old self.old)
            (held_by K.contents K.memories keeper.new self.new) level.old level.new result }
    {
        let mut below = self.level();
        let value = self.evaluate(keeper, basis, &mut below, &needed, above)?;
        let again = self.keep_again(keeper, basis, level, &needed)?;
        if let Some(known) = again {
            return Ok(known);
        }
        self.keep(keeper, basis, level, &below, needed, &value)?;
        self.spare.push(below)?;
        Ok(value)
    }

    // Evaluates an instance, from its beginning to its end.
    #[inline(always)]
    #[cycle(direct)]
    fn evaluate<K: Keeper>(
        &mut self,
        keeper: &mut K,
        basis: &Basis<'_>,
        level: &mut Level,
        inst: &Inst,
        above: usize,
    ) -> Result<Value, Stop>
        requires { IsHeldFrom basis.now.rules.now (contents basis.now.store.now) (held_by K.contents K.memories keeper.old self.old) inst.now }
        ensures { EndsEvaluated basis.now.rules.now basis.now.store.now inst.now (held_by K.contents K.memories keeper.old self.old)
            (held_by K.contents K.memories keeper.new self.new) level.old level.new result }
    {
        let begun = begin(self.alloc, basis.rules, basis.store, &mut level.reads, inst)?;
        self.operand(keeper, basis, level, &begun.0, begun.1, above)
    }

    // The value of an expression.
    #[cycle(direct)]
    fn value<K: Keeper>(
        &mut self,
        keeper: &mut K,
        basis: &Basis<'_>,
        level: &mut Level,
        here: &Here,
        body: &Body,
        above: usize,
    ) -> Result<Value, Stop>
        requires { IsHeld basis.now.rules.now (contents basis.now.store.now) (held_by K.contents K.memories keeper.old self.old) }
        ensures { EvaluatesTo basis.now.rules.now basis.now.store.now
            (ev basis.now.rules.now.classes (body_view body.now) (place_at here.now)) value_view
            (held_by K.contents K.memories keeper.old self.old) (held_by K.contents K.memories keeper.new self.new) level.old level.new result }
    {
        if above == 0 {
            return Err(Stop::GivesUp);
        }
        let left = above - 1;
        match form_of(body) {
            Form::One(unary, a) => self.one(keeper, basis, level, here, unary, a, left),
            Form::Two(binary, a, b) => { self.two(keeper, basis, level, here, binary, a, b, left) }
            Form::Compared(comparison, a, b) => {
                self.compared(keeper, basis, level, here, comparison, a, b, left)
            }
            Form::Either(test, yes, no) => {
                self.either(keeper, basis, level, here, test, yes, no, left)
            }
            Form::Call(receiver, attribute, passed) => self.call(
                keeper, basis, level, here, receiver, attribute, passed, left,
            ),
            Form::Over(fold, of, part, each) => {
                self.over(keeper, basis, level, here, fold, of, part, each, left)
            }
            Form::Under(fold, of, lookup, each) => {
                self.under(keeper, basis, level, here, fold, of, lookup, each, left)
            }
            Form::Plain => here.value(basis.store, &mut level.reads, body),
        }
    }

    // The value of an expression within another one, which may come at once.
    #[inline(always)]
    #[cycle(direct)]
    fn operand<K: Keeper>(
        &mut self,
        keeper: &mut K,
        basis: &Basis<'_>,
        level: &mut Level,
        here: &Here,
        body: &Body,
        above: usize,
    ) -> Result<Value, Stop>
        requires { IsHeld basis.now.rules.now (contents basis.now.store.now) (held_by K.contents K.memories keeper.old self.old) }
        ensures { EvaluatesTo basis.now.rules.now basis.now.store.now
            (ev basis.now.rules.now.classes (body_view body.now) (place_at here.now)) value_view
            (held_by K.contents K.memories keeper.old self.old) (held_by K.contents K.memories keeper.new self.new) level.old level.new result }
    {
        let at_once = value_at_once(basis, &mut level.reads, here, body)?;
        match at_once {
            Some(value) => Ok(value),
            None => self.value(keeper, basis, level, here, body, above),
        }
    }

    // What is done with the value of an operand.
    #[inline(always)]
    #[cycle(direct)]
    fn one<K: Keeper>(
        &mut self,
        keeper: &mut K,
        basis: &Basis<'_>,
        level: &mut Level,
        here: &Here,
        unary: Unary,
        operand: &Body,
        above: usize,
    ) -> Result<Value, Stop>
        requires { IsHeld basis.now.rules.now (contents basis.now.store.now) (held_by K.contents K.memories keeper.old self.old) }
        ensures { EvaluatesTo basis.now.rules.now basis.now.store.now
            (one_of basis.now.rules.now.classes (place_at here.now) unary operand.now) value_view
            (held_by K.contents K.memories keeper.old self.old) (held_by K.contents K.memories keeper.new self.new) level.old level.new result }
    {
        let value = self.operand(keeper, basis, level, here, operand, above)?;
        with_one(basis.rules, basis.store, &mut level.reads, unary, &value)
    }

    // What is done with the values of two operands.
    #[inline(always)]
    #[cycle(direct)]
    fn two<K: Keeper>(
        &mut self,
        keeper: &mut K,
        basis: &Basis<'_>,
        level: &mut Level,
        here: &Here,
        binary: Binary,
        left: &Body,
        right: &Body,
        above: usize,
    ) -> Result<Value, Stop>
        requires { IsHeld basis.now.rules.now (contents basis.now.store.now) (held_by K.contents K.memories keeper.old self.old) }
        ensures { EvaluatesTo basis.now.rules.now basis.now.store.now
            (two_of basis.now.rules.now.classes (place_at here.now) binary left.now right.now) value_view
            (held_by K.contents K.memories keeper.old self.old) (held_by K.contents K.memories keeper.new self.new) level.old level.new result }
    {
        let first = self.operand(keeper, basis, level, here, left, above)?;
        let second = self.operand(keeper, basis, level, here, right, above)?;
        with_two(basis.store, &mut level.reads, binary, first, &second)
    }

    // The comparison of two values. A token of a node at hand is compared where it stands with an argument or a literal.
    #[cycle(direct)]
    fn compared<K: Keeper>(
        &mut self,
        keeper: &mut K,
        basis: &Basis<'_>,
        level: &mut Level,
        here: &Here,
        comparison: Binary,
        left: &Body,
        right: &Body,
        above: usize,
    ) -> Result<Value, Stop>
        requires comparison { IsComparison comparison }
        requires held { IsHeld basis.now.rules.now (contents basis.now.store.now) (held_by K.contents K.memories keeper.old self.old) }
        ensures { EvaluatesTo basis.now.rules.now basis.now.store.now
            (two_of basis.now.rules.now.classes (place_at here.now) comparison left.now right.now) value_view
            (held_by K.contents K.memories keeper.old self.old) (held_by K.contents K.memories keeper.new self.new) level.old level.new result }
    {
        let at_once = compare(
            here,
            basis.store,
            &mut level.reads,
            &comparison,
            left,
            right,
        )?;
        match at_once {
            Some(value) => Ok(value),
            None => self.in_turn(keeper, basis, level, here, comparison, left, right, above),
        }
    }

    // The comparison of two values, one evaluated after the other. A text at hand isn't copied.
    #[inline(always)]
    #[cycle(direct)]
    fn in_turn<K: Keeper>(
        &mut self,
        keeper: &mut K,
        basis: &Basis<'_>,
        level: &mut Level,
        here: &Here,
        comparison: Binary,
        left: &Body,
        right: &Body,
        above: usize,
    ) -> Result<Value, Stop>
        requires comparison { IsComparison comparison }
        requires held { IsHeld basis.now.rules.now (contents basis.now.store.now) (held_by K.contents K.memories keeper.old self.old) }
        ensures { EvaluatesTo basis.now.rules.now basis.now.store.now
            (two_of basis.now.rules.now.classes (place_at here.now) comparison left.now right.now) value_view
            (held_by K.contents K.memories keeper.old self.old) (held_by K.contents K.memories keeper.new self.new) level.old level.new result }
    {
        match lent(here, right) {
            Some(text) => self.beside(keeper, basis, level, here, comparison, left, text, above),
            None => self.two(keeper, basis, level, here, comparison, left, right, above),
        }
    }

    // The comparison of a value with a text.
    #[inline(always)]
    #[cycle(direct)]
    fn beside<K: Keeper>(
        &mut self,
        keeper: &mut K,
        basis: &Basis<'_>,
        level: &mut Level,
        here: &Here,
        comparison: Binary,
        left: &Body,
        text: &str,
        above: usize,
    ) -> Result<Value, Stop>
        requires comparison { IsComparison comparison }
        requires held { IsHeld basis.now.rules.now (contents basis.now.store.now) (held_by K.contents K.memories keeper.old self.old) }
        ensures { EvaluatesTo basis.now.rules.now basis.now.store.now
            (beside_text basis.now.rules.now.classes (place_at here.now) comparison left.now text.now) value_view
            (held_by K.contents K.memories keeper.old self.old) (held_by K.contents K.memories keeper.new self.new) level.old level.new result }
    {
        let value = self.operand(keeper, basis, level, here, left, above)?;
        compare_with(&comparison, &value, text)
    }

    // The value of the expression that a test chooses, or what the test is where there is none.
    #[cycle(direct)]
    fn either<K: Keeper>(
        &mut self,
        keeper: &mut K,
        basis: &Basis<'_>,
        level: &mut Level,
        here: &Here,
        test: &Body,
        yes: Option<&Body>,
        no: Option<&Body>,
        above: usize,
    ) -> Result<Value, Stop>
        requires { IsHeld basis.now.rules.now (contents basis.now.store.now) (held_by K.contents K.memories keeper.old self.old) }
        ensures { EvaluatesTo basis.now.rules.now basis.now.store.now
            (either_of basis.now.rules.now.classes (place_at here.now) test.now yes.entry no.entry) value_view
            (held_by K.contents K.memories keeper.old self.old) (held_by K.contents K.memories keeper.new self.new) level.old level.new result }
    {
        let value = self.value(keeper, basis, level, here, test, above)?;
        let holds = truth_in(&value)?;
        match chosen(holds, yes, no) {
            Some(body) => self.operand(keeper, basis, level, here, body, above),
            None => Ok(Value::Bool(holds)),
        }
    }

    // The value of an attribute of a node, with the values of arguments.
    #[inline(always)]
    #[cycle(direct)]
    fn call<K: Keeper>(
        &mut self,
        keeper: &mut K,
        basis: &Basis<'_>,
        level: &mut Level,
        here: &Here,
        receiver: &Body,
        attribute: AttrId,
        passed: &[Body],
        above: usize,
    ) -> Result<Value, Stop>
        requires { IsHeld basis.now.rules.now (contents basis.now.store.now) (held_by K.contents K.memories keeper.old self.old) }
        ensures { EvaluatesTo basis.now.rules.now basis.now.store.now
            (call_of basis.now.rules.now.classes (place_at here.now) receiver.now attribute passed.now) value_view
            (held_by K.contents K.memories keeper.old self.old) (held_by K.contents K.memories keeper.new self.new) level.old level.new result }
    {
        let value = self.operand(keeper, basis, level, here, receiver, above)?;
        let arguments = self.passed(keeper, basis, level, here, passed, above)?;
        let node = node_of(&value)?;
        self.told(
            keeper,
            basis,
            level,
            Inst::new(node, attribute, arguments),
            above,
        )
    }

    // The values of arguments.
    #[inline(always)]
    #[cycle(direct)]
    fn passed<K: Keeper>(
        &mut self,
        keeper: &mut K,
        basis: &Basis<'_>,
        level: &mut Level,
        here: &Here,
        passed: &[Body],
        above: usize,
    ) -> Result<Arguments, Stop>
        requires { IsHeld basis.now.rules.now (contents basis.now.store.now) (held_by K.contents K.memories keeper.old self.old) }
        ensures { EvaluatesTo basis.now.rules.now basis.now.store.now
            (ev_all basis.now.rules.now.classes (bodies_view passed.now) (place_at here.now)) (map value_view)
            (held_by K.contents K.memories keeper.old self.old) (held_by K.contents K.memories keeper.new self.new) level.old level.new result }
    {
        if here.hands_on(passed) {
            return here.handed_on();
        }
        let mut values = Vec::new(self.alloc);
        let mut rest = passed;
        while let Some((argument, others)) = rest.split_first() {
            let value = self.value(keeper, basis, level, here, argument, above)?;
            values.push(value)?;
            rest = others;
        }
        let arguments = Arguments::of(values)?;
        Ok(arguments)
    }

    // A fold over the elements in a component of a node.
    #[cycle(direct)]
    fn over<K: Keeper>(
        &mut self,
        keeper: &mut K,
        basis: &Basis<'_>,
        level: &mut Level,
        here: &Here,
        fold: Fold,
        of: &Body,
        part: usize,
        body: &Body,
        above: usize,
    ) -> Result<Value, Stop>
        requires { IsHeld basis.now.rules.now (contents basis.now.store.now) (held_by K.contents K.memories keeper.old self.old) }
        ensures { EvaluatesTo basis.now.rules.now basis.now.store.now
            (fold_of basis.now.rules.now.classes (place_at here.now) fold of.now part body.now) value_view
            (held_by K.contents K.memories keeper.old self.old) (held_by K.contents K.memories keeper.new self.new) level.old level.new result }
    {
        let value = self.operand(keeper, basis, level, here, of, above)?;
        let node = node_of(&value)?;
        level.reads.push(Loc::Slot(node, part))?;
        self.each(
            keeper,
            basis,
            level,
            here,
            fold,
            body,
            basis.store.children(node, part),
            above,
        )
    }

    // A fold over these nodes.
    #[cycle(direct)]
    fn each<K: Keeper>(
        &mut self,
        keeper: &mut K,
        basis: &Basis<'_>,
        level: &mut Level,
        here: &Here,
        fold: Fold,
        body: &Body,
        nodes: &[Node],
        above: usize,
    ) -> Result<Value, Stop>
        requires { IsHeld basis.now.rules.now (contents basis.now.store.now) (held_by K.contents K.memories keeper.old self.old) }
        ensures { EvaluatesTo basis.now.rules.now basis.now.store.now
            (over basis.now.rules.now.classes fold (body_view body.now) (place_at here.now) nodes.now) value_view
            (held_by K.contents K.memories keeper.old self.old) (held_by K.contents K.memories keeper.new self.new) level.old level.new result }
    {
        let asked = inner_of_each(basis, here, body);
        let mut inside = here.copy()?;
        let mut going = fold;
        let mut rest = behind(basis, level, here, &going, body, &asked, nodes)?;
        while let Some((node, others)) = rest.split_first() {
            inside.bound.push(*node)?;
            let asked_here = asked_inside(basis, here, &inside, body, *node, &asked);
            let value = self.element(
                keeper,
                basis,
                level,
                &inside,
                body,
                *node,
                &asked_here,
                above,
            )?;
            let _ = inside.bound.pop();
            let next = settle(going, *node, &value)?;
            match next {
                Next::On(further) => going = further,
                Next::End(value) => return Ok(value),
            }
            rest = behind(basis, level, here, &going, body, &asked, others)?;
        }
        Ok(come_to(&going))
    }

    // The value of the expression of a fold at an element. Where it asks that for an attribute, it may come at once.
    #[cycle(direct)]
    fn element<K: Keeper>(
        &mut self,
        keeper: &mut K,
        basis: &Basis<'_>,
        level: &mut Level,
        inside: &Here,
        body: &Body,
        node: Node,
        asked: &Option<AttrId>,
        above: usize,
    ) -> Result<Value, Stop>
        requires { IfSome asked.now (AsksInner basis.now.rules.now (place_at inside.now) body.now node)
            × IsHeld basis.now.rules.now (contents basis.now.store.now) (held_by K.contents K.memories keeper.old self.old) }
        ensures { EvaluatesTo basis.now.rules.now basis.now.store.now
            (ev basis.now.rules.now.classes (body_view body.now) (place_at inside.now)) value_view
            (held_by K.contents K.memories keeper.old self.old) (held_by K.contents K.memories keeper.new self.new) level.old level.new result }
    {
        let at_once = plain_element(basis, level, inside, body, node, asked)?;
        match at_once {
            Some(value) => Ok(value),
            None => self.value(keeper, basis, level, inside, body, above),
        }
    }
}

// The attribute for which the expression of a fold asks each element, where that is evaluated in the one that asks, by its own equation.
fn inner_of_each(basis: &Basis<'_>, here: &Here, body: &Body) -> Option<AttrId>
    ensures { IfSome result (AsksEachInner basis.now.rules.now (place_at here.now) body.now) }
{
    let attribute = asked_of_each(here, body)?;
    if basis.rules.is_lazy(attribute) {
        return None;
    }
    if basis.rules.is_inherited(attribute) {
        return None;
    }
    Some(attribute)
}

// The nodes behind those at the front that the fold passes by at once, where it seeks one and asks each for the attribute.
#[inline(always)]
fn behind<'n>(
    basis: &Basis<'_>,
    level: &mut Level,
    here: &Here,
    fold: &Fold,
    body: &Body,
    asked: &Option<AttrId>,
    nodes: &'n [Node],
) -> Result<&'n [Node], Stop>
    requires { IfSome asked.now (AsksEachInner basis.now.rules.now (place_at here.now) body.now) }
    ensures { IfOk result (λ rest. MayHavePassedBy basis.now.rules.now (contents basis.now.store.now) (place_at here.now) fold.now body.now
        level.old level.new nodes.now rest.now) }
{
    let Some(attribute) = asked else {
        return Ok(nodes);
    };
    if !seeks(fold) {
        return Ok(nodes);
    }
    pass_by(
        basis.rules,
        basis.store,
        &mut level.reads,
        here.arguments.as_slice(),
        *attribute,
        nodes,
    )
}

// Whether the fold is what it was behind an element at which its expression comes to `false`.
#[inline(always)]
fn seeks(fold: &Fold) -> bool
    ensures { IsTrue result → Seeks fold.now }
{
    match fold {
        Fold::Exists | Fold::First => true,
        Fold::Sum(_) => false,
    }
}

// The same attribute, at an element within the fold.
#[inline(always)]
fn asked_inside(
    basis: &Basis<'_>,
    here: &Here,
    within: &Here,
    body: &Body,
    node: Node,
    asked: &Option<AttrId>,
) -> Option<AttrId>
    requires { (place_at within.now ≡ inside (place_at here.now) node)
        × IfSome asked.now (AsksEachInner basis.now.rules.now (place_at here.now) body.now) }
    ensures { IfSome result (AsksInner basis.now.rules.now (place_at within.now) body.now node) }
{
    *asked
}

// What that attribute of the element comes to by looks alone, where its equation is a plain one. None of others; then nothing is noted.
#[inline(always)]
fn plain_element(
    basis: &Basis<'_>,
    level: &mut Level,
    inside: &Here,
    body: &Body,
    node: Node,
    asked: &Option<AttrId>,
) -> Result<Option<Value>, Stop>
    requires { IfSome asked.now (AsksInner basis.now.rules.now (place_at inside.now) body.now node) }
    ensures { IfOk result (MayHaveCome basis.now.rules.now (contents basis.now.store.now) level.old level.new
        (ev basis.now.rules.now.classes (body_view body.now) (place_at inside.now))) }
{
    let Some(attribute) = asked else {
        return Ok(None);
    };
    plain_value(
        basis.rules,
        basis.store,
        &mut level.reads,
        &inside.arguments,
        node,
        *attribute,
    )
}

// A level with nothing in it, and room for what most evaluations look at.
fn fresh_level(alloc: Global) -> Level
    ensures { IsEmptied result }
{
    Level {
        reads: Reads::with_room(alloc, READS),
        uses: room_for_uses(alloc),
    }
}

// No instances, with room for what most evaluations take, where there is memory for that.
fn room_for_uses(alloc: Global) -> Vec<Inst>
    ensures { result.items ≡ [] }
{
    match Vec::with_capacity(alloc, USES) {
        Ok(uses) => uses,
        Err(_) => Vec::new(alloc),
    }
}

// The level with nothing in it.
fn emptied(level: Level) -> Level
    ensures { IsEmptied result }
{
    let mut level = level;
    level.clear();
    level
}
