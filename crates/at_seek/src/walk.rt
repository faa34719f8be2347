//! Bodies in which the folds that may be searches are.

use crate::finder::Finder;
use crate::scope::Scope;
use at_rules::{Body, Lookup};
use std::mem;

impl<'a> Finder<'a> {
    ghost use Rattle.std.specs.Prelude.{Bool};
    ghost use Rattle.at_model.specs.Rules.{Rules as RulesValue};
    ghost use Rattle.at_rules.specs.Bodies.{bodies_view, body_view};
    ghost use Rattle.at_seek.specs.Finding.{IsOver, IsTurnedIn, kinds_in};
    ghost use Rattle.at_seek.specs.Sought.{AreSearched, IsSearched};

    /// Turns the body, and all that it is made of, into searches where these may be. Where memory is wanting, folds stay folds.
    #[cycle(turning)]
    pub(crate) fn turn(&self, scope: &Scope, body: &mut Body)
        ensures { (rules : RulesValue) (h : Bool) → IsOver rules self.now → IsSearched rules (kinds_in scope.now h) (body_view body.old) (body_view body.new) }
    {
        let Some((lookup, inside)) = self.lookup(scope, body) else {
            return self.turn_parts(scope, body);
        };
        self.turn_inner(scope, &inside, body);
        seek(body, lookup);
    }

    /// Turns the list of a fold, and what stands in its braces, where these are inside.
    #[cycle(turning)]
    fn turn_inner(&self, scope: &Scope, inside: &Scope, body: &mut Body)
        ensures { (rules : RulesValue) (h : Bool) → IsOver rules self.now
            → IsTurnedIn rules (kinds_in scope.now h) (kinds_in inside.now h) (body_view body.old) (body_view body.new) }
    {
        match body {
            Body::Exists(list, _, test) => {
                self.turn(scope, list);
                self.turn(inside, test);
            }
            Body::First(list, _, test) => {
                self.turn(scope, list);
                self.turn(inside, test);
            }
            _ => {}
        }
    }

    /// Turns what the body is made of.
    #[cycle(turning)]
    fn turn_parts(&self, scope: &Scope, body: &mut Body)
        ensures { (rules : RulesValue) (h : Bool) → IsOver rules self.now → IsSearched rules (kinds_in scope.now h) (body_view body.old) (body_view body.new) }
    {
        match body {
            Body::Exists(list, part, test) => {
                let inside = self.inside(scope, list, *part);
                self.turn(scope, list);
                if let Some(inside) = inside {
                    self.turn(&inside, test);
                }
            }
            Body::First(list, part, test) => {
                let inside = self.inside(scope, list, *part);
                self.turn(scope, list);
                if let Some(inside) = inside {
                    self.turn(&inside, test);
                }
            }
            Body::Sum(list, part, term) => {
                let inside = self.inside(scope, list, *part);
                self.turn(scope, list);
                if let Some(inside) = inside {
                    self.turn(&inside, term);
                }
            }
            Body::Choose(test, one, other) => {
                self.turn(scope, test);
                self.turn(scope, one);
                self.turn(scope, other);
            }
            _ => self.turn_operands(scope, body),
        }
    }

    /// Turns the operands of an operator.
    #[cycle(turning)]
    fn turn_operands(&self, scope: &Scope, body: &mut Body)
        ensures { (rules : RulesValue) (h : Bool) → IsOver rules self.now → IsSearched rules (kinds_in scope.now h) (body_view body.old) (body_view body.new) }
    {
        match body {
            Body::And(one, other) => {
                self.turn(scope, one);
                self.turn(scope, other);
            }
            Body::Or(one, other) => {
                self.turn(scope, one);
                self.turn(scope, other);
            }
            Body::Arithmetic(_, one, other) => {
                self.turn(scope, one);
                self.turn(scope, other);
            }
            Body::Compare(_, one, other) => {
                self.turn(scope, one);
                self.turn(scope, other);
            }
            Body::Same(one, other) => {
                self.turn(scope, one);
                self.turn(scope, other);
            }
            Body::Differ(one, other) => {
                self.turn(scope, one);
                self.turn(scope, other);
            }
            Body::Equals(one, other) => {
                self.turn(scope, one);
                self.turn(scope, other);
            }
            _ => self.turn_others(scope, body),
        }
    }

    /// Turns what other bodies are made of.
    #[cycle(turning)]
    fn turn_others(&self, scope: &Scope, body: &mut Body)
        ensures { (rules : RulesValue) (h : Bool) → IsOver rules self.now → IsSearched rules (kinds_in scope.now h) (body_view body.old) (body_view body.new) }
    {
        match body {
            Body::Join(one, other) => {
                self.turn(scope, one);
                self.turn(scope, other);
            }
            Body::JoinInt(one, other) => {
                self.turn(scope, one);
                self.turn(scope, other);
            }
            Body::Element(node, _, index) => {
                self.turn(scope, node);
                self.turn(scope, index);
            }
            Body::Negate(part) => self.turn(scope, part),
            Body::Not(part) => self.turn(scope, part),
            Body::InstanceOf(node, _) => self.turn(scope, node),
            Body::CastTo(_, node) => self.turn(scope, node),
            Body::Child(node, _) => self.turn(scope, node),
            Body::Count(node, _) => self.turn(scope, node),
            Body::Has(node, _) => self.turn(scope, node),
            Body::TokenOf(node, _) => self.turn(scope, node),
            Body::Passed(argument) => self.turn(scope, argument),
            Body::Call(node, _, arguments) => {
                self.turn(scope, node);
                self.turn_all(scope, arguments);
            }
            _ => {}
        }
    }

    /// Turns each of the arguments.
    #[cycle(turning)]
    fn turn_all(&self, scope: &Scope, arguments: &mut Vec<Body>)
        ensures { (rules : RulesValue) (h : Bool) → IsOver rules self.now
            → AreSearched rules (kinds_in scope.now h) (bodies_view arguments.old.items) (bodies_view arguments.new.items) }
    {
        for argument in arguments.iter_mut() {
            self.turn(scope, argument);
        }
    }
}

ghost use Rattle.std.specs.Prelude.{◌≡◌};
ghost use Rattle.at_rules.specs.Bodies.{body_view};
ghost use Rattle.at_seek.specs.Finding.{searching};

/// Makes a fold the search for that; another body stays.
fn seek(body: &mut Body, lookup: Box<Lookup>)
    ensures { body_view body.new ≡ searching lookup.value (body_view body.old) }
{
    let fold = mem::replace(body, Body::Null);
    *body = search_of(fold, lookup);
}

/// The search for that in the place of a fold; another body is given back.
fn search_of(fold: Body, lookup: Box<Lookup>) -> Body
    ensures { body_view result ≡ searching lookup.value (body_view fold) }
{
    match fold {
        Body::Exists(list, _, test) => Body::SeekAny(list, lookup, test),
        Body::First(list, _, test) => Body::SeekFirst(list, lookup, test),
        other => other,
    }
}
