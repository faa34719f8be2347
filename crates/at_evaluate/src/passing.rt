//! Elements that a fold passes by: its expression comes to `false` there at once.

ghost use Rattle.std.specs.Prelude.{◌≡◌, IfOk, IfSome, IsTrue, false};
ghost use Rattle.at_model.specs.Bodies.{TruthLiteral};
ghost use Rattle.at_model.specs.Rules.{is_inherited};
ghost use Rattle.at_store.specs.Shown.{IsIdle, contents};
ghost use Rattle.at_rules.specs.Bodies.{body_view};
ghost use Rattle.at_evaluate.specs.Passing.{ArePassedBy, AsksOwn, AsksToCompare, MayHavePassed};

use crate::comparing::is_same;
use crate::form::{Form, form_of};
use crate::near::{enter, lent, own_token};
use crate::stop::Stop;
use at_body::{Binary, Reads, Value, tells, token_text};
use at_class::ClassId;
use at_rules::{AttrId, Body, Rules};
use at_store::{Loc, Node, Store};

// What the own equation of nodes of a class asks of each: that nothing holds, or how a token of it compares with a text.
#[derive(Clone, Copy)]
enum Asked<'s> {
    Never,
    Compared(Binary, usize, &'s str),
}

/// The nodes behind those at the front at which an attribute that isn't inherited, passed these arguments, comes to `false` at once: its own
/// equation is `false`, or compares a token of the node with a literal or an argument. What is looked at for that is noted, and nothing of the
/// others. An error where memory is wanting.
#[inline(never)]
pub fn pass_by<'n>(
    rules: &Rules,
    store: &Store,
    reads: &mut Reads,
    arguments: &[Value],
    attribute: AttrId,
    nodes: &'n [Node],
) -> Result<&'n [Node], Stop>
    requires idle { IsIdle store.now }
    requires own { is_inherited rules.now attribute ≡ false }
    ensures { IfOk result (λ rest. ArePassedBy rules.now (contents store.now) attribute arguments.now reads.old reads.new nodes.now rest.now) }
{
    let Some(first) = nodes.first() else {
        return Ok(nodes);
    };
    let mut class = store.class(*first);
    let Some(mut asked) = asked_in(rules, class, attribute, arguments) else {
        return Ok(nodes);
    };
    let mut rest = nodes;
    while let Some((node, others)) = rest.split_first() {
        let next = store.class(*node);
        if next != class {
            let Some(further) = asked_in(rules, next, attribute, arguments) else {
                return Ok(rest);
            };
            class = next;
            asked = further;
        }
        if !is_passed(store, reads, arguments, *node, &asked)? {
            return Ok(rest);
        }
        rest = others;
    }
    Ok(rest)
}

// What the own equation of nodes of the class asks of each, where it is one of these.
fn asked_in<'s>(
    rules: &'s Rules,
    class: ClassId,
    attribute: AttrId,
    arguments: &'s [Value],
) -> Option<Asked<'s>>
    ensures { IfSome result (AsksOwn rules.now class attribute arguments.now) }
{
    let body = rules.own_body(class, attribute)?;
    if is_false(body) {
        return Some(Asked::Never);
    }
    match form_of(body) {
        Form::Compared(comparison, left, right) => {
            let part = own_token(left)?;
            let text = lent(arguments, right)?;
            Some(Asked::Compared(comparison, part, text))
        }
        _ => None,
    }
}

// Whether it is `false`.
fn is_false(body: &Body) -> bool
    ensures { IsTrue result → body_view body.now ≡ TruthLiteral false }
{
    match body {
        Body::Truth(truth) => !*truth,
        _ => false,
    }
}

// Notes what is looked at of the node where what is asked of it doesn't hold, and tells so; else nothing is noted.
fn is_passed(
    store: &Store,
    reads: &mut Reads,
    arguments: &[Value],
    node: Node,
    asked: &Asked<'_>,
) -> Result<bool, Stop>
    requires idle { IsIdle store.now }
    requires comparison { AsksToCompare asked.now }
    ensures { IfOk result (MayHavePassed (contents store.now) reads.old reads.new node arguments.now asked.now) }
{
    match asked {
        Asked::Never => {
            enter(reads, node, arguments)?;
            Ok(true)
        }
        Asked::Compared(comparison, part, text) => {
            let Some(own) = token_text(store, node, *part) else {
                return Ok(false);
            };
            if tells(comparison, is_same(own, text)) {
                return Ok(false);
            }
            enter(reads, node, arguments)?;
            reads.push(Loc::Tok(node, *part))?;
            Ok(true)
        }
    }
}
