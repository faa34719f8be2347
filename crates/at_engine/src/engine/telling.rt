//! What a session is told of an answer, of a node, and of a mark.

ghost use Rattle.std.specs.Prelude.{◌≡◌};
ghost use Rattle.at_model.specs.Bodies.{int_of};
ghost use Rattle.at_model.specs.Trees.{Int as Number};
ghost use Rattle.at_tree.specs.Token.{token_view};
ghost use Rattle.at_body.specs.ValueKinds.{IsInt};
ghost use Rattle.at_body.specs.Values.{value_view};

use super::Engine;
use super::view::View;
use crate::marks::Lookup;
use at_body::{FaultKind, Inst, Value};
use at_demand::Answer;
use at_evict::Bounded;
use at_protocol::line::Place;
use at_protocol::reply::{Form, Refusal, Shown};
use at_store::Node;
use at_tree::token::TokVal;
use std::alloc::AllocError;
use std::rc::Rc;

/// The int as a token.
fn number_of(value: &Value) -> TokVal
    requires { IsInt (value_view value.now) }
    ensures { token_view result ≡ Number (int_of (value_view value.now)) }
{
    match value {
        Value::Int(number) => TokVal::Int(*number),
        _ => unreachable!(),
    }
}

impl<K: Bounded> Engine<K> {
    ghost use Rattle.std.specs.Prelude.{IfOk};
    ghost use Rattle.at_model.specs.Paths.{Node as NodeOf};
    ghost use Rattle.at_model.specs.Meaning.{Answer as AnswerOf};
    ghost use Rattle.at_model.specs.Alike.{AnswerLike, Names};
    ghost use Rattle.at_demand.specs.Known.{answer_view};
    ghost use Rattle.at_engine.specs.Engines.{rules_of, state_of, IsHeld};
    ghost use Rattle.at_store.specs.Shown.{path as path_shown};
    ghost use Rattle.at_engine.specs.Telling.{IsToldAs};

    /// What a session is told of an answer.
    pub(super) fn told(&self, answer: Answer) -> Result<Form, AllocError>
        requires sound { IsHeld K.contents K.memories self.now }
        ensures { (a : AnswerOf NodeOf) → AnswerLike (Names (path_shown self.now.store)) (answer_view answer) a
            → IfOk result (IsToldAs (rules_of self.now) (state_of self.now).tree a) }
    {
        self.view().told(answer)
    }
}

impl<'e, M: Lookup> View<'e, M> {
    ghost use Rattle.std.specs.Prelude.{◌≡◌, IfOk, Option, string_bytes};
    ghost use Rattle.at_model.specs.Lines.{Show, Where};
    ghost use Rattle.at_model.specs.Paths.{Node as NodeOf};
    ghost use Rattle.at_model.specs.Run.{Ref, Value as ValueOf};
    ghost use Rattle.at_model.specs.Rules.{attribute_name, plain_name};
    ghost use Rattle.at_model.specs.Meaning.{Answer as AnswerOf, Circle, Faults, Outcomes};
    ghost use Rattle.at_model.specs.Alike.{AnswerLike, Names, OptionLike, ValueLike};
    ghost use Rattle.at_model.specs.Machine.{shown_value};
    ghost use Rattle.at_protocol.specs.LineView.{place_view};
    ghost use Rattle.at_body.specs.Values.{fault_view, value_view};
    ghost use Rattle.at_demand.specs.Known.{answer_view};
    ghost use Rattle.at_store.specs.Shown.{path as path_shown, tree as tree_shown};
    ghost use Rattle.at_engine.specs.Meant.{Reports};
    ghost use Rattle.at_engine.specs.Telling.{IsToldAs, IsShownAs};

    /// The term of the node that the place names, or that it names none.
    pub(super) fn show(&self, session: u16, place: &Place<'_>) -> Result<Form, AllocError>
        ensures { IfOk result (Reports self.now.rules.now self.now.store.now (M.marks self.now.marks.now) session (Show (place_view place.now))) }
    {
        let Some(node) = self.node_named(session, place) else {
            return Ok(Form::Refused(Refusal::Path));
        };
        let mut text = Vec::new(self.alloc);
        self.store
            .write_term(self.rules.classes(), node, &mut text)?;
        Ok(Form::Shows(Shown::Term(text)))
    }

    /// The path of the node that the session has marked by the name, or that it has no such mark.
    pub(super) fn whereabouts(&self, session: u16, name: &str) -> Result<Form, AllocError>
        ensures { IfOk result (Reports self.now.rules.now self.now.store.now (M.marks self.now.marks.now) session (Where name.now)) }
    {
        match self.marks.get(session, name) {
            Some(node) => Ok(Form::Shows(Shown::Node(self.path_to(node)?))),
            None => Ok(Form::Refused(Refusal::Mark)),
        }
    }

    /// The value, or the fault or circle with the path of its node.
    pub(super) fn told(&self, answer: Answer) -> Result<Form, AllocError>
        ensures { (a : AnswerOf NodeOf) → AnswerLike (Names (path_shown self.now.store.now)) (answer_view answer) a
            → IfOk result (IsToldAs self.now.rules.now (tree_shown self.now.store.now) a) }
    {
        match answer {
            Answer::Value(value) => Ok(Form::Shows(self.shown(value)?)),
            Answer::Fault { kind, at } => self.told_fault(kind, &at),
            Answer::Circular { at } => self.told_circle(&at),
        }
    }

    /// The fault with the path of its node.
    fn told_fault(&self, kind: FaultKind, at: &Inst) -> Result<Form, AllocError>
        ensures { (a : AnswerOf NodeOf) → AnswerLike (Names (path_shown self.now.store.now)) (Outcomes (Faults (fault_view kind) at.now)) a
            → IfOk result (IsToldAs self.now.rules.now (tree_shown self.now.store.now) a) }
    {
        let path = self.path_to(at.node())?;
        let attribute = self.attribute_of(at)?;
        Ok(Form::Fault {
            kind,
            path,
            attribute,
        })
    }

    /// The circle with the path of its node.
    fn told_circle(&self, at: &Inst) -> Result<Form, AllocError>
        ensures { (a : AnswerOf NodeOf) → AnswerLike (Names (path_shown self.now.store.now)) (Circle at.now) a
            → IfOk result (IsToldAs self.now.rules.now (tree_shown self.now.store.now) a) }
    {
        let path = self.path_to(at.node())?;
        let attribute = self.attribute_of(at)?;
        Ok(Form::Circular { path, attribute })
    }

    /// The name of the instance's attribute, as it is told.
    fn attribute_of(&self, inst: &Inst) -> Result<String, AllocError>
        ensures { IfOk result (λ s. string_bytes s ≡ plain_name (attribute_name self.now.rules.now inst.now.attribute)) }
    {
        String::from_str(self.alloc, self.rules.told_name(inst.attribute()))
    }

    /// What is shown of a value: of a node its path.
    fn shown(&self, value: Value) -> Result<Shown, AllocError>
        ensures { (v : ValueOf NodeOf) → ValueLike (Names (path_shown self.now.store.now)) (value_view value) v
            → IfOk result (IsShownAs (shown_value self.now.rules.now.classes (tree_shown self.now.store.now) v)) }
    {
        match value {
            Value::Int(_) => Ok(Shown::Token(number_of(&value))),
            Value::Bool(truth) => Ok(Shown::Token(TokVal::Bool(truth))),
            Value::Text(shared) => {
                let text = Rc::unwrap_or_clone(shared)?;
                Ok(Shown::Token(TokVal::Str(text)))
            }
            Value::Ref(node) => self.shown_node(node),
        }
    }

    /// What is shown of a node, or of null.
    fn shown_node(&self, node: Option<Node>) -> Result<Shown, AllocError>
        ensures { (n : Option NodeOf) → OptionLike (Names (path_shown self.now.store.now)) node n
            → IfOk result (IsShownAs (shown_value self.now.rules.now.classes (tree_shown self.now.store.now) (Ref n))) }
    {
        match node {
            None => Ok(Shown::Null),
            Some(node) => Ok(Shown::Node(self.path_to(node)?)),
        }
    }
}
