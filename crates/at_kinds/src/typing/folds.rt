//! Folds and their lists.

ghost use Rattle.std.specs.Prelude.{◌≡◌, map};
ghost use Rattle.at_rules.specs.Bodies.{body_view};
ghost use Rattle.at_jrag.specs.View.{fold_view};
ghost use Rattle.at_jrag.specs.Syntax as written;
ghost use Rattle.at_kinds.specs.Judging.{list_called as list_called_by, list_named as list_named_by, folded as folded_by, folded_over as folded_over_by, nodes_of as nodes_judged};
ghost use Rattle.at_kinds.specs.Typed.{typed_view, list_view, scope_view, Judges};

use super::kinds::{ExprKind, Typed};
use super::{Scope, TypeFault, refused};
use crate::accessors::listed;
use crate::code::RuleCode;
use at_class::ClassId;
use at_jrag::FoldForm;
use at_rules::Body;
use at_text::place::Place;

/// What a fold goes over: the node of the list, the position of its component, and the class of the elements. Of what is no list
/// there is no position, and the class is that of the node itself.
#[derive(Drop)]
pub struct List {
    pub node: Box<Body>,
    pub part: Option<usize>,
    pub class: ClassId,
}

impl Scope<'_> {
    /// The list that a call is, in a fold at that place: an accessor of a list, without arguments. Any
    /// other call is no list, if it has no fault of its own.
    pub(super) fn list_called(
        &self,
        receiver: Typed,
        name: &str,
        arguments: Vec<Typed>,
        at: Place,
        fold: Place,
    ) -> Result<List, TypeFault>
        ensures { Judges list_view (list_called_by (scope_view self.now) fold at name.now (typed_view receiver) (map typed_view arguments.items)) result }
    {
        let Some(list) = self.list_named(receiver.kind, name) else {
            let whole = self.called(receiver, name, arguments, at)?;
            return nodes_of(whole.kind, whole.body, fold);
        };
        if !arguments.is_empty() {
            return Err(refused(RuleCode::Argument, at));
        }
        Ok(List {
            node: receiver.body,
            part: Some(list.0),
            class: list.1,
        })
    }

    /// The list whose accessor has that name, if nodes of that kind have one, and the class of its elements.
    fn list_named(&self, kind: ExprKind, name: &str) -> Option<(usize, ClassId)>
        ensures { result ≡ list_named_by self.now.classes.now kind name.now }
    {
        match kind {
            ExprKind::Class(class) => listed(self.classes, class, name),
            _ => None,
        }
    }

    /// A fold, behind its braces: over what is no list it is a wrong kind.
    pub(super) fn folded(
        &self,
        form: FoldForm,
        list: List,
        body: Typed,
        at: Place,
    ) -> Result<Typed, TypeFault>
        ensures { Judges typed_view (folded_by at (fold_view form) (list_view list) (typed_view body)) result }
    {
        match list.part {
            Some(part) => self.folded_over(form, list, part, body, at),
            None => Err(refused(RuleCode::Kind, at)),
        }
    }

    /// A fold over the list in that component.
    fn folded_over(
        &self,
        form: FoldForm,
        list: List,
        part: usize,
        body: Typed,
        at: Place,
    ) -> Result<Typed, TypeFault>
        ensures { Judges typed_view (folded_over_by at (fold_view form) (list_view list) part (typed_view body)) result }
    {
        match form {
            FoldForm::Exists => self.exists(list, part, body, at),
            FoldForm::First => self.first(list, part, body, at),
            FoldForm::Sum => self.sum(list, part, body, at),
        }
    }

    /// `exists (NAME : LIST) { E }`
    fn exists(&self, list: List, part: usize, body: Typed, at: Place) -> Result<Typed, TypeFault>
        ensures { Judges typed_view (folded_over_by at written.Exists (list_view list) part (typed_view body)) result }
    {
        let whole = Body::Exists(list.node, part, body.body);
        self.kind_if(body.kind.is_truth(), ExprKind::Bool, whole, at)
    }

    /// `first (NAME : LIST) { E }`
    fn first(&self, list: List, part: usize, body: Typed, at: Place) -> Result<Typed, TypeFault>
        ensures { Judges typed_view (folded_over_by at written.First (list_view list) part (typed_view body)) result }
    {
        let whole = Body::First(list.node, part, body.body);
        self.kind_if(body.kind.is_truth(), ExprKind::Class(list.class), whole, at)
    }

    /// `sum (NAME : LIST) { E }`
    fn sum(&self, list: List, part: usize, body: Typed, at: Place) -> Result<Typed, TypeFault>
        ensures { Judges typed_view (folded_over_by at written.Sum (list_view list) part (typed_view body)) result }
    {
        let whole = Body::Sum(list.node, part, body.body);
        self.kind_if(body.kind.is_int(), ExprKind::Int, whole, at)
    }
}

/// What is no list, and has nodes of that kind: of a class they stand in the place of elements, so that the braces are looked at;
/// else it is a wrong kind of the fold at that place.
pub(super) fn nodes_of(kind: ExprKind, node: Box<Body>, fold: Place) -> Result<List, TypeFault>
    ensures { Judges list_view (nodes_judged fold kind (body_view node.value)) result }
{
    match kind {
        ExprKind::Class(class) => Ok(List {
            node,
            part: None,
            class,
        }),
        _ => Err(refused(RuleCode::Kind, fold)),
    }
}
