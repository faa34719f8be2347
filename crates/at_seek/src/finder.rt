//! Which folds may be searches.

use crate::keys::with_class;
use crate::scope::{Scope, class_in};
use crate::shapes::{child_of, element_of, is_text};
use at_class::{ClassId, ClassTable, Key};
use at_rules::{AttrId, Attribute, Body, Lookup, Sought};
use indexmap::IndexMap;
use std::alloc::Global;

/// What has to be known of rules: their classes and attributes, and of each attribute the key by which it tests.
#[derive(Drop)]
pub(crate) struct Finder<'a> {
    pub alloc: Global,
    pub classes: &'a ClassTable,
    pub attributes: &'a IndexMap<(usize, usize), Attribute>,
    pub keys: &'a [Option<Key>],
}

impl<'a> Finder<'a> {
    ghost use Rattle.std.specs.Prelude.{◌≡◌, ◌<◌, ℕ, Bool, IfSome, IsTrue, length, true};
    ghost use Rattle.at_model.specs.Bodies.{Call, CastTo, Child, Equals, Expr, no_exprs};
    ghost use Rattle.at_model.specs.Classes.{fits};
    ghost use Rattle.at_model.specs.Kinds.{HasKind, ScopeKinds};
    ghost use Rattle.at_model.specs.Rules.{Class, Rules as RulesValue};
    ghost use Rattle.at_class.specs.Keys.{key_view};
    ghost use Rattle.at_rules.specs.Bodies.{body_view, bodies_view, sought_view};
    ghost use Rattle.at_seek.specs.Finding.{BeginsBy, IsInside, IsKeyedAt, IsOver, MaySeek, MaySeekIn, kinds_in};
    ghost use Rattle.at_seek.specs.Sought.{AreElements, AreKeyed, IsSoughtText, TestsByKey};

    /// What the elements are looked for by, where the body is a fold that may be a search, and where its braces are; none where it
    /// isn't one, or memory is wanting.
    pub(crate) fn lookup(&self, scope: &Scope, body: &Body) -> Option<(Box<Lookup>, Scope)>
        ensures { (rules : RulesValue) (h : Bool) → IsOver rules self.now
            → IfSome result (λ p. MaySeek rules (kinds_in scope.now h) (kinds_in p.1 h) p.0.value (body_view body.now)) }
    {
        match body {
            Body::Exists(list, part, test) => self.lookup_in(scope, list, *part, test),
            Body::First(list, part, test) => self.lookup_in(scope, list, *part, test),
            _ => None,
        }
    }

    /// The same of a fold over that list with that test.
    fn lookup_in(
        &self,
        scope: &Scope,
        list: &Body,
        part: usize,
        test: &Body,
    ) -> Option<(Box<Lookup>, Scope)>
        ensures { (rules : RulesValue) (h : Bool) → IsOver rules self.now
            → IfSome result (λ p. MaySeekIn rules (kinds_in scope.now h) (kinds_in p.1 h) p.0.value (body_view list.now) part (body_view test.now)) }
    {
        let element = self.element(scope, list, part)?;
        let place = small(part)?;
        let found = self.begins(scope, element, test)?;
        let inside = scope.within(self.alloc, element)?;
        let lookup = Lookup {
            part: place,
            key: found.0,
            sought: found.1,
        };
        let lookup = boxed(self.alloc, lookup)?;
        Some((lookup, inside))
    }

    /// The class of the elements of the list in a component, where it is known.
    fn element(&self, scope: &Scope, list: &Body, part: usize) -> Option<ClassId>
        ensures { (rules : RulesValue) (h : Bool) → IsOver rules self.now
            → IfSome result (AreElements rules (kinds_in scope.now h) (body_view list.now) part) }
    {
        let class = self.class_of(scope, list)?;
        element_of(self.classes, class, part)
    }

    /// Inside the braces of a fold over that list, where it is known of which class the elements are, and there is memory.
    pub(crate) fn inside(&self, scope: &Scope, list: &Body, part: usize) -> Option<Scope>
        ensures { (rules : RulesValue) (h : Bool) → IsOver rules self.now
            → IfSome result (λ s. IsInside rules (kinds_in scope.now h) (body_view list.now) part (kinds_in s h)) }
    {
        let element = self.element(scope, list, part)?;
        scope.within(self.alloc, element)
    }

    /// The key and the text with which the test of an element begins, if it does.
    fn begins(&self, scope: &Scope, element: ClassId, test: &Body) -> Option<(Key, Sought)>
        ensures { (rules : RulesValue) (h : Bool) → IsOver rules self.now
            → IfSome result (λ p. BeginsBy rules (kinds_in scope.now h) (key_view p.0) (sought_view p.1) element (body_view test.now)) }
    {
        match test {
            Body::And(first, _) => self.begins(scope, element, first),
            Body::Equals(one, other) => self.compares(scope, element, one, other),
            Body::Call(node, attribute, arguments) => {
                self.asks(scope, element, node, *attribute, arguments)
            }
            _ => None,
        }
    }

    /// The same where two texts are compared: one of them is a token of the element, the other one is looked for.
    fn compares(
        &self,
        scope: &Scope,
        element: ClassId,
        one: &Body,
        other: &Body,
    ) -> Option<(Key, Sought)>
        ensures { (rules : RulesValue) (h : Bool) → IsOver rules self.now
            → IfSome result (λ p. BeginsBy rules (kinds_in scope.now h) (key_view p.0) (sought_view p.1) element
            (Equals (body_view one.now) (body_view other.now))) }
    {
        if let Some(token) = element_token(one) {
            return self.by_token(scope, element, token, other);
        }
        let token = element_token(other)?;
        self.by_token(scope, element, token, one)
    }

    /// The key of that token of the elements, and the text that is looked for.
    fn by_token(
        &self,
        scope: &Scope,
        element: ClassId,
        token: usize,
        text: &Body,
    ) -> Option<(Key, Sought)>
        ensures { (rules : RulesValue) (h : Bool) → IsOver rules self.now
            → IfSome result (λ p. AreKeyed rules (key_view p.0) element × ((key_view p.0).token ≡ token)
            × IsSoughtText (kinds_in scope.now h) (sought_view p.1) (body_view text.now)) }
    {
        let key = self.key_of(element, token)?;
        let sought = scope.sought(self.alloc, text)?;
        Some((key, sought))
    }

    /// The key of that token of all nodes of the class or below, where it is a text of each, and their classes are near enough.
    fn key_of(&self, element: ClassId, token: usize) -> Option<Key>
        ensures { (rules : RulesValue) → IsOver rules self.now
            → IfSome result (λ key. AreKeyed rules (key_view key) element × ((key_view key).token ≡ token)) }
    {
        let key = self.guessed(element, token)?;
        if key.token as usize != token {
            return None;
        }
        if self.are_keyed(element, &key) {
            return Some(key);
        }
        None
    }

    /// A key that they may have.
    fn guessed(&self, element: ClassId, token: usize) -> Option<Key> {
        let mut key = None;
        for position in 0..self.classes.len() {
            let class = ClassId::new(position);
            if self.classes.fits(class, element) {
                key = with_class(key, class, token);
            }
        }
        key
    }

    /// Whether all nodes of the class or below have the key.
    fn are_keyed(&self, element: ClassId, key: &Key) -> bool
        ensures { IsTrue result → (c : ℕ) → fits self.now.classes.now c element ≡ true → IsKeyedAt self.now.classes.now (key_view key.now) c }
    {
        for position in 0..self.classes.len() {
            if !self.is_keyed(element, key, ClassId::new(position)) {
                return false;
            }
        }
        true
    }

    /// Whether nodes of this class have it, where there are any.
    fn is_keyed(&self, element: ClassId, key: &Key, class: ClassId) -> bool
        ensures { IsTrue result → fits self.now.classes.now class element ≡ true → IsKeyedAt self.now.classes.now (key_view key.now) class }
    {
        if !self.classes.fits(class, element) {
            return true;
        }
        if !key.has(class) {
            return false;
        }
        is_text(self.classes, class, key.token as usize)
    }

    /// The key by which the attribute of the element tests, and its only argument.
    fn asks(
        &self,
        scope: &Scope,
        element: ClassId,
        node: &Body,
        attribute: AttrId,
        arguments: &[Body],
    ) -> Option<(Key, Sought)>
        ensures { (rules : RulesValue) (h : Bool) → IsOver rules self.now
            → IfSome result (λ p. BeginsBy rules (kinds_in scope.now h) (key_view p.0) (sought_view p.1) element
            (Call (body_view node.now) attribute (bodies_view arguments.now))) }
    {
        if !is_element(node) {
            return None;
        }
        let text = only(arguments)?;
        let key = self.key_for(element, attribute)?;
        let sought = scope.sought(self.alloc, text)?;
        Some((key, sought))
    }

    /// The key by which the attribute tests, where elements of the class have it.
    fn key_for(&self, element: ClassId, attribute: AttrId) -> Option<Key>
        ensures { (rules : RulesValue) → IsOver rules self.now → IfSome result (λ key. TestsByKey rules (key_view key) element attribute) }
    {
        let Some((key, _)) = self.attributes.get_index(attribute.index()) else {
            return None;
        };
        if !self.classes.is_sub(element, ClassId::new(key.0)) {
            return None;
        }
        match self.keys.get(attribute.index()) {
            Some(key) => *key,
            None => None,
        }
    }

    /// The class of the node that the expression stands for, where it is known.
    fn class_of(&self, scope: &Scope, body: &Body) -> Option<ClassId>
        ensures { (rules : RulesValue) (h : Bool) → IsOver rules self.now
            → IfSome result (λ c. HasKind rules (kinds_in scope.now h) (body_view body.now) (Class c)) }
    {
        match body {
            Body::This => Some(scope.this),
            Body::Name(name) => scope.class_named(*name),
            Body::Child(node, part) => {
                let class = self.class_of(scope, node)?;
                self.child(class, *part)
            }
            Body::CastTo(target, node) => {
                let class = self.class_of(scope, node)?;
                self.cast(class, *target)
            }
            Body::Call(node, attribute, arguments) => {
                let class = self.class_of(scope, node)?;
                self.asked(class, *attribute, arguments)
            }
            _ => None,
        }
    }

    /// The class of the child of a node of that class.
    fn child(&self, class: ClassId, part: usize) -> Option<ClassId>
        ensures { (rules : RulesValue) (s : ScopeKinds) (e : Expr) → IsOver rules self.now → HasKind rules s e (Class class)
            → IfSome result (λ c. HasKind rules s (Child e part) (Class c)) }
    {
        child_of(self.classes, class, part)
    }

    /// The class to which a node of that class is cast.
    fn cast(&self, class: ClassId, target: ClassId) -> Option<ClassId>
        ensures { (rules : RulesValue) (s : ScopeKinds) (e : Expr) → IsOver rules self.now → HasKind rules s e (Class class)
            → IfSome result (λ c. HasKind rules s (CastTo target e) (Class c)) }
    {
        if target.index() < self.classes.len() {
            return Some(target);
        }
        None
    }

    /// The class of the nodes that the attribute of a node of that class stands for, if for nodes, and without arguments.
    fn asked(&self, class: ClassId, attribute: AttrId, arguments: &[Body]) -> Option<ClassId>
        ensures { (rules : RulesValue) (s : ScopeKinds) (e : Expr) → IsOver rules self.now → HasKind rules s e (Class class)
            → IfSome result (λ c. HasKind rules s (Call e attribute (bodies_view arguments.now)) (Class c)) }
    {
        if !arguments.is_empty() {
            return None;
        }
        self.class_told(class, attribute)
    }

    /// The class of the nodes that the attribute without parameters of a node of that class stands for, if for nodes.
    fn class_told(&self, class: ClassId, attribute: AttrId) -> Option<ClassId>
        ensures { (rules : RulesValue) (s : ScopeKinds) (e : Expr) → IsOver rules self.now → HasKind rules s e (Class class)
            → IfSome result (λ c. HasKind rules s (Call e attribute no_exprs) (Class c)) }
    {
        let Some((key, declared)) = self.attributes.get_index(attribute.index()) else {
            return None;
        };
        if !self.classes.is_sub(class, ClassId::new(key.0)) {
            return None;
        }
        if !declared.params.is_empty() {
            return None;
        }
        class_in(declared.result)
    }
}

ghost use Rattle.std.specs.Prelude.{◌≡◌, IfSome, IsTrue};
ghost use Rattle.at_model.specs.Bodies.{Name, TokenOf, expr, no_exprs};
ghost use Rattle.at_rules.specs.Bodies.{bodies_view, body_view};

/// Whether it is the element of the innermost fold.
fn is_element(body: &Body) -> bool
    ensures { IsTrue result → body_view body.now ≡ Name 0 }
{
    match body {
        Body::Name(name) => *name == 0,
        _ => false,
    }
}

/// The position of the token of the element that it is, if it is one.
fn element_token(body: &Body) -> Option<usize>
    ensures { IfSome result (λ token. body_view body.now ≡ TokenOf (Name 0) token) }
{
    match body {
        Body::TokenOf(node, part) => token_of_element(node, *part),
        _ => None,
    }
}

/// The position of the token, where the node is the element.
fn token_of_element(node: &Body, part: usize) -> Option<usize>
    ensures { IfSome result (λ token. TokenOf (body_view node.now) part ≡ TokenOf (Name 0) token) }
{
    if is_element(node) {
        return Some(part);
    }
    None
}

/// The only one of these.
fn only(bodies: &[Body]) -> Option<&Body>
    ensures { IfSome result (λ b. bodies_view bodies.now ≡ expr (body_view b.now) no_exprs) }
{
    match bodies {
        [body] => Some(body),
        _ => None,
    }
}

/// The position, where it is below 256.
fn small(part: usize) -> Option<u8>
    ensures { IfSome result (λ place. place ≡ part) }
{
    if part < 256 {
        return Some(part as u8);
    }
    None
}

/// The look-up in a box, where there is memory.
fn boxed(alloc: Global, lookup: Lookup) -> Option<Box<Lookup>>
    ensures { IfSome result (λ look. look.value ≡ lookup) }
{
    match Box::new(alloc, lookup) {
        Ok(lookup) => Some(lookup),
        Err(_) => None,
    }
}
