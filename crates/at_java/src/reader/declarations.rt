//! Declarations: attributes, equations and methods.

ghost use Rattle.std.specs.Prelude.{◌≡◌, ◌∷◌, ◌&&◌, ◌<◌, length, IfOk, IfErr, MatchBool, Some, None, true, false, option_map};
ghost use lib.Chars.{codes};
ghost use Rattle.at_text.specs.Symbols.{placed};
ghost use Rattle.at_text.specs.Rows.{Row, left, sign, is_sign, next_is};
ghost use Rattle.at_jrag.specs.Table.{is_kind};
ghost use Rattle.at_text.specs.declared.place.Place.{Place};
ghost use Rattle.at_java.specs.Declarations.{Declared as DeclaredView};
ghost use Rattle.at_jrag.specs.View.{params_view, body_view, ending_view, decl_view, word_view, param_view};
ghost use Rattle.at_jrag.specs.Heads.{is_getter, index};
ghost use Rattle.at_java.specs.Read.{Read, got, Fails};
ghost use Rattle.at_java.specs.Seen.{target_view, declared_view};
ghost use Rattle.at_java.specs.Declarations.{block_body, expression_body, body, ending, synthesized, computed, inherited, own_equation, child_getter, child_equation};
ghost use Rattle.at_java.specs.Declarations.{equation, heads_method, begins_method, method, other_declared, declared, limited, is_modifier, behind_modifiers, first_declared, declaration};

use super::constants::Declared;
use super::headings::Target;
use super::statements::MAX_NESTING;
use super::{Breach, ReadFault, Reader};
use crate::JavaCode;
use crate::rewriting::rewritten;
use at_jrag::{Body, BodyForm, Decl, DeclForm, Ending, Kind, Param, Params, Word};
use at_text::cursor::{is_name_token, is_sign, is_word};
use at_text::fault::Failure;
use at_text::place::Place;
use at_text::placed::Placed;
use std::alloc::{AllocError, Global};

/// Whether the parameters may stand behind a getter: there are none, or an `int` alone.
fn is_getter(params: &Params) -> bool
    ensures { result ≡ is_getter (params_view params.now).items }
{
    match params.items.as_slice() {
        [] => true,
        [param] => match param.kind.kind {
            Kind::Int => true,
            _ => false,
        },
        _ => false,
    }
}

/// The parameter's name.
fn name_of(param: Param) -> Word
    ensures { word_view result ≡ (param_view param).name }
{
    let Param { kind: _, name } = param;
    name
}

/// The name of the index, which is the last of a getter's parameters.
fn index_of(params: Params) -> Option<Word>
    ensures { option_map word_view result ≡ index (params_view params).items }
{
    let mut items = params.items;
    match items.pop() {
        Some(param) => Some(name_of(param)),
        None => None,
    }
}

/// The getter of the child that an equation names: `get..` as it stands, and `get` in front of what is a component's own name.
fn child_getter(alloc: Global, name: Word) -> Result<Word, AllocError>
    ensures { IfOk result (λ w. word_view w ≡ child_getter (word_view name)) }
{
    let text = name.text.as_str();
    if text.starts_with("get") {
        return Ok(name);
    }
    Ok(Word {
        text: format!(in alloc; "get{text}")?,
        at: name.at,
    })
}

/// Whether a kind begins with the token.
fn is_kind(token: &Placed<'_>) -> bool
    ensures { result ≡ is_kind (placed token.now) }
{
    is_word(token, "int")
        || is_word(token, "boolean")
        || is_word(token, "String")
        || is_name_token(token)
}

/// Whether these are the first tokens of a method: `kind name "." name "("`, but for `void`.
fn heads_method(
    kind: &Placed<'_>,
    class: &Placed<'_>,
    dot: &Placed<'_>,
    name: &Placed<'_>,
    paren: &Placed<'_>,
) -> bool
    ensures { result ≡ heads_method (placed kind.now) (placed class.now) (placed dot.now) (placed name.now) (placed paren.now) }
{
    is_kind(kind)
        && !is_word(kind, "void")
        && is_name_token(class)
        && is_sign(dot, ".")
        && is_name_token(name)
        && is_sign(paren, "(")
}

/// Whether the token may stand in front of a declaration.
fn is_modifier(token: &Placed<'_>) -> bool
    ensures { result ≡ is_modifier (placed token.now) }
{
    is_word(token, "public")
        || is_word(token, "protected")
        || is_word(token, "private")
        || is_word(token, "final")
}

/// The fault of a declaration whose first token has this place: each by the limits is one there.
fn limited(at: Place, fault: ReadFault) -> ReadFault
    ensures { (read : Read DeclaredView) (rest : Row) → Fails fault rest read → Fails result rest (limited at read) }
{
    match fault {
        Failure::For(Breach::Here(JavaCode::Limit)) => ReadFault::For(Breach::At(
            JavaCode::Limit,
            at,
        )),
        Failure::For(Breach::At(JavaCode::Limit, _)) => {
            ReadFault::For(Breach::At(JavaCode::Limit, at))
        }
        other => other,
    }
}

/// A declaration that declares no constant.
fn with_none(decl: Decl) -> Declared
    ensures { declared_view result ≡ record { decl = Some (decl_view decl); constant = None } }
{
    Declared {
        decl: Some(decl),
        constant: None,
    }
}

impl<'a> Reader<'a> {
    /// Statements and `"}"`, behind the `{` at this place: what they mean.
    fn block_body(&mut self, at: Place) -> Result<Body, ReadFault>
        ensures found { IfOk result (λ b. block_body at (left self.old.cursor.rest.now) ≡ got (body_view b) (left self.new.cursor.rest.now)) }
        ensures fault { IfErr result (λ e. Fails e (left self.new.cursor.rest.now) (block_body at (left self.old.cursor.rest.now))) }
    {
        let block = self.block(MAX_NESTING)?;
        let expr = rewritten(self.alloc, &block.items, block.end)?;
        Ok(Body {
            at,
            form: BodyForm::Block,
            expr,
        })
    }

    /// `E ";"`, behind the `=` at this place.
    fn expression_body(&mut self, at: Place) -> Result<Body, ReadFault>
        ensures found { IfOk result (λ b. expression_body at (left self.old.cursor.rest.now) ≡ got (body_view b) (left self.new.cursor.rest.now)) }
        ensures fault { IfErr result (λ e. Fails e (left self.new.cursor.rest.now) (expression_body at (left self.old.cursor.rest.now))) }
    {
        let expr = self.expression()?;
        self.expects(";")?;
        Ok(Body {
            at,
            form: BodyForm::Equation,
            expr,
        })
    }

    /// `"=" E ";" | "{" statements "}"`
    fn body(&mut self) -> Result<Body, ReadFault>
        ensures found { IfOk result (λ b. body (left self.old.cursor.rest.now) ≡ got (body_view b) (left self.new.cursor.rest.now)) }
        ensures fault { IfErr result (λ e. Fails e (left self.new.cursor.rest.now) (body (left self.old.cursor.rest.now))) }
    {
        if let Some(at) = self.cursor.takes_sign("=") {
            return self.expression_body(at);
        }
        let at = self.expects("{")?;
        self.block_body(at)
    }

    /// `";"`, or a body.
    fn ending(&mut self) -> Result<Ending, ReadFault>
        ensures found { IfOk result (λ e. ending (left self.old.cursor.rest.now) ≡ got (ending_view e) (left self.new.cursor.rest.now)) }
        ensures fault { IfErr result (λ e. Fails e (left self.new.cursor.rest.now) (ending (left self.old.cursor.rest.now))) }
    {
        match self.cursor.takes_sign(";") {
            Some(at) => Ok(Ending::Semicolon(at)),
            None => Ok(Ending::Body(self.body()?)),
        }
    }

    /// A synthesized attribute, behind the `syn` at this place.
    fn synthesized(&mut self, at: Place) -> Result<Declared, ReadFault>
        ensures found { IfOk result (λ d. synthesized at (left self.old.cursor.rest.now) ≡ got (declared_view d) (left self.new.cursor.rest.now)) }
        ensures fault { IfErr result (λ e. Fails e (left self.new.cursor.rest.now) (synthesized at (left self.old.cursor.rest.now))) }
    {
        let lazy = self.laziness();
        if let Some(_) = self.cursor.takes_word("nta") {
            return self.declared_constant(at);
        }
        Ok(with_none(self.computed(at, lazy)?))
    }

    /// One that isn't a constant, behind `syn` and where `lazy` stands.
    fn computed(&mut self, at: Place, lazy: Option<Place>) -> Result<Decl, ReadFault>
        ensures found { IfOk result (λ d. computed at lazy (left self.old.cursor.rest.now) ≡ got (decl_view d) (left self.new.cursor.rest.now)) }
        ensures fault { IfErr result (λ e. Fails e (left self.new.cursor.rest.now) (computed at lazy (left self.old.cursor.rest.now))) }
    {
        let head = self.head()?;
        let ending = self.ending()?;
        let form = DeclForm::Synthesized {
            lazy,
            kind: head.kind,
            class: head.target.class,
            name: head.target.name,
            params: head.target.params,
            start: head.start,
            ending,
        };
        Ok(Decl { at, form })
    }

    /// An inherited attribute, behind the `inh` at this place.
    fn inherited(&mut self, at: Place) -> Result<Decl, ReadFault>
        ensures found { IfOk result (λ d. inherited at (left self.old.cursor.rest.now) ≡ got (decl_view d) (left self.new.cursor.rest.now)) }
        ensures fault { IfErr result (λ e. Fails e (left self.new.cursor.rest.now) (inherited at (left self.old.cursor.rest.now))) }
    {
        let lazy = self.laziness();
        if let Some(nta) = self.cursor.takes_word("nta") {
            return Err(ReadFault::For(Breach::At(JavaCode::LeftOut, nta)));
        }
        let head = self.head()?;
        self.expects(";")?;
        let form = DeclForm::Inherited {
            lazy,
            kind: head.kind,
            class: head.target.class,
            name: head.target.name,
            params: head.target.params,
            start: head.start,
        };
        Ok(Decl { at, form })
    }

    /// Steps over the `.` behind what may be a getter's parameters, if it is next.
    fn skips_getter(&mut self, params: &Params) -> bool
        ensures { MatchBool result
            ((is_getter (params_view params.now).items ≡ true)
            × ((at : Place) × (left self.old.cursor.rest.now ≡ sign (codes ".") at ∷ left self.new.cursor.rest.now)))
            ((self.new.cursor ≡ self.old.cursor)
            × (is_getter (params_view params.now).items && next_is (is_sign (codes ".")) (left self.old.cursor.rest.now) ≡ false)) }
    {
        if is_getter(params) {
            self.skips(".")
        } else {
            false
        }
    }

    /// An equation, behind the `eq` at this place, of a synthesized or of an inherited attribute.
    fn equation(&mut self, at: Place) -> Result<Decl, ReadFault>
        ensures found { IfOk result (λ d. equation at (left self.old.cursor.rest.now) ≡ got (decl_view d) (left self.new.cursor.rest.now)) }
        ensures fault { IfErr result (λ e. Fails e (left self.new.cursor.rest.now) (equation at (left self.old.cursor.rest.now))) }
    {
        let target = self.target()?;
        if self.skips_getter(&target.params) {
            return self.child_equation(at, target);
        }
        self.own_equation(at, target)
    }

    /// The body of an equation of the target, whose `eq` has this place.
    fn own_equation(&mut self, at: Place, target: Target) -> Result<Decl, ReadFault>
        ensures found { IfOk result (λ d. own_equation at (target_view target) (left self.old.cursor.rest.now)
            ≡ got (decl_view d) (left self.new.cursor.rest.now)) }
        ensures fault { IfErr result (λ e. Fails e (left self.new.cursor.rest.now) (own_equation at (target_view target) (left self.old.cursor.rest.now))) }
    {
        let body = self.body()?;
        let form = DeclForm::Equation {
            class: target.class,
            name: target.name,
            params: target.params,
            body,
        };
        Ok(Decl { at, form })
    }

    /// An equation for the target's child, whose `eq` has this place, behind the child's name or getter and its `.`.
    fn child_equation(&mut self, at: Place, target: Target) -> Result<Decl, ReadFault>
        ensures found { IfOk result (λ d. child_equation at (target_view target) (left self.old.cursor.rest.now)
            ≡ got (decl_view d) (left self.new.cursor.rest.now)) }
        ensures fault { IfErr result (λ e. Fails e (left self.new.cursor.rest.now) (child_equation at (target_view target) (left self.old.cursor.rest.now))) }
    {
        let getter = child_getter(self.alloc, target.name)?;
        let name = self.name()?;
        let params = self.params(name.text.as_str())?;
        let body = self.body()?;
        let form = DeclForm::InheritedEquation {
            class: target.class,
            getter,
            index: index_of(target.params),
            name,
            params,
            body,
        };
        Ok(Decl { at, form })
    }

    /// Whether a method begins here.
    fn begins_method(&self) -> bool
        ensures { result ≡ begins_method (left self.now.cursor.rest.now) }
    {
        match self.cursor.rest {
            [kind, class, dot, name, paren, ..] => heads_method(kind, class, dot, name, paren),
            _ => false,
        }
    }

    /// A method.
    fn method(&mut self) -> Result<Decl, ReadFault>
        ensures found { IfOk result (λ d. method (left self.old.cursor.rest.now) ≡ got (decl_view d) (left self.new.cursor.rest.now)) }
        ensures fault { IfErr result (λ e. Fails e (left self.new.cursor.rest.now) (method (left self.old.cursor.rest.now))) }
    {
        let kind = self.kind()?;
        let target = self.target()?;
        let open = self.expects("{")?;
        let body = self.block_body(open)?;
        let at = kind.at;
        let form = DeclForm::Synthesized {
            lazy: None,
            kind,
            class: target.class,
            name: target.name,
            params: target.params,
            start: None,
            ending: Ending::Body(body),
        };
        Ok(Decl { at, form })
    }

    /// A declaration behind its modifiers, but of a synthesized attribute.
    fn other_declared(&mut self) -> Result<Decl, ReadFault>
        ensures found { IfOk result (λ d. other_declared (left self.old.cursor.rest.now) ≡ got (decl_view d) (left self.new.cursor.rest.now)) }
        ensures fault { IfErr result (λ e. Fails e (left self.new.cursor.rest.now) (other_declared (left self.old.cursor.rest.now))) }
    {
        if let Some(at) = self.cursor.takes_word("inh") {
            return self.inherited(at);
        }
        if let Some(at) = self.cursor.takes_word("eq") {
            return self.equation(at);
        }
        if self.begins_method() {
            return self.method();
        }
        Err(ReadFault::For(Breach::Here(self.other_code())))
    }

    /// A declaration behind its modifiers.
    fn declared(&mut self) -> Result<Declared, ReadFault>
        ensures found { IfOk result (λ d. declared (left self.old.cursor.rest.now) ≡ got (declared_view d) (left self.new.cursor.rest.now)) }
        ensures fault { IfErr result (λ e. Fails e (left self.new.cursor.rest.now) (declared (left self.old.cursor.rest.now))) }
    {
        if let Some(at) = self.cursor.takes_word("syn") {
            return self.synthesized(at);
        }
        Ok(with_none(self.other_declared()?))
    }

    /// Steps over a modifier, if one is next.
    fn skips_modifier(&mut self) -> bool
        ensures { MatchBool result
            ((behind_modifiers (left self.old.cursor.rest.now) ≡ behind_modifiers (left self.new.cursor.rest.now))
            × (length (left self.new.cursor.rest.now) < length (left self.old.cursor.rest.now)))
            (behind_modifiers (left self.old.cursor.rest.now) ≡ left self.new.cursor.rest.now) }
    {
        match self.cursor.rest {
            [token, rest @ ..] if is_modifier(token) => {
                self.cursor.rest = rest;
                true
            }
            _ => false,
        }
    }

    /// Steps over the modifiers.
    fn skips_modifiers(&mut self)
        ensures { left self.new.cursor.rest.now ≡ behind_modifiers (left self.old.cursor.rest.now) }
    {
        while self.skips_modifier() {}
    }

    /// A declaration whose modifiers are read.
    fn first_declared(&mut self) -> Result<Declared, ReadFault>
        ensures found { IfOk result (λ d. first_declared (left self.old.cursor.rest.now) ≡ got (declared_view d) (left self.new.cursor.rest.now)) }
        ensures fault { IfErr result (λ e. Fails e (left self.new.cursor.rest.now) (first_declared (left self.old.cursor.rest.now))) }
    {
        let Some(first) = self.cursor.peek() else {
            return Err(ReadFault::For(Breach::Here(JavaCode::Syntax)));
        };
        let at = first.at;
        match self.declared() {
            Ok(declared) => Ok(declared),
            Err(fault) => Err(limited(at, fault)),
        }
    }

    /// A declaration.
    pub fn declaration(&mut self) -> Result<Declared, ReadFault>
        ensures found { IfOk result (λ d. declaration (left self.old.cursor.rest.now) ≡ got (declared_view d) (left self.new.cursor.rest.now)) }
        ensures fault { IfErr result (λ e. Fails e (left self.new.cursor.rest.now) (declaration (left self.old.cursor.rest.now))) }
    {
        self.skips_modifiers();
        self.first_declared()
    }
}
