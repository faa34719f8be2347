//! Aspects and their declarations.

ghost use Rattle.std.specs.Prelude.{◌≡◌, ◌∷◌, [], ◌≤◌, map, option_map, true, IfOk, MatchBool};
ghost use Rattle.std.specs.List.{AllByRecursion};
ghost use lib.Chars.{codes};
ghost use Rattle.at_jrag.specs.View.{kind_word_view, param_view, params_view, body_view, ending_view, decl_view, aspect_view, word_view};
ghost use Rattle.at_text.specs.Rows.{Row, left, word, is_sign, is_word, next_is};
ghost use Rattle.at_jrag.specs.Grammar.{KindOf, ParamOf, Signature, Opens, Listed, Lazy, BodyOf, EndingOf, DeclOf, Decls};
ghost use Rattle.at_jrag.specs.Grammar.{AspectOf, File, NestsWithin, IsWithin, ending_depth, max_nesting, depth, Sign};
ghost use Rattle.at_jrag.specs.Heads.{HeadOf, TargetOf, is_getter, index, ParamsOf};
ghost use Rattle.std.specs.Prelude.{ℕ, ◌<◌, length, List, cond, false, ◌&&◌, IfErr};
ghost use Rattle.std.specs.Str.{bytes_eq};
ghost use Rattle.at_text.specs.Reading.{first};
ghost use Rattle.at_text.specs.Symbols.{is_word_kind};
ghost use Rattle.at_jrag.specs.Wants as want;
ghost use Rattle.at_jrag.specs.Wants.{Want};
ghost use Rattle.at_jrag.specs.Table.{table, is_kind, body_answer, declared};
ghost use Rattle.at_jrag.specs.Runs.{Pass, Stay, Stays, Missing, NoParam, reason_of};
ghost use Rattle.at_text.specs.declared.fault.Failure.TheVariants as failure;
ghost use Rattle.at_jrag.specs.declared.JragCode.TheVariants as code;
ghost use Rattle.at_jrag.specs.declared.Forms.{Forms};

use super::starts::may_be_circular;
use super::{ReadFault, Reader};
use crate::syntax::{
    Aspect, Body, BodyForm, Decl, DeclForm, Ending, Kind, KindWord, Param, Params, Word,
};
use crate::{Forms, JragCode};
use at_text::place::Place;
use at_text::token::TokenKind;

/// How deep expressions may nest.
const MAX_NESTING: usize = 64;

/// A declared attribute, up to its ending.
#[derive(Drop)]
struct Head {
    lazy: Option<Place>,
    kind: KindWord,
    class: Word,
    name: Word,
    params: Params,
    start: Option<bool>,
}

/// An attribute of a class, as an equation names it.
#[derive(Drop)]
struct Target {
    class: Word,
    name: Word,
    params: Params,
}

/// Whether the parameters may stand behind a getter: there are none, or an `int` alone.
fn is_getter(params: &Params) -> bool
    ensures { result ≡ is_getter (params_view params.now).items }
{
    match params.items.as_slice() {
        [] => true,
        [param] => match param.kind.kind {
            Kind::Int => true,
            _ => false,
        },
        _ => false,
    }
}

/// The parameter's name.
fn name_of(param: Param) -> Word
    ensures { word_view result ≡ (param_view param).name }
{
    let Param { kind: _, name } = param;
    name
}

/// The name of the index, which is the last of a getter's parameters.
fn index_of(params: Params) -> Option<Word>
    ensures { option_map word_view result ≡ index (params_view params).items }
{
    let mut items = params.items;
    match items.pop() {
        Some(param) => Some(name_of(param)),
        None => None,
    }
}

impl<'a> Reader<'a> {
    /// The fault where a keyword was wanted: any other word begins a form that is left out.
    fn no_keyword(&self) -> ReadFault
        ensures { result ≡ cond (next_is (λ t. is_word_kind t.kind) (left self.now.cursor.rest.now)) (failure.For code.LeftOut) (failure.For code.Syntax) }
    {
        match self.cursor.rest {
            [token, ..] if token.kind == TokenKind::Word => ReadFault::For(JragCode::LeftOut),
            _ => ReadFault::For(JragCode::Syntax),
        }
    }

    /// The fault where a block has one form alone: any other token is left out.
    fn no_block(&self) -> ReadFault
        ensures { result ≡ cond (next_is (λ t. true) (left self.now.cursor.rest.now)) (failure.For code.LeftOut) (failure.For code.Syntax) }
    {
        if self.cursor.rest.is_empty() {
            ReadFault::For(JragCode::Syntax)
        } else {
            ReadFault::For(JragCode::LeftOut)
        }
    }

    /// `{ "aspect" name "{" { decl } "}" }`, up to the end.
    pub fn file(&mut self, forms: Forms) -> Result<Vec<Aspect>, ReadFault>
        ensures found { IfOk result (λ v. File forms (map aspect_view v.items) (left self.old.cursor.rest.now) (left self.new.cursor.rest.now)) }
        ensures within { IfOk result (λ v. IsWithin (map aspect_view v.items)) }
        ensures end { IfOk result (λ v. left self.new.cursor.rest.now ≡ []) }
        ensures stays { IfErr result (λ e. Stay (want.File forms ∷ []) (reason_of e) (left self.old.cursor.rest.now) (left self.new.cursor.rest.now)) }
    {
        let mut aspects = Vec::new(self.alloc);
        while !self.cursor.rest.is_empty() {
            let aspect = self.aspect(forms)?;
            aspects.push(aspect)?;
        }
        Ok(aspects)
    }

    /// `"aspect" name "{" { decl } "}"`
    fn aspect(&mut self, forms: Forms) -> Result<Aspect, ReadFault>
        requires { 0 < length self.now.cursor.rest.now }
        ensures found { IfOk result (λ a. AspectOf forms (aspect_view a) (left self.old.cursor.rest.now) (left self.new.cursor.rest.now)) }
        ensures within { IfOk result (λ a. AllByRecursion NestsWithin (map decl_view a.decls.items)) }
        ensures stays { IfErr result (λ e. Stay (want.File forms ∷ []) (reason_of e) (left self.old.cursor.rest.now) (left self.new.cursor.rest.now)) }
    {
        if self.cursor.takes_word("aspect").is_none() {
            return Err(self.no_keyword());
        }
        let name = self.name()?;
        self.expects("{")?;
        let decls = self.decls(forms)?;
        Ok(Aspect { name, decls })
    }

    /// `{ decl } "}"`
    fn decls(&mut self, forms: Forms) -> Result<Vec<Decl>, ReadFault>
        ensures found { IfOk result (λ v. (close : Row) × Decls forms (map decl_view v.items) (left self.old.cursor.rest.now) close
            × Sign (codes "}") close (left self.new.cursor.rest.now)) }
        ensures within { IfOk result (λ v. AllByRecursion NestsWithin (map decl_view v.items)) }
        ensures stays { IfErr result (λ e. Stay (want.Decls forms ∷ []) (reason_of e) (left self.old.cursor.rest.now) (left self.new.cursor.rest.now)) }
    {
        let mut decls = Vec::new(self.alloc);
        while !self.skips("}") {
            let decl = self.decl(forms)?;
            decls.push(decl)?;
        }
        Ok(decls)
    }

    /// A declaration.
    fn decl(&mut self, forms: Forms) -> Result<Decl, ReadFault>
        requires { next_is (is_sign (codes "}")) (left self.now.cursor.rest.now) ≡ false }
        ensures found { IfOk result (λ d. DeclOf forms (decl_view d) (left self.old.cursor.rest.now) (left self.new.cursor.rest.now)) }
        ensures within { IfOk result (λ d. NestsWithin (decl_view d)) }
        ensures stays { IfErr result (λ e. Stay (want.Decls forms ∷ []) (reason_of e) (left self.old.cursor.rest.now) (left self.new.cursor.rest.now)) }
    {
        if let Some(at) = self.cursor.takes_word("syn") {
            return self.synthesized(at, forms);
        }
        if let Some(at) = self.cursor.takes_word("inh") {
            return self.inherited(at, forms);
        }
        match self.cursor.takes_word("eq") {
            Some(at) => self.equation(at),
            None => Err(self.no_keyword()),
        }
    }

    /// A synthesized attribute behind its `syn`, whose place this is.
    fn synthesized(&mut self, at: Place, forms: Forms) -> Result<Decl, ReadFault>
        ensures found { IfOk result (λ d. (old : Row) → old ≡ word (codes "syn") at ∷ left self.old.cursor.rest.now
            → DeclOf forms (decl_view d) old (left self.new.cursor.rest.now)) }
        ensures within { IfOk result (λ d. NestsWithin (decl_view d)) }
        ensures stays { IfErr result
            (λ e. Stay (declared forms (want.Ending ∷ want.Decls forms ∷ [])) (reason_of e) (left self.old.cursor.rest.now) (left self.new.cursor.rest.now)) }
    {
        let head = self.head(forms)?;
        let ending = self.ending()?;
        let form = DeclForm::Synthesized {
            lazy: head.lazy,
            kind: head.kind,
            class: head.class,
            name: head.name,
            params: head.params,
            start: head.start,
            ending,
        };
        Ok(Decl { at, form })
    }

    /// An inherited attribute behind its `inh`, whose place this is.
    fn inherited(&mut self, at: Place, forms: Forms) -> Result<Decl, ReadFault>
        ensures found { IfOk result (λ d. (old : Row) → old ≡ word (codes "inh") at ∷ left self.old.cursor.rest.now
            → DeclOf forms (decl_view d) old (left self.new.cursor.rest.now)) }
        ensures within { IfOk result (λ d. NestsWithin (decl_view d)) }
        ensures stays { IfErr result
            (λ e. Stay (declared forms (want.Mark (codes ";") ∷ want.Decls forms ∷ [])) (reason_of e)
            (left self.old.cursor.rest.now) (left self.new.cursor.rest.now)) }
    {
        let head = self.head(forms)?;
        self.expects(";")?;
        let form = DeclForm::Inherited {
            lazy: head.lazy,
            kind: head.kind,
            class: head.class,
            name: head.name,
            params: head.params,
            start: head.start,
        };
        Ok(Decl { at, form })
    }

    /// `["lazy"] kind name "." name "(" [params] ")" ["circular" "[" ("true" | "false") "]"]`
    fn head(&mut self, forms: Forms) -> Result<Head, ReadFault>
        ensures found { IfOk result (λ h. HeadOf forms h (left self.old.cursor.rest.now) (left self.new.cursor.rest.now)) }
        ensures behind { IfOk result (λ h. next_is (is_word (codes "circular")) (left self.new.cursor.rest.now) ≡ false) }
        ensures stays { IfErr result (λ e. (us : List Want)
            → Stay (declared forms us) (reason_of e) (left self.old.cursor.rest.now) (left self.new.cursor.rest.now)) }
    {
        let lazy = self.lazy()?;
        let kind = self.kind()?;
        let target = self.target()?;
        let start = self.circular(may_be_circular(forms, &kind))?;
        Ok(Head {
            lazy,
            kind,
            class: target.class,
            name: target.name,
            params: target.params,
            start,
        })
    }

    /// `["lazy"]`, where `nta` before it or behind it is left out.
    fn lazy(&mut self) -> Result<Option<Place>, ReadFault>
        ensures found { IfOk result (λ o. Lazy o (left self.old.cursor.rest.now) (left self.new.cursor.rest.now)) }
        ensures goes { IfOk result (λ o. Pass true (want.Lazy ∷ []) (left self.old.cursor.rest.now) (left self.new.cursor.rest.now)) }
        ensures stays { IfErr result (λ e. Stay (want.Lazy ∷ []) (reason_of e) (left self.old.cursor.rest.now) (left self.new.cursor.rest.now)) }
    {
        let lazy = self.cursor.takes_word("lazy");
        if self.cursor.is_before_word("nta") {
            return Err(ReadFault::For(JragCode::LeftOut));
        }
        Ok(lazy)
    }

    /// `name "." name "(" [params] ")"`
    fn target(&mut self) -> Result<Target, ReadFault>
        ensures found { IfOk result (λ t. TargetOf t (left self.old.cursor.rest.now) (left self.new.cursor.rest.now)) }
        ensures stays { IfErr result (λ e. (us : List Want)
            → Stay (want.Name ∷ want.Mark (codes ".") ∷ want.Signed ∷ us) (reason_of e) (left self.old.cursor.rest.now) (left self.new.cursor.rest.now)) }
    {
        let class = self.name()?;
        self.expects(".")?;
        let name = self.name()?;
        let params = self.params(name.text.as_str())?;
        Ok(Target {
            class,
            name,
            params,
        })
    }

    /// `"int" | "boolean" | "String" | name`
    fn kind(&mut self) -> Result<KindWord, ReadFault>
        ensures found { IfOk result (λ k. KindOf (kind_word_view k) (left self.old.cursor.rest.now) (left self.new.cursor.rest.now)) }
        ensures missing { IfErr result (λ e. Missing is_kind e (left self.old.cursor.rest.now) (left self.new.cursor.rest.now)) }
    {
        if let Some(at) = self.cursor.takes_word("int") {
            return Ok(KindWord {
                kind: Kind::Int,
                at,
            });
        }
        if let Some(at) = self.cursor.takes_word("boolean") {
            return Ok(KindWord {
                kind: Kind::Bool,
                at,
            });
        }
        if let Some(at) = self.cursor.takes_word("String") {
            return Ok(KindWord {
                kind: Kind::Text,
                at,
            });
        }
        let class = self.name()?;
        Ok(KindWord {
            kind: Kind::Class(class.text),
            at: class.at,
        })
    }

    /// `kind name`
    fn param(&mut self) -> Result<Param, ReadFault>
        ensures found { IfOk result (λ p. ParamOf (param_view p) (left self.old.cursor.rest.now) (left self.new.cursor.rest.now)) }
        ensures missing { IfErr result (λ e. NoParam e (left self.old.cursor.rest.now) (left self.new.cursor.rest.now)) }
    {
        let kind = self.kind()?;
        let name = self.name()?;
        Ok(Param { kind, name })
    }

    /// `"(" [kind name { "," kind name }] ")"`, behind this name.
    fn params(&mut self, name: &str) -> Result<Params, ReadFault>
        ensures found { IfOk result (λ p. ParamsOf name.now (params_view p) (left self.old.cursor.rest.now) (left self.new.cursor.rest.now)) }
        ensures stays { IfErr result (λ e. Stay (want.Opening (bytes_eq name.now (codes "getChild")) ∷ []) (reason_of e)
            (left self.old.cursor.rest.now) (left self.new.cursor.rest.now)) }
    {
        self.opens(name)?;
        let mut items = Vec::new(self.alloc);
        if let Some(end) = self.cursor.takes_sign(")") {
            return Ok(Params { items, end });
        }
        loop {
            let param = self.param()?;
            items.push(param)?;
            if let Some(end) = self.cursor.takes_sign(")") {
                return Ok(Params { items, end });
            }
            self.expects(",")?;
        }
    }

    /// Steps over the `.` behind what may be a getter's parameters, if it is next.
    fn skips_getter(&mut self, params: &Params) -> bool
        ensures { MatchBool result
            ((is_getter (params_view params.now).items ≡ true) × Sign (codes ".") (left self.old.cursor.rest.now) (left self.new.cursor.rest.now))
            ((self.new.cursor ≡ self.old.cursor)
            × (is_getter (params_view params.now).items && next_is (is_sign (codes ".")) (left self.old.cursor.rest.now) ≡ false)) }
    {
        if is_getter(params) {
            self.skips(".")
        } else {
            false
        }
    }

    /// An equation behind its `eq`, whose place this is, of a synthesized or of an inherited attribute.
    fn equation(&mut self, at: Place) -> Result<Decl, ReadFault>
        ensures found { (forms : Forms) → IfOk result (λ d. (old : Row) → old ≡ word (codes "eq") at ∷ left self.old.cursor.rest.now
            → DeclOf forms (decl_view d) old (left self.new.cursor.rest.now)) }
        ensures within { IfOk result (λ d. NestsWithin (decl_view d)) }
        ensures stays { (forms : Forms) → IfErr result
            (λ e. Stay (want.Name ∷ want.Mark (codes ".") ∷ want.Signed ∷ want.Defined ∷ want.Decls forms ∷ []) (reason_of e)
            (left self.old.cursor.rest.now) (left self.new.cursor.rest.now)) }
    {
        let target = self.target()?;
        if self.skips_getter(&target.params) {
            return self.inherited_equation(at, target);
        }
        let body = self.body()?;
        let form = DeclForm::Equation {
            class: target.class,
            name: target.name,
            params: target.params,
            body,
        };
        Ok(Decl { at, form })
    }

    /// An equation of an inherited attribute, whose `eq` has this place, behind its getter and the `.` there.
    fn inherited_equation(&mut self, at: Place, getter: Target) -> Result<Decl, ReadFault>
        requires { is_getter (params_view getter.params).items ≡ true }
        ensures found { (forms : Forms) → IfOk result (λ d. (old named mid : Row) → old ≡ word (codes "eq") at ∷ named → TargetOf getter named mid
            → Sign (codes ".") mid (left self.old.cursor.rest.now)
            → DeclOf forms (decl_view d) old (left self.new.cursor.rest.now)) }
        ensures within { IfOk result (λ d. NestsWithin (decl_view d)) }
        ensures stays { (forms : Forms) → IfErr result
            (λ e. Stay (want.Signed ∷ want.Body ∷ want.Decls forms ∷ []) (reason_of e) (left self.old.cursor.rest.now) (left self.new.cursor.rest.now)) }
    {
        let name = self.name()?;
        let params = self.params(name.text.as_str())?;
        let body = self.body()?;
        let form = DeclForm::InheritedEquation {
            class: getter.class,
            getter: getter.name,
            index: index_of(getter.params),
            name,
            params,
            body,
        };
        Ok(Decl { at, form })
    }

    /// `";"`, or a body.
    fn ending(&mut self) -> Result<Ending, ReadFault>
        ensures found { IfOk result (λ e. EndingOf (ending_view e) (left self.old.cursor.rest.now) (left self.new.cursor.rest.now)) }
        ensures within { IfOk result (λ e. ending_depth (ending_view e) ≤ max_nesting) }
        ensures stays { IfErr result (λ e. Stay (want.Ending ∷ []) (reason_of e) (left self.old.cursor.rest.now) (left self.new.cursor.rest.now)) }
    {
        match self.cursor.takes_sign(";") {
            Some(at) => Ok(Ending::Semicolon(at)),
            None => Ok(Ending::Body(self.body()?)),
        }
    }

    /// `"=" expr ";" | "{" "return" expr ";" "}"`
    fn body(&mut self) -> Result<Body, ReadFault>
        ensures found { IfOk result (λ b. BodyOf (body_view b) (left self.old.cursor.rest.now) (left self.new.cursor.rest.now)) }
        ensures within { IfOk result (λ b. depth (body_view b).expr ≤ max_nesting) }
        ensures stays { IfErr result (λ e. (w : Want) (d : ℕ)
            → table w d (first (left self.old.cursor.rest.now)) ≡ body_answer (first (left self.old.cursor.rest.now))
            → Stays (w ∷ []) d (reason_of e) (left self.old.cursor.rest.now) (left self.new.cursor.rest.now)) }
    {
        if let Some(at) = self.cursor.takes_sign("=") {
            let expr = self.expression(MAX_NESTING)?;
            self.expects(";")?;
            return Ok(Body {
                at,
                form: BodyForm::Equation,
                expr: expr.into_expr(),
            });
        }
        let at = self.expects("{")?;
        if self.cursor.takes_word("return").is_none() {
            return Err(self.no_block());
        }
        let expr = self.expression(MAX_NESTING)?;
        self.expects(";")?;
        if !self.skips("}") {
            return Err(self.no_block());
        }
        Ok(Body {
            at,
            form: BodyForm::Block,
            expr: expr.into_expr(),
        })
    }
}
