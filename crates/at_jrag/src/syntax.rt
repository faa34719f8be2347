//! Aspects as they are read. A place is a line and a column, both from 1: of a word where it begins, of a form where its
//! first token begins.

use at_text::place::Place;

/// A name where it stands.
#[derive(Drop)]
pub struct Word {
    pub text: String,
    pub at: Place,
}

/// A kind of values, as it is written.
#[derive(Drop)]
pub enum Kind {
    Int,
    Bool,
    Text,
    /// A class, by its name.
    Class(String),
}

/// A kind where it stands.
pub struct KindWord {
    pub kind: Kind,
    pub at: Place,
}

/// One call, where each exit that lets it go would else have a case for each kind.
impl Drop for KindWord {
    fn drop(self) {
        let KindWord { kind: _, at: _ } = self;
    }
}

/// A parameter: its kind and its name.
#[derive(Drop)]
pub struct Param {
    pub kind: KindWord,
    pub name: Word,
}

/// The parameters of a declaration, and the place of the parenthesis that ends them.
#[derive(Drop)]
pub struct Params {
    pub items: Vec<Param>,
    pub end: Place,
}

/// How a body is written. Both mean the same.
#[derive(Clone, Copy, PartialEq, Eq)]
pub enum BodyForm {
    /// `= E;`
    Equation,
    /// `{ return E; }`
    Block,
}

/// The body of an equation, with the place of its `=` or `{`.
pub struct Body {
    pub at: Place,
    pub form: BodyForm,
    pub expr: Expr,
}

/// One call, where each exit that lets it go would else have one for each field.
impl Drop for Body {
    fn drop(self) {
        let Body {
            at: _,
            form: _,
            expr: _,
        } = self;
    }
}

/// What stands behind the parameters of a synthesized attribute.
#[derive(Drop)]
pub enum Ending {
    Body(Body),
    /// A `;` alone, with its place: the equations stand elsewhere.
    Semicolon(Place),
}

/// A declaration of an aspect. Where `lazy` is written, its place is kept. The start of an attribute is the value that it
/// begins with where it is circular.
#[derive(Drop)]
pub enum DeclForm {
    /// `syn KIND CLASS.NAME(..)` with its body, or with a `;`.
    Synthesized {
        lazy: Option<Place>,
        kind: KindWord,
        class: Word,
        name: Word,
        params: Params,
        start: Option<bool>,
        ending: Ending,
    },
    /// `inh KIND CLASS.NAME(..);`
    Inherited {
        lazy: Option<Place>,
        kind: KindWord,
        class: Word,
        name: Word,
        params: Params,
        start: Option<bool>,
    },
    /// `eq CLASS.NAME(..) BODY`
    Equation {
        class: Word,
        name: Word,
        params: Params,
        body: Body,
    },
    /// `eq CLASS.GETTER(..).NAME(..) BODY`, perhaps with the name of an index.
    InheritedEquation {
        class: Word,
        getter: Word,
        index: Option<Word>,
        name: Word,
        params: Params,
        body: Body,
    },
}

/// A declaration, with the place of its first token.
pub struct Decl {
    pub at: Place,
    pub form: DeclForm,
}

/// One call, where each exit that lets a declaration go would else have a case for each form.
impl Drop for Decl {
    fn drop(self) {
        let Decl { at: _, form: _ } = self;
    }
}

/// An aspect: its name, and its declarations in order.
pub struct Aspect {
    pub name: Word,
    pub decls: Vec<Decl>,
}

/// One call, where each exit that lets it go would else have one for each field.
impl Drop for Aspect {
    fn drop(self) {
        let Aspect { name: _, decls: _ } = self;
    }
}

/// The operators with two operands. Those of one level lean left; the levels, from the weakest: `||`; `&&`; `==` and `!=`;
/// `<`, `<=`, `>` and `>=`; `+` and `-`; `*`, `/` and `%`.
#[derive(Clone, Copy, PartialEq, Eq)]
pub enum Operator {
    Or,
    And,
    Same,
    Differs,
    Below,
    AtMost,
    Above,
    AtLeast,
    Add,
    Subtract,
    Multiply,
    Divide,
    Remainder,
}

/// An operator where it stands.
#[derive(Clone, Copy, PartialEq, Eq)]
pub struct OperatorWord {
    pub operator: Operator,
    pub at: Place,
}

/// What is asked of the elements of a list.
#[derive(Clone, Copy, PartialEq, Eq)]
pub enum FoldForm {
    Exists,
    First,
    Sum,
}

/// An expression, with the place of its first token.
#[cycle(expr)]
#[derive(Drop)]
pub struct Expr {
    pub at: Place,
    pub form: Form,
}

/// The forms of expressions.
#[cycle(expr)]
#[derive(Drop)]
pub enum Form {
    /// A number; a `-` directly before its digits belongs to it.
    Number(i32),
    /// The text that a quoted text stands for.
    Text(String),
    Truth(bool),
    Null,
    This,
    /// The name of a parameter, an index or an element.
    Name(String),
    /// `NAME(..)`, which is asked of `this`.
    Call(String, Vec<Expr>),
    /// `RECEIVER.NAME(..)`
    CallOf(Box<Expr>, String, Vec<Expr>),
    /// `(E)`
    Paren(Box<Expr>),
    /// `-E`
    Negate(Box<Expr>),
    /// `!E`
    Not(Box<Expr>),
    /// `(CLASS) E`
    Cast(Word, Box<Expr>),
    /// `E instanceof CLASS`; the place is that of the word `instanceof`.
    InstanceOf(Box<Expr>, Place, Word),
    Binary(OperatorWord, Box<Expr>, Box<Expr>),
    /// `E ? E : E`; the place is that of the `?`.
    Choose(Box<Expr>, Place, Box<Expr>, Box<Expr>),
    /// `exists (NAME : LIST) { E }`, and so with `first` and `sum`.
    Fold(FoldForm, Word, Box<Expr>, Box<Expr>),
}
