//! Circular attributes, with their form read and without: what their start is, and where a text is refused.

use crate::rows::holds_for;
use at_jrag::{Aspect, DeclForm, Forms, JragCode, parse_jrag};
use at_text::fault::Fault;
use std::alloc::Global;
use std::process::Abort;

/// What a text comes to.
#[derive(Clone, Copy, PartialEq, Eq)]
enum Told {
    /// Its first declaration has this start.
    Start(Option<bool>),
    /// It is refused, in this column of its only line.
    At(JragCode, u32),
}

/// The start of the first declaration, if that is one of an attribute.
fn first_start(aspects: &[Aspect]) -> Option<bool> {
    let [aspect, ..] = aspects else {
        return None;
    };
    let [decl, ..] = aspect.decls.as_slice() else {
        return None;
    };
    match &decl.form {
        DeclForm::Synthesized { start, .. } | DeclForm::Inherited { start, .. } => *start,
        _ => None,
    }
}

/// What the text comes to.
fn comes_to(rt: &impl Abort, alloc: Global, text: &str, forms: Forms) -> Told {
    match parse_jrag(alloc, text, forms) {
        Ok(aspects) => Told::Start(first_start(&aspects)),
        Err(Fault::Refused { code, at }) => Told::At(code, at.column),
        Err(Fault::Memory) => panic!(rt; "want of memory"),
    }
}

/// Texts of which all that have `circular` in a declaration's first place are refused there without the form, what they come
/// to with it, and in which column that word stands.
const ROWS: &[(&str, Told, u32)] = &[
    (
        "aspect A { syn boolean X.a() = true; }",
        Told::Start(None),
        0,
    ),
    (
        "aspect A { syn boolean X.a() circular [false] = b(); }",
        Told::Start(Some(false)),
        30,
    ),
    (
        "aspect A { syn lazy boolean X.a() circular [true]; }",
        Told::Start(Some(true)),
        35,
    ),
    (
        "aspect A { syn boolean X.a() circular [true] { return b(); } }",
        Told::Start(Some(true)),
        30,
    ),
    (
        "aspect A { inh boolean X.a(Y y) circular [false]; }",
        Told::Start(Some(false)),
        33,
    ),
    // of other kinds it is left out
    (
        "aspect A { syn int X.a() circular [false] = 1; }",
        Told::At(JragCode::LeftOut, 26),
        26,
    ),
    (
        "aspect A { inh Y X.a() circular [false]; }",
        Told::At(JragCode::LeftOut, 24),
        24,
    ),
    // another expression, too
    (
        "aspect A { syn boolean X.a() circular [0] = b(); }",
        Told::At(JragCode::LeftOut, 40),
        30,
    ),
    (
        "aspect A { syn boolean X.a() circular [new Y()] = b(); }",
        Told::At(JragCode::LeftOut, 40),
        30,
    ),
    (
        "aspect A { syn boolean X.a() circular [this] = b(); }",
        Told::At(JragCode::LeftOut, 40),
        30,
    ),
    (
        "aspect A { syn boolean X.a() circular [\"x\"] = b(); }",
        Told::At(JragCode::LeftOut, 40),
        30,
    ),
    (
        "aspect A { syn boolean X.a() circular [!true] = b(); }",
        Told::At(JragCode::LeftOut, 40),
        30,
    ),
    (
        "aspect A { syn boolean X.a() circular [(true)] = b(); }",
        Told::At(JragCode::LeftOut, 40),
        30,
    ),
    (
        "aspect A { syn boolean X.a() circular [-1] = b(); }",
        Told::At(JragCode::LeftOut, 40),
        30,
    ),
    // and any other token is none
    (
        "aspect A { syn boolean X.a() circular [] = b(); }",
        Told::At(JragCode::Syntax, 40),
        30,
    ),
    (
        "aspect A { syn boolean X.a() circular [int] = b(); }",
        Told::At(JragCode::Syntax, 40),
        30,
    ),
    (
        "aspect A { syn boolean X.a() circular [+",
        Told::At(JragCode::Syntax, 40),
        30,
    ),
    (
        "aspect A { syn boolean X.a() circular [",
        Told::At(JragCode::Syntax, 40),
        30,
    ),
    (
        "aspect A { syn boolean X.a() circular = b(); }",
        Told::At(JragCode::Syntax, 39),
        30,
    ),
    (
        "aspect A { syn boolean X.a() circular true = b(); }",
        Told::At(JragCode::Syntax, 39),
        30,
    ),
    (
        "aspect A { syn boolean X.a() circular [true = b(); }",
        Told::At(JragCode::Syntax, 45),
        30,
    ),
    (
        "aspect A { syn boolean X.a() circular [true || b()] = b(); }",
        Told::At(JragCode::Syntax, 45),
        30,
    ),
    (
        "aspect A { syn boolean X.a() circular [true] }",
        Told::At(JragCode::Syntax, 46),
        30,
    ),
    (
        "aspect A { syn boolean X.a() circular [true] circular [true]; }",
        Told::At(JragCode::LeftOut, 46),
        30,
    ),
    (
        "aspect A { eq X.a() circular [true] = b(); }",
        Told::At(JragCode::Syntax, 21),
        0,
    ),
];

#[test]
fn circular_attributes_are_read_where_that_is_asked_for(rt: HostRuntime) {
    let read = Forms { circular: true };
    for (text, with, column) in ROWS {
        let without = if *column == 0 {
            *with
        } else {
            Told::At(JragCode::LeftOut, *column)
        };
        holds_for(&rt, text, comes_to(&rt, rt.alloc(), text, read) == *with);
        holds_for(
            &rt,
            text,
            comes_to(&rt, rt.alloc(), text, Forms::NONE) == without,
        );
    }
}
