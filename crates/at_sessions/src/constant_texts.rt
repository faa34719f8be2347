//! Constants that aspects declare as users of JastAdd write them: which trees they are, and where a text is refused.

use crate::rows::holds_for;
use at_java::{Constant, Contents, JavaCode, parse_java};
use at_jrag::{Decl, DeclForm, Ending, Form};
use at_text::fault::Fault;
use at_tree::reader::read_term;
use at_tree::term::{Term, TermCell};
use at_tree::token::TokVal;
use std::alloc::Global;
use std::process::Abort;

/// What a text comes to.
#[derive(Clone, Copy)]
enum Told {
    /// It declares one constant, `n` of class C, and an attribute with its value: its kind, its term, and where its `new` stands.
    Made(&'static str, &'static str, u32),
    /// It declares one constant, `N` of class C, and nothing else: its kind, what stands in its component, and where its `new` stands.
    Fills(&'static str, &'static str, u32),
    /// It is refused, in this column of its only line.
    At(JavaCode, u32),
}

/// The text that a value is, if it is one.
fn text_of(value: &TokVal) -> Option<&str> {
    match value {
        TokVal::Str(text) => Some(text.as_str()),
        TokVal::Short(text, _) => Some(text.as_str()),
        _ => None,
    }
}

fn same_value(a: &TokVal, b: &TokVal) -> bool {
    match (a, b) {
        (TokVal::Int(m), TokVal::Int(n)) => m == n,
        (TokVal::Bool(m), TokVal::Bool(n)) => m == n,
        _ => match (text_of(a), text_of(b)) {
            (Some(m), Some(n)) => m == n,
            _ => false,
        },
    }
}

/// Whether two cells without trees in them are one.
fn same_plain(a: &TermCell, b: &TermCell) -> bool {
    match (a, b) {
        (TermCell::Many(ms), TermCell::Many(ns)) => ms.is_empty() && ns.is_empty(),
        (TermCell::Empty, TermCell::Empty) => true,
        (TermCell::Holds(m), TermCell::Holds(n)) => same_value(m, n),
        _ => false,
    }
}

/// Whether two terms without terms in them are one.
fn same_leaf(a: &Term, b: &Term) -> bool {
    if a.name.as_str() != b.name.as_str() || a.cells.len() != b.cells.len() {
        return false;
    }
    for (m, n) in a.cells.iter().zip(b.cells.iter()) {
        if !same_plain(m, n) {
            return false;
        }
    }
    true
}

/// Whether two lists of such terms are one.
fn same_leaves(ms: &[Term], ns: &[Term]) -> bool {
    if ms.len() != ns.len() {
        return false;
    }
    for (m, n) in ms.iter().zip(ns.iter()) {
        if !same_leaf(m, n) {
            return false;
        }
    }
    true
}

/// Whether two cells are one, in which at most such terms stand.
fn same_cell(a: &TermCell, b: &TermCell) -> bool {
    match (a, b) {
        (TermCell::One(m), TermCell::One(n)) => same_leaf(m, n),
        (TermCell::Many(ms), TermCell::Many(ns)) => same_leaves(ms, ns),
        _ => same_plain(a, b),
    }
}

/// Whether two terms are one, of the depth that the rows have: a term, and terms in it that hold none.
fn same_term(a: &Term, b: &Term) -> bool {
    if a.name.as_str() != b.name.as_str() || a.cells.len() != b.cells.len() {
        return false;
    }
    for (m, n) in a.cells.iter().zip(b.cells.iter()) {
        if !same_cell(m, n) {
            return false;
        }
    }
    true
}

/// Whether what stands in a component is the only thing that stands in the term.
fn is_alone_in(cell: &TermCell, term: &Term) -> bool {
    match (cell, term.cells.as_slice()) {
        (TermCell::One(m), [TermCell::One(n)]) => same_term(m, n),
        (TermCell::Many(ms), [TermCell::Many(ns)]) => same_leaves(ms, ns),
        _ => false,
    }
}

/// Whether this, in a term alone, is what stands in the constant's component, and its `new` stands there.
fn is_made(rt: &impl Abort, alloc: Global, constant: &Constant, alone: &str, column: u32) -> bool {
    let Ok(term) = read_term(alloc, alone) else {
        panic!(rt; "no term");
    };
    constant.at.column == column && is_alone_in(&constant.cell, &term)
}

/// Whether the constant has this class, name and kind.
fn is_of(constant: &Constant, class: &str, name: &str, kind: &str) -> bool {
    constant.class.text.as_str() == class
        && constant.name.text.as_str() == name
        && constant.kind.text.as_str() == kind
}

/// Whether the declaration's value is what that accessor gives.
fn is_accessed(decl: &Decl, accessor: &str) -> bool {
    let DeclForm::Synthesized {
        ending: Ending::Body(body),
        ..
    } = &decl.form
    else {
        return false;
    };
    match &body.expr.form {
        Form::Call(name, arguments) => name.as_str() == accessor && arguments.is_empty(),
        _ => false,
    }
}

/// Whether these are none, or the one for the constant `n`.
fn is_declared_for(decls: &[Decl], is_filling: bool) -> bool {
    match decls {
        [] => is_filling,
        [decl] => !is_filling && is_accessed(decl, "getn"),
        _ => false,
    }
}

/// The declarations of the file's only aspect, and its only constant.
fn only(contents: &Contents) -> Option<(&[Decl], &Constant)> {
    let [aspect] = contents.aspects.as_slice() else {
        return None;
    };
    let [constant] = contents.constants.as_slice() else {
        return None;
    };
    Some((aspect.decls.as_slice(), constant))
}

/// Whether the text is read so.
fn is_read(rt: &impl Abort, alloc: Global, contents: &Contents, told: Told) -> bool {
    let Some((decls, constant)) = only(contents) else {
        return false;
    };
    match told {
        Told::Made(kind, alone, column) => {
            is_declared_for(decls, false)
                && is_of(constant, "C", "n", kind)
                && is_made(rt, alloc, constant, alone, column)
        }
        Told::Fills(kind, alone, column) => {
            is_declared_for(decls, true)
                && is_of(constant, "C", "N", kind)
                && is_made(rt, alloc, constant, alone, column)
        }
        Told::At(_, _) => false,
    }
}

/// Whether the text comes to that.
fn comes_to(rt: &impl Abort, alloc: Global, text: &str, told: Told) -> bool {
    match parse_java(alloc, text, &[]) {
        Ok(contents) => is_read(rt, alloc, &contents, told),
        Err(Fault::Refused { code, at }) => match told {
            Told::At(other, column) => code == other && at.column == column,
            _ => false,
        },
        Err(Fault::Memory) => panic!(rt; "want of memory"),
    }
}

/// Texts, and what they come to.
const ROWS: &[(&str, Told)] = &[
    // what is read
    (
        "aspect A { syn nta X C.n() = new X(); }",
        Told::Made("X", "T(X())", 30),
    ),
    (
        "aspect A { syn lazy nta X C.n() { return new X(); } }",
        Told::Made("X", "T(X())", 42),
    ),
    (
        "aspect A { public syn nta final lazy X C.n() = new X(); }",
        Told::Made("X", "T(X())", 48),
    ),
    (
        "aspect A { syn nta X C.n() = new Y(\"a\", 1, -2, true, false); }",
        Told::Made("X", "T(Y(\"a\",1,-2,true,false))", 30),
    ),
    (
        "aspect A { syn nta X C.n() = new X(\"a\", new List(), new Opt()); }",
        Told::Made("X", "T(X(\"a\",[],-))", 30),
    ),
    (
        "aspect A { syn nta X C.n() = new X(new List<Y>(), new Opt<Y>(), new Y(0)); }",
        Told::Made("X", "T(X([],-,Y(0)))", 30),
    ),
    (
        "aspect A { syn nta X C.n() = new X(new List<Y>().add(new Y(1)).add(new Z(2)), new Opt<Y>(new Y(3))); }",
        Told::Made("X", "T(X([Y(1),Z(2)],Y(3)))", 30),
    ),
    (
        "aspect A { syn nta X C.n() = new X(-2147483648, 2147483647, \"\\n\\\"\"); }",
        Told::Made("X", "T(X(-2147483648,2147483647,\"\\n\\\"\"))", 30),
    ),
    // components that are filled by their own accessors
    (
        "aspect A { syn nta X C.getN() = new X(); }",
        Told::Fills("X", "T(X())", 33),
    ),
    (
        "aspect A { syn lazy nta X C.getN() { return new Y(1); } }",
        Told::Fills("X", "T(Y(1))", 45),
    ),
    (
        "aspect A { syn nta List<X> C.getNList() = new List<X>(); }",
        Told::Fills("X", "T([])", 43),
    ),
    (
        "aspect A { syn nta List<X> C.getNList() = new List().add(new X()).add(new Y(1)); }",
        Told::Fills("X", "T([X(),Y(1)])", 43),
    ),
    (
        "aspect A { syn nta List<X> C.getNList() { return new List<X>().add(new X()); } }",
        Told::Fills("X", "T([X()])", 50),
    ),
    (
        "aspect A { syn nta List<X> C.getNList() { List<X> l = new List<X>(); return l; } }",
        Told::Fills("X", "T([])", 55),
    ),
    (
        "aspect A { syn nta List<X> C.getNList() { List<X> l = new List<X>().add(new X()); l.add(new Y(1)); l.add(new X()); return l; } }",
        Told::Fills("X", "T([X(),Y(1),X()])", 55),
    ),
    // lists that are left out
    (
        "aspect A { syn nta List<X> C.getN() = new List<X>(); }",
        Told::At(JavaCode::LeftOut, 20),
    ),
    (
        "aspect A { syn nta List<X> C.getList() = new List<X>(); }",
        Told::At(JavaCode::LeftOut, 20),
    ),
    (
        "aspect A { syn nta List<X> C.nList() = new List<X>(); }",
        Told::At(JavaCode::LeftOut, 20),
    ),
    (
        "aspect A { syn nta List<X> C.getNList() = new X(); }",
        Told::At(JavaCode::LeftOut, 43),
    ),
    (
        "aspect A { syn nta X C.getN() = new List<X>(); }",
        Told::At(JavaCode::LeftOut, 33),
    ),
    (
        "aspect A { syn nta List<X> C.getNList() = f(); }",
        Told::At(JavaCode::LeftOut, 30),
    ),
    (
        "aspect A { syn nta List<X> C.getNList() { List<X> l = f(); return l; } }",
        Told::At(JavaCode::LeftOut, 30),
    ),
    (
        "aspect A { syn nta List<X> C.getNList() { List<X> l = new List<X>(); m.add(new X()); return l; } }",
        Told::At(JavaCode::LeftOut, 70),
    ),
    (
        "aspect A { syn nta List<X> C.getNList() { List<X> l = new List<X>(); l.clear(); return l; } }",
        Told::At(JavaCode::LeftOut, 70),
    ),
    (
        "aspect A { syn nta List<X> C.getNList() { List<X> l = new List<X>(); l.add(x); return l; } }",
        Told::At(JavaCode::LeftOut, 76),
    ),
    (
        "aspect A { syn nta List<X> C.getNList() { List<X> l = new List<X>(); return m; } }",
        Told::At(JavaCode::LeftOut, 70),
    ),
    (
        "aspect A { syn nta List<X> C.getNList() { List<X> l = new List<X>(); l.add(new X()); } }",
        Told::At(JavaCode::Syntax, 86),
    ),
    // heads that are left out
    (
        "aspect A { inh nta X C.n(); }",
        Told::At(JavaCode::LeftOut, 16),
    ),
    (
        "aspect A { inh lazy nta X C.n(); }",
        Told::At(JavaCode::LeftOut, 21),
    ),
    (
        "aspect A { syn nta X C.n(int i) = new X(); }",
        Told::At(JavaCode::LeftOut, 26),
    ),
    (
        "aspect A { syn nta int C.n() = new X(); }",
        Told::At(JavaCode::LeftOut, 20),
    ),
    (
        "aspect A { syn nta List<X> C.n() = new List<X>(); }",
        Told::At(JavaCode::LeftOut, 20),
    ),
    // bodies that are left out
    (
        "aspect A { syn nta X C.n(); }",
        Told::At(JavaCode::LeftOut, 24),
    ),
    (
        "aspect A { syn nta X C.n() = null; }",
        Told::At(JavaCode::LeftOut, 24),
    ),
    (
        "aspect A { syn nta X C.n() = f(); }",
        Told::At(JavaCode::LeftOut, 24),
    ),
    (
        "aspect A { syn nta X C.n() { return x; } }",
        Told::At(JavaCode::LeftOut, 24),
    ),
    (
        "aspect A { syn nta X C.n() { X x = new X(); return x; } }",
        Told::At(JavaCode::LeftOut, 24),
    ),
    (
        "aspect A { syn nta X C.n() circular [null] = new X(); }",
        Told::At(JavaCode::LeftOut, 24),
    ),
    (
        "aspect A { syn nta X C.n() { return new X(); return new Y(); } }",
        Told::At(JavaCode::LeftOut, 46),
    ),
    // what is left out at its `new`
    (
        "aspect A { syn nta X C.n() = new List<X>(); }",
        Told::At(JavaCode::LeftOut, 30),
    ),
    (
        "aspect A { syn nta X C.n() = new Opt<X>(new X()); }",
        Told::At(JavaCode::LeftOut, 30),
    ),
    (
        "aspect A { syn nta X C.n() = new X[3]; }",
        Told::At(JavaCode::LeftOut, 30),
    ),
    (
        "aspect A { syn nta X C.n() = new X().f(); }",
        Told::At(JavaCode::LeftOut, 30),
    ),
    (
        "aspect A { syn nta X C.n() = new int[3]; }",
        Told::At(JavaCode::LeftOut, 30),
    ),
    (
        "aspect A { syn nta X C.n() = new X(new List<Y>(3)); }",
        Told::At(JavaCode::LeftOut, 36),
    ),
    (
        "aspect A { syn nta X C.n() = new X(new List<Y>().addChild(new Y())); }",
        Told::At(JavaCode::LeftOut, 36),
    ),
    (
        "aspect A { syn nta X C.n() = new X(new List<Y>().add(new List<Y>())); }",
        Told::At(JavaCode::LeftOut, 54),
    ),
    (
        "aspect A { syn nta X C.n() = new X(new Y().f()); }",
        Told::At(JavaCode::LeftOut, 36),
    ),
    (
        "aspect A { syn int C.n() = new X(); }",
        Told::At(JavaCode::LeftOut, 28),
    ),
    (
        "aspect A { syn nta X C.n() = new X(); eq C.n() = new Y(); }",
        Told::At(JavaCode::LeftOut, 50),
    ),
    // arguments that are left out
    (
        "aspect A { syn nta X C.n() = new X(1, y); }",
        Told::At(JavaCode::LeftOut, 39),
    ),
    (
        "aspect A { syn nta X C.n() = new X(f()); }",
        Told::At(JavaCode::LeftOut, 36),
    ),
    (
        "aspect A { syn nta X C.n() = new X(null); }",
        Told::At(JavaCode::LeftOut, 36),
    ),
    (
        "aspect A { syn nta X C.n() = new X(1, 2 + 3); }",
        Told::At(JavaCode::LeftOut, 39),
    ),
    (
        "aspect A { syn nta X C.n() = new X(!true); }",
        Told::At(JavaCode::LeftOut, 36),
    ),
    (
        "aspect A { syn nta X C.n() = new X(-x); }",
        Told::At(JavaCode::LeftOut, 36),
    ),
    (
        "aspect A { syn nta X C.n() = new X((1)); }",
        Told::At(JavaCode::LeftOut, 36),
    ),
    (
        "aspect A { syn nta X C.n() = new X(new Opt<Y>(1)); }",
        Told::At(JavaCode::LeftOut, 47),
    ),
    // what is no argument
    (
        "aspect A { syn nta X C.n() = new X(,); }",
        Told::At(JavaCode::Syntax, 36),
    ),
    (
        "aspect A { syn nta X C.n() = new X(2147483648); }",
        Told::At(JavaCode::Syntax, 36),
    ),
    (
        "aspect A { syn nta X C.n() = new X(",
        Told::At(JavaCode::Syntax, 36),
    ),
];

#[test]
fn constants_are_read(rt: HostRuntime) {
    for (text, told) in ROWS {
        holds_for(&rt, text, comes_to(&rt, rt.alloc(), text, *told));
    }
}

/// Two aspects, whose constants stand in the order of the file.
const TWO: &str =
    "aspect A { syn nta X C.n() = new X(); syn int C.m() = 1; syn nta Y C.o() = new Y(1); } aspect B { syn nta Z D.p() = new Z(); }";

#[test]
fn constants_stand_in_their_order(rt: HostRuntime) {
    let contents = parse_java(rt.alloc(), TWO, &[]).ok().expect(&rt, "aspects");
    let [n, o, p] = contents.constants.as_slice() else {
        panic!(&rt; "three constants");
    };
    holds_for(&rt, "n", is_of(n, "C", "n", "X"));
    holds_for(&rt, "o", is_of(o, "C", "o", "Y"));
    holds_for(&rt, "p", is_of(p, "D", "p", "Z"));
    holds_for(&rt, "at", is_made(&rt, rt.alloc(), p, "T(Z())", 117));
}
