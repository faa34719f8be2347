//! Drawers of a store by itself: which elements stand in them, and which drawers an edit touches. What is expected was found by hand.

ghost use Rattle.std.specs.Prelude.{◌≡◌, is_some, true};
ghost use Rattle.at_store.specs.Refusing.{node_of, target_of};
ghost use Rattle.at_store.specs.Shown.{IsIdle, path as path_shown};

use crate::rows::holds_at;
use crate::stores::{End, classes, loaded, node_at, tried};
use at_class::{ClassId, ClassTable, Key, mark_of};
use at_store::{Edit, Loc, Store};
use at_tree::token::TokVal;
use at_tree::tree::{Tree, read_tree};
use std::alloc::Global;
use std::process::Abort;

const GRAMMAR: &[u8] = b"Program ::= Item* [Last:Item];
abstract Item;
Def : Item ::= <Name> Item*;
Use : Item ::= <Name>;
Count : Item ::= <Number:int>;
";

/// The texts `aB` and `b!` have one mark.
const TREE: &str =
    "Program([Def(\"a\",[]),Use(\"a\"),Def(\"b\",[Def(\"a\",[])]),Def(\"a\",[]),Count(7),Def(\"aB\",[])],-)";

/// The class of which all elements are.
const ITEM: usize = 1;

/// Sets of classes: a bit for each.
const DEF: u32 = 1 << 2;

const USE: u32 = 1 << 3;

const COUNT: u32 = 1 << 4;

/// A set of classes, the position of a token, a text, and the indexes of those elements of the list that stand under its mark.
const FOUND: &[(u32, u8, &str, &[usize])] = &[
    (DEF, 0, "a", &[0, 3]),
    (DEF, 0, "b", &[2]),
    (USE, 0, "a", &[1]),
    (DEF | USE, 0, "a", &[0, 1, 3]),
    (COUNT, 0, "7", &[]),
    (DEF | COUNT, 0, "a", &[0, 3]),
    (0, 0, "a", &[]),
    (DEF, 1, "a", &[]),
    (DEF, 0, "c", &[]),
    (DEF, 0, "", &[]),
    (DEF, 0, "aB", &[5]),
    (DEF, 0, "b!", &[5]),
];

/// A drawer: the path of its node, the component, the set of classes, and a text of that mark.
const DRAWERS: &[(&str, u8, u32, &str)] = &[
    ("/", 0, DEF, "a"),
    ("/", 0, DEF, "b"),
    ("/", 0, DEF, "c"),
    ("/", 0, DEF, "aB"),
    ("/", 0, USE, "a"),
    ("/", 0, DEF | USE, "a"),
    ("/", 1, DEF, "a"),
    ("/Item:0", 1, DEF, "a"),
    ("/Item:2", 1, DEF, "a"),
    ("/Item:2", 1, DEF, "c"),
    ("/Item:2", 0, DEF, "a"),
];

/// Their places.
const A: usize = 0;

const B: usize = 1;

const C: usize = 2;

const SHARED: usize = 3;

const USE_A: usize = 4;

const ANY_A: usize = 5;

const LAST_A: usize = 6;

const A_IN_FIRST: usize = 7;

const A_IN_THIRD: usize = 8;

const C_IN_THIRD: usize = 9;

const NOWHERE: usize = 10;

/// An edit, by paths, terms of elements and texts.
enum Change {
    Set(&'static str, &'static str),
    /// In the optional of the root.
    Put(&'static str),
    Drop(&'static str),
    /// In a component of a node, at an index.
    Insert(&'static str, usize, usize, &'static str),
    /// The first token.
    Token(&'static str, &'static str),
    /// To a component of a node, at an index.
    Move(&'static str, &'static str, usize, usize),
}

/// Edits, and which of the drawers they touch.
const TOUCHED: &[(Change, &[usize])] = &[
    // what leaves the list, what comes to it, and all of what leaves
    (
        Change::Set("/Item:0", "Def(\"b\",[])"),
        &[A, B, ANY_A, A_IN_FIRST],
    ),
    (
        Change::Set("/Item:0", "Def(\"a\",[])"),
        &[A, ANY_A, A_IN_FIRST],
    ),
    (Change::Set("/Item:1", "Count(1)"), &[USE_A, ANY_A]),
    (
        Change::Set("/Item:2", "Use(\"a\")"),
        &[B, USE_A, ANY_A, A_IN_THIRD, C_IN_THIRD, NOWHERE],
    ),
    (
        Change::Set("/Item:2/Item:0", "Def(\"c\",[])"),
        &[A_IN_THIRD, C_IN_THIRD],
    ),
    (Change::Put("Def(\"a\",[])"), &[LAST_A]),
    (Change::Put("Use(\"a\")"), &[]),
    (Change::Drop("/Item:0"), &[A, ANY_A, A_IN_FIRST]),
    (Change::Drop("/Item:1"), &[USE_A, ANY_A]),
    (
        Change::Drop("/Item:2"),
        &[B, A_IN_THIRD, C_IN_THIRD, NOWHERE],
    ),
    (Change::Drop("/Item:4"), &[]),
    (Change::Drop("/Item:5"), &[SHARED]),
    (Change::Insert("/", 0, 0, "Def(\"c\",[])"), &[C]),
    (Change::Insert("/", 0, 6, "Use(\"a\")"), &[USE_A, ANY_A]),
    (Change::Insert("/", 0, 1, "Def(\"b!\",[])"), &[SHARED]),
    (
        Change::Insert("/Item:2", 1, 1, "Def(\"c\",[])"),
        &[C_IN_THIRD],
    ),
    // an element stands under one mark before, and under one behind the edit
    (Change::Token("/Item:0", "b"), &[A, B, ANY_A]),
    (Change::Token("/Item:0", "d"), &[A, ANY_A]),
    (Change::Token("/Item:5", "c"), &[C, SHARED]),
    (Change::Token("/Item:1", "b"), &[USE_A, ANY_A]),
    (
        Change::Token("/Item:2/Item:0", "c"),
        &[A_IN_THIRD, C_IN_THIRD],
    ),
    (Change::Token("/Item:0", "a"), &[]),
    (Change::Token("/Item:5", "b!"), &[]),
    // also where the order in the drawer stays
    (Change::Move("/Item:2", "/", 0, 0), &[B]),
    (Change::Move("/Item:0", "/", 0, 3), &[A, ANY_A]),
    (
        Change::Move("/Item:2/Item:0", "/", 0, 0),
        &[A, ANY_A, A_IN_THIRD],
    ),
    (
        Change::Move("/Item:0", "/Item:2", 1, 0),
        &[A, ANY_A, A_IN_THIRD],
    ),
    (Change::Move("/Item:4", "/", 0, 0), &[]),
];

/// What those elements have of which the class is in the set: the token there.
fn key(classes: u32, token: u8) -> Key {
    Key {
        first: 0,
        token,
        classes,
    }
}

/// Whether those elements of the root's list, and no others, stand under the mark of the text.
fn stand_under(store: &Store, key: Key, text: &str, wanted: &[usize]) -> bool
    requires { IsIdle store.now }
{
    let mark = mark_of(text);
    let elements = store.children(store.root(), 0);
    let mut rest = elements;
    for index in wanted {
        let Some((node, others)) = store.next_under(rest, key, mark) else {
            return false;
        };
        if elements.get(*index) != Some(&node) {
            return false;
        }
        rest = others;
    }
    store.next_under(rest, key, mark).is_none()
}

/// The tree of an element.
fn element(rt: &impl Abort, alloc: Global, classes: &ClassTable, term: &str) -> Tree {
    let Ok(tree) = read_tree(alloc, classes, term, ClassId::new(ITEM)) else {
        panic!(rt; "no tree");
    };
    tree
}

/// The value of a token.
fn text(rt: &impl Abort, alloc: Global, text: &str) -> TokVal {
    TokVal::of_text(alloc, String::from_str(alloc, text).expect(rt, "memory"))
}

/// The edit of the store.
fn edit_of(
    rt: &impl Abort,
    alloc: Global,
    classes: &ClassTable,
    store: &Store,
    change: &Change,
) -> Edit
    requires { IsIdle store.now }
    ensures there { is_some (path_shown store.now (node_of result)) ≡ true }
    ensures target { is_some (path_shown store.now (target_of result)) ≡ true }
{
    match change {
        Change::Set(node, term) => Edit::Set {
            node: node_at(rt, alloc, classes, store, node),
            tree: element(rt, alloc, classes, term),
        },
        Change::Put(term) => Edit::Put {
            node: node_at(rt, alloc, classes, store, "/"),
            part: 1,
            tree: element(rt, alloc, classes, term),
        },
        Change::Drop(node) => Edit::Drop {
            node: node_at(rt, alloc, classes, store, node),
        },
        Change::Insert(node, part, index, term) => Edit::Insert {
            node: node_at(rt, alloc, classes, store, node),
            part: *part,
            index: *index,
            tree: element(rt, alloc, classes, term),
        },
        Change::Token(node, value) => Edit::Token {
            node: node_at(rt, alloc, classes, store, node),
            part: 0,
            value: text(rt, alloc, value),
        },
        Change::Move(node, to, part, index) => Edit::Move {
            node: node_at(rt, alloc, classes, store, node),
            to: node_at(rt, alloc, classes, store, to),
            part: *part,
            index: *index,
        },
    }
}

/// The drawers of the rows.
fn drawers(rt: &impl Abort, alloc: Global, classes: &ClassTable, store: &Store) -> Vec<Loc>
    requires { IsIdle store.now }
{
    let mut drawers = Vec::new(alloc);
    for (node, part, set, text) in DRAWERS {
        let node = node_at(rt, alloc, classes, store, node);
        let drawer = Loc::drawer(node, *part, key(*set, 0), mark_of(text));
        drawers.push(drawer).expect(rt, "memory");
    }
    drawers
}

/// Whether the edit touches those of the drawers, and no others.
fn touches(rt: &impl Abort, alloc: Global, change: &Change, wanted: &[usize]) -> bool {
    let classes = classes(rt, alloc, GRAMMAR);
    let mut store = loaded(rt, alloc, &classes, TREE);
    let drawers = drawers(rt, alloc, &classes, &store);
    let edit = edit_of(rt, alloc, &classes, &store, change);
    let Ok(touched) = tried(alloc, &classes, &mut store, edit, &drawers, End::Done) else {
        panic!(rt; "the edit is refused");
    };
    for (place, is_touched) in touched.iter().enumerate() {
        if *is_touched != wanted.contains(&place) {
            return false;
        }
    }
    true
}

#[test]
fn elements_stand_under_marks(rt: HostRuntime) {
    let classes = classes(&rt, rt.alloc(), GRAMMAR);
    let store = loaded(&rt, rt.alloc(), &classes, TREE);
    for (row, (set, token, text, wanted)) in FOUND.iter().enumerate() {
        holds_at(
            &rt,
            row,
            stand_under(&store, key(*set, *token), text, wanted),
        );
    }
}

#[test]
fn edits_touch_drawers(rt: HostRuntime) {
    for (row, (change, wanted)) in TOUCHED.iter().enumerate() {
        holds_at(&rt, row, touches(&rt, rt.alloc(), change, wanted));
    }
}
