//! A store by itself: an edit that is done and one that is given up, what they touch, and the numbers of nodes behind them. What becomes
//! of tree and numbers where an edit is refused is told of the program (`tools/of_the_program/test_refused.py`).

ghost use Rattle.std.specs.Prelude.{◌≡◌, is_some, true};
ghost use Rattle.at_model.specs.Trees.{conforms};
ghost use Rattle.at_store.specs.Refusing.{node_of, target_of};
ghost use Rattle.at_store.specs.Shown.{IsIdle, path as path_shown, tree as tree_shown};

use crate::samples::{GRAMMAR, TREE};
use at_class::{ClassTable, are_named};
use at_grammar::parse_ast;
use at_store::{Edit, Loc, Node, Ready, Refusal, Store, USUAL_NODES};
use at_tree::path::{read_path, write_path};
use at_tree::tree::read_tree;
use std::alloc::{AllocError, Global};
use std::process::Abort;
use std::str::from_utf8;

/// More than the nodes of the tree.
const NUMBERS: u32 = 12;

/// How an edit that is accepted ends.
#[derive(Clone, Copy)]
pub enum End {
    Done,
    GivenUp,
}

/// The classes of a grammar.
pub fn classes(rt: &impl Abort, alloc: Global, grammar: &[u8]) -> ClassTable {
    let text = from_utf8(grammar).expect(rt, "a text");
    let Ok(grammar) = parse_ast(alloc, text) else {
        panic!(rt; "no grammar");
    };
    assert!(rt; are_named(&grammar), "a class without a name");
    let Ok(classes) = ClassTable::build(alloc, &grammar) else {
        panic!(rt; "no classes");
    };
    classes
}

/// The store of a tree.
pub fn loaded(rt: &impl Abort, alloc: Global, classes: &ClassTable, tree: &str) -> Store
    ensures idle { IsIdle result }
    ensures conforming { conforms classes.now (tree_shown result) 0 ≡ true }
{
    let Ok(tree) = read_tree(alloc, classes, tree, classes.start()) else {
        panic!(rt; "no tree");
    };
    Store::load(alloc, classes, tree, USUAL_NODES as usize).expect(rt, "a store")
}

/// The node of that path.
pub fn node_at(
    rt: &impl Abort,
    alloc: Global,
    classes: &ClassTable,
    store: &Store,
    text: &str,
) -> Node
    requires idle { IsIdle store.now }
    ensures { is_some (path_shown store.now result) ≡ true }
{
    let Ok(path) = read_path(alloc, text) else {
        panic!(rt; "no path");
    };
    let node = store.resolve(classes, store.root(), path.steps.as_slice());
    let node = node.expect(rt, "a node");
    assert!(rt; store.live(node));
    node
}

/// The term of the root, and each node's number with its path.
fn shown(rt: &impl Abort, alloc: Global, classes: &ClassTable, store: &Store) -> Vec<u8>
    requires { IsIdle store.now }
{
    let mut text = Vec::new(alloc);
    store
        .write_term(classes, store.root(), &mut text)
        .expect(rt, "memory");
    for number in 0..NUMBERS {
        if store.live(Node::new(number)) {
            text.push(number as u8).expect(rt, "memory");
            let path = store
                .path_of(alloc, classes, Node::new(number))
                .expect(rt, "memory");
            write_path(&path, &mut text).expect(rt, "memory");
        }
    }
    text
}

/// Which of the locations the edit touches.
fn touched(
    alloc: Global,
    store: &Store,
    ready: &Ready,
    locations: &[Loc],
) -> Result<Vec<bool>, AllocError> {
    let mut all = Vec::new(alloc);
    for location in locations {
        all.push(store.touches(ready, *location))?;
    }
    Ok(all)
}

/// Which of the locations the edit touches, before it is done or given up; or why it is refused.
pub fn tried(
    alloc: Global,
    classes: &ClassTable,
    store: &mut Store,
    edit: Edit,
    locations: &[Loc],
    end: End,
) -> Result<Vec<bool>, Refusal>
    requires idle { IsIdle store.old }
    requires conforming { conforms classes.now (tree_shown store.old) 0 ≡ true }
    requires there { is_some (path_shown store.old (node_of edit)) ≡ true }
    requires target { is_some (path_shown store.old (target_of edit)) ≡ true }
    ensures idle { IsIdle store.new }
    ensures conforming { conforms classes.now (tree_shown store.new) 0 ≡ true }
{
    let ready = store.check(alloc, classes, edit)?;
    let all = touched(alloc, store, &ready, locations);
    match end {
        End::Done => store.commit(ready),
        End::GivenUp => store.cancel(ready),
    }
    all.or(Err(Refusal::Memory))
}

/// A drop of the first statement: what it touched, and what the store shows before and behind it.
#[derive(Drop)]
struct Dropped {
    touched: Vec<bool>,
    before: Vec<u8>,
    behind: Vec<u8>,
    /// The number of the other statement, and the one of the first statement behind the drop.
    other: Node,
    first: Node,
}

/// Drops the declaration, or gives that up. Where it is dropped, the children of the block, the indexes of its elements, and all of
/// the declaration and its number is touched; and the other statement's class and parent aren't.
fn drop_declaration(rt: &impl Abort, alloc: Global, end: End) -> Dropped {
    let classes = classes(rt, alloc, GRAMMAR);
    let mut store = loaded(rt, alloc, &classes, TREE);
    let before = shown(rt, alloc, &classes, &store);
    let block = node_at(rt, alloc, &classes, &store, "/Block");
    let number = node_at(rt, alloc, &classes, &store, "/Block/Stmt:0/Init");
    let other = node_at(rt, alloc, &classes, &store, "/Block/Stmt:1");
    let node = node_at(rt, alloc, &classes, &store, "/Block/Stmt:0");
    let locations = [
        Loc::Slot(block, 0),
        Loc::Idx(node),
        Loc::Idx(other),
        Loc::Is(node),
        Loc::Up(node),
        Loc::Tok(node, 0),
        Loc::Slot(node, 1),
        Loc::Is(number),
        Loc::Up(number),
        Loc::Tok(number, 0),
        Loc::Is(other),
        Loc::Up(other),
    ];
    let Ok(touched) = tried(
        alloc,
        &classes,
        &mut store,
        Edit::Drop { node },
        &locations,
        end,
    ) else {
        panic!(rt; "the drop is refused");
    };
    let behind = shown(rt, alloc, &classes, &store);
    let first = node_at(rt, alloc, &classes, &store, "/Block/Stmt:0");
    Dropped {
        touched,
        before,
        behind,
        other,
        first,
    }
}

/// What a drop of the declaration touches of these locations.
const TOUCHED: &[bool] = &[
    true, true, true, true, true, true, true, true, true, true, false, false,
];

#[test]
fn a_drop_leaves_the_numbers_of_the_others(rt: HostRuntime) {
    let done = drop_declaration(&rt, rt.alloc(), End::Done);
    assert!(rt; done.touched.as_slice() == TOUCHED);
    assert!(rt; done.first == done.other);
    assert!(rt;
        done.behind
            .starts_with(b"Program(Block([Print(Add(Use(\"x\"),Num(2)))]))")
    );
    let given_up = drop_declaration(&rt, rt.alloc(), End::GivenUp);
    assert!(rt; given_up.touched.as_slice() == TOUCHED);
    assert!(rt; given_up.before == given_up.behind);
}
