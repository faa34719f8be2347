//! The calculator sample, and the files of samples.

use at_start::{Files, Forms, Language, Source, USUAL_NODES};
use std::alloc::Global;
use std::process::Abort;

/// What stands in files.
#[derive(Drop)]
pub struct Sample<'a> {
    pub grammar: &'a [u8],
    pub tree: &'a [u8],
    pub aspects: &'a [&'a [u8]],
}

pub const GRAMMAR: &[u8] = b"Program ::= Block;
abstract Stmt;
Block : Stmt ::= Stmt*;
Decl : Stmt ::= <ID> [Init:Expr];
Print : Stmt ::= Expr;
abstract Expr;
Use : Expr ::= <ID>;
Num : Expr ::= <Value:int>;
Add : Expr ::= Left:Expr Right:Expr;
";

pub const CALCULATOR: &[u8] = b"aspect Names {
  inh lazy Decl Use.lookup(String n);
  inh Decl Block.lookup(String n);
  syn lazy Decl Block.local(String n) = (Decl) first (s : getStmtList()) { s.declares(n) };
  syn boolean Stmt.declares(String n) = false;
  eq Decl.declares(String n) = getID().equals(n);
  eq Block.getStmt(int i).lookup(String n) = local(n) != null ? local(n) : lookup(n);
  eq Program.getBlock().lookup(String n) = null;
  syn lazy Decl Use.decl() = lookup(getID());
}
aspect Values {
  syn lazy int Expr.value();
  eq Num.value() = getValue();
  eq Add.value() = getLeft().value() + getRight().value();
  eq Use.value() = decl().value();
  syn lazy int Decl.value() = hasInit() ? getInit().value() : 0;
}
";

const PROBE: &[u8] = b"aspect Probe {
  syn boolean Add.same() = getLeft() == getRight();
  syn boolean Add.alike() { return getLeft() == getLeft(); }
  syn int Program.circ() = circ();
  syn boolean Program.spin() = spin();
  syn boolean Program.c1() = false && spin();
  syn int Program.c2() = 1 / 0 + circ();
  syn int Program.c3() = circ() + 1 / 0;
  syn int Program.big() = 2147483647 + 1;
  syn String Program.join() = \"n\" + 1 / 2 + -7;
  inh lazy int Stmt.pos();
  eq Block.getStmt(int i).pos() = i;
  eq Program.getBlock().pos() = -1;
}
";

/// The calculator's aspects, and some that ask it more.
const PROBED: &[&[u8]] = &[CALCULATOR, PROBE];

/// The tree of most sessions.
pub const TREE: &str = "Program(Block([Decl(\"x\",Num(1)),Print(Add(Use(\"x\"),Num(2)))]))";

/// The calculator over that tree.
pub fn over(tree: &str) -> Sample {
    Sample {
        grammar: GRAMMAR,
        tree: tree.as_bytes(),
        aspects: PROBED,
    }
}

/// The files of a sample.
pub fn files(rt: &impl Abort, alloc: Global, sample: &Sample) -> Files {
    let mut aspects = Vec::new(alloc);
    for bytes in sample.aspects {
        let source = source(rt, alloc, "aspects", bytes);
        aspects.push(source).ok().expect(rt, "memory");
    }
    Files {
        grammar: source(rt, alloc, "grammar", sample.grammar),
        tree: source(rt, alloc, "tree", sample.tree),
        aspects,
        nodes: USUAL_NODES,
        language: Language::Profile(Forms::NONE),
        index: false,
    }
}

/// The file of that name.
fn source(rt: &impl Abort, alloc: Global, name: &str, bytes: &[u8]) -> Source {
    Source {
        name: String::from_str(alloc, name).expect(rt, "memory"),
        bytes: Vec::from_slice(alloc, bytes).expect(rt, "memory"),
    }
}
