//! The engine that files make: grammar, aspects and tree, looked at in this order, or the first fault; and the whole, from the
//! bytes of the files and of lines to the bytes that are written.
//!
//! **Its specs:** `Whole` is the theorem, to be read first; `Starts` is what files make, with a page for each kind of file
//! (`GrammarFiles`, `AspectFiles`, `TreeFiles`) over their bytes (`Files`); `Lists` are the short names of lists, which aspects may
//! have, `Overloading` is how attributes of one name are told apart (`Pairs` says it of the code's table, `SampleOverloads` has a case),
//! `Spreading` is what is read of attributes that are declared for ASTNode (at the root by `NullCalls`), and `Redeclaring` of those that
//! are declared again below; `Slashes` are the components that a grammar marks, to be filled by constants; `Constants` are the components in
//! which constants stand (`Planted` says what becomes of the classes), `Unmade` says why nothing is made of a constant's term, and
//! `ConstantFaults` for which constant, or for want of which, files are refused; `StartFaults` and `Codes` are what is printed of a file
//! that is refused. `ReadGrammar`, `FilesView`, `PlacedView` and `SlashesView` say what the code's values hold and stand for.
//!
//! **Where to begin:** `answer` in `serving.rt` is the whole, and `start`, below, its first half; `grammar.rt`, `aspects.rt`
//! and `tree.rt` have what each kind of file gives, `slashes.rt`, `lists.rt`, `overloaded.rt`, `everywhere.rt`, `redeclared.rt` and
//! `constants.rt` what JastAdd's own language has beside its reader, `fault.rt` why there is no engine.
//!
//! **What it keeps true:** an engine that is made is sound, keeps nothing yet, and has just the classes, rules and
//! tree of the files, as they are read in the language that these name.
#![tactic(auto)]

ghost use Rattle.std.specs.Prelude.{◌≡◌, IfOk, IfErr};
ghost use Rattle.at_cache.specs.Keeping.{recorded_by};
ghost use Rattle.at_engine.specs.Engines.{rules_of, slice_of, state_of, IsSound, KeepsNothing};
ghost use Rattle.at_engine.specs.Keeping.{IsSpare, work_of};
ghost use Rattle.at_engine.specs.Making.{made_of};
ghost use Rattle.at_start.specs.Starts.{AreSameButTree, IsReady, IsStartFault, IsStarted};

mod aspects;
mod code;
mod constants;
mod everywhere;
mod fault;
mod files;
mod grammar;
mod language;
pub mod laws;
mod lists;
mod null_calls;
mod overloaded;
pub mod overloaded_cases;
mod redeclared;
mod searches;
mod serving;
mod slashes;
mod tree;

use aspects::rules_of;
use at_cache::KeepRecorded;
use at_engine::Engine;
use at_evict::Bounded;
pub use at_jrag::Forms;
use at_store::LoadFault;
pub use at_store::USUAL_NODES;
use at_text::fault::Failure;
pub use code::Code;
pub use fault::StartFault;
use fault::{of_file, of_tree};
pub use files::{Files, MAX_FILE, Source, tree_bytes};
use grammar::declared_by;
pub use language::Language;
use searches::served;
pub use serving::{Answered, answer};
use std::alloc::Global;
use tree::tree_of;

/// The engine that the files make: they are looked at in the order grammar, aspects, tree. One turn follows each line. The bytes
/// of the tree are given back once it is read, before its nodes are numbered; all else of the files stays as it is.
///
/// # Errors
///
/// `Refused` for the first file that is refused, `Memory` for want of memory.
pub fn start(alloc: Global, files: &mut Files) -> Result<Engine<KeepRecorded>, StartFault>
    ensures started { IfOk result (λ e. IsStarted files.old (rules_of e) (state_of e)) }
    ensures ready { IfOk result IsReady }
    ensures spare { IfOk result (IsSpare recorded_by) }
    ensures work { IfOk result (λ e. work_of e ≡ 0) }
    ensures made { IfOk result (λ e. made_of e ≡ 0) }
    ensures slice { IfOk result (λ e. slice_of e ≡ 1) }
    ensures refused { IfErr result (IsStartFault files.old) }
    ensures rest { AreSameButTree files.old files.new }
{
    start_with(alloc, files, KeepRecorded::new(alloc))
}

/// The engine that the files make over an empty keeper. The bytes of the tree are given back, as by `start`.
///
/// # Errors
///
/// Those of `start`.
pub fn start_with<K: Bounded>(
    alloc: Global,
    files: &mut Files,
    keeper: K,
) -> Result<Engine<K>, StartFault>
    requires { KeepsNothing K.contents K.memories keeper }
    ensures started { IfOk result (λ e. IsStarted files.old (rules_of e) (state_of e)) }
    ensures ready { IfOk result (IsSound K.contents K.memories) }
    ensures spare { IfOk result (IsSpare K.contents) }
    ensures work { IfOk result (λ e. work_of e ≡ 0) }
    ensures made { IfOk result (λ e. made_of e ≡ 0) }
    ensures slice { IfOk result (λ e. slice_of e ≡ 1) }
    ensures refused { IfErr result (IsStartFault files.old) }
    ensures rest { AreSameButTree files.old files.new }
{
    let declared = match declared_by(alloc, files.language, &files.grammar.bytes) {
        Ok(declared) => declared,
        Err(fault) => return Err(of_file(0, fault)),
    };
    let rules = rules_of(alloc, declared, files.language, &files.aspects)?;
    let rules = served(alloc, rules, files.index);
    let file = files.aspects.len() + 1;
    let tree = match tree_of(alloc, rules.classes(), files.nodes, &files.tree.bytes) {
        Ok(tree) => tree,
        Err(fault) => return Err(of_tree(file, fault)),
    };
    // Beside the nodes that come into the store this would stand to no use. A byte stays: where a great block is given back whole,
    // the C library takes later ones from the heap, where they are copied as they grow.
    files.tree.bytes.truncate(1);
    files.tree.bytes.shrink_to_fit();
    match Engine::new(alloc, rules, tree, keeper, files.nodes as usize) {
        Ok(engine) => Ok(engine),
        Err(LoadFault::Fit) => Err(of_tree(file, Failure::For(Code::TreeFit))),
        Err(LoadFault::Limit) => Err(of_tree(file, Failure::For(Code::TreeLimit))),
        Err(LoadFault::Memory) => Err(StartFault::Memory),
    }
}
