//! The laws over the whole: each is the contract of a function that does nothing.

ghost use Rattle.std.specs.Prelude.{◌≡◌, ℕ, false, List, [], Option, None, Some, Ok};
ghost use Rattle.at_jrag.specs.Syntax.{Aspect};
ghost use Rattle.at_model.specs.Classes.{Classes};
ghost use Rattle.at_model.specs.Declarations.{Declarations, classes_of, first_fault};
ghost use Rattle.at_model.specs.Effects.{PostNothing};
ghost use Rattle.at_model.specs.Machine.{State};
ghost use Rattle.at_model.specs.Rules.{Rules};
ghost use Rattle.at_rules.specs.Circular.{HasNoneCircular};
ghost use Rattle.at_engine.specs.declared.stream.desk.Report.{Report};
ghost use Rattle.at_start.specs.AspectFiles.{reads_circular};
ghost use Rattle.at_start.specs.Constants.{planted_classes};
ghost use Rattle.at_start.specs.ConstantFaults.{constants_fault};
ghost use Rattle.at_start.specs.Overloading.{told_apart, HaveNoneOverloaded};
ghost use Rattle.at_start.specs.Redeclaring.{read_below, read_in};
ghost use Rattle.at_start.specs.Spreading.{spread, HaveNoneEverywhere};
ghost use Rattle.at_start.specs.Starts.{Starts};
ghost use Rattle.at_start.specs.Whole.{Answers, IsWithinMemory, MeansOutput};
ghost use Rattle.at_start.specs.declared.files.Files.{Files};
ghost use Rattle.at_start.specs.declared.language.Language.TheVariants.{JastAdd};

/// From the bytes of the files and of the lines to the bytes written: where all bytes of the lines are known, and those that
/// were written, a run that came to its end has written the output that the files mean for them, and nothing else. Where its
/// report counts no want of memory nothing of it was told for that.
pub fn whole()
    ensures { (files : Files) (slice : ℕ) (report : Report) (input : List ℕ) (left after : Option (List ℕ))
        → Answers files slice (Ok report) (Some input) left (Some []) after
        → (output : List ℕ) × (after ≡ Some output) × (m : MeansOutput files slice input output)
        × (report.memory ≡ 0 → IsWithinMemory m.told) }
{}

/// Where the form isn't read in the language no attribute of the rules that files give is circular.
pub fn none_circular()
    ensures { (files : Files) (rules : Rules) (state : State) → reads_circular files.language ≡ false → Starts files rules state
        → HasNoneCircular rules }
{}

/// Where no constant is declared, and no component stands between slashes, none is refused, and the classes are those that the grammar
/// declares.
pub fn none_constant()
    ensures { (ds : Declarations) → first_fault ds ≡ None → (constants_fault [] ds [] ≡ None) × (planted_classes [] ds [] ≡ classes_of ds) }
{}

/// Where no attribute is declared for ASTNode, aspects are read as if nothing ever could be.
pub fn none_everywhere()
    ensures { (classes : Classes) (files : List (List Aspect)) → HaveNoneEverywhere files
        → read_in JastAdd classes files ≡ read_below classes (told_apart classes files) }
{}

/// Where no attribute is overloaded, aspects are read as if none ever could be.
pub fn none_overloaded()
    ensures { (classes : Classes) (files : List (List Aspect)) → HaveNoneOverloaded classes files
        → read_in JastAdd classes files ≡ read_below classes (spread classes files) }
{}

/// Any two outputs that files mean for the same bytes are equal, where no line posts a question and nothing is told for want of
/// memory, however many turns may follow each line.
pub fn one_output()
    ensures { (files : Files) (slice other_slice : ℕ) (input one other : List ℕ)
        (a : MeansOutput files slice input one) (b : MeansOutput files other_slice input other)
        → PostNothing input → IsWithinMemory a.told → IsWithinMemory b.told → one ≡ other }
{}
