//! Laws of searches: rules in which some folds are searches mean the same.

ghost use Rattle.std.specs.Prelude.{Bool, List, Option, ℕ};
ghost use Rattle.at_model.specs.Asking.{IsWellFormed};
ghost use Rattle.at_model.specs.Classes.{AreSound};
ghost use Rattle.at_model.specs.Machine.{Given, Outputs, Runs, Serves, State, Turns};
ghost use Rattle.at_model.specs.Meaning.{Answer, content};
ghost use Rattle.at_model.specs.Paths.{Node};
ghost use Rattle.at_model.specs.Replies.{Reply};
ghost use Rattle.at_model.specs.Rules.{Rules};
ghost use Rattle.at_model.specs.Run.{Instance};
ghost use Rattle.at_model.specs.Trees.{Tree};
ghost use Rattle.at_model.specs.WellFormed.{AreWellFormed, IsTreeSound};
ghost use Rattle.at_model.specs.of_fixpoints.Circles.{Answers};
ghost use Rattle.at_model.specs.of_fixpoints.Evaluations.{forms};
ghost use Rattle.at_seek.specs.Sought.{IsSought};
ghost use Rattle.at_seek.specs.Standing.{Stands};

/// Rules stay well formed.
pub fn what_is_sought_is_well_formed()
    ensures { (rules also : Rules) → IsSought rules also → AreWellFormed rules → AreWellFormed also }
{}

/// Over a sound tree each question that is well formed has just the answers that it had: values, faults and circles.
pub fn what_is_sought_is_answered_the_same()
    ensures to { (rules also : Rules) → IsSought rules also → AreWellFormed rules → (t : Tree) → IsTreeSound rules.classes t
        → (q : Instance Node) (a : Answer Node) → IsWellFormed rules t q → Answers (content t) (forms rules) q a → Answers (content t) (forms also) q a }
    ensures from { (rules also : Rules) → IsSought rules also → AreWellFormed rules → (t : Tree) → IsTreeSound rules.classes t
        → (q : Instance Node) (a : Answer Node) → IsWellFormed rules t q → Answers (content t) (forms also) q a → Answers (content t) (forms rules) q a }
{}

/// What the machine tells of a state that stands, by the one rules it tells by the other ones, too; and the state behind it stands.
pub fn what_the_machine_tells_stays()
    ensures line { (rules also : Rules) → IsSought rules also → AreWellFormed rules → AreSound rules.classes
        → (old : State) (line : List ℕ) (new : State) (said : Bool × Reply) → Stands rules.classes old
        → Serves also old line new said → Serves rules old line new said × Stands rules.classes new }
    ensures turn { (rules also : Rules) → IsSought rules also → AreWellFormed rules → AreSound rules.classes
        → (old : State) (number : ℕ) (new : State) (said : Option (Bool × Reply)) → Stands rules.classes old
        → Turns also old number new said → Turns rules old number new said × Stands rules.classes new }
    ensures turns { (rules also : Rules) → IsSought rules also → AreWellFormed rules → AreSound rules.classes
        → (limit : ℕ) (old : State) (told : List (Bool × Reply)) (new : State) → Stands rules.classes old
        → Given also limit old told new → Given rules limit old told new × Stands rules.classes new }
    ensures lines { (rules also : Rules) → IsSought rules also → AreWellFormed rules → AreSound rules.classes
        → (slice : ℕ) (old : State) (ls : List (List ℕ)) (told : List (Bool × Reply)) (new : State) → Stands rules.classes old
        → Runs also slice old ls told new → Runs rules slice old ls told new × Stands rules.classes new }
    ensures output { (rules also : Rules) → IsSought rules also → AreWellFormed rules → AreSound rules.classes
        → (slice : ℕ) (old : State) (bytes : List ℕ) (told : List (Bool × Reply)) (new : State) → Stands rules.classes old
        → Outputs also slice old bytes told new → Outputs rules slice old bytes told new × Stands rules.classes new }
{}
