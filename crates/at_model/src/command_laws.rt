//! Laws of single commands: each is the contract of a function that does nothing.

ghost use Rattle.std.specs.Prelude.{◌≡◌, ℕ, ◌+◌, ◌++◌, ◌∷◌, [], Bool, false, true, List, None, Ok, Option, Some, map};
ghost use Rattle.at_model.specs.Classes.{AreSound, Classes};
ghost use Rattle.at_model.specs.Trees.{Tree, conforms};
ghost use Rattle.at_model.specs.Terms.{IsTerm, term_of};
ghost use Rattle.at_model.specs.Rules.{Rules};
ghost use Rattle.at_model.specs.Edits.{Edit, edited, is_within_limits};
ghost use Rattle.at_model.specs.Lines.{Argument, Line, Mark, Place, Post, Spells, Unmark, Where};
ghost use Rattle.at_model.specs.Replies.{At, Done, Form, Opened, Reply, Shows};
ghost use Rattle.at_model.specs.Paths.{ArePartsApart, IsPath, Node, Path, node_at, path_text};
ghost use Rattle.at_model.specs.Run.{Instance};
ghost use Rattle.at_model.specs.Meaning.{Answer};
ghost use Rattle.at_model.specs.Support.{IsInstanceThere};
ghost use Rattle.at_model.specs.Machine.{Asks, AnswersIn, Given, Handles, IsSound, Posted, Serves, State, Step, Turns, Waits, after, carried_marks, carried_posted, done_reply, is_edit, line_of, marked, marks_named, marks_used, node_named, numbered, seen_by, verdict, without};
ghost use Rattle.at_model.specs.Enduring.{AreTokens, IsOrderly};
ghost use Rattle.at_model.specs.Asking.{IsWellFormed};
ghost use Rattle.at_model.specs.Effects.{IsEditOf, is_about_mark, is_marking, is_post, is_question};

/// Where each component is the first one of its name in its class, the path that is told of a mark leads to the marked node; with
/// sound classes so does whatever path is read of its text.
pub fn the_path_of_a_mark_leads_back()
    ensures path { (rules : Rules) (old : State) (l : Line) (new : State) (reply : Reply) (name : List ℕ) (path : Path)
        → ArePartsApart rules.classes → IsSound rules.classes old → l.command ≡ Where name
        → Step rules old l new reply → reply.form ≡ Shows (At path)
        → (n : Node) × (marked old.marks l.session name ≡ Some n) × (node_at rules.classes old.tree path ≡ Some n) }
    ensures text { (rules : Rules) (old : State) (l : Line) (new : State) (reply : Reply) (name : List ℕ) (path : Path)
        → AreSound rules.classes → ArePartsApart rules.classes → IsSound rules.classes old → l.command ≡ Where name
        → Step rules old l new reply → reply.form ≡ Shows (At path)
        → (q : Path) → IsPath q → path_text q ≡ path_text path → node_at rules.classes old.tree q ≡ marked old.marks l.session name }
{}

/// An edit that is accepted is that of its command, and leaves the marks where their nodes are, those of open questions, too; what
/// was done for these is dropped.
pub fn an_accepted_edit_is_that_of_its_command()
    ensures { (rules : Rules) (old : State) (l : Line) (new : State) (reply : Reply) (version : ℕ) → is_edit l.command ≡ true
        → Step rules old l new reply → reply.form ≡ Done version
        → (e : Edit) × IsEditOf rules.classes old l.session l.command e × (edited rules.classes old.tree e ≡ Ok new.tree)
        × (new.marks ≡ carried_marks e old.marks)
        × (new.posted ≡ map (carried_posted e) old.posted) }
{}

/// No other command changes a mark of another session or of another name, and a question, `show`, `where`
/// and `version` change nothing; nor does a `wait` that is refused.
pub fn other_commands_change_their_mark_alone()
    ensures marks { (rules : Rules) (old : State) (l : Line) (new : State) (reply : Reply) → is_edit l.command ≡ false
        → Step rules old l new reply
        → (session : ℕ) (name : List ℕ) → is_about_mark l session name ≡ false → marked new.marks session name ≡ marked old.marks session name }
    ensures nothing { (rules : Rules) (old : State) (l : Line) (new : State) (reply : Reply) → is_edit l.command ≡ false
        → is_marking l.command ≡ false → is_post l.command ≡ false
        → Step rules old l new reply → new ≡ old }
{}

/// A mark that is made leads to the node that its place names, and one that is forgotten is gone.
pub fn marks_are_made_and_forgotten()
    ensures made { (rules : Rules) (old : State) (l : Line) (new : State) (reply : Reply) (version : ℕ) (name : List ℕ) (place : Place)
        → l.command ≡ Mark name place
        → Step rules old l new reply → reply.form ≡ Done version → marked new.marks l.session name ≡ node_named rules.classes old l.session place }
    ensures forgotten { (rules : Rules) (old : State) (l : Line) (new : State) (reply : Reply) (version : ℕ) (name : List ℕ) → l.command ≡ Unmark name
        → Step rules old l new reply → reply.form ≡ Done version → marked new.marks l.session name ≡ None }
{}

/// A question that is posted gets the next number, sees the session's marks as they are, and is one more that is open; nothing else
/// changes.
pub fn a_posted_question_is_open()
    ensures { (rules : Rules) (old : State) (l : Line) (new : State) (reply : Reply) (number : ℕ) (place : Place)
        (attribute : List ℕ) (arguments : List Argument)
        → l.command ≡ Post place attribute arguments → Step rules old l new reply → reply.form ≡ Opened number
        → (number ≡ old.posts + 1) × (new ≡ record old {
          posts = old.posts + 1;
          posted = old.posted ++ record {
            number = old.posts + 1;
            session = l.session;
            place = place;
            attribute = attribute;
            arguments = arguments;
            marks = marks_named old.marks l.session (marks_used (Post place attribute arguments));
            turns = 0;
          } ∷ [];
        }) }
{}

/// Every line has a reply, but a question that has no answer; what is no line has one, and so has each line
/// for which memory ran out. A line that waits has one where its question has an answer, and so has a turn.
pub fn every_line_has_a_reply()
    ensures line { (rules : Rules) (old : State) (bytes : List ℕ) (l : Line) → Spells bytes l
        → ((q : Instance Node) → verdict rules old l ≡ Asks q → (a : Answer Node) × AnswersIn rules old.tree q a)
        → ((number : ℕ) → verdict rules old l ≡ Waits number → ⊥)
        → (reply : Reply) × Handles rules old bytes (after old (verdict rules old l)) (false, reply) }
    ensures waits { (rules : Rules) (old : State) (bytes : List ℕ) (l : Line) (number : ℕ) → Spells bytes l → verdict rules old l ≡ Waits number
        → ((q : Posted) → numbered old number ≡ Some q → (i : Instance Node) → verdict rules (seen_by q old) (line_of q) ≡ Asks i
        → (a : Answer Node) × AnswersIn rules old.tree i a)
        → (reply : Reply) × Handles rules old bytes (without number old) (false, reply) }
    ensures turn { (rules : Rules) (old : State) (number : ℕ) (q : Posted) → numbered old number ≡ Some q
        → ((i : Instance Node) → verdict rules (seen_by q old) (line_of q) ≡ Asks i → (a : Answer Node) × AnswersIn rules old.tree i a)
        → (form : Form) × Turns rules old number (without number old) (Some (false, done_reply old q form)) }
    ensures asked { (rules : Rules) (old : State) (l : Line) (q : Instance Node) → verdict rules old l ≡ Asks q → is_question l.command ≡ true }
    ensures no_line { (rules : Rules) (old : State) (bytes : List ℕ) → ((l : Line) → Spells bytes l → ⊥)
        → (reply : Reply) × Handles rules old bytes old (false, reply) }
    ensures memory { (rules : Rules) (old : State) (bytes : List ℕ) → (reply : Reply) × Serves rules old bytes old (true, reply) }
{}

/// What a line asks is well formed: a node of the tree, an attribute that its class has, and arguments that fit
/// the parameters; and all nodes in it are nodes of the tree.
pub fn what_is_asked_is_well_formed()
    ensures asked { (rules : Rules) (s : State) (l : Line) (q : Instance Node) → verdict rules s l ≡ Asks q → IsWellFormed rules s.tree q }
    ensures there { (rules : Rules) (t : Tree) (i : Instance Node) → IsWellFormed rules t i → IsInstanceThere t i }
{}

/// Where each session's marks are apart and few, its open questions few, their numbers in order, and the version one that there can
/// be, it is so after each line and each turn.
pub fn an_orderly_state_stays_orderly()
    ensures line { (rules : Rules) (old : State) (bytes : List ℕ) (new : State) (said : Bool × Reply)
        → IsOrderly old → Serves rules old bytes new said → IsOrderly new }
    ensures turn { (rules : Rules) (old : State) (number : ℕ) (new : State) (said : Option (Bool × Reply))
        → IsOrderly old → Turns rules old number new said → IsOrderly new }
    ensures turns { (rules : Rules) (limit : ℕ) (old : State) (told : List (Bool × Reply)) (new : State)
        → IsOrderly old → Given rules limit old told new → IsOrderly new }
{}

/// Where all tokens of the tree are ones that can be written, they are so after each line.
pub fn tokens_stay_tokens()
    ensures { (rules : Rules) → AreSound rules.classes → (old : State) (bytes : List ℕ) (new : State) (said : Bool × Reply)
        → AreTokens old.tree → Serves rules old bytes new said → AreTokens new.tree }
{}

/// A tree that conforms to a class of sound classes, is within the limits and has tokens that can be written
/// has a term that is one: `show` tells nothing else.
pub fn a_sound_tree_is_written_as_a_term()
    ensures { (classes : Classes) → AreSound classes → (t : Tree) (b : ℕ) → conforms classes t b ≡ true → is_within_limits t ≡ true
        → AreTokens t → IsTerm (term_of classes t) }
{}
