//! Questions: the answer that the equations give for an instance, by demands, none of which is of an instance under way.
//!
//! **Its specs**, in order: `Known` is what is known meanwhile, `UnderWay` how far an evaluation has come; `Covering` says how the locations of
//! an entry come together, `Only` that nothing else does, `Keeping` what becomes of a find that is to be kept, and which entries without a
//! value come before; `Worth` what is worth keeping for a question, and how much comes, `Advancing` what an evaluation comes to and `Answered`
//! a question, `Touched` and `Spared` what an edit leaves, `Called` the same by paths. `State` is what questions change, `InTurns` what turns
//! put, and `Went` how states follow each other over questions, turns and edits. Of questions in turns, `Turns` shows one in the words of `at_model`, `Attempts` is what one try comes to,
//! `ChainSteps` what that does to the chain, `KeptTrials` the trials that stay while turns follow each other. `Answerable` says once on which
//! conditions all of that is asked for. Where attributes are circular a question goes level by level: `Levels` says what stands between turns,
//! `Forming` and `Tries` what a try comes to, `Groups` what becomes of instances that are solved together, `Searches` how a search goes on
//! between two tries. When what is kept is right and spare, and what can be kept again is right, `at_evaluate` says.
//!
//! **Where to begin:** `Demand::answer` in `demand.rt`: a question is answered in one go by `at_evaluate`, or where that gives up by all turns
//! of a question, which is `question.rt` and `demand/turning.rt`, with evaluations of `evaluation.rt`; the last instance is evaluated in one go
//! before its turn, where it is one of those that mostly can be (`caution.rt`), or where the chain is long. It holds nothing of rules or tree
//! between turns. Once an equation ends by a formula its level is a search: `demand/searching.rt` goes on with it over what `at_search` says,
//! and `demand/solving.rt` keeps what is solved. What many kept values rest on is gathered in `gathering.rt` and stands once by
//! `demand/shared.rt`.
//!
//! **What it keeps true:** what is kept is right, and spare where it was; `laws.rt` and `turning_laws.rt` say that it stays so over questions
//! and edits.
#![tactic(auto)]

mod answer;
mod caution;
mod demand;
mod evaluation;
mod formation;
mod gathering;
mod knowing;
mod laws;
mod locations;
mod question;
mod sharing;
mod trials;
mod trying;
mod turning_laws;

pub use answer::Answer;
pub use demand::Demand;
pub use laws::{
    a_question_adds_what_is_worth_keeping, an_edit_leaves_what_it_does_not_touch,
    by_equations_where_none_is_circular, what_can_be_kept_again_stays_right,
    what_is_kept_spare_is_well_kept, what_is_kept_stays_right, what_is_kept_stays_spare,
    what_stays_traced_is_right,
};
pub use question::Question;
pub use turning_laws::{
    a_question_has_few_turns, a_question_stands_while_more_is_kept, a_search_goes_on_with_reason,
    a_search_has_few_turns, what_comes_has_a_reason, what_is_kept_again_is_demanded,
    what_is_looked_at_is_decided, what_turns_let_come_was_met,
    without_traces_nothing_is_kept_again,
};
