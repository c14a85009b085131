// What a call's answer makes of the walk, and what it says. A refused call leaves the walk as it was.
#![tactic(auto)]

ghost use Rattle.std.specs.Prelude.{◌≡◌};
ghost use Rattle.calls.specs.Answers.{number_of, added_answer, changed_answer, proved_answer, assessed_answer, state_after, state_added, state_changed, state_proved, assigned_after};
ghost use Rattle.calls.specs.Outcome.{nothing};
ghost use Rattle.walk_replies.specs.Heard.{said_answer};

use kinds::{Added, Assessed, Changed, Proved, Refusal, State};
use walk_kinds::{Said, Told, Walk};

pub fn plain(walk: &mut Walk, answer: Result<State, Refusal>) -> Told
    ensures number { result.number ≡ number_of answer }
    ensures said { said_answer result.said ≡ nothing }
    ensures walk { walk.new ≡ record walk.old { state = state_after walk.old.state answer } }
{
    match answer {
        Err(refusal) => Told::from(refusal),
        Ok(state) => {
            walk.state = state;
            Told::from(Said::Nothing)
        }
    }
}

pub fn added(walk: &mut Walk, answer: Result<Added, Refusal>) -> Told
    ensures number { result.number ≡ number_of answer }
    ensures said { said_answer result.said ≡ added_answer answer }
    ensures walk { walk.new ≡ record walk.old { state = state_added walk.old.state answer } }
{
    match answer {
        Err(refusal) => Told::from(refusal),
        Ok(added) => {
            walk.state = added.state;
            Told::from(Said::Ref(added.cref.0))
        }
    }
}

pub fn changed(walk: &mut Walk, answer: Result<Changed, Refusal>) -> Told
    ensures number { result.number ≡ number_of answer }
    ensures said { said_answer result.said ≡ changed_answer answer }
    ensures walk { walk.new ≡ record walk.old { state = state_changed walk.old.state answer } }
{
    match answer {
        Err(refusal) => Told::from(refusal),
        Ok(changed) => {
            walk.state = changed.state;
            Told::from(Said::Rebuild(changed.rebuild))
        }
    }
}

pub fn proved(walk: &mut Walk, answer: Result<Proved, Refusal>) -> Told
    ensures number { result.number ≡ number_of answer }
    ensures said { said_answer result.said ≡ proved_answer answer }
    ensures walk { walk.new ≡ record walk.old { state = state_proved walk.old.state answer; assigned = assigned_after walk.old.assigned answer } }
{
    match answer {
        Err(refusal) => Told::from(refusal),
        Ok(proved) => {
            walk.state = proved.state;
            walk.assigned = proved.assigned;
            Told::from(Said::New(proved.new_unit))
        }
    }
}

pub fn assessed(answer: Result<Assessed, Refusal>) -> Told
    ensures number { result.number ≡ number_of answer }
    ensures said { said_answer result.said ≡ assessed_answer answer }
{
    match answer {
        Err(refusal) => Told::from(refusal),
        Ok(assessed) => Told::from(Said::Assessed(assessed.tier, assessed.glue)),
    }
}
