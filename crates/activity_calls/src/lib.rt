// Activity: activity.rs, and assess.rs where a clause is bumped. Each call judges what it is lent, then looks for its own refusal, then takes its step.
// The store's buffers are slices beside the state, each a parameter: "a state by value, slices beside it" (docs/01-scope.md, What must change shape).
#![tactic(auto)]

ghost use Rattle.std.specs.Prelude.{◌≡◌};
ghost use Rattle.kinds.specs.Lent.{lent_five, levels_only, no_host};
ghost use Rattle.calls.specs.Call.{bump, decay};
ghost use Rattle.calls.specs.Outcome.{done, nothing};
ghost use Rattle.calls.specs.Answers.{number_of, state_after};

use kinds::{ClauseRef, Refusal, State};

// `bump_clause`.
pub fn bump_clause(
    s: State,
    words: &mut [u32],
    clauses: &mut [u32],
    irred: &mut [u32],
    core: &mut [u32],
    mid: &mut [u32],
    local: &mut [u32],
    levels: &[u32],
    cref: ClauseRef,
) -> Result<State, Refusal>
    ensures { record { number = number_of result; answer = nothing; then = lent_five (state_after s result) words.new clauses.new irred.new core.new mid.new local.new (levels_only levels.now) }
        ≡ done (bump cref.0) (lent_five s words.old clauses.old irred.old core.old mid.old local.old (levels_only levels.now)) }
{
    judge::judge_five_levels(s, words, clauses, irred, core, mid, local, levels)?;
    activity_steps::refuse_bump(s, words, clauses, irred, core, mid, local, levels, cref)?;
    let bumped = activity_steps::bump(s, words, clauses, irred, core, mid, local, levels, cref);
    Ok(bumped)
}

// Decay, refused for 1 and 2 alone (`decay-allowed`).
pub fn decay(
    s: State,
    words: &mut [u32],
    clauses: &mut [u32],
    irred: &[u32],
    core: &[u32],
    mid: &[u32],
    local: &[u32],
) -> Result<State, Refusal>
    ensures { record { number = number_of result; answer = nothing; then = lent_five (state_after s result) words.new clauses.new irred.now core.now mid.now local.now no_host }
        ≡ done decay (lent_five s words.old clauses.old irred.now core.now mid.now local.now no_host) }
{
    judge::judge_five(s, words, clauses, irred, core, mid, local)?;
    let decayed = activity_steps::decay(s, words, clauses, irred, core, mid, local);
    Ok(decayed)
}
