// Reducing: reduce.rs. Each call judges what it is lent, then looks for its own refusal, then takes its step.
// The store's buffers are slices beside the state, each a parameter: "a state by value, slices beside it" (docs/01-scope.md, What must change shape).
#![tactic(auto)]

ghost use Rattle.std.specs.Prelude.{◌≡◌, [], ℕ};
ghost use Rattle.kinds.specs.Lent.{lent, lent_five, lent_words, lent_by, no_host};
ghost use Rattle.calls.specs.Call.{reduce_mids, reduce_locals};
ghost use Rattle.calls.specs.Outcome.{done, nothing};
ghost use Rattle.calls.specs.Answers.{number_of, changed_answer, state_after, state_changed};

use kinds::{Changed, HostSide, Refusal, State};

// `reduce_mids`.
pub fn reduce_mids(
    s: State,
    words: &mut [u32],
    clauses: &mut [u32],
    irred: &mut [u32],
    core: &mut [u32],
    mid: &mut [u32],
    local: &mut [u32],
) -> Result<State, Refusal>
    ensures { record { number = number_of result; answer = nothing; then = lent_five (state_after s result) words.new clauses.new irred.new core.new mid.new local.new no_host }
        ≡ done reduce_mids (lent_five s words.old clauses.old irred.old core.old mid.old local.old no_host) }
{
    judge::judge_five(s, words, clauses, irred, core, mid, local)?;
    reduce_refusals::refuse_reduce_mids(s, words, clauses, irred, core, mid, local)?;
    Ok(reduce_steps::mids(s, words, clauses, irred, core, mid, local))
}

// `reduce_locals`: rebuild where a clause was struck.
pub fn reduce_locals(
    s: State,
    words: &mut [u32],
    clauses: &mut [u32],
    irred: &mut [u32],
    core: &mut [u32],
    mid: &mut [u32],
    local: &mut [u32],
    rec: &mut [u32],
    host: HostSide<'_>,
) -> Result<Changed, Refusal>
    ensures { record { number = number_of result; answer = changed_answer result; then = lent (state_changed s result) words.new clauses.new irred.new core.new mid.new local.new [] [] rec.new (lent_by host.entry) }
        ≡ done reduce_locals (lent s words.old clauses.old irred.old core.old mid.old local.old [] [] rec.old (lent_by host.entry)) }
{
    judge::judge_five_record_host(s, words, clauses, irred, core, mid, local, rec, host)?;
    reduce_refusals::refuse_reduce_locals(s, words, clauses, irred, core, mid, local, rec, host)?;
    let reduced = reduce_steps::locals(s, words, clauses, irred, core, mid, local, rec, host);
    Ok(reduced)
}
