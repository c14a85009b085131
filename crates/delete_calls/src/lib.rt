// Deleting: db.rs. The call judges what it is lent, then looks for its own refusals, then takes its step.
// The store's buffers are slices beside the state, each a parameter: "a state by value, slices beside it" (docs/01-scope.md, What must change shape).
#![tactic(auto)]

ghost use Rattle.std.specs.Prelude.{◌≡◌, []};
ghost use Rattle.kinds.specs.Lent.{lent, lent_by};
ghost use Rattle.calls.specs.Call.{delete};
ghost use Rattle.calls.specs.Outcome.{done};
ghost use Rattle.calls.specs.Answers.{number_of, changed_answer, state_changed};

use kinds::{Changed, ClauseRef, HostSide, Refusal, State};

// "deletion as `try_delete_clause`, which also records the strike"; the source calls `disable`, so that the answer says "rebuild them".
pub fn delete_clause(
    s: State,
    words: &mut [u32],
    clauses: &mut [u32],
    irred: &mut [u32],
    core: &mut [u32],
    mid: &mut [u32],
    local: &mut [u32],
    rec: &mut [u32],
    host: HostSide<'_>,
    cref: ClauseRef,
) -> Result<Changed, Refusal>
    ensures { record { number = number_of result; answer = changed_answer result; then = lent (state_changed s result) words.new clauses.new irred.new core.new mid.new local.new [] [] rec.new (lent_by host.entry) }
        ≡ done (delete cref.0) (lent s words.old clauses.old irred.old core.old mid.old local.old [] [] rec.old (lent_by host.entry)) }
{
    judge::judge_five_record_host(s, words, clauses, irred, core, mid, local, rec, host)?;
    delete_refusals::refuse_delete(s, words, clauses, irred, core, mid, local, rec, host, cref)?;
    let state = db_steps::strike_clause(
        s, words, clauses, irred, core, mid, local, rec, host, cref,
    );
    Ok(Changed {
        rebuild: true,
        state,
    })
}
