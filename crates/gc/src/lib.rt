// Collecting: gc.rs. The call judges what it is lent, then looks for its own refusal, then takes its step.
// The store's buffers are slices beside the state, each a parameter: "a state by value, slices beside it" (docs/01-scope.md, What must change shape).
#![tactic(auto)]

ghost use Rattle.std.specs.Prelude.{◌≡◌, ℕ};
ghost use Rattle.kinds.specs.Lent.{lent_five, host_of};
ghost use Rattle.calls.specs.Call.{collect};
ghost use Rattle.calls.specs.Outcome.{done};
ghost use Rattle.calls.specs.Answers.{number_of, changed_answer, state_changed};

use kinds::{Changed, HostSide, Refusal, State};

// `collect_garbage`: rebuild where a collection was due.
pub fn collect_garbage(
    s: State,
    words: &mut [u32],
    clauses: &mut [u32],
    irred: &mut [u32],
    core: &mut [u32],
    mid: &mut [u32],
    local: &mut [u32],
    values: &[u8],
    kinds: &[u8],
    reasons: &mut [u32],
    levels: &[u32],
    trail: &[u32],
    assigned: usize,
    level: usize,
) -> Result<Changed, Refusal>
    ensures { record { number = number_of result; answer = changed_answer result; then = lent_five (state_changed s result) words.new clauses.new irred.new core.new mid.new local.new (host_of values.now kinds.now reasons.new levels.now trail.now assigned level) }
        ≡ done collect (lent_five s words.old clauses.old irred.old core.old mid.old local.old (host_of values.now kinds.now reasons.old levels.now trail.now assigned level)) }
{
    let host = HostSide {
        values,
        kinds,
        reasons,
        levels,
        trail,
        assigned,
        level,
    };
    judge::judge_five_host(s, words, clauses, irred, core, mid, local, host)?;
    gc_steps::refuse_collect(s, words, clauses, irred, core, mid, local, host)?;
    let collected = gc_steps::collect(
        s, words, clauses, irred, core, mid, local, values, kinds, reasons, levels, trail,
        assigned, level,
    );
    Ok(collected)
}
