// Starting.
// The store's buffers are slices beside the state, each a parameter: "a state by value, slices beside it" (docs/01-scope.md, What must change shape).
#![tactic(auto)]

ghost use Rattle.std.specs.Prelude.{◌≡◌};
ghost use Rattle.kinds.specs.Lent.{lent, no_host};
ghost use Rattle.calls.specs.Outcome.{start_done, nothing};
ghost use Rattle.calls.specs.Answers.{number_of, state_after};

use kinds::{ClauseActivity, Refusal, State};

// "Starting takes V and a decay: used lengths, counts, garbage and every number in every store buffer become 0, bump 1.0, inverse decay 1/decay."
// "Starting judges for 1 and 12 only."
pub fn start(
    s: State,
    vars: usize,
    decay: f32,
    words: &mut [u32],
    clauses: &mut [u32],
    irred: &mut [u32],
    core: &mut [u32],
    mid: &mut [u32],
    local: &mut [u32],
    rows: &mut [u32],
    counts: &mut [u32],
    rec: &mut [u32],
) -> Result<State, Refusal>
    ensures { record { number = number_of result; answer = nothing; then = lent (state_after s result) words.new clauses.new irred.new core.new mid.new local.new rows.new counts.new rec.new no_host }
        ≡ start_done vars decay (lent s words.old clauses.old irred.old core.old mid.old local.old rows.old counts.old rec.old no_host) }
{
    if !judge_sizes::start_sizes_ok(
        vars, words, clauses, irred, core, mid, local, rows, counts, rec,
    ) {
        return Err(Refusal::Size);
    }
    if !activity::decay_ok(decay) {
        return Err(Refusal::Decay);
    }
    words.fill(0);
    clauses.fill(0);
    irred.fill(0);
    core.fill(0);
    mid.fill(0);
    local.fill(0);
    rows.fill(0);
    counts.fill(0);
    rec.fill(0);
    Ok(State {
        vars,
        words: 0,
        clauses: 0,
        tiers: [0; 4],
        recorded: 0,
        counts: [0; 4],
        garbage: 0,
        binary: 0,
        activity: ClauseActivity {
            bump: 1.0,
            inv_decay: 1.0 / decay,
        },
    })
}
