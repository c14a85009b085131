// Units: unit_simplify.rs. Each call judges what it is lent, then looks for its own refusal, then takes its step.
// The store's buffers are slices beside the state, each a parameter: "a state by value, slices beside it" (docs/01-scope.md, What must change shape).
#![tactic(auto)]

ghost use Rattle.std.specs.Prelude.{◌≡◌, ℕ};
ghost use Rattle.kinds.specs.Lent.{lent, lent_words, host_of, lent_by};
ghost use Rattle.calls.specs.Call.{prove_units, unit_simplify};
ghost use Rattle.calls.specs.Outcome.{done};
ghost use Rattle.calls.specs.Answers.{number_of, changed_answer, proved_answer, state_changed, state_proved, assigned_after};

use kinds::{Changed, HostSide, Proved, Refusal, State};

// `prove_units`: "above level 0 answers 'no new unit'", as with an empty trail.
pub fn prove_units(
    s: State,
    words: &[u32],
    clauses: &[u32],
    rec: &mut [u32],
    values: &[u8],
    kinds: &mut [u8],
    reasons: &mut [u32],
    levels: &[u32],
    trail: &mut [u32],
    assigned: usize,
    level: usize,
) -> Result<Proved, Refusal>
    ensures { record { number = number_of result; answer = proved_answer result; then = lent_words (state_proved s result) words.now clauses.now rec.new (host_of values.now kinds.new reasons.new levels.now trail.new (assigned_after assigned result) level) }
        ≡ done prove_units (lent_words s words.now clauses.now rec.old (host_of values.now kinds.old reasons.old levels.now trail.old assigned level)) }
{
    let host = HostSide {
        values,
        kinds,
        reasons,
        levels,
        trail,
        assigned,
        level,
    };
    judge::judge_list_record_host(s, words, clauses, rec, host)?;
    prove_units::refuse_prove_units(s, words, clauses, rec, host)?;
    let units = prove_units::prove_units(
        s, words, clauses, rec, values, kinds, reasons, levels, trail, assigned, level,
    );
    Ok(units)
}

// `unit_simplify`: "rebuild them", always.
pub fn unit_simplify(
    s: State,
    words: &mut [u32],
    clauses: &mut [u32],
    irred: &mut [u32],
    core: &mut [u32],
    mid: &mut [u32],
    local: &mut [u32],
    rows: &mut [u32],
    counts: &mut [u32],
    rec: &mut [u32],
    host: HostSide<'_>,
) -> Result<Changed, Refusal>
    ensures { record { number = number_of result; answer = changed_answer result; then = lent (state_changed s result) words.new clauses.new irred.new core.new mid.new local.new rows.new counts.new rec.new (lent_by host.entry) }
        ≡ done unit_simplify (lent s words.old clauses.old irred.old core.old mid.old local.old rows.old counts.old rec.old (lent_by host.entry)) }
{
    judge::judge_all(
        s, words, clauses, irred, core, mid, local, rows, counts, rec, host,
    )?;
    simplify_steps::refuse_unit_simplify(
        s, words, clauses, irred, core, mid, local, rows, counts, rec, host,
    )?;
    let simplified = simplify_steps::simplify(
        s, words, clauses, irred, core, mid, local, rows, counts, rec, host,
    );
    Ok(Changed {
        rebuild: true,
        state: simplified,
    })
}
