// The judging: refusals 1, 2 and 3 for each set of parts that a call is lent. The mark bits set on the way are cleared again: every lent word is as it was.
// The store's buffers are slices beside the state, each a parameter: "a state by value, slices beside it" (docs/01-scope.md, What must change shape).
#![tactic(auto)]

ghost use Rattle.std.specs.Prelude.{◌≡◌, [], ℕ};
ghost use Rattle.kinds.specs.Lent.{lent, lent_rows, lent_record, lent_levels, levels_only, lent_by, no_host};
ghost use Rattle.calls.specs.Call.{words_and_list, five_lists, five_lists_levels, five_lists_host, five_lists_record_host, words_record_host, everything, only_rows, only_record, only_levels};
ghost use Rattle.calls.specs.Outcome.{judged};
ghost use Rattle.calls.specs.Answers.{number_of};

use judge_pieces::{five_pass, five_sized, host_passes, list_passes, list_sized, side_sized};
use kinds::{HostSide, Refusal, State};

// ---- one entry for each set of parts

// Handing back literals.
pub fn judge_list(s: State, words: &[u32], clauses: &[u32]) -> Result<(), Refusal>
    ensures { number_of result ≡ judged words_and_list (lent s words.now clauses.now [] [] [] [] [] [] [] no_host) }
{
    if !list_sized(s, words, clauses) {
        return Err(Refusal::Size);
    }
    if !list_passes(s, words, clauses) {
        return Err(Refusal::Store);
    }
    Ok(())
}

// `prove_units`.
pub fn judge_list_record_host(
    s: State,
    words: &[u32],
    clauses: &[u32],
    rec: &[u32],
    host: HostSide<'_>,
) -> Result<(), Refusal>
    ensures { number_of result ≡ judged words_record_host (lent s words.now clauses.now [] [] [] [] [] [] rec.now (lent_by host.entry)) }
{
    if !list_sized(s, words, clauses) {
        return Err(Refusal::Size);
    }
    if !judge_sizes::record_sized(s.recorded, rec) {
        return Err(Refusal::Size);
    }
    if !side_sized(s.vars, host) {
        return Err(Refusal::Size);
    }
    if !list_passes(s, words, clauses) {
        return Err(Refusal::Store);
    }
    if !host_passes(s, words, clauses, host) {
        return Err(Refusal::Host);
    }
    Ok(())
}

// Adding, tiers, decay, reducing mids.
pub fn judge_five(
    s: State,
    words: &mut [u32],
    clauses: &[u32],
    irred: &[u32],
    core: &[u32],
    mid: &[u32],
    local: &[u32],
) -> Result<(), Refusal>
    ensures { (number_of result ≡ judged five_lists (lent s words.old clauses.now irred.now core.now mid.now local.now [] [] [] no_host)) × (words.new ≡ words.old) }
{
    if !five_sized(s, words, clauses, irred, core, mid, local) {
        return Err(Refusal::Size);
    }
    if !five_pass(s, words, clauses, irred, core, mid, local) {
        return Err(Refusal::Store);
    }
    Ok(())
}

// Bumping.
pub fn judge_five_levels(
    s: State,
    words: &mut [u32],
    clauses: &[u32],
    irred: &[u32],
    core: &[u32],
    mid: &[u32],
    local: &[u32],
    levels: &[u32],
) -> Result<(), Refusal>
    ensures { (number_of result ≡ judged five_lists_levels (lent s words.old clauses.now irred.now core.now mid.now local.now [] [] [] (levels_only levels.now))) × (words.new ≡ words.old) }
{
    if !five_sized(s, words, clauses, irred, core, mid, local) {
        return Err(Refusal::Size);
    }
    if !judge_sizes::levels_sized(s.vars, levels) {
        return Err(Refusal::Size);
    }
    if !five_pass(s, words, clauses, irred, core, mid, local) {
        return Err(Refusal::Store);
    }
    if !judge_host::levels_pass(s.vars, levels) {
        return Err(Refusal::Host);
    }
    Ok(())
}

// Collecting.
pub fn judge_five_host(
    s: State,
    words: &mut [u32],
    clauses: &[u32],
    irred: &[u32],
    core: &[u32],
    mid: &[u32],
    local: &[u32],
    host: HostSide<'_>,
) -> Result<(), Refusal>
    ensures { (number_of result ≡ judged five_lists_host (lent s words.old clauses.now irred.now core.now mid.now local.now [] [] [] (lent_by host.entry))) × (words.new ≡ words.old) }
{
    if !five_sized(s, words, clauses, irred, core, mid, local) {
        return Err(Refusal::Size);
    }
    if !side_sized(s.vars, host) {
        return Err(Refusal::Size);
    }
    if !five_pass(s, words, clauses, irred, core, mid, local) {
        return Err(Refusal::Store);
    }
    if !host_passes(s, words, clauses, host) {
        return Err(Refusal::Host);
    }
    Ok(())
}

// Deleting, reducing locals.
pub fn judge_five_record_host(
    s: State,
    words: &mut [u32],
    clauses: &[u32],
    irred: &[u32],
    core: &[u32],
    mid: &[u32],
    local: &[u32],
    rec: &[u32],
    host: HostSide<'_>,
) -> Result<(), Refusal>
    ensures { (number_of result ≡ judged five_lists_record_host (lent s words.old clauses.now irred.now core.now mid.now local.now [] [] rec.now (lent_by host.entry))) × (words.new ≡ words.old) }
{
    if !five_sized(s, words, clauses, irred, core, mid, local) {
        return Err(Refusal::Size);
    }
    if !judge_sizes::record_sized(s.recorded, rec) {
        return Err(Refusal::Size);
    }
    if !side_sized(s.vars, host) {
        return Err(Refusal::Size);
    }
    if !five_pass(s, words, clauses, irred, core, mid, local) {
        return Err(Refusal::Store);
    }
    if !host_passes(s, words, clauses, host) {
        return Err(Refusal::Host);
    }
    Ok(())
}

// `unit_simplify`.
pub fn judge_all(
    s: State,
    words: &mut [u32],
    clauses: &[u32],
    irred: &[u32],
    core: &[u32],
    mid: &[u32],
    local: &[u32],
    rows: &[u32],
    counts: &[u32],
    rec: &[u32],
    host: HostSide<'_>,
) -> Result<(), Refusal>
    ensures { (number_of result ≡ judged everything (lent s words.old clauses.now irred.now core.now mid.now local.now rows.now counts.now rec.now (lent_by host.entry))) × (words.new ≡ words.old) }
{
    if !five_sized(s, words, clauses, irred, core, mid, local) {
        return Err(Refusal::Size);
    }
    if !judge_sizes::rows_sized(s.vars, rows, counts) {
        return Err(Refusal::Size);
    }
    if !judge_sizes::record_sized(s.recorded, rec) {
        return Err(Refusal::Size);
    }
    if !side_sized(s.vars, host) {
        return Err(Refusal::Size);
    }
    if !five_pass(s, words, clauses, irred, core, mid, local) {
        return Err(Refusal::Store);
    }
    if !judge_rows::rows_pass(s.vars, s.binary, rows, counts) {
        return Err(Refusal::Store);
    }
    if !host_passes(s, words, clauses, host) {
        return Err(Refusal::Host);
    }
    Ok(())
}

// Adding a binary clause, reading implied literals.
pub fn judge_rows(s: State, rows: &[u32], counts: &[u32]) -> Result<(), Refusal>
    ensures { number_of result ≡ judged only_rows (lent_rows s rows.now counts.now) }
{
    if !judge_sizes::vars_in_range(s.vars) {
        return Err(Refusal::Size);
    }
    if !judge_sizes::rows_sized(s.vars, rows, counts) {
        return Err(Refusal::Size);
    }
    if !judge_rows::rows_pass(s.vars, s.binary, rows, counts) {
        return Err(Refusal::Store);
    }
    let activity = s.activity;
    if !judge_sizes::floats_pass(activity) {
        return Err(Refusal::Store);
    }
    Ok(())
}

// Emptying the record.
pub fn judge_record(s: State, rec: &[u32]) -> Result<(), Refusal>
    ensures { number_of result ≡ judged only_record (lent_record s rec.now) }
{
    if !judge_sizes::vars_in_range(s.vars) {
        return Err(Refusal::Size);
    }
    if !judge_sizes::record_sized(s.recorded, rec) {
        return Err(Refusal::Size);
    }
    let activity = s.activity;
    if !judge_sizes::floats_pass(activity) {
        return Err(Refusal::Store);
    }
    Ok(())
}

// Assessing.
pub fn judge_levels(vars: usize, levels: &[u32]) -> Result<(), Refusal>
    ensures { number_of result ≡ judged only_levels (lent_levels vars levels.now) }
{
    if !judge_sizes::vars_in_range(vars) {
        return Err(Refusal::Size);
    }
    if !judge_sizes::levels_sized(vars, levels) {
        return Err(Refusal::Size);
    }
    if !judge_host::levels_pass(vars, levels) {
        return Err(Refusal::Host);
    }
    Ok(())
}
