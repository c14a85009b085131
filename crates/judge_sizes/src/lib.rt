// Judging the sizes, refusal 1: "V out of range, a buffer per variable or literal not V or 2V long, a trail buffer shorter than V, a store buffer above its maximum, a used length or row count above its room".
// Every number is any number. And refusal 2 on the state's floats.
// The store's buffers are slices beside the state, each a parameter: "a state by value, slices beside it" (docs/01-scope.md, What must change shape).
#![tactic(auto)]

ghost use Rattle.std.specs.Prelude.{◌≡◌, ◌&&◌, [], ℕ, ◌*◌, ◌/◌, ◌^◌, ◌≤◌, ◌<◌, length};
ghost use Rattle.std.specs.Float.{binary32};
ghost use Rattle.std.specs.Float.Ieee.{to_bits};
ghost use Rattle.laws.specs.Fold.{all_below};
ghost use Rattle.kinds.specs.Floats.{bump_ok, inverse_ok};
ghost use Rattle.kinds.specs.Lent.{lent, lent_five, lent_words, lent_rows, lent_record, lent_by, no_host, levels_only, room_of};
ghost use Rattle.kinds.specs.Setters.{with_used, with_listed, with_tier_lengths, with_recorded};
ghost use Rattle.calls.specs.HostPasses.{at_most_at};
ghost use Rattle.calls.specs.Size.{vars_in_range, sized, words_sized, tiers_sized, rows_sized, record_sized, levels_sized, host_sized, at_most, start_sizes_ok};
ghost use Rattle.judge_sizes.specs.Blank.{of_vars};

use activity::pattern;
use kinds::{ClauseActivity, HostSide};

// "Variables V: 1 to 65,536."
pub const MOST_VARS: usize = 65_536;

// "words (at most 2^24)"; a row buffer and the record have as many.
pub const MOST_WORDS: usize = 1 << 24;

// "clause list .. (2^22 ..)", "four tier lists of references (2^22 each)"
pub const MOST_LISTED: usize = 1 << 22;

#[tactic(auto, unfolding(calls::specs::Size::vars_in_range))]
pub fn vars_in_range(vars: usize) -> bool
    ensures { result ≡ vars_in_range vars }
{
    1 <= vars && vars <= MOST_VARS
}

// A list of at most `most` numbers, `used` of them used.
#[tactic(auto, unfolding(calls::specs::Size::sized))]
fn is_sized(most: usize, used: usize, list: &[u32]) -> bool
    ensures { result ≡ sized most used list.now }
{
    list.len() <= most && used <= list.len()
}

// "words (at most 2^24), clause list .. (2^22 ..)"
#[tactic(auto, unfolding(calls::specs::Size::words_sized))]
pub fn words_sized(used: usize, words: &[u32], listed: usize, clauses: &[u32]) -> bool
    ensures { result ≡ words_sized (lent_words (with_used used (with_listed listed (of_vars 0))) words.now clauses.now [] no_host) }
{
    is_sized(MOST_WORDS, used, words) && is_sized(MOST_LISTED, listed, clauses)
}

// "four tier lists of references (2^22 each)"
#[tactic(auto, using(crate::proofs::Tiers::four_sized))]
pub fn tiers_sized(
    tiers: [usize; 4],
    irred: &[u32],
    core: &[u32],
    mid: &[u32],
    local: &[u32],
) -> bool
    ensures { result ≡ tiers_sized (lent_five (with_tier_lengths tiers (of_vars 0)) [] [] irred.now core.now mid.now local.now no_host) }
{
    is_sized(MOST_LISTED, tiers[0], irred)
        && is_sized(MOST_LISTED, tiers[1], core)
        && is_sized(MOST_LISTED, tiers[2], mid)
        && is_sized(MOST_LISTED, tiers[3], local)
}

// No row count is above its room.
fn counts_fit(room: usize, counts: &[u32]) -> bool
    ensures { result ≡ all_below (at_most_at room counts.now) (length counts.now) }
{
    counts.iter().all(|count| *count as usize <= room)
}

// "a row of literals per code in one buffer (2^24), each row's room being its length over 2V, rounded down; a count per row"
#[tactic(auto, using(crate::proofs::Rows::none_sized, crate::proofs::Rows::counts_sized), unfolding(calls::specs::Size::rows_sized))]
pub fn rows_sized(vars: usize, rows: &[u32], counts: &[u32]) -> bool
    ensures { result ≡ rows_sized (lent_rows (of_vars vars) rows.now counts.now) }
{
    if MOST_WORDS < rows.len() || counts.len() % 2 != 0 || counts.len() / 2 != vars {
        return false;
    }
    vars == 0 || counts_fit(rows.len() / (2 * vars), counts)
}

// "the record (2^24)"
#[tactic(auto, unfolding(calls::specs::Size::record_sized))]
pub fn record_sized(recorded: usize, lines: &[u32]) -> bool
    ensures { result ≡ record_sized (lent_record (with_recorded recorded (of_vars 0)) lines.now) }
{
    is_sized(MOST_WORDS, recorded, lines)
}

// "per variable .. a level"
#[tactic(auto, unfolding(calls::specs::Size::levels_sized))]
pub fn levels_sized(vars: usize, levels: &[u32]) -> bool
    ensures { result ≡ levels_sized vars (levels_only levels.now) }
{
    levels.len() == vars
}

// "per variable an assignment byte .., a reason ..; the trail"
#[tactic(auto, unfolding(calls::specs::Size::host_sized))]
pub fn host_sized(vars: usize, host: HostSide<'_>) -> bool
    ensures { result ≡ host_sized vars (lent_by host.entry) }
{
    host.values.len() == vars
        && host.kinds.len() == vars
        && host.reasons.len() == vars
        && vars <= host.trail.len()
        && host.assigned <= host.trail.len()
}

#[tactic(auto, unfolding(calls::specs::Size::at_most))]
fn tiers_at_most(irred: &[u32], core: &[u32], mid: &[u32], local: &[u32]) -> bool
    ensures { result ≡ at_most (2 ^ 22) irred.now && (at_most (2 ^ 22) core.now && (at_most (2 ^ 22) mid.now && at_most (2 ^ 22) local.now)) }
{
    irred.len() <= MOST_LISTED
        && core.len() <= MOST_LISTED
        && mid.len() <= MOST_LISTED
        && local.len() <= MOST_LISTED
}

// "Starting judges for 1 and 12 only": the buffers' lengths.
#[tactic(auto, using(crate::proofs::Tiers::four_at_most), unfolding(calls::specs::Size::start_sizes_ok, calls::specs::Size::vars_in_range, calls::specs::Size::at_most))]
pub fn start_sizes_ok(
    vars: usize,
    words: &[u32],
    clauses: &[u32],
    irred: &[u32],
    core: &[u32],
    mid: &[u32],
    local: &[u32],
    rows: &[u32],
    counts: &[u32],
    lines: &[u32],
) -> bool
    ensures { result ≡ start_sizes_ok vars (lent (of_vars 0) words.now clauses.now irred.now core.now mid.now local.now rows.now counts.now lines.now no_host) }
{
    vars_in_range(vars)
        && counts.len() == 2 * vars
        && words.len() <= MOST_WORDS
        && clauses.len() <= MOST_LISTED
        && tiers_at_most(irred, core, mid, local)
        && rows.len() <= MOST_WORDS
        && lines.len() <= MOST_WORDS
}

// ---- "Bump is +0 or more (not -0) and below the limit; inverse decay lies strictly between 1 and 16."

#[tactic(auto, unfolding(kinds::specs::Floats::bump_ok, kinds::specs::Floats::inverse_ok))]
pub fn floats_pass(activity: ClauseActivity) -> bool
    ensures { result ≡ bump_ok activity.bump && inverse_ok activity.inv_decay }
{
    let bump = pattern(activity.bump);
    let inverse = pattern(activity.inv_decay);
    bump < 0x7d7f_ffff && 0x3f80_0000 < inverse && inverse < 0x4180_0000
}
