// The judging in three pieces: the words with the five lists, the words with the clause list, the host's side. The mark bits set on the way are cleared again: every lent word is as it was.
// The store's buffers are slices beside the state, each a parameter: "a state by value, slices beside it" (docs/01-scope.md, What must change shape).
#![tactic(auto)]

ghost use Rattle.std.specs.Prelude.{◌≡◌, true, ◌&&◌, [], ℕ};
ghost use Rattle.kinds.specs.Lent.{lent_five, lent_by, no_host};
ghost use Rattle.kinds.specs.Layout.{view};
ghost use Rattle.calls.specs.Size.{levels_sized, host_sized};
ghost use Rattle.judge_pieces.specs.Sides.{list_sized, five_sized, list_passes, five_pass, side_sized, host_passing, Listed};

use kinds::{HostSide, State};

// ---- the pieces

#[tactic(auto, unfolding(crate::specs::Sides::list_sized, calls::specs::Size::words_sized))]
pub fn list_sized(s: State, words: &[u32], clauses: &[u32]) -> bool
    ensures { result ≡ list_sized (lent_five s words.now clauses.now [] [] [] [] no_host) }
{
    judge_sizes::vars_in_range(s.vars)
        && judge_sizes::words_sized(s.words, words, s.clauses, clauses)
}

pub fn five_sized(
    s: State,
    words: &[u32],
    clauses: &[u32],
    irred: &[u32],
    core: &[u32],
    mid: &[u32],
    local: &[u32],
) -> bool
    ensures { result ≡ five_sized (lent_five s words.now clauses.now irred.now core.now mid.now local.now no_host) }
{
    list_sized(s, words, clauses) && judge_sizes::tiers_sized(s.tiers, irred, core, mid, local)
}

pub fn list_passes(s: State, words: &[u32], clauses: &[u32]) -> bool
    requires { list_sized (lent_five s words.now clauses.now [] [] [] [] no_host) ≡ true }
    ensures { result ≡ list_passes (view (lent_five s words.now clauses.now [] [] [] [] no_host)) }
{
    judge_words::words_pass(
        s.vars, s.words, s.counts, s.garbage, words, clauses, s.clauses,
    ) && judge_sizes::floats_pass(s.activity)
}

pub fn five_pass(
    s: State,
    words: &mut [u32],
    clauses: &[u32],
    irred: &[u32],
    core: &[u32],
    mid: &[u32],
    local: &[u32],
) -> bool
    requires { five_sized (lent_five s words.old clauses.now irred.now core.now mid.now local.now no_host) ≡ true }
    ensures { (result ≡ five_pass (view (lent_five s words.old clauses.now irred.now core.now mid.now local.now no_host))) × (words.new ≡ words.old) }
{
    if !judge_words::words_pass(
        s.vars, s.words, s.counts, s.garbage, words, clauses, s.clauses,
    ) {
        return false;
    }
    if !judge_tiers::tiers_pass(
        s.vars, s.words, words, clauses, s.clauses, irred, core, mid, local, s.tiers,
    ) {
        return false;
    }
    judge_sizes::floats_pass(s.activity)
}

#[tactic(auto, unfolding(calls::specs::Size::levels_sized))]
pub fn side_sized(vars: usize, host: HostSide<'_>) -> bool
    ensures { result ≡ levels_sized vars (lent_by host.entry)
        && host_sized vars (lent_by host.entry) }
{
    judge_sizes::levels_sized(vars, host.levels) && judge_sizes::host_sized(vars, host)
}

pub fn host_passes(s: State, words: &[u32], clauses: &[u32], host: HostSide<'_>) -> bool
    requires { Listed (lent_five s words.now clauses.now [] [] [] [] (lent_by host)) }
    ensures { result ≡ host_passing (view (lent_five s words.now clauses.now [] [] [] [] (lent_by host.entry))) }
{
    if !judge_host::levels_pass(s.vars, host.levels) {
        return false;
    }
    if !judge_host::side_pass(s.vars, host) {
        return false;
    }
    judge_reasons::reasons_pass(s.vars, words, s.words, clauses, s.clauses, host)
}
