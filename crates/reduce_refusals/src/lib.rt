// Refusal 11 of reduce.rs, known before anything is moved.
// The store's buffers are slices beside the state, each a parameter: "a state by value, slices beside it" (docs/01-scope.md, What must change shape).
#![tactic(auto)]

ghost use Rattle.std.specs.Prelude.{◌≡◌, [], ℕ, ◌+◌, ◌^◌, ◌≤◌, ◌<◌, length};
ghost use Rattle.laws.specs.Fold.{one, count_below, sum_below};
ghost use Rattle.kinds.specs.Lent.{lent, lent_five, lent_by, no_host};
ghost use Rattle.calls.specs.Call.{reduce_mids, reduce_locals, five_lists, five_lists_record_host};
ghost use Rattle.calls.specs.Outcome.{judged, own_number};
ghost use Rattle.calls.specs.Answers.{number_of};
ghost use Rattle.reduce_refusals.specs.Counted.{HeadsIn, inactive_mid, inactive_at, goes, goes_at, line_at, ClauseIn, ClausesIn, Rising};

use kinds::{HostSide, Refusal, State};

// Word 1 is that of a live clause of Mid that is not active.
#[tactic(auto, unfolding(crate::specs::Counted::inactive_mid))]
fn goes_to_local(head: u32) -> bool
    ensures { result ≡ inactive_mid head }
{
    !header::deleted_of(head) && header::tier_of(head) == 2 && !header::active_of(head)
}

// How many live clauses of Mid are not active.
fn inactive_mids(words: &[u32], clauses: &[u32], n: usize) -> usize
    requires n_in_bounds { n ≤ length clauses.now }
    requires heads_in { HeadsIn words.now clauses.now n }
    ensures { result ≡ count_below (inactive_at words.now clauses.now) n }
{
    let mut count = 0;
    for cref in &clauses[..n] {
        if goes_to_local(words[*cref as usize + 1]) {
            count += 1;
        }
    }
    count
}

// `reduce_mids` lacks room where the list of Local has none for the inactive mids.
pub fn refuse_reduce_mids(
    s: State,
    words: &[u32],
    clauses: &[u32],
    irred: &[u32],
    core: &[u32],
    mid: &[u32],
    local: &[u32],
) -> Result<(), Refusal>
    requires { judged five_lists (lent_five s words.now clauses.now irred.now core.now mid.now local.now no_host) ≡ 0 }
    ensures { number_of result ≡ own_number reduce_mids (lent_five s words.now clauses.now irred.now core.now mid.now local.now no_host) }
{
    let listed = s.clauses;
    let lens = s.tiers;
    let moved = inactive_mids(words, clauses, listed);
    if lens[3] + moved <= local.len() {
        return Ok(());
    }
    Err(Refusal::Room)
}

// A live clause of Local that is not asserting and whose key is below a bound.
#[tactic(auto, unfolding(crate::specs::Counted::goes, crate::specs::Counted::goer, calls::specs::Reducing::sort_key))]
fn goes_below(vars: usize, words: &[u32], offset: usize, host: HostSide<'_>, key: u64) -> bool
    requires clause_in { ClauseIn words.now vars offset }
    requires words_len_bound { (length words.now ≤ 2 ^ 24) × (length host.values.now ≡ vars) × (length host.kinds.now ≡ vars) × (length host.reasons.now ≡ vars) × (length host.levels.now ≡ vars) }
    ensures { result ≡ goes words.now host.entry.values.now host.entry.kinds.now host.entry.reasons.now key offset }
{
    let head = words[offset + 1];
    !header::deleted_of(head)
        && header::tier_of(head) == 3
        && !asserting::asserting(words, offset, host)
        && (words[offset] as u64) * 4294967296 + (offset as u64) < key
}

// How many go below a bound, and the words of their lines.
#[derive(Clone, Copy)]
struct Gone {
    count: usize,
    lines: usize,
}

fn tally(
    vars: usize,
    words: &[u32],
    clauses: &[u32],
    n: usize,
    host: HostSide<'_>,
    key: u64,
) -> Gone
    requires n_in_bounds { (n ≤ length clauses.now) × (n ≤ 2 ^ 22) × ClausesIn words.now vars clauses.now n }
    requires words_len_bound { (length words.now ≤ 2 ^ 24) × (length host.values.now ≡ vars) × (length host.kinds.now ≡ vars) × (length host.reasons.now ≡ vars) × (length host.levels.now ≡ vars) }
    ensures { (result.count ≡ count_below (goes_at words.now host.entry.values.now host.entry.kinds.now host.entry.reasons.now key clauses.now) n) × (result.lines ≡ sum_below (line_at words.now host.entry.values.now host.entry.kinds.now host.entry.reasons.now key clauses.now) n) }
{
    let mut count = 0;
    let mut lines = 0;
    for cref in &clauses[..n] {
        let offset = *cref as usize;
        if goes_below(vars, words, offset, host, key) {
            count += 1;
            lines += words[offset + 2] as usize + 2;
        }
    }
    Gone { count, lines }
}

// A bound below which exactly `half` go. Keys are different, so that the count rises by one at a time.
fn bisect(
    vars: usize,
    words: &[u32],
    clauses: &[u32],
    n: usize,
    host: HostSide<'_>,
    half: usize,
) -> u64
    requires n_in_bounds { (n ≤ length clauses.now) × (n ≤ 2 ^ 22) × ClausesIn words.now vars clauses.now n }
    requires words_len_bound { (length words.now ≤ 2 ^ 24) × (length host.values.now ≡ vars) × (length host.kinds.now ≡ vars) × (length host.reasons.now ≡ vars) × (length host.levels.now ≡ vars) }
    requires half_bound { (half < count_below (goes_at words.now host.values.now host.kinds.now host.reasons.now 9223372036854775808 clauses.now) n) × Rising words.now host.values.now host.kinds.now host.reasons.now clauses.now n }
    ensures { count_below (goes_at words.now host.entry.values.now host.entry.kinds.now host.entry.reasons.now result clauses.now) n ≡ half }
{
    let mut low: u64 = 0;
    let mut high: u64 = 9223372036854775808;
    // A `while`: it halves a range of keys, which no list holds and no step counts through.
    while 1 < high - low {
        let middle = low + (high - low) / 2;
        let found = tally(vars, words, clauses, n, host, middle);
        if found.count <= half {
            low = middle;
        } else {
            high = middle;
        }
    }
    low
}

// `reduce_locals` lacks room where the record has none for the lines of the clauses that go.
pub fn refuse_reduce_locals(
    s: State,
    words: &[u32],
    clauses: &[u32],
    irred: &[u32],
    core: &[u32],
    mid: &[u32],
    local: &[u32],
    rec: &[u32],
    host: HostSide<'_>,
) -> Result<(), Refusal>
    requires { judged five_lists_record_host (lent s words.now clauses.now irred.now core.now mid.now local.now [] [] rec.now (lent_by host)) ≡ 0 }
    ensures { number_of result ≡ own_number reduce_locals (lent s words.now clauses.now irred.now core.now mid.now local.now [] [] rec.now (lent_by host.entry)) }
{
    let n = s.clauses;
    let counts = s.counts;
    let half = counts[3] / 2;
    let room = rec.len() - s.recorded;
    let all = tally(s.vars, words, clauses, n, host, 9223372036854775808);
    if all.lines <= room {
        return Ok(());
    }
    if all.count <= half {
        return Err(Refusal::Room);
    }
    let key = bisect(s.vars, words, clauses, n, host, half);
    let gone = tally(s.vars, words, clauses, n, host, key);
    if gone.lines <= room {
        return Ok(());
    }
    Err(Refusal::Room)
}
