// The steps of reduce.rs, on what is lent. Each stands on what the judging and the refusals have established.
// The store's buffers are slices beside the state, each a parameter: "a state by value, slices beside it" (docs/01-scope.md, What must change shape).
#![tactic(auto)]

ghost use Rattle.std.specs.Prelude.{◌≡◌, true, ◌||◌, [], ℕ, ◌+◌, ◌≤◌, ◌<◌, eqb, length};
ghost use Rattle.std.proofs.lemmas.List.Edits.{sets};
ghost use Rattle.kinds.specs.Header.{with_deleted};
ghost use Rattle.kinds.specs.Clauses.{first_at, var_of, len_at, end_at, lits_at, original_at, change_head};
ghost use Rattle.kinds.specs.Lines.{line, line_words, strike_kind};
ghost use Rattle.kinds.specs.Lent.{lent, lent_five, lent_by, no_host};
ghost use Rattle.kinds.specs.Layout.{view, lay};
ghost use Rattle.calls.specs.Call.{reduce_mids, reduce_locals, five_lists, five_lists_record_host};
ghost use Rattle.calls.specs.Reducing.{mids_reduced, locals_reduced, locals_struck};
ghost use Rattle.calls.specs.Outcome.{judged, own_number};
ghost use Rattle.asserting.specs.Reads.{asserting_in};

use kinds::{Changed, HostSide, State};

// `reduce_mids`: "inactive ones go to Local in list order; active ones stay, flag cleared".
pub fn mids(
    s: State,
    words: &mut [u32],
    clauses: &mut [u32],
    irred: &mut [u32],
    core: &mut [u32],
    mid: &mut [u32],
    local: &mut [u32],
) -> State
    requires no_host_value { judged five_lists (lent_five s words.old clauses.old irred.old core.old mid.old local.old no_host) ≡ 0 }
    requires no_host_value_2 { own_number reduce_mids (lent_five s words.old clauses.old irred.old core.old mid.old local.old no_host) ≡ 0 }
    ensures { lent_five result words.new clauses.new irred.new core.new mid.new local.new no_host
        ≡ lay five_lists (lent_five s words.old clauses.old irred.old core.old mid.old local.old no_host)
        (mids_reduced (view (lent_five s words.old clauses.old irred.old core.old mid.old local.old no_host))) }
{
    let mut lens = s.tiers;
    let mut counts = s.counts;
    let used = lens[2];
    let n = dedup::clean(words, mid, used, 2);
    let mut kept = 0;
    let mut locals = lens[3];
    for i in 0..n {
        let cref = mid[i];
        let place = cref as usize + 1;
        let head = words[place];
        if header::active_of(head) {
            words[place] = header::with_active(head, false);
            mid[kept] = cref;
            kept += 1;
        } else {
            words[place] = header::with_tier(head, 3);
            local[locals] = cref;
            locals += 1;
            counts[2] -= 1;
            counts[3] += 1;
        }
    }
    buffers::clear(mid, kept, used);
    lens[2] = kept;
    lens[3] = locals;
    State {
        tiers: lens,
        counts,
        ..s
    }
}

// It stays: enough are gone, or it is asserting.
fn spared(left: usize, words: &[u32], offset: usize, host: HostSide<'_>) -> bool
    requires offset_in_bounds { offset + 3 < length words.now }
    requires offset_in_bounds_2 { (var_of (first_at words.now offset) < length host.values.now) × (var_of (first_at words.now offset) < length host.kinds.now) × (var_of (first_at words.now offset) < length host.reasons.now) × (var_of (first_at words.now offset) < length host.levels.now) }
    ensures { result ≡ eqb left 0 || asserting_in words.now host.entry.values.now host.entry.kinds.now host.entry.reasons.now offset }
{
    left == 0 || asserting::asserting(words, offset, host)
}

// The line and the deleted bit. Returns the record's used length.
fn strike_out(words: &mut [u32], offset: usize, rec: &mut [u32], used: usize) -> usize
    requires { (end_at words.old offset ≤ length words.old) × (used + (len_at words.old offset + 2) ≤ length rec.old) }
    ensures { (result ≡ used + (len_at words.old offset + 2))
        × (rec.new ≡ sets rec.old used (line_words (line (strike_kind (original_at words.old offset) 4) (lits_at words.old offset))))
        × (words.new ≡ change_head (with_deleted true) offset words.old) }
{
    let recorded = record::strike(words, offset, rec, used, 4);
    let place = offset + 1;
    let head = words[place];
    words[place] = header::with_deleted(head, true);
    recorded
}

// `reduce_locals`: "sort by activity then reference, strike in that order until floor(n/2) are gone, skipping asserting ones; the list stays sorted".
pub fn locals(
    s: State,
    words: &mut [u32],
    clauses: &mut [u32],
    irred: &mut [u32],
    core: &mut [u32],
    mid: &mut [u32],
    local: &mut [u32],
    rec: &mut [u32],
    host: HostSide<'_>,
) -> Changed
    requires level_value { judged five_lists_record_host (lent s words.old clauses.old irred.old core.old mid.old local.old [] [] rec.old (lent_by host)) ≡ 0 }
    requires level_value_2 { own_number reduce_locals (lent s words.old clauses.old irred.old core.old mid.old local.old [] [] rec.old (lent_by host)) ≡ 0 }
    ensures level_after { lent result.state words.new clauses.new irred.new core.new mid.new local.new [] [] rec.new (lent_by host.entry)
        ≡ lay five_lists_record_host (lent s words.old clauses.old irred.old core.old mid.old local.old [] [] rec.old (lent_by host.entry))
        (locals_reduced (view (lent s words.old clauses.old irred.old core.old mid.old local.old [] [] rec.old (lent_by host.entry)))) }
    ensures struck_value { result.rebuild ≡ locals_struck (view (lent s words.old clauses.old irred.old core.old mid.old local.old [] [] rec.old (lent_by host.entry))) }
{
    let mut lens = s.tiers;
    let mut counts = s.counts;
    let used = lens[3];
    let n = dedup::clean(words, local, used, 3);
    sort::sort_prefix(local, n, words);
    let half = n / 2;
    let mut left = half;
    let mut kept = 0;
    let mut recorded = s.recorded;
    let mut garbage = s.garbage;
    for i in 0..n {
        let cref = local[i];
        let offset = cref as usize;
        if spared(left, words, offset, host) {
            local[kept] = cref;
            kept += 1;
        } else {
            let size = buffers::word(words, offset + 2) + 3;
            recorded = strike_out(words, offset, rec, recorded);
            counts[3] -= 1;
            garbage += size;
            left -= 1;
        }
    }
    buffers::clear(local, kept, used);
    lens[3] = kept;
    Changed {
        rebuild: left != half,
        state: State {
            tiers: lens,
            recorded,
            counts,
            garbage,
            ..s
        },
    }
}
