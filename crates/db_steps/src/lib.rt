// The steps of db.rs, on what is lent. Each stands on what the judging and the refusals have established.
// The store's buffers are slices beside the state, each a parameter: "a state by value, slices beside it" (docs/01-scope.md, What must change shape).
#![tactic(auto)]

ghost use Rattle.std.specs.Prelude.{◌≡◌, [], ℕ};
ghost use Rattle.kinds.specs.Lent.{lent, lent_five, lent_by, no_host};
ghost use Rattle.kinds.specs.Layout.{view, lay};
ghost use Rattle.calls.specs.Call.{add_clause, set_tier, delete, five_lists, five_lists_record_host};
ghost use Rattle.calls.specs.Adding.{added_long, tier_set, deleted};
ghost use Rattle.calls.specs.Outcome.{judged, own_number};

use kinds::{ClauseRef, HostSide, State};

// `add_clause`: the words behind the used ones, one more entry of the clause list and of the tier's list, one more of its tier.
pub fn append_clause(
    s: State,
    words: &mut [u32],
    clauses: &mut [u32],
    irred: &mut [u32],
    core: &mut [u32],
    mid: &mut [u32],
    local: &mut [u32],
    tier: usize,
    glue: usize,
    lits: &[u32],
) -> State
    requires no_host_value { judged five_lists (lent_five s words.old clauses.old irred.old core.old mid.old local.old no_host) ≡ 0 }
    requires no_host_value_2 { own_number (add_clause tier glue lits.now) (lent_five s words.old clauses.old irred.old core.old mid.old local.old no_host) ≡ 0 }
    ensures { lent_five result words.new clauses.new irred.new core.new mid.new local.new no_host
        ≡ lay five_lists (lent_five s words.old clauses.old irred.old core.old mid.old local.old no_host)
        (added_long tier glue lits.now (view (lent_five s words.old clauses.old irred.old core.old mid.old local.old no_host))) }
{
    let offset = s.words as u32;
    alloc::add_clause(words, s.words, tier as u32, glue, lits);
    clauses[s.clauses] = offset;
    let tiers = tier_lists::push(irred, core, mid, local, s.tiers, tier, offset);
    let mut counts = s.counts;
    counts[tier] += 1;
    State {
        words: s.words + (lits.len() + 3),
        clauses: s.clauses + 1,
        tiers,
        counts,
        ..s
    }
}

// `set_clause_tier`: "nothing for an equal tier, else the new list gets one more entry and the old keeps its own".
pub fn change_tier(
    s: State,
    words: &mut [u32],
    clauses: &mut [u32],
    irred: &mut [u32],
    core: &mut [u32],
    mid: &mut [u32],
    local: &mut [u32],
    cref: ClauseRef,
    tier: usize,
) -> State
    requires no_host_value { judged five_lists (lent_five s words.old clauses.old irred.old core.old mid.old local.old no_host) ≡ 0 }
    requires no_host_value_2 { own_number (set_tier cref.0 tier) (lent_five s words.old clauses.old irred.old core.old mid.old local.old no_host) ≡ 0 }
    ensures { lent_five result words.new clauses.new irred.new core.new mid.new local.new no_host
        ≡ lay five_lists (lent_five s words.old clauses.old irred.old core.old mid.old local.old no_host)
        (tier_set tier cref.0 (view (lent_five s words.old clauses.old irred.old core.old mid.old local.old no_host))) }
{
    let place = cref.0 as usize + 1;
    let head = words[place];
    let old = header::tier_of(head) as usize;
    if old == tier {
        return s;
    }
    words[place] = header::with_tier(head, tier as u32);
    let tiers = tier_lists::push(irred, core, mid, local, s.tiers, tier, cref.0);
    let mut counts = s.counts;
    counts[old] -= 1;
    counts[tier] += 1;
    State { tiers, counts, ..s }
}

// `try_delete_clause`, "which also records the strike": the line, the deleted bit, one less of its tier, garbage.
pub fn strike_clause(
    s: State,
    words: &mut [u32],
    clauses: &mut [u32],
    irred: &mut [u32],
    core: &mut [u32],
    mid: &mut [u32],
    local: &mut [u32],
    rec: &mut [u32],
    host: HostSide<'_>,
    cref: ClauseRef,
) -> State
    requires level_value { judged five_lists_record_host (lent s words.old clauses.old irred.old core.old mid.old local.old [] [] rec.old (lent_by host)) ≡ 0 }
    requires level_value_2 { own_number (delete cref.0) (lent s words.old clauses.old irred.old core.old mid.old local.old [] [] rec.old (lent_by host)) ≡ 0 }
    ensures { lent result words.new clauses.new irred.new core.new mid.new local.new [] [] rec.new (lent_by host.entry)
        ≡ lay five_lists_record_host (lent s words.old clauses.old irred.old core.old mid.old local.old [] [] rec.old (lent_by host.entry))
        (deleted cref.0 (view (lent s words.old clauses.old irred.old core.old mid.old local.old [] [] rec.old (lent_by host.entry)))) }
{
    let offset = cref.0 as usize;
    let recorded = record::strike(words, offset, rec, s.recorded, 4);
    let head = words[offset + 1];
    let len = words[offset + 2] as usize;
    let tier = header::tier_of(head) as usize;
    words[offset + 1] = header::with_deleted(head, true);
    let mut counts = s.counts;
    counts[tier] -= 1;
    State {
        recorded,
        counts,
        garbage: s.garbage + (len + 3),
        ..s
    }
}
