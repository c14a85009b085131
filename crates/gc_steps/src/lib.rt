// The step of gc.rs, on what is lent. It stands on what the judging has established; a collection never lacks room.
// The store's buffers are slices beside the state, each a parameter: "a state by value, slices beside it" (docs/01-scope.md, What must change shape).
#![tactic(auto)]

ghost use Rattle.std.specs.Prelude.{◌≡◌, [], ℕ, ◌+◌, ◌≤◌, ◌<◌, length, take};
ghost use Rattle.laws.specs.Lists.{at, list_at, lengths, fill_each};
ghost use Rattle.kinds.specs.Lent.{lent_five, host_of, lent_by};
ghost use Rattle.kinds.specs.Layout.{view, lay};
ghost use Rattle.calls.specs.Call.{collect, five_lists_host};
ghost use Rattle.calls.specs.Collecting.{due, of_tier, by_tier, collected};
ghost use Rattle.calls.specs.Outcome.{judged, own_number};
ghost use Rattle.calls.specs.Answers.{number_of};
ghost use Rattle.tier_lists.specs.Four.{four};

use kinds::{Changed, HostSide, Refusal, State};

// "tier lists are rebuilt in that order". Returns the used lengths.
fn rebuild_tiers(
    words: &[u32],
    clauses: &[u32],
    n: usize,
    irred: &mut [u32],
    core: &mut [u32],
    mid: &mut [u32],
    local: &mut [u32],
    used: [usize; 4],
) -> [usize; 4]
    requires n_in_bounds { (n ≤ length clauses.now) × ((i : ℕ) → i < n → at clauses.now i + 1 < length words.now) }
    requires by_index { ((t : ℕ) → t < 4 → at used t ≤ length (list_at (four irred.old core.old mid.old local.old) t)) × ((t : ℕ) → t < 4 → length (of_tier words.now t (take n clauses.now)) ≤ at used t) }
    ensures { (four irred.new core.new mid.new local.new
        ≡ fill_each (four irred.old core.old mid.old local.old) used (by_tier words.now (take n clauses.now)))
        × (result ≡ lengths (by_tier words.now (take n clauses.now))) }
{
    let irreds = close_up::rebuild(words, clauses, n, irred, used[0], 0);
    let cores = close_up::rebuild(words, clauses, n, core, used[1], 1);
    let mids = close_up::rebuild(words, clauses, n, mid, used[2], 2);
    let locals = close_up::rebuild(words, clauses, n, local, used[3], 3);
    [irreds, cores, mids, locals]
}

// A collection is refused for nothing but 1 to 3: each live clause stands in its tier's list, so that the rebuilt lists fit.
pub fn refuse_collect(
    s: State,
    words: &[u32],
    clauses: &[u32],
    irred: &[u32],
    core: &[u32],
    mid: &[u32],
    local: &[u32],
    host: HostSide<'_>,
) -> Result<(), Refusal>
    requires { judged five_lists_host (lent_five s words.now clauses.now irred.now core.now mid.now local.now (lent_by host)) ≡ 0 }
    ensures { number_of result ≡ own_number collect (lent_five s words.now clauses.now irred.now core.now mid.now local.now (lent_by host.entry)) }
{
    Ok(())
}

// `collect_garbage`: "Collects if garbage times 2 exceeds the used length."
pub fn collect(
    s: State,
    words: &mut [u32],
    clauses: &mut [u32],
    irred: &mut [u32],
    core: &mut [u32],
    mid: &mut [u32],
    local: &mut [u32],
    values: &[u8],
    kinds: &[u8],
    reasons: &mut [u32],
    levels: &[u32],
    trail: &[u32],
    assigned: usize,
    level: usize,
) -> Changed
    requires level_value { judged five_lists_host (lent_five s words.old clauses.old irred.old core.old mid.old local.old (host_of values.now kinds.now reasons.old levels.now trail.now assigned level)) ≡ 0 }
    requires level_value_2 { own_number collect (lent_five s words.old clauses.old irred.old core.old mid.old local.old (host_of values.now kinds.now reasons.old levels.now trail.now assigned level)) ≡ 0 }
    ensures { (lent_five result.state words.new clauses.new irred.new core.new mid.new local.new (host_of values.now kinds.now reasons.new levels.now trail.now assigned level)
        ≡ lay five_lists_host (lent_five s words.old clauses.old irred.old core.old mid.old local.old (host_of values.now kinds.now reasons.old levels.now trail.now assigned level))
        (collected (view (lent_five s words.old clauses.old irred.old core.old mid.old local.old (host_of values.now kinds.now reasons.old levels.now trail.now assigned level)))))
        × (result.rebuild ≡ due (view (lent_five s words.old clauses.old irred.old core.old mid.old local.old (host_of values.now kinds.now reasons.old levels.now trail.now assigned level)))) }
{
    let used = s.words;
    let n = s.clauses;
    if s.garbage * 2 <= used {
        return Changed {
            rebuild: false,
            state: s,
        };
    }
    close_up::follow(
        s.vars, words, used, clauses, n, values, kinds, reasons, levels,
    );
    let closed = close_up::close_up(words, used, clauses, n);
    let tiers = rebuild_tiers(
        words,
        clauses,
        closed.listed,
        irred,
        core,
        mid,
        local,
        s.tiers,
    );
    Changed {
        rebuild: true,
        state: State {
            words: closed.used,
            clauses: closed.listed,
            tiers,
            garbage: 0,
            ..s
        },
    }
}
