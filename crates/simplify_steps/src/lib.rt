// `unit_simplify` below the judging.
// The store's buffers are slices beside the state, each a parameter: "a state by value, slices beside it" (docs/01-scope.md, What must change shape).
#![tactic(auto)]

ghost use Rattle.std.specs.Prelude.{◌≡◌};
ghost use Rattle.kinds.specs.Lent.{lent, lent_by};
ghost use Rattle.kinds.specs.Layout.{view, lay};
ghost use Rattle.calls.specs.Call.{unit_simplify, everything};
ghost use Rattle.calls.specs.Simplifying.{simplified};
ghost use Rattle.calls.specs.Outcome.{judged, own_number};
ghost use Rattle.calls.specs.Answers.{number_of};

use kinds::{HostSide, Refusal, State};

// "`unit_simplify` cleans binaries, then takes long clauses in list order."
pub fn simplify(
    s: State,
    words: &mut [u32],
    clauses: &mut [u32],
    irred: &mut [u32],
    core: &mut [u32],
    mid: &mut [u32],
    local: &mut [u32],
    rows: &mut [u32],
    counts: &mut [u32],
    rec: &mut [u32],
    host: HostSide<'_>,
) -> State
    requires level_value { judged everything (lent s words.old clauses.old irred.old core.old mid.old local.old rows.old counts.old rec.old (lent_by host)) ≡ 0 }
    requires level_value_2 { own_number unit_simplify (lent s words.old clauses.old irred.old core.old mid.old local.old rows.old counts.old rec.old (lent_by host)) ≡ 0 }
    ensures { lent result words.new clauses.new irred.new core.new mid.new local.new rows.new counts.new rec.new (lent_by host.entry)
        ≡ lay everything (lent s words.old clauses.old irred.old core.old mid.old local.old rows.old counts.old rec.old (lent_by host.entry))
        (simplified (view (lent s words.old clauses.old irred.old core.old mid.old local.old rows.old counts.old rec.old (lent_by host.entry)))) }
{
    let room = rows.len() / (2 * s.vars);
    let cleaned = binary_clean::clean_rows(rows, room, counts, host.values, rec, s.recorded);
    let start = State {
        recorded: cleaned.recorded,
        binary: cleaned.entries / 2,
        ..s
    };
    simplify_long::simplify_long(start, words, clauses, rows, counts, rec, host.values)
}

// Refusals 9 to 11: above level 0 or with a trail not empty; a clause that lacks literals; no room for the finished call.
pub fn refuse_unit_simplify(
    s: State,
    words: &[u32],
    clauses: &[u32],
    irred: &[u32],
    core: &[u32],
    mid: &[u32],
    local: &[u32],
    rows: &[u32],
    counts: &[u32],
    rec: &[u32],
    host: HostSide<'_>,
) -> Result<(), Refusal>
    requires { judged everything (lent s words.now clauses.now irred.now core.now mid.now local.now rows.now counts.now rec.now (lent_by host)) ≡ 0 }
    ensures { number_of result ≡ own_number unit_simplify (lent s words.now clauses.now irred.now core.now mid.now local.now rows.now counts.now rec.now (lent_by host.entry)) }
{
    let level = host.level;
    let assigned = host.assigned;
    if 0 < level {
        return Err(Refusal::Level);
    }
    if 0 < assigned {
        return Err(Refusal::Level);
    }
    if lacking::long_lacks(words, clauses, s.clauses, host.values) {
        return Err(Refusal::Open);
    }
    let room = rows.len() / (2 * s.vars);
    if lacking::rows_lack(rows, room, counts, host.values) {
        return Err(Refusal::Open);
    }
    if simplify_room::has_room(s, words, clauses, rows, counts, rec, host.values) {
        return Ok(());
    }
    Err(Refusal::Room)
}
