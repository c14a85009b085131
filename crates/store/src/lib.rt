// The static library: every public call under a plain name, for a caller in C or Rust. The state goes by value, a slice as a pointer and a length, an answer as numbers.
// Each buffer is a parameter of its own, as a caller in C passes it; so are a tier's number, a literal's code and an answer.
#![tactic(auto)]

ghost use Rattle.std.specs.Prelude.{◌≡◌, [], ℕ, ◌+◌, ◌*◌};
ghost use Rattle.kinds.specs.Lent.{Lent, lent, lent_five, lent_words, lent_rows, lent_record, lent_levels, lent_activity, host_of, levels_only, no_host, room_of};
ghost use Rattle.calls.specs.Call.{add_clause, set_tier, delete, add_binary, implied, literals, assess, bump, decay, set_decay, reduce_locals, reduce_mids, collect, prove_units, unit_simplify, empty_record, view_fields, view_literal};
ghost use Rattle.calls.specs.Outcome.{done, start_done, nothing, fields};
ghost use Rattle.store_kinds.specs.Heard.{heard, assessed_given, assessed_heard, fields_heard, part_given, part_heard, state_numbers};
ghost use Rattle.laws.specs.Lists.{at};

use kinds::{ClauseActivity, ClauseRef, HostSide, Lit, State};
use store_kinds::{
    AssessedNumbers, DecayNumbers, FieldNumbers, Part, PlaceNumbers, Reply, UnitsReply,
};

#[unsafe(no_mangle)]
pub extern "C" fn mihorempo_start(
    s: State,
    vars: usize,
    decay: f32,
    words: &mut [u32],
    clauses: &mut [u32],
    irred: &mut [u32],
    core: &mut [u32],
    mid: &mut [u32],
    local: &mut [u32],
    rows: &mut [u32],
    counts: &mut [u32],
    rec: &mut [u32],
) -> Reply
    ensures { record { number = result.number; value = result.answer; then = lent result.state words.new clauses.new irred.new core.new mid.new local.new rows.new counts.new rec.new no_host }
        ≡ heard (start_done vars decay (lent s words.old clauses.old irred.old core.old mid.old local.old rows.old counts.old rec.old no_host)) }
{
    let reply = starting::start(
        s, vars, decay, words, clauses, irred, core, mid, local, rows, counts, rec,
    );
    store_kinds::plain(s, reply)
}

// The answer is the new clause's reference.
#[unsafe(no_mangle)]
pub extern "C" fn mihorempo_add_clause(
    s: State,
    words: &mut [u32],
    clauses: &mut [u32],
    irred: &mut [u32],
    core: &mut [u32],
    mid: &mut [u32],
    local: &mut [u32],
    tier: usize,
    glue: usize,
    lits: &[u32],
) -> Reply
    ensures { record { number = result.number; value = result.answer; then = lent_five result.state words.new clauses.new irred.new core.new mid.new local.new no_host }
        ≡ heard (done (add_clause tier glue lits.now) (lent_five s words.old clauses.old irred.old core.old mid.old local.old no_host)) }
{
    let reply = db::add_clause(s, words, clauses, irred, core, mid, local, tier, glue, lits);
    store_kinds::added(s, reply)
}

#[unsafe(no_mangle)]
pub extern "C" fn mihorempo_set_clause_tier(
    s: State,
    words: &mut [u32],
    clauses: &mut [u32],
    irred: &mut [u32],
    core: &mut [u32],
    mid: &mut [u32],
    local: &mut [u32],
    cref: u32,
    tier: usize,
) -> Reply
    ensures { record { number = result.number; value = result.answer; then = lent_five result.state words.new clauses.new irred.new core.new mid.new local.new no_host }
        ≡ heard (done (set_tier cref tier) (lent_five s words.old clauses.old irred.old core.old mid.old local.old no_host)) }
{
    let reply = db::set_clause_tier(
        s,
        words,
        clauses,
        irred,
        core,
        mid,
        local,
        ClauseRef(cref),
        tier,
    );
    store_kinds::plain(s, reply)
}

// The answer is 1: "rebuild them".
#[unsafe(no_mangle)]
pub extern "C" fn mihorempo_delete_clause(
    s: State,
    words: &mut [u32],
    clauses: &mut [u32],
    irred: &mut [u32],
    core: &mut [u32],
    mid: &mut [u32],
    local: &mut [u32],
    rec: &mut [u32],
    values: &[u8],
    kinds: &[u8],
    reasons: &[u32],
    levels: &[u32],
    trail: &[u32],
    assigned: usize,
    level: usize,
    cref: u32,
) -> Reply
    ensures { record { number = result.number; value = result.answer; then = lent result.state words.new clauses.new irred.new core.new mid.new local.new [] [] rec.new (host_of values.now kinds.now reasons.now levels.now trail.now assigned level) }
        ≡ heard (done (delete cref) (lent s words.old clauses.old irred.old core.old mid.old local.old [] [] rec.old (host_of values.now kinds.now reasons.now levels.now trail.now assigned level))) }
{
    let reply = delete_calls::delete_clause(
        s,
        words,
        clauses,
        irred,
        core,
        mid,
        local,
        rec,
        HostSide {
            values,
            kinds,
            reasons,
            levels,
            trail,
            assigned,
            level,
        },
        ClauseRef(cref),
    );
    store_kinds::changed(s, reply)
}

#[unsafe(no_mangle)]
pub extern "C" fn mihorempo_add_binary_clause(
    s: State,
    rows: &mut [u32],
    counts: &mut [u32],
    lits: &[u32],
) -> Reply
    ensures { record { number = result.number; value = result.answer; then = lent_rows result.state rows.new counts.new }
        ≡ heard (done (add_binary lits.now) (lent_rows s rows.old counts.old)) }
{
    let reply = binary_calls::add_binary_clause(s, rows, counts, lits);
    store_kinds::plain(s, reply)
}

// The implied literals of a literal: where they start in the rows, and how many they are.
#[unsafe(no_mangle)]
pub extern "C" fn mihorempo_implied(s: State, rows: &[u32], counts: &[u32], lit: u32) -> Part
    ensures { part_given rows.now result
        ≡ part_heard (lit * room_of s.vars rows.now) (done (implied lit) (lent_rows s rows.now counts.now)) }
{
    store_parts::implied(s, rows, counts, Lit(lit))
}

// A clause's literals: where they start in the words, and how many they are.
#[unsafe(no_mangle)]
pub extern "C" fn mihorempo_clause_lits(s: State, words: &[u32], clauses: &[u32], cref: u32) -> Part
    ensures { part_given words.now result
        ≡ part_heard (cref + 3) (done (literals cref) (lent_words s words.now clauses.now [] no_host)) }
{
    store_parts::clause_lits(s, words, clauses, ClauseRef(cref))
}

#[unsafe(no_mangle)]
pub extern "C" fn mihorempo_assess_learned_clause(
    vars: usize,
    levels: &[u32],
    lits: &[u32],
) -> AssessedNumbers
    ensures { assessed_given result ≡ assessed_heard (done (assess lits.now) (lent_levels vars levels.now)) }
{
    let reply = reading_calls::assess_learned_clause(vars, levels, lits);
    store_kinds::assessed(reply)
}

#[unsafe(no_mangle)]
pub extern "C" fn mihorempo_bump_clause(
    s: State,
    words: &mut [u32],
    clauses: &mut [u32],
    irred: &mut [u32],
    core: &mut [u32],
    mid: &mut [u32],
    local: &mut [u32],
    levels: &[u32],
    cref: u32,
) -> Reply
    ensures { record { number = result.number; value = result.answer; then = lent_five result.state words.new clauses.new irred.new core.new mid.new local.new (levels_only levels.now) }
        ≡ heard (done (bump cref) (lent_five s words.old clauses.old irred.old core.old mid.old local.old (levels_only levels.now))) }
{
    let reply = activity_calls::bump_clause(
        s,
        words,
        clauses,
        irred,
        core,
        mid,
        local,
        levels,
        ClauseRef(cref),
    );
    store_kinds::plain(s, reply)
}

#[unsafe(no_mangle)]
pub extern "C" fn mihorempo_decay(
    s: State,
    words: &mut [u32],
    clauses: &mut [u32],
    irred: &[u32],
    core: &[u32],
    mid: &[u32],
    local: &[u32],
) -> Reply
    ensures { record { number = result.number; value = result.answer; then = lent_five result.state words.new clauses.new irred.now core.now mid.now local.now no_host }
        ≡ heard (done decay (lent_five s words.old clauses.old irred.now core.now mid.now local.now no_host)) }
{
    let reply = activity_calls::decay(s, words, clauses, irred, core, mid, local);
    store_kinds::plain(s, reply)
}

#[unsafe(no_mangle)]
pub extern "C" fn mihorempo_set_decay(activity: ClauseActivity, decay: f32) -> DecayNumbers
    ensures { record { number = result.number; answer = nothing; then = lent_activity result.activity } ≡ done (set_decay decay) (lent_activity activity) }
{
    let reply = activity::set_decay(activity, decay);
    store_kinds::decay_set(activity, reply)
}

// The answer is 1 where a clause was struck: "rebuild them".
#[unsafe(no_mangle)]
pub extern "C" fn mihorempo_reduce_locals(
    s: State,
    words: &mut [u32],
    clauses: &mut [u32],
    irred: &mut [u32],
    core: &mut [u32],
    mid: &mut [u32],
    local: &mut [u32],
    rec: &mut [u32],
    values: &[u8],
    kinds: &[u8],
    reasons: &[u32],
    levels: &[u32],
    trail: &[u32],
    assigned: usize,
    level: usize,
) -> Reply
    ensures { record { number = result.number; value = result.answer; then = lent result.state words.new clauses.new irred.new core.new mid.new local.new [] [] rec.new (host_of values.now kinds.now reasons.now levels.now trail.now assigned level) }
        ≡ heard (done reduce_locals (lent s words.old clauses.old irred.old core.old mid.old local.old [] [] rec.old (host_of values.now kinds.now reasons.now levels.now trail.now assigned level))) }
{
    let reply = reduce_calls::reduce_locals(
        s,
        words,
        clauses,
        irred,
        core,
        mid,
        local,
        rec,
        HostSide {
            values,
            kinds,
            reasons,
            levels,
            trail,
            assigned,
            level,
        },
    );
    store_kinds::changed(s, reply)
}

#[unsafe(no_mangle)]
pub extern "C" fn mihorempo_reduce_mids(
    s: State,
    words: &mut [u32],
    clauses: &mut [u32],
    irred: &mut [u32],
    core: &mut [u32],
    mid: &mut [u32],
    local: &mut [u32],
) -> Reply
    ensures { record { number = result.number; value = result.answer; then = lent_five result.state words.new clauses.new irred.new core.new mid.new local.new no_host }
        ≡ heard (done reduce_mids (lent_five s words.old clauses.old irred.old core.old mid.old local.old no_host)) }
{
    let reply = reduce_calls::reduce_mids(s, words, clauses, irred, core, mid, local);
    store_kinds::plain(s, reply)
}

// The answer is 1 where a collection was due: "rebuild them".
#[unsafe(no_mangle)]
pub extern "C" fn mihorempo_collect_garbage(
    s: State,
    words: &mut [u32],
    clauses: &mut [u32],
    irred: &mut [u32],
    core: &mut [u32],
    mid: &mut [u32],
    local: &mut [u32],
    values: &[u8],
    kinds: &[u8],
    reasons: &mut [u32],
    levels: &[u32],
    trail: &[u32],
    assigned: usize,
    level: usize,
) -> Reply
    ensures { record { number = result.number; value = result.answer; then = lent_five result.state words.new clauses.new irred.new core.new mid.new local.new (host_of values.now kinds.now reasons.new levels.now trail.now assigned level) }
        ≡ heard (done collect (lent_five s words.old clauses.old irred.old core.old mid.old local.old (host_of values.now kinds.now reasons.old levels.now trail.now assigned level))) }
{
    let reply = gc::collect_garbage(
        s, words, clauses, irred, core, mid, local, values, kinds, reasons, levels, trail,
        assigned, level,
    );
    store_kinds::changed(s, reply)
}

// The answer is 1 for a new unit.
#[unsafe(no_mangle)]
pub extern "C" fn mihorempo_prove_units(
    s: State,
    words: &[u32],
    clauses: &[u32],
    rec: &mut [u32],
    values: &[u8],
    kinds: &mut [u8],
    reasons: &mut [u32],
    levels: &[u32],
    trail: &mut [u32],
    assigned: usize,
    level: usize,
) -> UnitsReply
    ensures { record { number = result.number; value = result.answer; then = lent_words result.state words.now clauses.now rec.new (host_of values.now kinds.new reasons.new levels.now trail.new result.assigned level) }
        ≡ heard (done prove_units (lent_words s words.now clauses.now rec.old (host_of values.now kinds.old reasons.old levels.now trail.old assigned level))) }
{
    let reply = unit_simplify::prove_units(
        s, words, clauses, rec, values, kinds, reasons, levels, trail, assigned, level,
    );
    store_kinds::proved(s, assigned, reply)
}

// The answer is 1: "rebuild them".
#[unsafe(no_mangle)]
pub extern "C" fn mihorempo_unit_simplify(
    s: State,
    words: &mut [u32],
    clauses: &mut [u32],
    irred: &mut [u32],
    core: &mut [u32],
    mid: &mut [u32],
    local: &mut [u32],
    rows: &mut [u32],
    counts: &mut [u32],
    rec: &mut [u32],
    values: &[u8],
    kinds: &[u8],
    reasons: &[u32],
    levels: &[u32],
    trail: &[u32],
    assigned: usize,
    level: usize,
) -> Reply
    ensures { record { number = result.number; value = result.answer; then = lent result.state words.new clauses.new irred.new core.new mid.new local.new rows.new counts.new rec.new (host_of values.now kinds.now reasons.now levels.now trail.now assigned level) }
        ≡ heard (done unit_simplify (lent s words.old clauses.old irred.old core.old mid.old local.old rows.old counts.old rec.old (host_of values.now kinds.now reasons.now levels.now trail.now assigned level))) }
{
    let reply = unit_simplify::unit_simplify(
        s,
        words,
        clauses,
        irred,
        core,
        mid,
        local,
        rows,
        counts,
        rec,
        HostSide {
            values,
            kinds,
            reasons,
            levels,
            trail,
            assigned,
            level,
        },
    );
    store_kinds::changed(s, reply)
}

#[unsafe(no_mangle)]
pub extern "C" fn mihorempo_empty_record(s: State, rec: &mut [u32]) -> Reply
    ensures { record { number = result.number; value = result.answer; then = lent_record result.state rec.new }
        ≡ heard (done empty_record (lent_record s rec.old)) }
{
    let reply = reading_calls::empty_record(s, rec);
    store_kinds::plain(s, reply)
}

#[unsafe(no_mangle)]
pub extern "C" fn mihorempo_view_fields(words: &[u32]) -> FieldNumbers
    ensures { (k : Lent) → record { number = 0; answer = fields (fields_heard result); then = k } ≡ done (view_fields words.now) k }
{
    let reply = view::view_fields(words);
    store_kinds::fields_shown(reply)
}

#[unsafe(no_mangle)]
pub extern "C" fn mihorempo_view_literal(words: &[u32], place: usize) -> PlaceNumbers
    ensures { (k : Lent) → record { number = result.number; value = result.literal; then = k } ≡ heard (done (view_literal words.now place) k) }
{
    let reply = view::view_literal(words, place);
    store_kinds::place_shown(reply)
}

// Number `place` of the state, 0 past the last: by this a caller sees at start-up that each field of its own declaration arrives in its place.
#[unsafe(no_mangle)]
pub extern "C" fn mihorempo_state_number(s: State, place: usize) -> usize
    ensures { result ≡ at (state_numbers s) place }
{
    store_kinds::state_number(s, place)
}
