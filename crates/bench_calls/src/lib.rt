// What the benchmark calls: the judging alone, the steps below it, what a step is refused for, and the whole judged calls, exported for a host. For measuring only: a function that has a `requires` trusts its caller to have judged before.
// Each buffer is a parameter of its own, as a caller in C passes it; so are a tier's number, a literal's code and an answer.
#![tactic(auto)]

ghost use Rattle.std.specs.Prelude.{◌≡◌, [], ℕ, ◌≤◌};
ghost use Rattle.kinds.specs.Lent.{lent, lent_five, levels_only, host_of, no_host};
ghost use Rattle.calls.specs.Call.{add_clause, bump, reduce_locals, collect, unit_simplify, five_lists, five_lists_levels, five_lists_host, five_lists_record_host, everything};
ghost use Rattle.calls.specs.Outcome.{judged, own_number};

use kinds::{ClauseRef, HostSide, Refusal, State};

// 0, or the table's number.
fn number_of(answer: Result<(), Refusal>) -> usize {
    match answer {
        Ok(()) => 0,
        Err(refusal) => u32::from(refusal) as usize,
    }
}

// ---- the judging

// The judging of adding.
#[unsafe(no_mangle)]
pub extern "C" fn bench_judge_five(
    s: State,
    words: &mut [u32],
    clauses: &[u32],
    irred: &[u32],
    core: &[u32],
    mid: &[u32],
    local: &[u32],
) -> usize {
    number_of(judge::judge_five(s, words, clauses, irred, core, mid, local))
}

// The judging of bumping.
#[unsafe(no_mangle)]
pub extern "C" fn bench_judge_five_levels(
    s: State,
    words: &mut [u32],
    clauses: &[u32],
    irred: &[u32],
    core: &[u32],
    mid: &[u32],
    local: &[u32],
    levels: &[u32],
) -> usize {
    number_of(judge::judge_five_levels(s, words, clauses, irred, core, mid, local, levels))
}

// The judging of collecting.
#[unsafe(no_mangle)]
pub extern "C" fn bench_judge_five_host(
    s: State,
    words: &mut [u32],
    clauses: &[u32],
    irred: &[u32],
    core: &[u32],
    mid: &[u32],
    local: &[u32],
    values: &[u8],
    kinds: &[u8],
    reasons: &[u32],
    levels: &[u32],
    trail: &[u32],
    assigned: usize,
    level: usize,
) -> usize {
    number_of(judge::judge_five_host(
        s,
        words,
        clauses,
        irred,
        core,
        mid,
        local,
        HostSide {
            values,
            kinds,
            reasons,
            levels,
            trail,
            assigned,
            level,
        },
    ))
}

// The judging of reducing locals.
#[unsafe(no_mangle)]
pub extern "C" fn bench_judge_five_record_host(
    s: State,
    words: &mut [u32],
    clauses: &[u32],
    irred: &[u32],
    core: &[u32],
    mid: &[u32],
    local: &[u32],
    rec: &[u32],
    values: &[u8],
    kinds: &[u8],
    reasons: &[u32],
    levels: &[u32],
    trail: &[u32],
    assigned: usize,
    level: usize,
) -> usize {
    number_of(judge::judge_five_record_host(
        s,
        words,
        clauses,
        irred,
        core,
        mid,
        local,
        rec,
        HostSide {
            values,
            kinds,
            reasons,
            levels,
            trail,
            assigned,
            level,
        },
    ))
}

// The judging of `unit_simplify`: of everything.
#[unsafe(no_mangle)]
pub extern "C" fn bench_judge_all(
    s: State,
    words: &mut [u32],
    clauses: &[u32],
    irred: &[u32],
    core: &[u32],
    mid: &[u32],
    local: &[u32],
    rows: &[u32],
    counts: &[u32],
    rec: &[u32],
    values: &[u8],
    kinds: &[u8],
    reasons: &[u32],
    levels: &[u32],
    trail: &[u32],
    assigned: usize,
    level: usize,
) -> usize {
    number_of(judge::judge_all(
        s,
        words,
        clauses,
        irred,
        core,
        mid,
        local,
        rows,
        counts,
        rec,
        HostSide {
            values,
            kinds,
            reasons,
            levels,
            trail,
            assigned,
            level,
        },
    ))
}

// ---- adding a long clause

// The judged call.
#[unsafe(no_mangle)]
pub extern "C" fn bench_add_clause(
    s: State,
    words: &mut [u32],
    clauses: &mut [u32],
    irred: &mut [u32],
    core: &mut [u32],
    mid: &mut [u32],
    local: &mut [u32],
    tier: usize,
    glue: usize,
    lits: &[u32],
) -> State {
    let answer = db::add_clause(s, words, clauses, irred, core, mid, local, tier, glue, lits);
    match answer {
        Ok(added) => added.state,
        Err(_) => s,
    }
}

// The step. The caller has judged, and has found no refusal.
#[unsafe(no_mangle)]
pub extern "C" fn bench_append_clause(
    s: State,
    words: &mut [u32],
    clauses: &mut [u32],
    irred: &mut [u32],
    core: &mut [u32],
    mid: &mut [u32],
    local: &mut [u32],
    tier: usize,
    glue: usize,
    lits: &[u32],
) -> State
    requires no_host_value { judged five_lists (lent_five s words.old clauses.old irred.old core.old mid.old local.old no_host) ≡ 0 }
    requires no_host_value_2 { own_number (add_clause tier glue lits.now) (lent_five s words.old clauses.old irred.old core.old mid.old local.old no_host) ≡ 0 }
{
    db_steps::append_clause(s, words, clauses, irred, core, mid, local, tier, glue, lits)
}

// The costly part of what adding is refused for: whether the literals are in range, with different variables. The caller has judged.
#[unsafe(no_mangle)]
pub extern "C" fn bench_lits_pass(vars: usize, lits: &[u32]) -> bool
    requires { vars ≤ 65536 }
{
    if lits.len() <= short_lits::MOST {
        return short_lits::lits_pass(vars, lits);
    }
    judge_words::lits_pass(vars, lits)
}

// ---- bumping

// The judged call.
#[unsafe(no_mangle)]
pub extern "C" fn bench_bump_clause(
    s: State,
    words: &mut [u32],
    clauses: &mut [u32],
    irred: &mut [u32],
    core: &mut [u32],
    mid: &mut [u32],
    local: &mut [u32],
    levels: &[u32],
    cref: u32,
) -> State {
    let answer = activity_calls::bump_clause(
        s,
        words,
        clauses,
        irred,
        core,
        mid,
        local,
        levels,
        ClauseRef(cref),
    );
    match answer {
        Ok(state) => state,
        Err(_) => s,
    }
}

// What a bump is refused for. The caller has judged.
#[unsafe(no_mangle)]
pub extern "C" fn bench_refuse_bump(
    s: State,
    words: &[u32],
    clauses: &[u32],
    irred: &[u32],
    core: &[u32],
    mid: &[u32],
    local: &[u32],
    levels: &[u32],
    cref: u32,
) -> usize
    requires { judged five_lists_levels (lent_five s words.now clauses.now irred.now core.now mid.now local.now (levels_only levels.now)) ≡ 0 }
{
    number_of(activity_steps::refuse_bump(
        s,
        words,
        clauses,
        irred,
        core,
        mid,
        local,
        levels,
        ClauseRef(cref),
    ))
}

// The step. The caller has judged, and has found no refusal.
#[unsafe(no_mangle)]
pub extern "C" fn bench_bump(
    s: State,
    words: &mut [u32],
    clauses: &mut [u32],
    irred: &mut [u32],
    core: &mut [u32],
    mid: &mut [u32],
    local: &mut [u32],
    levels: &[u32],
    cref: u32,
) -> State
    requires levels_value { judged five_lists_levels (lent_five s words.old clauses.old irred.old core.old mid.old local.old (levels_only levels.now)) ≡ 0 }
    requires levels_value_2 { own_number (bump cref) (lent_five s words.old clauses.old irred.old core.old mid.old local.old (levels_only levels.now)) ≡ 0 }
{
    activity_steps::bump(
        s,
        words,
        clauses,
        irred,
        core,
        mid,
        local,
        levels,
        ClauseRef(cref),
    )
}

// ---- reducing locals

// The judged call.
#[unsafe(no_mangle)]
pub extern "C" fn bench_reduce_locals(
    s: State,
    words: &mut [u32],
    clauses: &mut [u32],
    irred: &mut [u32],
    core: &mut [u32],
    mid: &mut [u32],
    local: &mut [u32],
    rec: &mut [u32],
    values: &[u8],
    kinds: &[u8],
    reasons: &[u32],
    levels: &[u32],
    trail: &[u32],
    assigned: usize,
    level: usize,
) -> State {
    let answer = reduce_calls::reduce_locals(
        s,
        words,
        clauses,
        irred,
        core,
        mid,
        local,
        rec,
        HostSide {
            values,
            kinds,
            reasons,
            levels,
            trail,
            assigned,
            level,
        },
    );
    match answer {
        Ok(changed) => changed.state,
        Err(_) => s,
    }
}

// What reducing locals is refused for. The caller has judged.
#[unsafe(no_mangle)]
pub extern "C" fn bench_refuse_reduce_locals(
    s: State,
    words: &mut [u32],
    clauses: &[u32],
    irred: &[u32],
    core: &[u32],
    mid: &[u32],
    local: &[u32],
    rec: &[u32],
    values: &[u8],
    kinds: &[u8],
    reasons: &[u32],
    levels: &[u32],
    trail: &[u32],
    assigned: usize,
    level: usize,
) -> usize
    requires { judged five_lists_record_host (lent s words.old clauses.now irred.now core.now mid.now local.now [] [] rec.now (host_of values.now kinds.now reasons.now levels.now trail.now assigned level)) ≡ 0 }
{
    number_of(reduce_refusals::refuse_reduce_locals(
        s,
        words,
        clauses,
        irred,
        core,
        mid,
        local,
        rec,
        HostSide {
            values,
            kinds,
            reasons,
            levels,
            trail,
            assigned,
            level,
        },
    ))
}

// The step. The caller has judged, and has found no refusal.
#[unsafe(no_mangle)]
pub extern "C" fn bench_locals(
    s: State,
    words: &mut [u32],
    clauses: &mut [u32],
    irred: &mut [u32],
    core: &mut [u32],
    mid: &mut [u32],
    local: &mut [u32],
    rec: &mut [u32],
    values: &[u8],
    kinds: &[u8],
    reasons: &[u32],
    levels: &[u32],
    trail: &[u32],
    assigned: usize,
    level: usize,
) -> State
    requires level_value { judged five_lists_record_host (lent s words.old clauses.old irred.old core.old mid.old local.old [] [] rec.old (host_of values.now kinds.now reasons.now levels.now trail.now assigned level)) ≡ 0 }
    requires level_value_2 { own_number reduce_locals (lent s words.old clauses.old irred.old core.old mid.old local.old [] [] rec.old (host_of values.now kinds.now reasons.now levels.now trail.now assigned level)) ≡ 0 }
{
    let finished = reduce_steps::locals(
        s,
        words,
        clauses,
        irred,
        core,
        mid,
        local,
        rec,
        HostSide {
            values,
            kinds,
            reasons,
            levels,
            trail,
            assigned,
            level,
        },
    );
    finished.state
}

// ---- collecting

// The judged call.
#[unsafe(no_mangle)]
pub extern "C" fn bench_collect_garbage(
    s: State,
    words: &mut [u32],
    clauses: &mut [u32],
    irred: &mut [u32],
    core: &mut [u32],
    mid: &mut [u32],
    local: &mut [u32],
    values: &[u8],
    kinds: &[u8],
    reasons: &mut [u32],
    levels: &[u32],
    trail: &[u32],
    assigned: usize,
    level: usize,
) -> State {
    let answer = gc::collect_garbage(
        s, words, clauses, irred, core, mid, local, values, kinds, reasons, levels, trail,
        assigned, level,
    );
    match answer {
        Ok(changed) => changed.state,
        Err(_) => s,
    }
}

// The step; a collection is refused for nothing but 1 to 3. The caller has judged, and has found no refusal.
#[unsafe(no_mangle)]
pub extern "C" fn bench_collect(
    s: State,
    words: &mut [u32],
    clauses: &mut [u32],
    irred: &mut [u32],
    core: &mut [u32],
    mid: &mut [u32],
    local: &mut [u32],
    values: &[u8],
    kinds: &[u8],
    reasons: &mut [u32],
    levels: &[u32],
    trail: &[u32],
    assigned: usize,
    level: usize,
) -> State
    requires level_value { judged five_lists_host (lent_five s words.old clauses.old irred.old core.old mid.old local.old (host_of values.now kinds.now reasons.old levels.now trail.now assigned level)) ≡ 0 }
    requires level_value_2 { own_number collect (lent_five s words.old clauses.old irred.old core.old mid.old local.old (host_of values.now kinds.now reasons.old levels.now trail.now assigned level)) ≡ 0 }
{
    let finished = gc_steps::collect(
        s, words, clauses, irred, core, mid, local, values, kinds, reasons, levels, trail,
        assigned, level,
    );
    finished.state
}

// ---- `unit_simplify`

// The judged call.
#[unsafe(no_mangle)]
pub extern "C" fn bench_unit_simplify(
    s: State,
    words: &mut [u32],
    clauses: &mut [u32],
    irred: &mut [u32],
    core: &mut [u32],
    mid: &mut [u32],
    local: &mut [u32],
    rows: &mut [u32],
    counts: &mut [u32],
    rec: &mut [u32],
    values: &[u8],
    kinds: &[u8],
    reasons: &[u32],
    levels: &[u32],
    trail: &[u32],
    assigned: usize,
    level: usize,
) -> State {
    let answer = unit_simplify::unit_simplify(
        s,
        words,
        clauses,
        irred,
        core,
        mid,
        local,
        rows,
        counts,
        rec,
        HostSide {
            values,
            kinds,
            reasons,
            levels,
            trail,
            assigned,
            level,
        },
    );
    match answer {
        Ok(changed) => changed.state,
        Err(_) => s,
    }
}

// What simplifying is refused for. The caller has judged.
#[unsafe(no_mangle)]
pub extern "C" fn bench_refuse_unit_simplify(
    s: State,
    words: &[u32],
    clauses: &[u32],
    irred: &[u32],
    core: &[u32],
    mid: &[u32],
    local: &[u32],
    rows: &[u32],
    counts: &[u32],
    rec: &[u32],
    values: &[u8],
    kinds: &[u8],
    reasons: &[u32],
    levels: &[u32],
    trail: &[u32],
    assigned: usize,
    level: usize,
) -> usize
    requires { judged everything (lent s words.now clauses.now irred.now core.now mid.now local.now rows.now counts.now rec.now (host_of values.now kinds.now reasons.now levels.now trail.now assigned level)) ≡ 0 }
{
    number_of(simplify_steps::refuse_unit_simplify(
        s,
        words,
        clauses,
        irred,
        core,
        mid,
        local,
        rows,
        counts,
        rec,
        HostSide {
            values,
            kinds,
            reasons,
            levels,
            trail,
            assigned,
            level,
        },
    ))
}

// The step. The caller has judged, and has found no refusal.
#[unsafe(no_mangle)]
pub extern "C" fn bench_simplify(
    s: State,
    words: &mut [u32],
    clauses: &mut [u32],
    irred: &mut [u32],
    core: &mut [u32],
    mid: &mut [u32],
    local: &mut [u32],
    rows: &mut [u32],
    counts: &mut [u32],
    rec: &mut [u32],
    values: &[u8],
    kinds: &[u8],
    reasons: &[u32],
    levels: &[u32],
    trail: &[u32],
    assigned: usize,
    level: usize,
) -> State
    requires level_value { judged everything (lent s words.old clauses.old irred.old core.old mid.old local.old rows.old counts.old rec.old (host_of values.now kinds.now reasons.now levels.now trail.now assigned level)) ≡ 0 }
    requires level_value_2 { own_number unit_simplify (lent s words.old clauses.old irred.old core.old mid.old local.old rows.old counts.old rec.old (host_of values.now kinds.now reasons.now levels.now trail.now assigned level)) ≡ 0 }
{
    simplify_steps::simplify(
        s,
        words,
        clauses,
        irred,
        core,
        mid,
        local,
        rows,
        counts,
        rec,
        HostSide {
            values,
            kinds,
            reasons,
            levels,
            trail,
            assigned,
            level,
        },
    )
}
