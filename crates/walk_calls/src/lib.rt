// The calls on the store: each is lent the parts that `op=room` and V leave of the walk's buffers.
#![tactic(auto)]

use kinds::{ClauseRef, HostSide};
use walk_kinds::{Lent, Told, Walk};

// `op=start`: "starts the store with decay 0.5"
pub fn start(walk: &mut Walk, lent: Lent<'_>, vars: usize) -> Told {
    let Lent {
        words,
        clauses,
        irred,
        core,
        mid,
        local,
        rows,
        counts,
        rec,
        ..
    } = lent;
    let answer = starting::start(
        walk.state, vars, 0.5, words, clauses, irred, core, mid, local, rows, counts, rec,
    );
    walk_replies::plain(walk, answer)
}

// ---- adding and choosing

// `op=long`
pub fn long(walk: &mut Walk, lent: Lent<'_>, tier: usize, glue: usize, lits: &[u32]) -> Told {
    let Lent {
        words,
        clauses,
        irred,
        core,
        mid,
        local,
        ..
    } = lent;
    let answer = db::add_clause(
        walk.state, words, clauses, irred, core, mid, local, tier, glue, lits,
    );
    walk_replies::added(walk, answer)
}

// `op=tier`
pub fn tier(walk: &mut Walk, lent: Lent<'_>, cref: ClauseRef, tier: usize) -> Told {
    let Lent {
        words,
        clauses,
        irred,
        core,
        mid,
        local,
        ..
    } = lent;
    let answer = db::set_clause_tier(
        walk.state, words, clauses, irred, core, mid, local, cref, tier,
    );
    walk_replies::plain(walk, answer)
}

// `op=bump`
pub fn bump(walk: &mut Walk, lent: Lent<'_>, cref: ClauseRef) -> Told {
    let Lent {
        words,
        clauses,
        irred,
        core,
        mid,
        local,
        levels,
        ..
    } = lent;
    let answer = activity_calls::bump_clause(
        walk.state, words, clauses, irred, core, mid, local, levels, cref,
    );
    walk_replies::plain(walk, answer)
}

// `op=decay`
pub fn decay(walk: &mut Walk, lent: Lent<'_>) -> Told {
    let Lent {
        words,
        clauses,
        irred,
        core,
        mid,
        local,
        ..
    } = lent;
    let answer = activity_calls::decay(walk.state, words, clauses, irred, core, mid, local);
    walk_replies::plain(walk, answer)
}

// `op=mids`
pub fn mids(walk: &mut Walk, lent: Lent<'_>) -> Told {
    let Lent {
        words,
        clauses,
        irred,
        core,
        mid,
        local,
        ..
    } = lent;
    let answer = reduce_calls::reduce_mids(walk.state, words, clauses, irred, core, mid, local);
    walk_replies::plain(walk, answer)
}

// `op=binary`
pub fn binary(walk: &mut Walk, lent: Lent<'_>, lits: &[u32]) -> Told {
    let Lent { rows, counts, .. } = lent;
    let answer = binary_calls::add_binary_clause(walk.state, rows, counts, lits);
    walk_replies::plain(walk, answer)
}

// `op=empty`
pub fn empty(walk: &mut Walk, lent: Lent<'_>) -> Told {
    let Lent { rec, .. } = lent;
    let answer = reading_calls::empty_record(walk.state, rec);
    walk_replies::plain(walk, answer)
}

// `op=assess`
pub fn assess(walk: &Walk, lent: Lent<'_>, lits: &[u32]) -> Told {
    let Lent { levels, .. } = lent;
    let answer = reading_calls::assess_learned_clause(walk.state.vars, levels, lits);
    walk_replies::assessed(answer)
}

// ---- cleaning up

// `op=delete`
pub fn delete(walk: &mut Walk, lent: Lent<'_>, cref: ClauseRef) -> Told {
    let Lent {
        words,
        clauses,
        irred,
        core,
        mid,
        local,
        rec,
        values,
        kinds,
        reasons,
        levels,
        trail,
        ..
    } = lent;
    let host = HostSide {
        values,
        kinds,
        reasons,
        levels,
        trail,
        assigned: walk.assigned,
        level: walk.level,
    };
    let answer = delete_calls::delete_clause(
        walk.state, words, clauses, irred, core, mid, local, rec, host, cref,
    );
    walk_replies::changed(walk, answer)
}

// `op=locals`
pub fn locals(walk: &mut Walk, lent: Lent<'_>) -> Told {
    let Lent {
        words,
        clauses,
        irred,
        core,
        mid,
        local,
        rec,
        values,
        kinds,
        reasons,
        levels,
        trail,
        ..
    } = lent;
    let host = HostSide {
        values,
        kinds,
        reasons,
        levels,
        trail,
        assigned: walk.assigned,
        level: walk.level,
    };
    let answer = reduce_calls::reduce_locals(
        walk.state, words, clauses, irred, core, mid, local, rec, host,
    );
    walk_replies::changed(walk, answer)
}

// `op=collect`
pub fn collect(walk: &mut Walk, lent: Lent<'_>) -> Told {
    let Lent {
        words,
        clauses,
        irred,
        core,
        mid,
        local,
        values,
        kinds,
        reasons,
        levels,
        trail,
        ..
    } = lent;
    let assigned = walk.assigned;
    let answer = gc::collect_garbage(
        walk.state, words, clauses, irred, core, mid, local, values, kinds, reasons, levels, trail,
        assigned, walk.level,
    );
    walk_replies::changed(walk, answer)
}

// `op=units`
pub fn units(walk: &mut Walk, lent: Lent<'_>) -> Told {
    let Lent {
        words,
        clauses,
        rec,
        values,
        kinds,
        reasons,
        levels,
        trail,
        ..
    } = lent;
    let assigned = walk.assigned;
    let answer = unit_simplify::prove_units(
        walk.state, words, clauses, rec, values, kinds, reasons, levels, trail, assigned,
        walk.level,
    );
    walk_replies::proved(walk, answer)
}

// `op=simplify`
pub fn simplify(walk: &mut Walk, lent: Lent<'_>) -> Told {
    let Lent {
        words,
        clauses,
        irred,
        core,
        mid,
        local,
        rows,
        counts,
        rec,
        values,
        kinds,
        reasons,
        levels,
        trail,
    } = lent;
    let host = HostSide {
        values,
        kinds,
        reasons,
        levels,
        trail,
        assigned: walk.assigned,
        level: walk.level,
    };
    let answer = unit_simplify::unit_simplify(
        walk.state, words, clauses, irred, core, mid, local, rows, counts, rec, host,
    );
    walk_replies::changed(walk, answer)
}
