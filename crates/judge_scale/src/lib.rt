// Passing stores of a chosen size, built in lent buffers: what is judged where docs/performance.md counts. A buffer that is too short stays as it is.
// n clauses of four literals over 2n variables, a quarter of them in each tier; n binary clauses; every variable on the trail, every fourth by a long clause.
#![tactic(auto)]

ghost use Rattle.std.specs.Prelude.{◌+◌, ◌≤◌, ◌<◌, length};

use kinds::{ClauseActivity, HostSide, State};

// Header and literals of a clause of the tier t at o, about a group of four variables: the first literal positive, the others negated.
fn put_clause(words: &mut [u32], o: usize, t: usize, group: usize)
    requires { (o + 7 ≤ length words.old) × (t < 4) × (group < 16384) }
{
    let first = group as u32 * 8;
    let clause = [0, t as u32, 4, first, first + 3, first + 5, first + 7];
    words[o..o + 7].copy_from_slice(&clause);
}

// Clause i of the tier i mod 4 at 7i.
pub fn lay_words(words: &mut [u32], n: usize, groups: usize) {
    if 32768 < n || words.len() < n * 7 || groups == 0 || 16384 < groups {
        return;
    }
    for i in 0..n {
        put_clause(words, i * 7, i % 4, i % groups);
    }
}

// n references, the first one given and each other `step` above the one before it.
pub fn lay_list(list: &mut [u32], n: usize, first: usize, step: usize) {
    if 32768 < n || list.len() < n || 28 < first || 28 < step {
        return;
    }
    for i in 0..n {
        list[i] = (first + i * step) as u32;
    }
}

// Binary clauses of the variables 2i and 2i + 1, one entry a row.
pub fn lay_rows(rows: &mut [u32], counts: &mut [u32], n: usize) {
    if 32768 < n || rows.len() < n * 4 || counts.len() < n * 4 {
        return;
    }
    for i in 0..n {
        let code = i * 4;
        rows[code + 1] = code as u32 + 2;
        rows[code + 3] = code as u32;
        counts[code + 1] = 1;
        counts[code + 3] = 1;
    }
}

// The byte x for each variable.
pub fn lay_bytes(bytes: &mut [u8], n: usize, x: u8) {
    if n <= bytes.len() {
        bytes[..n].fill(x);
    }
}

// The positive literals of all variables.
pub fn lay_trail(trail: &mut [u32], n: usize) {
    if 65536 < n || trail.len() < n {
        return;
    }
    for i in 0..n {
        trail[i] = i as u32 * 2;
    }
}

// The first variable of each group is there by the clause of that group.
pub fn lay_reasons(kinds: &mut [u8], reasons: &mut [u32], groups: usize) {
    if 16384 < groups || kinds.len() < groups * 4 || reasons.len() < groups * 4 {
        return;
    }
    for i in 0..groups {
        kinds[i * 4] = 3;
        reasons[i * 4] = i as u32 * 7;
    }
}

// The state of the store with n clauses, a multiple of 4 and at most 32768.
pub fn state_of(n: usize) -> State
    requires { n ≤ 32768 }
{
    let quarters = [n / 4; 4];
    State {
        vars: n * 2,
        words: n * 7,
        clauses: n,
        tiers: quarters,
        recorded: 0,
        counts: quarters,
        garbage: 0,
        binary: n,
        activity: ClauseActivity {
            bump: 1.0,
            inv_decay: 2.0,
        },
    }
}

// The passing store of CLAUSES clauses is built in buffers just as long as it needs, and judged by the judging of `unit_simplify`: the table's number, 0 where it passes.
// WORDS is 7 words a clause, TIER a quarter of the clauses, ROWS 4 a clause and VARS 2 a clause: a computed length is refused in an array's type.
pub fn judged<
    const WORDS: usize,
    const CLAUSES: usize,
    const TIER: usize,
    const ROWS: usize,
    const VARS: usize,
>() -> u32
    requires { (WORDS ≤ 229376) × (CLAUSES ≤ 32768) × (TIER ≤ 8192) × (ROWS ≤ 131072) × (VARS ≤ 65536) }
{
    let mut words = [0; WORDS];
    let mut clauses = [0; CLAUSES];
    let mut irred = [0; TIER];
    let mut core = [0; TIER];
    let mut mid = [0; TIER];
    let mut local = [0; TIER];
    let mut rows = [0; ROWS];
    let mut counts = [0; ROWS];
    let rec = [0; 1];
    let mut values = [0; VARS];
    let mut kinds = [0; VARS];
    let mut reasons = [0; VARS];
    let levels = [0; VARS];
    let mut trail = [0; VARS];
    lay_words(&mut words, CLAUSES, CLAUSES / 2);
    lay_list(&mut clauses, CLAUSES, 0, 7);
    lay_list(&mut irred, TIER, 0, 28);
    lay_list(&mut core, TIER, 7, 28);
    lay_list(&mut mid, TIER, 14, 28);
    lay_list(&mut local, TIER, 21, 28);
    lay_rows(&mut rows, &mut counts, CLAUSES);
    lay_bytes(&mut values, VARS, 1);
    lay_bytes(&mut kinds, VARS, 1);
    lay_reasons(&mut kinds, &mut reasons, CLAUSES / 2);
    lay_trail(&mut trail, VARS);
    let host = HostSide {
        values: &values,
        kinds: &kinds,
        reasons: &reasons,
        levels: &levels,
        trail: &trail,
        assigned: VARS,
        level: 0,
    };
    let answer = judge::judge_all(
        state_of(CLAUSES),
        &mut words,
        &clauses,
        &irred,
        &core,
        &mid,
        &local,
        &rows,
        &counts,
        &rec,
        host,
    );
    match answer {
        Ok(()) => 0,
        Err(refusal) => u32::from(refusal),
    }
}
