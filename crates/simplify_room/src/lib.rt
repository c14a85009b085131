// Refusal 11 of `unit_simplify`: whether the finished call fits, found out before anything is written.
// The store's buffers are slices beside the state, each a parameter: "a state by value, slices beside it" (docs/01-scope.md, What must change shape).
#![tactic(auto)]

ghost use Rattle.std.specs.Prelude.{◌≡◌, false, ℕ, ◌+◌, ◌*◌, ◌≤◌, ◌<◌, ◌^◌, length};
ghost use Rattle.laws.specs.Fold.{all_below, sum_below, fold_below};
ghost use Rattle.laws.specs.Lists.{at, more};
ghost use Rattle.kinds.specs.Clauses.{len_at, lits_at, end_at, deleted_at, neg, var_of};
ghost use Rattle.kinds.specs.Layout.{view, fit};
ghost use Rattle.calls.specs.HostPasses.{at_most_at};
ghost use Rattle.calls.specs.Simplifying.{unfalsified, verdict_of, simplified};
ghost use Rattle.simplify_lines.specs.Walk.{walk_parts, lent_walk};
ghost use Rattle.simplify_room.specs.Needed.{verdict_words, clause_words, pair_tallied, RoomReady};

use kinds::{Lit, LitValue, State, Verdict};

// The verdict on the clause at an offset, nothing being written.
pub fn verdict_at(words: &[u32], offset: usize, values: &[u8]) -> Verdict
    requires offset_in_bounds { end_at words.now offset ≤ length words.now }
    requires by_index { (p : ℕ) → p < len_at words.now offset → var_of (at words.now (offset + 3 + p)) < length values.now }
    ensures { result ≡ verdict_of values.now (lits_at words.now offset) }
{
    let lits = alloc::lits(words, offset);
    let mut kept = 0;
    for &lit in lits {
        let value = kinds::lit_value(values, Lit(lit));
        if let LitValue::Unassigned = value {
            kept += 1;
        }
        let LitValue::True = value else {
            continue;
        };
        return Verdict::Satisfied;
    }
    if kept == lits.len() {
        return Verdict::Same;
    }
    Verdict::Shorter(kept)
}

pub fn verdict_words(v: Verdict, len: u32) -> usize
    requires { verdict_words v len < 2 ^ 34 }
    ensures { (result ≡ verdict_words v len) × (result < 2 ^ 34) }
{
    match v {
        Verdict::Satisfied => len as usize + 2,
        Verdict::Same => 0,
        Verdict::Shorter(m) => (m + 2) + (len as usize + 2),
    }
}

// The words of the lines of the first n entries. They are listed clauses, each ending within the buffer; the literals of live ones are in range.
pub fn long_words(words: &[u32], clauses: &[u32], n: usize, values: &[u8]) -> usize
    requires n_in_bounds { (n ≤ length clauses.now) × (length clauses.now ≤ 2 ^ 22) × ((i : ℕ) → i < n → end_at words.now (at clauses.now i) ≤ length words.now) }
    requires by_index { (i : ℕ) → i < n → deleted_at words.now (at clauses.now i) ≡ false → (p : ℕ) → p < len_at words.now (at clauses.now i) → var_of (at words.now (at clauses.now i + 3 + p)) < length values.now }
    ensures { (result ≡ sum_below (clause_words values.now words.now clauses.now) n) × (result ≤ n * 2 ^ 34) }
{
    let mut sum = 0;
    for &clause in &clauses[..n] {
        let offset = clause as usize;
        if header::deleted_of(words[offset + 1]) {
            continue;
        }
        let verdict = verdict_at(words, offset, values);
        sum += verdict_words(verdict, words[offset + 2]);
    }
    sum
}

// The two literals that are not false of the clause at an offset, which has just two.
pub fn two_left(words: &[u32], offset: usize, values: &[u8]) -> [u32; 2]
    requires offset_in_bounds { (end_at words.now offset ≤ length words.now) × (length (unfalsified values.now (lits_at words.now offset)) ≡ 2) }
    requires by_index { (p : ℕ) → p < len_at words.now offset → var_of (at words.now (offset + 3 + p)) < length values.now }
    ensures { result ≡ unfalsified values.now (lits_at words.now offset) }
{
    let mut two = [0u32; 2];
    let n = buffers::word(words, offset + 2);
    simplify_lines::copy_unfalsified(&mut two, 0, values, words, offset + 3, n);
    two
}

// One more in the tally for each of the two rows that {a, b} goes to.
pub fn tally_pair(tally: &mut [u32], a: u32, b: u32)
    requires a_in_bounds { (neg a < length tally.old) × (neg b < length tally.old) }
    requires by_index { (c : ℕ) → at tally.old c ≤ 2 ^ 31 }
    ensures { tally.new ≡ more (neg b) (more (neg a) tally.old) }
{
    let not_a = Lit(a).negated().0 as usize;
    let not_b = Lit(b).negated().0 as usize;
    tally[not_a] += 1;
    tally[not_b] += 1;
}

// The entries that shortened clauses of the first n entries add to each row.
pub fn tally_pairs(words: &[u32], clauses: &[u32], n: usize, values: &[u8], tally: &mut [u32])
    requires n_in_bounds { (n ≤ length clauses.now) × (length clauses.now ≤ 2 ^ 22) × ((i : ℕ) → i < n → end_at words.now (at clauses.now i) ≤ length words.now) }
    requires by_index { (i : ℕ) → i < n → deleted_at words.now (at clauses.now i) ≡ false → (p : ℕ) → p < len_at words.now (at clauses.now i)
        → (var_of (at words.now (at clauses.now i + 3 + p)) < length values.now) × (neg (at words.now (at clauses.now i + 3 + p)) < length tally.old) }
    requires by_index_2 { (c : ℕ) → at tally.old c ≤ 2 ^ 24 }
    ensures { tally.new ≡ fold_below (pair_tallied values.now words.now clauses.now) tally.old n }
{
    for &clause in &clauses[..n] {
        let offset = clause as usize;
        if header::deleted_of(words[offset + 1]) {
            continue;
        }
        let Verdict::Shorter(m) = verdict_at(words, offset, values) else {
            continue;
        };
        if m != 2 {
            continue;
        }
        let [a, b] = two_left(words, offset, values);
        tally_pair(tally, a, b);
    }
}

// Whether each of the first n numbers is at most m.
pub fn all_within(list: &[u32], n: usize, m: usize) -> bool
    requires { n ≤ length list.now }
    ensures { result ≡ all_below (at_most_at m list.now) n }
{
    list[..n].iter().all(|&x| x as usize <= m)
}

// Whether record and rows have room for the finished call: the lines of both halves, and for each row what stays plus what shortened clauses add.
pub fn has_room(
    s: State,
    words: &[u32],
    clauses: &[u32],
    rows: &[u32],
    counts: &[u32],
    rec: &[u32],
    values: &[u8],
) -> bool
    requires { RoomReady (lent_walk s words.now clauses.now rows.now counts.now rec.now values.now) }
    ensures { result ≡ fit walk_parts (lent_walk s words.now clauses.now rows.now counts.now rec.now values.now)
        (simplified (view (lent_walk s words.now clauses.now rows.now counts.now rec.now values.now))) }
{
    let room = rows.len() / (2 * s.vars);
    let mut tally = [0u32; 131072];
    let short = binary_clean::count_rows(rows, room, counts, values, &mut tally);
    let long = long_words(words, clauses, s.clauses, values);
    if rec.len() < s.recorded + short + long {
        return false;
    }
    tally_pairs(words, clauses, s.clauses, values, &mut tally);
    all_within(&tally, counts.len(), room)
}
