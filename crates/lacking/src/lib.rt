// Refusal 10 of `unit_simplify`: clauses with no true literal and fewer than two unassigned.
#![tactic(auto)]

ghost use Rattle.std.specs.Prelude.{◌≡◌, false, ℕ, ◌+◌, ◌*◌, ◌≤◌, ◌<◌, length};
ghost use Rattle.laws.specs.Fold.{any_below};
ghost use Rattle.laws.specs.Lists.{at, list_at};
ghost use Rattle.kinds.specs.Clauses.{len_at, end_at, deleted_at, var_of};
ghost use Rattle.kinds.specs.Layout.{rows_of};
ghost use Rattle.calls.specs.Refusing.{lacking};
ghost use Rattle.lacking.specs.Lacks.{long_lacks, pair_lacks, row_lacks};

use kinds::{Lit, LitValue};

pub fn lacks(lits: &[u32], values: &[u8]) -> bool
    requires { (p : ℕ) → p < length lits.now → var_of (at lits.now p) < length values.now }
    ensures { result ≡ lacking values.now lits.now }
{
    let mut free = 0usize;
    for &lit in lits {
        let value = kinds::lit_value(values, Lit(lit));
        if let LitValue::Unassigned = value {
            free += 1;
        }
        let LitValue::True = value else {
            continue;
        };
        return false;
    }
    free < 2
}

// Some live one of the first n listed clauses lacks literals.
pub fn long_lacks(words: &[u32], clauses: &[u32], n: usize, values: &[u8]) -> bool
    requires n_in_bounds { (n ≤ length clauses.now) × ((i : ℕ) → i < n → end_at words.now (at clauses.now i) ≤ length words.now) }
    requires by_index { (i : ℕ) → i < n → deleted_at words.now (at clauses.now i) ≡ false → (p : ℕ) → p < len_at words.now (at clauses.now i) → var_of (at words.now (at clauses.now i + 3 + p)) < length values.now }
    ensures { result ≡ any_below (long_lacks values.now words.now clauses.now) n }
{
    for &clause in &clauses[..n] {
        let offset = clause as usize;
        if header::deleted_of(words[offset + 1]) {
            continue;
        }
        if lacks(alloc::lits(words, offset), values) {
            return true;
        }
    }
    false
}

// Some binary clause of the row of a code does.
pub fn row_lacks(row: &[u32], code: u32, values: &[u8]) -> bool
    requires code_in_bounds { var_of code < length values.now }
    requires by_index { (p : ℕ) → p < length row.now → var_of (at row.now p) < length values.now }
    ensures { result ≡ any_below (pair_lacks values.now code row.now) (length row.now) }
{
    let negated = Lit(code).negated().0;
    for &other in row {
        if lacks(&[negated, other], values) {
            return true;
        }
    }
    false
}

// Some binary clause of all rows does. The counts are within their room, and the entries in range.
pub fn rows_lack(rows: &[u32], room: usize, counts: &[u32], values: &[u8]) -> bool
    requires room_in_bounds { (length counts.now * room ≤ length rows.now) × (length counts.now ≡ 2 * length values.now) × (length counts.now ≤ 131072) × ((c : ℕ) → c < length counts.now → at counts.now c ≤ room) }
    requires by_index { (c p : ℕ) → c < length counts.now → p < length (list_at (rows_of room counts.now rows.now) c) → var_of (at (list_at (rows_of room counts.now rows.now) c) p) < length values.now }
    ensures { result ≡ any_below (row_lacks values.now (rows_of room counts.now rows.now)) (length counts.now) }
{
    for c in 0..counts.len() {
        let code = c as u32;
        let row = binary::implied(rows, room, counts, Lit(code));
        if row_lacks(row, code, values) {
            return true;
        }
    }
    false
}
