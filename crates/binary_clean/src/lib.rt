// Cleaning of binary.rs: "Cleaning, no call of its own, goes by ascending code, in row order: an assigned literal's row empties, another keeps its unassigned literals."
#![tactic(auto)]

ghost use Rattle.std.specs.Prelude.{◌≡◌, ℕ, ◌+◌, ◌*◌, ◌≤◌, ◌<◌, length, take};
ghost use Rattle.std.proofs.lemmas.List.Edits.{sets};
ghost use Rattle.laws.specs.Lists.{at, lengths, joined, fill};
ghost use Rattle.kinds.specs.Clauses.{var_of};
ghost use Rattle.kinds.specs.Lines.{flat};
ghost use Rattle.kinds.specs.Layout.{rows_of, fill_rows};
ghost use Rattle.calls.specs.Simplifying.{stays_in, row_cleaned, row_strikes, rows_cleaned, rows_strikes};
ghost use Rattle.binary_clean.specs.Ready.{RowsReady};

use kinds::{Lit, LitValue};

// Whether an entry b stays in the row of a code: both are unassigned.
pub fn stays_in(values: &[u8], code: u32, b: u32) -> bool
    requires { (var_of code < length values.now) × (var_of b < length values.now) }
    ensures { result ≡ stays_in values.now code b }
{
    let LitValue::Unassigned = kinds::lit_value(values, Lit(code)) else {
        return false;
    };
    let LitValue::Unassigned = kinds::lit_value(values, Lit(b)) else {
        return false;
    };
    true
}

// The entries that stay, and the record's new used length.
#[derive(Clone, Copy)]
pub struct Cleaned {
    pub entries: usize,
    pub recorded: usize,
}

// The row of a code, in its room, with n entries. "Each removed {a, b}, a below b, is struck once as satisfied, a written first, when the row of not-a is cleaned."
pub fn clean_row(
    row: &mut [u32],
    n: usize,
    code: u32,
    values: &[u8],
    rec: &mut [u32],
    mut recorded: usize,
) -> Cleaned
    requires n_in_bounds { (n ≤ length row.old) × (var_of code < length values.now) × (recorded + length (flat (row_strikes values.now code (take n row.old))) ≤ length rec.old) }
    requires by_index { (p : ℕ) → p < n → var_of (at row.old p) < length values.now }
    ensures { (row.new ≡ fill row.old n (row_cleaned values.now code (take n row.old)))
        × (rec.new ≡ sets rec.old recorded (flat (row_strikes values.now code (take n row.old))))
        × (result.entries ≡ length (row_cleaned values.now code (take n row.old)))
        × (result.recorded ≡ recorded + length (flat (row_strikes values.now code (take n row.old)))) }
{
    let not_code = Lit(code).negated().0;
    let mut to = 0;
    for i in 0..n {
        let b = row[i];
        if stays_in(values, code, b) {
            row[to] = b;
            to += 1;
        } else if not_code < b {
            recorded = record::strike_pair(rec, recorded, not_code, b);
        }
    }
    buffers::clear(row, to, n);
    Cleaned {
        entries: to,
        recorded,
    }
}

// All rows, by ascending code. Gives the entries that stay in all, and the record's new used length.
pub fn clean_rows(
    rows: &mut [u32],
    room: usize,
    counts: &mut [u32],
    values: &[u8],
    rec: &mut [u32],
    mut recorded: usize,
) -> Cleaned
    requires rows_ready { RowsReady room counts.old rows.old values.now }
    requires rows_in_bounds { recorded + length (flat (rows_strikes values.now 0 (rows_of room counts.old rows.old))) ≤ length rec.old }
    ensures { (rows.new ≡ fill_rows room counts.old (rows_cleaned values.now 0 (rows_of room counts.old rows.old)) rows.old)
        × (counts.new ≡ lengths (rows_cleaned values.now 0 (rows_of room counts.old rows.old)))
        × (rec.new ≡ sets rec.old recorded (flat (rows_strikes values.now 0 (rows_of room counts.old rows.old))))
        × (result.entries ≡ length (joined (rows_cleaned values.now 0 (rows_of room counts.old rows.old))))
        × (result.recorded ≡ recorded + length (flat (rows_strikes values.now 0 (rows_of room counts.old rows.old)))) }
{
    let mut entries = 0;
    for c in 0..counts.len() {
        let kept = counts[c] as usize;
        let start = c * room;
        let row = &mut rows[start..start + room];
        let done = clean_row(row, kept, c as u32, values, rec, recorded);
        counts[c] = done.entries as u32;
        entries += done.entries;
        recorded = done.recorded;
    }
    Cleaned { entries, recorded }
}

// What cleaning would leave of a row, and the words of its lines; nothing is written.
#[derive(Clone, Copy)]
pub struct Counted {
    pub entries: usize,
    pub words: usize,
}

pub fn count_row(row: &[u32], code: u32, values: &[u8]) -> Counted
    requires code_in_bounds { var_of code < length values.now }
    requires by_index { (p : ℕ) → p < length row.now → var_of (at row.now p) < length values.now }
    ensures { (result.entries ≡ length (row_cleaned values.now code row.now)) × (result.words ≡ length (flat (row_strikes values.now code row.now))) }
{
    let negated = Lit(code).negated().0;
    let mut entries = 0;
    let mut words = 0;
    for &b in row {
        if stays_in(values, code, b) {
            entries += 1;
        } else if negated < b {
            words += 4;
        }
    }
    Counted { entries, words }
}

// The same for all rows: what stays in each goes into the tally, by code. Gives the words of all lines.
pub fn count_rows(
    rows: &[u32],
    room: usize,
    counts: &[u32],
    values: &[u8],
    tally: &mut [u32],
) -> usize
    requires rows_ready { RowsReady room counts.now rows.now values.now }
    requires counts_in_bounds { length counts.now ≤ length tally.old }
    ensures { (result ≡ length (flat (rows_strikes values.now 0 (rows_of room counts.now rows.now))))
        × (tally.new ≡ sets tally.old 0 (lengths (rows_cleaned values.now 0 (rows_of room counts.now rows.now)))) }
{
    let mut words = 0;
    for c in 0..counts.len() {
        let code = c as u32;
        let row = binary::implied(rows, room, counts, Lit(code));
        let counted = count_row(row, code, values);
        tally[c] = counted.entries as u32;
        words += counted.words;
    }
    words
}
