// Judging the rows: "Row entries are in range. Rows are symmetric: b stands in the row of not-a as often as a in the row of not-b, a and b of different variables. The binary count is half the entries."
#![tactic(auto)]

ghost use Rattle.std.specs.Prelude.{◌≡◌, ◌≢◌, ◌↔◌, true, IsTrue, ◌*◌, ◌/◌, ◌≤◌, ◌<◌, ◌^◌, ◌==◌, length, slice_index, count_by, EachIndex};
ghost use Rattle.kinds.specs.Held.{with_binary};
ghost use Rattle.calls.specs.StorePasses.{rows_in_range, rows_pass};
ghost use Rattle.judge_rows.specs.Rows.{rows_in, RowsSized};
ghost use Rattle.judge_rows.specs.Sparse.{Codes, Times};

use kinds::Lit;

// The entries of the row of the code c are codes, of other variables than c.
fn row_in_range(row: &[u32], vars: usize, c: usize) -> bool
    requires { vars ≤ 65536 }
    ensures { IsTrue result ↔ EachIndex row.now (λ k. (slice_index row.now k < 2 * vars) × (slice_index row.now k / 2 ≢ c / 2)) }
{
    row.iter()
        .all(|b| (*b as usize) < 2 * vars && *b as usize / 2 != c / 2)
}

// The rows as they are lent: a row for each code, in equal rooms of one buffer.
#[derive(Clone, Copy)]
struct Rows<'a> {
    vars: usize,
    rows: &'a [u32],
    counts: &'a [u32],
    ghost sized: { RowsSized vars rows.now counts.now },
}

impl<'a> Rows<'a> {
    ghost use Rattle.std.specs.Prelude.{◌≡◌, ◌*◌, ◌<◌, ◌≤◌, ◌^◌};
    ghost use Rattle.laws.specs.Fold.{sum_below};
    ghost use Rattle.laws.specs.Lists.{list_at};
    ghost use Rattle.calls.specs.StorePasses.{rows_in_range, row_length};
    ghost use Rattle.judge_rows.specs.Held.{held};

    // The length of the row of the code c.
    fn len(self, c: usize) -> usize
        requires { c < 2 * self.vars }
        ensures { result ≡ row_length (held self.entry) c }
    {
        self.counts[c] as usize
    }

    // The row of the code c.
    fn row(self, c: usize) -> &'a [u32]
        requires { c < 2 * self.vars }
        ensures { result.now ≡ list_at (held self.entry).rows c }
    {
        let room = self.rows.len() / (2 * self.vars);
        let start = c * room;
        let end = start + self.counts[c] as usize;
        &self.rows[start..end]
    }

    // "Row entries are in range."
    fn in_range(self) -> bool
        ensures { result ≡ rows_in_range (held self.entry) }
    {
        for c in 0..2 * self.vars {
            if !row_in_range(self.row(c), self.vars, c) {
                return false;
            }
        }
        true
    }

    // ---- "The binary count is half the entries."

    fn entries(self) -> usize
        ensures value { result ≡ sum_below (row_length (held self.entry)) (2 * self.entry.vars) }
        ensures small { result ≤ 2 ^ 24 }
    {
        let mut total = 0;
        for c in 0..2 * self.vars {
            total += self.len(c);
        }
        total
    }
}

// ---- "Rows are symmetric": each entry's count against its partner's

// How often x stands in a row. The costliest loop here: a count of 32 bits keeps it four entries wide.
fn occurs(row: &[u32], x: u32) -> u32
    requires { length row.now < 2 ^ 32 }
    ensures { result ≡ count_by (λ b. b == x) row.now }
{
    let mut times = 0;
    for b in row {
        if *b == x {
            times += 1;
        }
    }
    times
}

// How often each code stands in a row, where nothing was counted before.
fn count(times: &mut [u32; 131072], row: &[u32])
    requires { Codes row.now × Times row.now 0 times.old }
    ensures { Times row.now (length row.now) times.new }
{
    for b in row {
        times[*b as usize] += 1;
    }
}

// Nothing counted, as before `count`.
fn uncount(times: &mut [u32; 131072], row: &[u32])
    requires { Codes row.now × Times row.now (length row.now) times.old }
    ensures { Times row.now 0 times.new }
{
    for b in row {
        times[*b as usize] -= 1;
    }
}

// Rows whose entries were found in range.
#[derive(Clone, Copy)]
struct RangedRows<'a> {
    rows: Rows<'a>,
    ghost ranged: { rows_in_range (rows_in rows.vars rows.rows.now rows.counts.now) ≡ true },
}

impl<'a> RangedRows<'a> {
    ghost use Rattle.std.specs.Prelude.{◌≡◌, ◌+◌, ◌*◌, ◌<◌};
    ghost use Rattle.laws.specs.Fold.{all_below};
    ghost use Rattle.laws.specs.Lists.{list_at};
    ghost use Rattle.calls.specs.StorePasses.{rows_symmetric, row_length};
    ghost use Rattle.judge_rows.specs.Held.{held};
    ghost use Rattle.judge_rows.specs.Sparse.{down, sparse_at, sparse_row, Ups, Times};

    // The entries of the row of c that point to a longer row are numbered by that row's code.
    fn up_row(self, c: usize, ups: &mut [u32; 131072])
        requires { (c < 2 * self.rows.vars) × Ups (held self.rows) c ups.old }
        ensures { Ups (held self.entry.rows) (c + 1) ups.new }
    {
        let row = self.rows.row(c);
        for b in row {
            let other = Lit(*b).negated().0 as usize;
            if row.len() < self.rows.len(other) {
                ups[other] += 1;
            }
        }
    }

    // Each entry that points to no longer row stands in its row as often as its partner there. `times` are those of the row of c.
    fn entries_sparse(self, c: usize, times: &[u32; 131072]) -> bool
        requires { (c < 2 * self.rows.vars) × Times (list_at (held self.rows).rows c) (row_length (held self.rows) c) times.now }
        ensures { result ≡ all_below (sparse_at (held self.entry.rows) c) (row_length (held self.entry.rows) c) }
    {
        let row = self.rows.row(c);
        let not_c = Lit(c as u32).negated().0;
        for b in row {
            let other = Lit(*b).negated().0 as usize;
            if row.len() < self.rows.len(other) {
                continue;
            }
            if times[*b as usize] != occurs(self.rows.row(other), not_c) {
                return false;
            }
        }
        true
    }

    // The entries of the row of c that point to a shorter row.
    fn down_row(self, c: usize) -> u32
        requires { c < 2 * self.rows.vars }
        ensures { result ≡ down (held self.entry.rows) c }
    {
        let row = self.rows.row(c);
        let mut n = 0;
        for b in row {
            let other = Lit(*b).negated().0 as usize;
            if self.rows.len(other) < row.len() {
                n += 1;
            }
        }
        n
    }

    // The cost is, for each entry, the length of the shorter of its own row and its partner's.
    fn symmetric(self) -> bool
        ensures { result ≡ rows_symmetric (held self.entry.rows) }
    {
        let codes = 2 * self.rows.vars;
        let mut ups = [0u32; 131072];
        for c in 0..codes {
            self.up_row(c, &mut ups);
        }
        let mut times = [0u32; 131072];
        for c in 0..codes {
            let row = self.rows.row(c);
            count(&mut times, row);
            if !self.entries_sparse(c, &times) || self.down_row(c) != ups[c] {
                return false;
            }
            uncount(&mut times, row);
        }
        true
    }
}

// Refusal 1 was judged before: the sizes are those of `RowsSized`. The binary count is any number.
pub fn rows_pass(vars: usize, binary: usize, rows: &[u32], counts: &[u32]) -> bool
    requires { RowsSized vars rows.now counts.now }
    ensures { result ≡ rows_pass (with_binary binary (rows_in vars rows.now counts.now)) }
{
    let rows = Rows { vars, rows, counts };
    if !rows.in_range() {
        return false;
    }
    if !(RangedRows { rows }).symmetric() {
        return false;
    }
    let total = rows.entries();
    binary <= total && binary * 2 == total
}
