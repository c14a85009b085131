// The leaves of simplifying the long clauses: verdicts, lines of the record, the words of a shorter clause.
#![tactic(auto)]

ghost use Rattle.std.specs.Prelude.{◌≡◌, true, ◌∷◌, ℕ, ◌+◌, ◌-◌, ◌^◌, ◌≤◌, ◌<◌, length};
ghost use Rattle.std.proofs.lemmas.List.Edits.{sets};
ghost use Rattle.laws.specs.Lists.{at, read_n, less};
ghost use Rattle.kinds.specs.Header.{with_deleted};
ghost use Rattle.kinds.specs.Clauses.{len_at, lits_at, end_at, size_at, tier_at, original_at, change_head, var_of};
ghost use Rattle.kinds.specs.Lines.{entry_kind};
ghost use Rattle.kinds.specs.Setters.{state_of};
ghost use Rattle.calls.specs.Simplifying.{unfalsified};

use kinds::{Lit, LitValue, State};

// The literals that are not false, of the n from `start` on, over the words of `to` from `place` on.
pub fn copy_unfalsified(
    to: &mut [u32],
    mut place: usize,
    values: &[u8],
    words: &[u32],
    start: usize,
    n: usize,
)
    requires n_in_bounds { start + n ≤ length words.now }
    requires n_in_bounds_2 { place + length (unfalsified values.now (read_n words.now start n)) ≤ length to.old }
    requires by_index { (p : ℕ) → p < n → var_of (at words.now (start + p)) < length values.now }
    ensures { to.new ≡ sets to.old place (unfalsified values.now (read_n words.now start n)) }
{
    for &lit in &words[start..start + n] {
        let LitValue::False = kinds::lit_value(values, Lit(lit)) else {
            to[place] = lit;
            place += 1;
            continue;
        };
    }
}

// The line that enters the shorter form, of m literals, of the clause at an offset. Returns the record's new used length.
pub fn enter(
    words: &[u32],
    offset: usize,
    rec: &mut [u32],
    used: usize,
    values: &[u8],
    m: usize,
) -> usize
    requires offset_in_bounds { (end_at words.now offset ≤ length words.now) × (used + (m + 2) ≤ length rec.old) × (m ≡ length (unfalsified values.now (lits_at words.now offset))) × (m < 2 ^ 32) }
    requires by_index { (p : ℕ) → p < len_at words.now offset → var_of (at words.now (offset + 3 + p)) < length values.now }
    ensures { (result ≡ used + (m + 2))
        × (rec.new ≡ sets rec.old used (entry_kind (original_at words.now offset) m ∷ m ∷ unfalsified values.now (lits_at words.now offset))) }
{
    let n = buffers::word(words, offset + 2);
    let original = header::tier_of(words[offset + 1]) == 0;
    rec[used] = record::entry_kind(original, m);
    rec[used + 1] = m as u32;
    copy_unfalsified(rec, used + 2, values, words, offset + 3, n);
    used + (m + 2)
}

// The m literals of `rec` from `start` on, written over the front of the clause at an offset; the words behind them are kept.
pub fn write_front(words: &mut [u32], offset: usize, rec: &[u32], start: usize, m: usize)
    requires { (offset + 3 + m ≤ length words.old) × (start + m ≤ length rec.now) × (m < 2 ^ 32) }
    ensures { words.new ≡ sets words.old (offset + 2) (m ∷ read_n rec.now start m) }
{
    words[offset + 2] = m as u32;
    buffers::copy(words, offset + 3, rec, start, m);
}

// The clause at an offset goes: its deleted bit, one less of its tier, its words garbage; `recorded` is the record's new used length.
pub fn drop_clause(s: State, words: &mut [u32], offset: usize, recorded: usize) -> State
    requires { (offset + 2 < length words.old) × (0 < at s.counts (tier_at words.old offset)) × (s.garbage + size_at words.old offset < 2 ^ 32) }
    ensures { (result ≡ state_of s.vars s.words s.clauses s.tiers recorded (less (tier_at words.old offset) s.counts) (s.garbage + size_at words.old offset) s.binary s.activity)
        × (words.new ≡ change_head (with_deleted true) offset words.old) }
{
    let head = words[offset + 1];
    let tier = header::tier_of(head) as usize;
    let n = buffers::word(words, offset + 2);
    words[offset + 1] = header::with_deleted(head, true);
    let mut counts = s.counts;
    counts[tier] -= 1;
    State {
        recorded,
        counts,
        garbage: s.garbage + (n + 3),
        ..s
    }
}
