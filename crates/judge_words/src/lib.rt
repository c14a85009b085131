// Refusal 2 on the words and the clause list: "When a store passes", its sentences on placing, live clauses, counts and garbage; and the search for a live clause (refusal 6).
#![tactic(auto)]

ghost use Rattle.std.specs.Prelude.{◌≡◌, true, ◌&&◌, ℕ, ◌+◌, ◌*◌, ◌≤◌, ◌<◌, ◌^◌, length, take};
ghost use Rattle.laws.specs.Fold.{sum_below};
ghost use Rattle.laws.specs.Lists.{at};
ghost use Rattle.kinds.specs.Clauses.{end_at, tier_at, deleted_at, is_live};
ghost use Rattle.calls.specs.StorePasses.{placed_at, placed, lits_ok, head_ok, clause_ok, clauses_ok, counts_ok, live_size, garbage_ok};
ghost use Rattle.judge_words.specs.Judging.{Below, Tally, Rising, Split, Found};

use buffers::word;
use header::{deleted_of, glue_of, mark_of, spare_of, tier_of};

// ---- one clause's header in the words

pub fn deleted_at(words: &[u32], offset: usize) -> bool
    requires { offset + 1 < length words.now }
    ensures { result ≡ deleted_at words.now offset }
{
    let head = words[offset + 1];
    deleted_of(head)
}

pub fn tier_at(words: &[u32], offset: usize) -> usize
    requires { offset + 1 < length words.now }
    ensures { (result ≡ tier_at words.now offset) × (result < 4) }
{
    let head = words[offset + 1];
    tier_of(head) as usize
}

// ---- "Clause list offsets rise; each clause ends by the next one's start and by the used length."

#[tactic(auto, unfolding(calls::specs::StorePasses::placed_at))]
fn placed_at(words: &[u32], used: usize, clauses: &[u32], i: usize) -> bool
    requires { (used ≤ length words.now) × (i < length clauses.now) }
    ensures { result ≡ placed_at words.now used clauses.now (length clauses.now) i }
{
    let offset = word(clauses, i);
    if used < offset + 3 {
        return false;
    }
    let end = offset + 3 + word(words, offset + 2);
    end <= used && (i + 1 == clauses.len() || end <= word(clauses, i + 1))
}

// The sizes are refusal 1's, here and below; the clause list is its used part.
fn all_placed(words: &[u32], used: usize, clauses: &[u32]) -> bool
    requires { used ≤ length words.now }
    ensures { result ≡ placed words.now used clauses.now (length clauses.now) }
{
    (0..clauses.len()).all(|i| placed_at(words, used, clauses, i))
}

// ---- "A live clause has 3 to V literals in range with different variables, mark 0, spare bits 0, an activity from +0 to the rescale limit (not -0). An original has glue 0."

// By stamps: a variable that has this stamp stood before.
fn lits_ok(vars: usize, lits: &[u32], stamps: &mut [u32; 65536], stamp: u32) -> bool
    requires { (vars ≤ 65536) × Below stamps.old stamp }
    ensures { (result ≡ lits_ok lits.now vars 0 (length lits.now)) × Below stamps.new (stamp + 1) }
{
    for lit in lits {
        let lit = *lit as usize;
        if 2 * vars <= lit {
            return false;
        }
        let var = lit / 2;
        if stamps[var] == stamp {
            return false;
        }
        stamps[var] = stamp;
    }
    true
}

// Literals given by a caller: in range, with different variables.
pub fn lits_pass(vars: usize, lits: &[u32]) -> bool
    requires { vars ≤ 65536 }
    ensures { result ≡ lits_ok lits.now vars 0 (length lits.now) }
{
    let mut stamps = [0; 65536];
    lits_ok(vars, lits, &mut stamps, 1)
}

// Mark 0, spare bits 0, and glue 0 for an original.
#[tactic(auto, unfolding(calls::specs::StorePasses::head_ok))]
fn head_ok(head: u32) -> bool
    ensures { result ≡ head_ok head }
{
    !mark_of(head) && spare_of(head) == 0 && (tier_of(head) != 0 || glue_of(head) == 0)
}

// The clause at an offset, which ends by the used length (`all_placed`). The stamps are those of earlier clauses: offsets rise, so each is at most this offset.
#[tactic(auto, using(crate::proofs::Literals::lits_part, crate::proofs::Literals::below_wider), unfolding(calls::specs::StorePasses::clause_ok, kinds::specs::Floats::activity_ok))]
fn clause_ok(vars: usize, words: &[u32], offset: usize, stamps: &mut [u32; 65536]) -> bool
    requires vars_bound { (vars ≤ 65536) × (end_at words.now offset ≤ length words.now) × (length words.now ≤ 2 ^ 24) }
    requires below { Below stamps.old (offset + 1) }
    ensures { (result ≡ clause_ok words.now vars offset) × Below stamps.new (offset + 2) }
{
    let len = word(words, offset + 2);
    if len < 3 {
        return false;
    }
    if vars < len {
        return false;
    }
    let lits = &words[offset + 3..offset + 3 + len];
    let stamp = (offset + 1) as u32;
    // the limit's pattern
    lits_ok(vars, lits, stamps, stamp) && head_ok(words[offset + 1]) && words[offset] <= 0x7d7f_ffff
}

// The clauses are placed (`all_placed`), here and below.
fn clauses_ok(vars: usize, used: usize, words: &[u32], clauses: &[u32]) -> bool
    requires used_in_bounds { (used ≤ length words.now) × (length words.now ≤ 2 ^ 24) × (vars ≤ 65536) }
    requires placed { placed words.now used clauses.now (length clauses.now) ≡ true }
    ensures { result ≡ clauses_ok words.now vars clauses.now (length clauses.now) }
{
    let mut stamps = [0; 65536];
    for offset in clauses {
        let offset = *offset as usize;
        if deleted_at(words, offset) {
            continue;
        }
        if !clause_ok(vars, words, offset, &mut stamps) {
            return false;
        }
    }
    true
}

// ---- "The four counts equal the live clauses per tier."

fn tally(used: usize, words: &[u32], clauses: &[u32]) -> [usize; 4]
    requires used_in_bounds { used ≤ length words.now }
    requires placed { placed words.now used clauses.now (length clauses.now) ≡ true }
    ensures { Tally words.now clauses.now (length clauses.now) result }
{
    let mut counts = [0; 4];
    for offset in clauses {
        let offset = *offset as usize;
        if !deleted_at(words, offset) {
            counts[tier_at(words, offset)] += 1;
        }
    }
    counts
}

fn counts_ok(used: usize, counts: [usize; 4], words: &[u32], clauses: &[u32]) -> bool
    requires used_in_bounds { used ≤ length words.now }
    requires placed { placed words.now used clauses.now (length clauses.now) ≡ true }
    ensures { result ≡ counts_ok words.now clauses.now (length clauses.now) counts }
{
    let live = tally(used, words, clauses);
    counts == live
}

// ---- "Garbage plus live words (length + 3 each) is at most the used length."

fn live_words(used: usize, words: &[u32], clauses: &[u32]) -> usize
    requires used_in_bounds { used ≤ length words.now }
    requires placed { placed words.now used clauses.now (length clauses.now) ≡ true }
    ensures { result ≡ sum_below (live_size words.now clauses.now) (length clauses.now) }
{
    let mut total = 0;
    for offset in clauses {
        let offset = *offset as usize;
        if !deleted_at(words, offset) {
            total += word(words, offset + 2) + 3;
        }
    }
    total
}

fn garbage_ok(used: usize, garbage: usize, words: &[u32], clauses: &[u32]) -> bool
    requires used_in_bounds { used ≤ length words.now }
    requires placed { placed words.now used clauses.now (length clauses.now) ≡ true }
    ensures { result ≡ garbage_ok words.now used clauses.now (length clauses.now) garbage }
{
    if used < garbage {
        return false;
    }
    let live = live_words(used, words, clauses);
    live <= used - garbage
}

// ---- all of it

// Refusal 1 has judged the sizes.
#[tactic(auto, using(crate::proofs::Whole::placed_used, crate::proofs::Whole::clauses_used, crate::proofs::Whole::counts_used, crate::proofs::Whole::garbage_used))]
pub fn words_pass(
    vars: usize,
    used: usize,
    counts: [usize; 4],
    garbage: usize,
    words: &[u32],
    clauses: &[u32],
    n: usize,
) -> bool
    requires { (used ≤ length words.now) × (length words.now ≤ 2 ^ 24) × (n ≤ length clauses.now) × (vars ≤ 65536) }
    ensures { result ≡ placed words.now used clauses.now n && (clauses_ok words.now vars clauses.now n && (counts_ok words.now clauses.now n counts && garbage_ok words.now used clauses.now n garbage)) }
{
    let clauses = &clauses[..n];
    all_placed(words, used, clauses)
        && clauses_ok(vars, used, words, clauses)
        && counts_ok(used, counts, words, clauses)
        && garbage_ok(used, garbage, words, clauses)
}

// ---- the search for a clause, by bisection of the rising list

// How many of the first n offsets are at most x. Offsets rise where the clauses are placed.
pub fn seek(clauses: &[u32], n: usize, x: usize) -> usize
    requires { (n ≤ length clauses.now) × Rising clauses.now n }
    ensures { Split clauses.now n x result }
{
    clauses[..n].partition_point(|offset| *offset as usize <= x)
}

// Where the offset e stands among the first n, or n.
pub fn find(clauses: &[u32], n: usize, e: usize) -> usize
    requires { (n ≤ length clauses.now) × Rising clauses.now n }
    ensures { Found clauses.now n e result }
{
    match clauses[..n].binary_search_by(|offset| (*offset as usize).cmp(&e)) {
        Ok(k) => k,
        Err(_) => n,
    }
}

// "Live means listed and not deleted." Refusal 2 has judged the placing.
pub fn is_live(words: &[u32], used: usize, clauses: &[u32], n: usize, e: usize) -> bool
    requires used_in_bounds { (used ≤ length words.now) × (n ≤ length clauses.now) }
    requires n_value { placed words.now used clauses.now n ≡ true }
    ensures { result ≡ is_live words.now (take n clauses.now) e }
{
    find(clauses, n, e) < n && !deleted_at(words, e)
}
