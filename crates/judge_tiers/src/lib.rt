// Refusal 2 on the tier lists: "Each live clause stands at least once in its tier's list. Every tier entry is a live clause's reference, or an offset with three used words from there, whose word 1 has the deleted bit and lies inside no live clause."
// Live clauses are marked by their mark bit while their tier is judged; the words end as they began.
// The store's buffers are slices beside the state, each a parameter: "a state by value, slices beside it" (docs/01-scope.md, What must change shape).
#![tactic(auto)]

ghost use Rattle.std.specs.Prelude.{◌≡◌, true, ◌&&◌, ◌||◌, List, [], ◌∷◌, ℕ, ◌+◌, ◌≤◌, ◌<◌, ◌^◌, length};
ghost use Rattle.laws.specs.Fold.{all_below, any_below};
ghost use Rattle.laws.specs.Lists.{at};
ghost use Rattle.calls.specs.StorePasses.{placed, ref_at, covered, inside_at, stale_ok, entries_ok};
ghost use Rattle.judge_words.specs.Judging.{Rising};
ghost use Rattle.judge_tiers.specs.Marking.{tier_test, Ready, Prepared, Inside, Bare, mark_at, marks, marked_at, clears};

use buffers::word;
use header::{deleted_of, mark_of, tier_of, with_mark};
use judge_words::{deleted_at, find, is_live, seek};

// ---- "Each live clause stands at least once in its tier's list."

// The clause list and a tier's list are their used parts, here and below.
// The mark of the clause at e is set, if e is a live clause's reference. That offsets rise and lie inside the words, here and below, is the placing that `words_pass` has judged.
fn mark_at(words: &mut [u32], clauses: &[u32], e: usize)
    requires { Rising clauses.now (length clauses.now) × Inside clauses.now (length clauses.now) (length words.old) }
    ensures { words.new ≡ mark_at clauses.now (length clauses.now) words.old e }
{
    let n = clauses.len();
    if find(clauses, n, e) < n && !deleted_at(words, e) {
        words[e + 1] = with_mark(words[e + 1], true);
    }
}

fn mark_all(words: &mut [u32], clauses: &[u32], list: &[u32])
    requires { Rising clauses.now (length clauses.now) × Inside clauses.now (length clauses.now) (length words.old) }
    ensures { words.new ≡ marks clauses.now (length clauses.now) list.now words.old (length list.now) }
{
    for e in list {
        mark_at(words, clauses, *e as usize);
    }
}

#[tactic(auto, using(laws::proofs::Folds::all_none, laws::proofs::Folds::all_more), unfolding(crate::specs::Marking::marked_at, calls::specs::StorePasses::live_in, calls::specs::StorePasses::live_at))]
fn all_marked(words: &[u32], clauses: &[u32], t: usize) -> bool
    requires { Inside clauses.now (length clauses.now) (length words.now) }
    ensures { result ≡ all_below (marked_at words.now clauses.now t) (length clauses.now) }
{
    for offset in clauses {
        let head = words[*offset as usize + 1];
        if !deleted_of(head) && tier_of(head) as usize == t && !mark_of(head) {
            return false;
        }
    }
    true
}

#[tactic(auto, using(laws::proofs::Folds::fold_none, laws::proofs::Folds::fold_more), unfolding(crate::specs::Marking::clear_at, crate::specs::Marking::clears, calls::specs::StorePasses::live_at))]
fn clear_all(words: &mut [u32], clauses: &[u32])
    requires { Inside clauses.now (length clauses.now) (length words.old) }
    ensures { words.new ≡ clears clauses.now words.old (length clauses.now) }
{
    for offset in clauses {
        let at = *offset as usize + 1;
        if !deleted_of(words[at]) {
            words[at] = with_mark(words[at], false);
        }
    }
}

// Marked, tested and cleared again.
fn tier_covered(words: &mut [u32], clauses: &[u32], t: usize, list: &[u32]) -> bool
    requires { Rising clauses.now (length clauses.now) × Inside clauses.now (length clauses.now) (length words.old) × Bare words.old clauses.now (length clauses.now) }
    ensures { (result ≡ covered words.old clauses.now (length clauses.now) t list.now (length list.now)) × (words.new ≡ words.old) }
{
    mark_all(words, clauses, list);
    let all = all_marked(words, clauses, t);
    clear_all(words, clauses);
    all
}

// ---- "Every tier entry is a live clause's reference, or an offset with three used words from there, whose word 1 has the deleted bit and lies inside no live clause."

// Word x lies inside a live clause.
fn inside_live(words: &[u32], used: usize, clauses: &[u32], x: usize) -> bool
    requires used_in_bounds { used ≤ length words.now }
    requires placed { placed words.now used clauses.now (length clauses.now) ≡ true }
    ensures { result ≡ any_below (inside_at words.now clauses.now x) (length clauses.now) }
{
    let k = seek(clauses, clauses.len(), x);
    if k == 0 {
        return false;
    }
    let offset = word(clauses, k - 1);
    !deleted_at(words, offset) && x < offset + (word(words, offset + 2) + 3)
}

#[tactic(auto, using(crate::proofs::Entries::live_ref), unfolding(calls::specs::StorePasses::stale_ok))]
fn entry_ok(words: &[u32], used: usize, clauses: &[u32], e: u32) -> bool
    requires used_in_bounds { used ≤ length words.now }
    requires placed { placed words.now used clauses.now (length clauses.now) ≡ true }
    ensures { result ≡ any_below (ref_at words.now clauses.now e) (length clauses.now) || stale_ok words.now used clauses.now (length clauses.now) e }
{
    let e = e as usize;
    is_live(words, used, clauses, clauses.len(), e)
        || (e + 3 <= used && deleted_at(words, e) && !inside_live(words, used, clauses, e + 1))
}

fn entries_ok(words: &[u32], used: usize, clauses: &[u32], list: &[u32]) -> bool
    requires used_in_bounds { used ≤ length words.now }
    requires placed { placed words.now used clauses.now (length clauses.now) ≡ true }
    ensures { result ≡ entries_ok words.now used clauses.now (length clauses.now) list.now (length list.now) }
{
    list.iter().all(|e| entry_ok(words, used, clauses, *e))
}

// ---- all four tiers

fn tier_ok(words: &mut [u32], used: usize, clauses: &[u32], t: usize, list: &[u32]) -> bool
    requires { Prepared words.old used clauses.now }
    ensures { (result ≡ covered words.old clauses.now (length clauses.now) t list.now (length list.now) && entries_ok words.old used clauses.now (length clauses.now) list.now (length list.now)) × (words.new ≡ words.old) }
{
    tier_covered(words, clauses, t, list) && entries_ok(words, used, clauses, list)
}

// Refusal 1 has judged the sizes, `words_pass` the words and the clause list.
pub fn tiers_pass(
    vars: usize,
    used: usize,
    words: &mut [u32],
    clauses: &[u32],
    n: usize,
    irred: &[u32],
    core: &[u32],
    mid: &[u32],
    local: &[u32],
    lens: [usize; 4],
) -> bool
    requires ready { Ready words.old vars used clauses.now n }
    requires lens_in_bounds { (at lens 0 ≤ length irred.now) × (at lens 1 ≤ length core.now) × (at lens 2 ≤ length mid.now) × (at lens 3 ≤ length local.now) }
    ensures { (result ≡ all_below (tier_test words.old used clauses.now n (irred.now ∷ core.now ∷ mid.now ∷ local.now ∷ []) lens) 4) × (words.new ≡ words.old) }
{
    let clauses = &clauses[..n];
    if !tier_ok(words, used, clauses, 0, &irred[..lens[0]]) {
        return false;
    }
    if !tier_ok(words, used, clauses, 1, &core[..lens[1]]) {
        return false;
    }
    if !tier_ok(words, used, clauses, 2, &mid[..lens[2]]) {
        return false;
    }
    tier_ok(words, used, clauses, 3, &local[..lens[3]])
}
