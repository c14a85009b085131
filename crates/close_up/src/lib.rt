// gc.rs on words and lists: "Live clauses keep their order and close up; tier lists are rebuilt in that order; long reasons on the trail follow".
#![tactic(auto)]

ghost use Rattle.std.specs.Prelude.{◌≡◌, true, ℕ, ◌+◌, ◌≤◌, ◌<◌, ◌^◌, length, take};
ghost use Rattle.laws.specs.Lists.{at, joined, starts, fill};
ghost use Rattle.kinds.specs.Clauses.{undeleted, var_of};
ghost use Rattle.calls.specs.StorePasses.{placed, clauses_ok};
ghost use Rattle.calls.specs.Collecting.{blocks, of_tier};
ghost use Rattle.close_up.specs.Reasons.{redirected, redirected_all};

use kinds::{Lit, LitValue, Reason};

// The used lengths of the words and of the clause list.
#[derive(Clone, Copy)]
pub struct Closed {
    pub used: usize,
    pub listed: usize,
}

// The live clauses in order, one behind the other, and the clause list of their new places. What both give up becomes 0. Refusals 1 and 2 were judged before.
pub fn close_up(words: &mut [u32], used: usize, clauses: &mut [u32], n: usize) -> Closed
    requires used_in_bounds { (used ≤ length words.old) × (length words.old ≤ 2 ^ 24) × (n ≤ length clauses.old) }
    requires n_value { placed words.old used (take n clauses.old) n ≡ true }
    ensures { (words.new ≡ fill words.old used (joined (blocks words.old (undeleted words.old (take n clauses.old)))))
        × (clauses.new ≡ fill clauses.old n (starts 0 (blocks words.old (undeleted words.old (take n clauses.old)))))
        × (result.used ≡ length (joined (blocks words.old (undeleted words.old (take n clauses.old)))))
        × (result.listed ≡ length (starts 0 (blocks words.old (undeleted words.old (take n clauses.old))))) }
{
    let mut to = 0;
    let mut k = 0;
    for i in 0..n {
        let offset = clauses[i] as usize;
        if !judge_words::deleted_at(words, offset) {
            let size = words[offset + 2] as usize + 3;
            buffers::move_down(words, offset, to, size);
            buffers::put(clauses, k, to);
            to += size;
            k += 1;
        }
    }
    buffers::clear(words, to, used);
    buffers::clear(clauses, k, n);
    Closed {
        used: to,
        listed: k,
    }
}

// The list of a tier, of the clauses of that tier, in the order of the clause list. Its old entries were at least as many.
pub fn rebuild(
    words: &[u32],
    clauses: &[u32],
    n: usize,
    list: &mut [u32],
    used: usize,
    tier: usize,
) -> usize
    requires n_in_bounds { (n ≤ length clauses.now) × (used ≤ length list.old) × ((i : ℕ) → i < n → at clauses.now i + 1 < length words.now) }
    requires clauses_len_bound { length (of_tier words.now tier (take n clauses.now)) ≤ used }
    ensures { (list.new ≡ fill list.old used (of_tier words.now tier (take n clauses.now)))
        × (result ≡ length (of_tier words.now tier (take n clauses.now))) }
{
    let mut k = 0;
    for offset in &clauses[..n] {
        if judge_words::tier_at(words, *offset as usize) == tier {
            list[k] = *offset;
            k += 1;
        }
    }
    buffers::clear(list, k, used);
    k
}

// Where the clause at `offset` is asserting ("first literal true, its reason this clause"), that reason becomes `to`.
fn redirect(
    values: &[u8],
    kinds: &[u8],
    reasons: &mut [u32],
    levels: &[u32],
    first: Lit,
    offset: usize,
    to: usize,
)
    requires { (var_of first.0 < length values.now) × (var_of first.0 < length kinds.now) × (var_of first.0 < length reasons.old) × (var_of first.0 < length levels.now) × (to < 2 ^ 32) }
    ensures { reasons.new ≡ redirected values.now kinds.now reasons.old first.0 offset to }
{
    let value = kinds::lit_value(values, first);
    let LitValue::True = value else {
        return;
    };
    let var = first.var();
    let node = kinds::node_at(kinds, reasons, levels, var);
    let reason = node.reason;
    let Reason::Long(cref) = reason else {
        return;
    };
    if cref.0 as usize == offset {
        buffers::put(reasons, var.0 as usize, to);
    }
}

// Before the clauses close up: the reason of each asserting clause's first literal becomes the place that the clause will have. Refusals 1 and 2 were judged before.
pub fn follow(
    vars: usize,
    words: &[u32],
    used: usize,
    clauses: &[u32],
    n: usize,
    values: &[u8],
    kinds: &[u8],
    reasons: &mut [u32],
    levels: &[u32],
)
    requires used_in_bounds { (used ≤ length words.now) × (length words.now ≤ 2 ^ 24) × (n ≤ length clauses.now) }
    requires n_value { (placed words.now used (take n clauses.now) n ≡ true) × (clauses_ok words.now vars (take n clauses.now) n ≡ true) }
    requires values_len { (length values.now ≡ vars) × (length kinds.now ≡ vars) × (length reasons.old ≡ vars) × (length levels.now ≡ vars) }
    ensures { reasons.new ≡ redirected_all words.now values.now kinds.now 0 (take n clauses.now) reasons.old }
{
    let mut to = 0;
    for r in &clauses[..n] {
        let offset = *r as usize;
        if !judge_words::deleted_at(words, offset) {
            let size = words[offset + 2] as usize + 3;
            let first = words[offset + 3];
            redirect(values, kinds, reasons, levels, Lit(first), offset, to);
            to += size;
        }
    }
}
