// Adding a long clause and setting its tier: db.rs. Each call judges what it is lent, then looks for its own refusals, then takes its step.
// The store's buffers are slices beside the state, each a parameter: "a state by value, slices beside it" (docs/01-scope.md, What must change shape).
#![tactic(auto)]

ghost use Rattle.std.specs.Prelude.{◌≡◌, not, ◌&&◌, ◌||◌, ℕ, ◌≤◌, ◌<◌, length, eqb};
ghost use Rattle.kinds.specs.Clauses.{tier_at};
ghost use Rattle.kinds.specs.Lent.{lent_five, no_host};
ghost use Rattle.calls.specs.Call.{add_clause, set_tier, five_lists};
ghost use Rattle.calls.specs.Refusing.{clause_wrong, tier_wrong, glue_wrong};
ghost use Rattle.calls.specs.Outcome.{judged, has_room, done, nothing};
ghost use Rattle.calls.specs.Answers.{number_of, added_answer, state_added, state_after};

use kinds::{Added, ClauseRef, Refusal, State};

// ---- adding a long clause

// 4: the clause is not 3 to V literals in range with different variables.
fn clause_wrong(vars: usize, lits: &[u32]) -> bool
    requires { vars ≤ 65536 }
    ensures { result ≡ clause_wrong vars 3 vars lits.now }
{
    let n = lits.len();
    if n < 3 {
        return true;
    }
    if vars < n {
        return true;
    }
    if n <= short_lits::MOST {
        return !short_lits::lits_pass(vars, lits);
    }
    !judge_words::lits_pass(vars, lits)
}

// 5: a tier above 3, or an original with glue.
fn tier_wrong(tier: usize, glue: usize) -> bool
    ensures { result ≡ tier_wrong tier || glue_wrong tier glue }
{
    if 3 < tier {
        return true;
    }
    if tier != 0 {
        return false;
    }
    0 < glue
}

// 11: the words, the clause list and the tier's list have room for one more clause.
fn long_fits(
    s: State,
    words: &[u32],
    clauses: &[u32],
    irred: &[u32],
    core: &[u32],
    mid: &[u32],
    local: &[u32],
    tier: usize,
    glue: usize,
    lits: &[u32],
) -> bool
    requires no_host_value { judged five_lists (lent_five s words.now clauses.now irred.now core.now mid.now local.now no_host) ≡ 0 }
    requires tier_bound { (tier < 4) × (length lits.now ≤ 65536) }
    ensures { result ≡ has_room (add_clause tier glue lits.now) (lent_five s words.now clauses.now irred.now core.now mid.now local.now no_host) }
{
    if words.len() - s.words < lits.len() + 3 {
        return false;
    }
    if clauses.len() == s.clauses {
        return false;
    }
    s.tiers[tier] != tier_lists::room(irred.len(), core.len(), mid.len(), local.len(), tier)
}

// `add_clause`: answers the new clause's reference.
pub fn add_clause(
    s: State,
    words: &mut [u32],
    clauses: &mut [u32],
    irred: &mut [u32],
    core: &mut [u32],
    mid: &mut [u32],
    local: &mut [u32],
    tier: usize,
    glue: usize,
    lits: &[u32],
) -> Result<Added, Refusal>
    ensures { record { number = number_of result; answer = added_answer result; then = lent_five (state_added s result) words.new clauses.new irred.new core.new mid.new local.new no_host }
        ≡ done (add_clause tier glue lits.now) (lent_five s words.old clauses.old irred.old core.old mid.old local.old no_host) }
{
    judge::judge_five(s, words, clauses, irred, core, mid, local)?;
    if clause_wrong(s.vars, lits) {
        return Err(Refusal::Clause);
    }
    if tier_wrong(tier, glue) {
        return Err(Refusal::Tier);
    }
    if !long_fits(s, words, clauses, irred, core, mid, local, tier, glue, lits) {
        return Err(Refusal::Room);
    }
    let offset = s.words as u32;
    let state = db_steps::append_clause(
        s, words, clauses, irred, core, mid, local, tier, glue, lits,
    );
    Ok(Added {
        cref: ClauseRef(offset),
        state,
    })
}

// ---- setting a tier

// 7: a tier change into or out of Irred; an equal tier is no change.
fn irred_change(old: usize, tier: usize) -> bool
    ensures { result ≡ not (eqb old tier) && (eqb tier 0 || eqb old 0) }
{
    if old == tier {
        return false;
    }
    if tier == 0 {
        return true;
    }
    old == 0
}

// 11: an equal tier needs no room, another one more entry of its list.
fn tier_fits(
    s: State,
    words: &[u32],
    clauses: &[u32],
    irred: &[u32],
    core: &[u32],
    mid: &[u32],
    local: &[u32],
    cref: ClauseRef,
    tier: usize,
    old: usize,
) -> bool
    requires no_host_value { judged five_lists (lent_five s words.now clauses.now irred.now core.now mid.now local.now no_host) ≡ 0 }
    requires tier_bound { (tier < 4) × (old ≡ tier_at words.now cref.0) }
    ensures { result ≡ has_room (set_tier cref.0 tier) (lent_five s words.now clauses.now irred.now core.now mid.now local.now no_host) }
{
    if old == tier {
        return true;
    }
    s.tiers[tier] != tier_lists::room(irred.len(), core.len(), mid.len(), local.len(), tier)
}

// `set_clause_tier`.
pub fn set_clause_tier(
    s: State,
    words: &mut [u32],
    clauses: &mut [u32],
    irred: &mut [u32],
    core: &mut [u32],
    mid: &mut [u32],
    local: &mut [u32],
    cref: ClauseRef,
    tier: usize,
) -> Result<State, Refusal>
    ensures { record { number = number_of result; answer = nothing; then = lent_five (state_after s result) words.new clauses.new irred.new core.new mid.new local.new no_host }
        ≡ done (set_tier cref.0 tier) (lent_five s words.old clauses.old irred.old core.old mid.old local.old no_host) }
{
    judge::judge_five(s, words, clauses, irred, core, mid, local)?;
    if 3 < tier {
        return Err(Refusal::Tier);
    }
    let offset = cref.0 as usize;
    if !judge_words::is_live(words, s.words, clauses, s.clauses, offset) {
        return Err(Refusal::Reference);
    }
    let old = judge_words::tier_at(words, offset);
    if irred_change(old, tier) {
        return Err(Refusal::Original);
    }
    if !tier_fits(s, words, clauses, irred, core, mid, local, cref, tier, old) {
        return Err(Refusal::Room);
    }
    Ok(db_steps::change_tier(s, words, clauses, irred, core, mid, local, cref, tier))
}
