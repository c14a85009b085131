// Glue and assessing: the number of different levels, the tier by glue.
#![tactic(auto)]

ghost use Rattle.std.specs.Prelude.{◌≡◌, ◌<◌, length};
ghost use Rattle.kinds.specs.Header.{saturated};
ghost use Rattle.kinds.specs.Numbers.{tier_number};
ghost use Rattle.calls.specs.Bumping.{level_new, glue_for, tier_for, learned_glue};
ghost use Rattle.assess.specs.Levelled.{Levelled};

use kinds::{Assessed, Tier};

// Comparing up to this many literals with each other costs less than clearing an array of marks.
const SHORT: usize = 32;

// The level of literal j is none of those before it.
fn level_new(levels: &[u32], lits: &[u32], j: usize) -> bool
    requires { Levelled levels.now lits.now × (j < length lits.now) }
    ensures { result ≡ level_new levels.now lits.now j }
{
    let own = (lits[j] / 2) as usize;
    let level = levels[own];
    for lit in &lits[..j] {
        let var = (*lit / 2) as usize;
        if levels[var] == level {
            return false;
        }
    }
    true
}

// Levels that are new are counted, each compared with those before it.
fn compute_glue_short(levels: &[u32], lits: &[u32]) -> usize
    requires { Levelled levels.now lits.now }
    ensures { result ≡ glue_for levels.now lits.now }
{
    let mut glue = 0;
    for j in 0..lits.len() {
        if level_new(levels, lits, j) {
            glue += 1;
        }
    }
    glue
}

// Levels that were met are marked in an array of its own, so nothing lent is touched.
fn compute_glue_long(levels: &[u32], lits: &[u32]) -> usize
    requires { Levelled levels.now lits.now }
    ensures { result ≡ glue_for levels.now lits.now }
{
    let mut seen = [0u8; 65537];
    let mut glue = 0;
    for lit in lits {
        let level = levels[(*lit / 2) as usize] as usize;
        if seen[level] == 0 {
            seen[level] = 1;
            glue += 1;
        }
    }
    glue
}

// "Glue is the number of different levels."
pub fn compute_glue(levels: &[u32], lits: &[u32]) -> usize
    requires { Levelled levels.now lits.now }
    ensures { result ≡ glue_for levels.now lits.now }
{
    if lits.len() <= SHORT {
        compute_glue_short(levels, lits)
    } else {
        compute_glue_long(levels, lits)
    }
}

// "tier Core to 2, Mid to 6, Local above, judged before saturation"
#[tactic(auto, unfolding(calls::specs::Bumping::tier_for))]
pub fn select_tier(glue: usize) -> Tier
    ensures { tier_number result ≡ tier_for glue }
{
    match glue {
        0..=2 => Tier::Core,
        3..=6 => Tier::Mid,
        _ => Tier::Local,
    }
}

// "A learned clause gets glue minus 1": it is still in conflict here. Its literals are 1 at least (4).
pub fn assess_learned_clause(levels: &[u32], lits: &[u32]) -> Assessed
    requires { Levelled levels.now lits.now × (0 < length lits.now) }
    ensures { (tier_number result.tier ≡ tier_for (learned_glue levels.now lits.now)) × (result.glue ≡ saturated (learned_glue levels.now lits.now)) }
{
    let glue = compute_glue(levels, lits) - 1;
    Assessed {
        tier: select_tier(glue),
        glue: header::saturate(glue),
    }
}
