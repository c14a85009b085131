// Literals given by a caller, where they are few: each compared with those before it, so that no array of stamps is cleared.
#![tactic(auto)]

ghost use Rattle.std.specs.Prelude.{◌≡◌, ◌≤◌, ◌<◌, length};
ghost use Rattle.laws.specs.Fold.{all_below};
ghost use Rattle.calls.specs.StorePasses.{apart, lits_ok};

// Comparing up to this many literals with each other costs less than clearing an array of stamps.
pub const MOST: usize = 32;

// The variable of literal j is none of those before it.
fn var_new(lits: &[u32], j: usize) -> bool
    requires { j < length lits.now }
    ensures { result ≡ all_below (apart lits.now 0 j) j }
{
    let own = lits[j] / 2;
    for lit in &lits[..j] {
        if *lit / 2 == own {
            return false;
        }
    }
    true
}

// In range, with different variables.
pub fn lits_pass(vars: usize, lits: &[u32]) -> bool
    requires { vars ≤ 65536 }
    ensures { result ≡ lits_ok lits.now vars 0 (length lits.now) }
{
    for (j, lit) in lits.iter().enumerate() {
        if 2 * vars <= *lit as usize || !var_new(lits, j) {
            return false;
        }
    }
    true
}
