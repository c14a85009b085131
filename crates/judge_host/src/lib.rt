// Judging the host's side: "The host's side passes if ..".
#![tactic(auto)]

ghost use Rattle.std.specs.Prelude.{◌≡◌, ◌≤◌, ◌<◌, length, take};
ghost use Rattle.laws.specs.Fold.{all_below};
ghost use Rattle.kinds.specs.Clauses.{var_of};
ghost use Rattle.kinds.specs.Held.{is_true, is_false};
ghost use Rattle.kinds.specs.Numbers.{reason_kind};
ghost use Rattle.calls.specs.HostPasses.{at_most_at, side_passes};
ghost use Rattle.judge_host.specs.Sides.{side_of, standing, SideSized, Seen, Once, seen_ok};

use kinds::{HostSide, Lit, LitValue, Reason, lit_value, node_at};

// ---- "assignment bytes .. and reason kinds are in range"; "each level .. at most V"

fn bytes_at_most(bytes: &[u8], most: u8) -> bool
    ensures { result ≡ all_below (at_most_at most bytes.now) (length bytes.now) }
{
    bytes.iter().all(|byte| *byte <= most)
}

// Refusal 1 was judged before: a level for each variable.
// A loop: `all` takes longer, and each call on clauses judges every level.
pub fn levels_pass(vars: usize, levels: &[u32]) -> bool
    requires { vars ≤ length levels.now }
    ensures { result ≡ all_below (at_most_at vars levels.now) vars }
{
    for level in &levels[..vars] {
        if vars < *level as usize {
            return false;
        }
    }
    true
}

// ---- "trail codes .. are in range", "each variable once"

fn trail_once(seen: &mut [bool; 65536], vars: usize, trail: &[u32]) -> bool
    requires { Seen trail.now 0 seen.old × (vars ≤ 65536) }
    ensures { Once vars trail.now result seen.new }
{
    for code in trail {
        let code = *code as usize;
        if 2 * vars <= code {
            return false;
        }
        let var = code / 2;
        if seen[var] {
            return false;
        }
        seen[var] = true;
    }
    true
}

// ---- "an assigned variable off the trail has reason 4"

fn removed_ok(vars: usize, seen: &[bool; 65536], values: &[u8], kinds: &[u8]) -> bool
    requires { (vars ≤ 65536) × (vars ≤ length values.now) × (vars ≤ length kinds.now) }
    ensures { result ≡ all_below (seen_ok seen.now values.now kinds.now) vars }
{
    (0..vars).all(|x| values[x] == 2 || seen[x] || kinds[x] == 4)
}

// ---- literals under the assignment

fn is_true(values: &[u8], lit: Lit) -> bool
    requires { var_of lit.0 < length values.now }
    ensures { result ≡ is_true values.now lit.0 }
{
    let LitValue::True = lit_value(values, lit) else {
        return false;
    };
    true
}

// Any number: one that is no literal is not false.
pub fn is_false(values: &[u8], lit: Lit) -> bool
    ensures { result ≡ is_false values.now lit.0 }
{
    let code = lit.0;
    if values.len() <= (code / 2) as usize {
        return false;
    }
    let LitValue::False = lit_value(values, lit) else {
        return false;
    };
    true
}

// ---- "trail literals are true .., with reason 1 to 3 and level at most the current one"

// Unit, binary or long.
fn is_standing(reason: Reason) -> bool
    ensures { result ≡ standing (reason_kind reason) }
{
    matches!(reason, Reason::Unit | Reason::Binary(_) | Reason::Long(_))
}

// The host's side, whose buffers have an entry for each variable.
#[derive(Clone, Copy)]
struct SizedSide<'a> {
    vars: usize,
    host: HostSide<'a>,
    ghost sized: { SideSized vars host.values.now host.kinds.now host.reasons.now host.levels.now },
}

impl<'a> SizedSide<'a> {
    ghost use Rattle.std.specs.Prelude.{◌≡◌, ◌*◌, ◌<◌, [], ◌∷◌};
    ghost use Rattle.calls.specs.HostPasses.{trail_ok, binary_reason_ok, binary_reasons_ok, side_passes};
    ghost use Rattle.judge_host.specs.Sides.{stands, Coded};
    ghost use Rattle.judge_host.specs.Held.{held};

    fn stands(self, lit: Lit) -> bool
        requires { lit.0 < 2 * self.vars }
        ensures { result ≡ stands (held self.entry []) lit.0 }
    {
        let host = self.host;
        let node = node_at(host.kinds, host.reasons, host.levels, lit.var());
        is_true(host.values, lit) && is_standing(node.reason) && node.level as usize <= host.level
    }

    fn trail_ok(self, trail: &[u32]) -> bool
        requires { Coded self.vars trail.now }
        ensures { result ≡ trail_ok (held self.entry trail.now) }
    {
        for code in trail {
            if !self.stands(Lit(*code)) {
                return false;
            }
        }
        true
    }

    // ---- "all other literals of its reason are false", of a binary reason

    #[tactic(auto, unfolding(calls::specs::HostPasses::binary_reason_ok))]
    fn binary_reason_ok(self, lit: Lit) -> bool
        requires { lit.0 < 2 * self.vars }
        ensures { result ≡ binary_reason_ok (held self.entry (lit.0 ∷ [])) 0 }
    {
        let host = self.host;
        let node = node_at(host.kinds, host.reasons, host.levels, lit.var());
        let Reason::Binary(other) = node.reason else {
            return true;
        };
        is_false(host.values, other)
    }

    fn binary_reasons_ok(self, trail: &[u32]) -> bool
        requires { Coded self.vars trail.now }
        ensures { result ≡ binary_reasons_ok (held self.entry trail.now) }
    {
        for code in trail {
            if !self.binary_reason_ok(Lit(*code)) {
                return false;
            }
        }
        true
    }

    // ---- all of it

    fn passes(self, trail: &[u32]) -> bool
        ensures { result ≡ side_passes self.entry.vars (held self.entry trail.now) }
    {
        let vars = self.vars;
        let host = self.host;
        if !bytes_at_most(host.values, 2) {
            return false;
        }
        if !bytes_at_most(host.kinds, 4) {
            return false;
        }
        let mut seen = [false; 65536];
        if !trail_once(&mut seen, vars, trail) {
            return false;
        }
        if vars < host.level {
            return false;
        }
        if !self.trail_ok(trail) {
            return false;
        }
        if !removed_ok(vars, &seen, host.values, host.kinds) {
            return false;
        }
        self.binary_reasons_ok(trail)
    }
}

// Refusal 1 was judged before: V in range, buffers of V bytes and words, a used length within the trail. Every number in them is any number.
pub fn side_pass(vars: usize, host: HostSide<'_>) -> bool
    requires { SideSized vars host.values.now host.kinds.now host.reasons.now host.levels.now × (host.assigned ≤ length host.trail.now) }
    ensures { result ≡ side_passes vars (side_of host.entry.values.now host.entry.kinds.now host.entry.reasons.now host.entry.levels.now (take host.entry.assigned host.entry.trail.now) host.entry.level) }
{
    SizedSide { vars, host }.passes(&host.trail[..host.assigned])
}
