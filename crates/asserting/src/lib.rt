// Whether a clause is asserting.
#![tactic(auto)]

ghost use Rattle.std.specs.Prelude.{◌≡◌, ℕ, ◌+◌, ◌<◌, length};
ghost use Rattle.kinds.specs.Clauses.{first_at, var_of};
ghost use Rattle.asserting.specs.Reads.{asserting_in};

use kinds::{HostSide, Lit, LitValue, Reason};

// "an asserting clause: first literal true, its reason this clause"
// A live clause of a store that passes has its first literal in range; refusal 1 has the lengths of the host's buffers.
#[tactic(auto, unfolding(crate::specs::Reads::asserting_in))]
pub fn asserting(words: &[u32], offset: usize, host: HostSide<'_>) -> bool
    requires offset_in_bounds { offset + 3 < length words.now }
    requires offset_in_bounds_2 { (var_of (first_at words.now offset) < length host.values.now) × (var_of (first_at words.now offset) < length host.kinds.now) × (var_of (first_at words.now offset) < length host.reasons.now) × (var_of (first_at words.now offset) < length host.levels.now) }
    ensures { result ≡ asserting_in words.now host.entry.values.now host.entry.kinds.now host.entry.reasons.now offset }
{
    let lit = Lit(words[offset + 3]);
    let LitValue::True = kinds::lit_value(host.values, lit) else {
        return false;
    };
    let node = kinds::node_at(host.kinds, host.reasons, host.levels, lit.var());
    let Reason::Long(cref) = node.reason else {
        return false;
    };
    cref.0 as usize == offset
}
