// Judging long reasons: "a trail literal's long reason is live and has that literal first, and all other literals of its reason are false".
#![tactic(auto)]

ghost use Rattle.std.specs.Prelude.{◌≡◌, true, ◌≤◌, length, take};
ghost use Rattle.laws.specs.Fold.{all_below};
ghost use Rattle.calls.specs.HostPasses.{long_reasons_ok, trail_in_range};
ghost use Rattle.judge_host.specs.Sides.{side_of, SideSized};
ghost use Rattle.judge_reasons.specs.Reasons.{false_at, besides, Listed, Readable};

use buffers::word;
use judge_host::is_false;
use judge_words::is_live;
use kinds::{ClauseRef, HostSide, Lit, Reason, node_at};

fn all_false(values: &[u8], lits: &[u32]) -> bool
    ensures { result ≡ all_below (false_at values.now lits.now) (length lits.now) }
{
    lits.iter().all(|lit| is_false(values, Lit(*lit)))
}

// What long reasons are judged by. The clause list is its used part and was judged with its live clauses; the host's buffers have an entry for each variable.
#[derive(Clone, Copy)]
struct Judging<'a> {
    vars: usize,
    words: &'a [u32],
    used: usize,
    clauses: &'a [u32],
    host: HostSide<'a>,
    ghost readable: { Readable words.now used clauses.now },
    ghost sized: { SideSized vars host.values.now host.kinds.now host.reasons.now host.levels.now },
}

impl<'a> Judging<'a> {
    ghost use Rattle.std.specs.Prelude.{◌≡◌, ◌*◌, ◌<◌, [], ◌∷◌};
    ghost use Rattle.calls.specs.HostPasses.{reason_clause_ok, long_reason_ok, long_reasons_ok};
    ghost use Rattle.judge_host.specs.Sides.{Coded};
    ghost use Rattle.judge_reasons.specs.Reasons.{under};
    ghost use Rattle.judge_reasons.specs.Held.{held};

    #[tactic(auto, using(crate::proofs::Live::others_are, crate::proofs::Live::live_used), unfolding(calls::specs::HostPasses::reason_clause_ok))]
    fn clause_ok(self, lit: Lit, reference: ClauseRef) -> bool
        ensures { result ≡ reason_clause_ok (under self.entry.words.now self.entry.clauses.now self.entry.host.values.now) lit.0 reference.0 }
    {
        let words = self.words;
        let clauses = self.clauses;
        let offset = reference.0 as usize;
        if !is_live(words, self.used, clauses, clauses.len(), offset) {
            return false;
        }
        let len = word(words, offset + 2);
        words[offset + 3] == lit.0
            && all_false(self.host.values, &words[offset + 4..offset + 3 + len])
    }

    // The literal alone, as a trail of one.
    #[tactic(auto, using(crate::proofs::Live::clause_alone), unfolding(calls::specs::HostPasses::long_reason_ok))]
    fn literal_ok(self, lit: Lit) -> bool
        requires { lit.0 < 2 * self.vars }
        ensures { result ≡ long_reason_ok (held self.entry (lit.0 ∷ [])) 0 }
    {
        let host = self.host;
        let node = node_at(host.kinds, host.reasons, host.levels, lit.var());
        let Reason::Long(reference) = node.reason else {
            return true;
        };
        self.clause_ok(lit, reference)
    }

    // The trail is its used part.
    fn trail_ok(self, trail: &[u32]) -> bool
        requires { Coded self.vars trail.now }
        ensures { result ≡ long_reasons_ok (held self.entry trail.now) }
    {
        for code in trail {
            if !self.literal_ok(Lit(*code)) {
                return false;
            }
        }
        true
    }
}

// Refusals 1 and 2 were judged before, and the rest of the host's side: its trail codes are in range.
pub fn reasons_pass(
    vars: usize,
    words: &[u32],
    used: usize,
    clauses: &[u32],
    n: usize,
    host: HostSide<'_>,
) -> bool
    requires listed { Listed words.now vars used clauses.now n }
    requires side_sized { SideSized vars host.values.now host.kinds.now host.reasons.now host.levels.now × (host.assigned ≤ length host.trail.now) }
    requires trail_value { trail_in_range vars (side_of host.values.now host.kinds.now host.reasons.now host.levels.now (take host.assigned host.trail.now) 0) ≡ true }
    ensures { result ≡ long_reasons_ok (besides words.now (take n clauses.now) (side_of host.entry.values.now host.entry.kinds.now host.entry.reasons.now host.entry.levels.now (take host.entry.assigned host.entry.trail.now) 0)) }
{
    let clauses = &clauses[..n];
    let judging = Judging {
        vars,
        words,
        used,
        clauses,
        host,
    };
    judging.trail_ok(&host.trail[..host.assigned])
}
