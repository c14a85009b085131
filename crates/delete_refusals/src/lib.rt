// The refusals of deletion, known before anything is written.
// The store's buffers are slices beside the state, each a parameter: "a state by value, slices beside it" (docs/01-scope.md, What must change shape).
#![tactic(auto)]

ghost use Rattle.std.specs.Prelude.{◌≡◌, []};
ghost use Rattle.kinds.specs.Lent.{lent, lent_by};
ghost use Rattle.calls.specs.Call.{delete, five_lists_record_host};
ghost use Rattle.calls.specs.Outcome.{judged, own_number};
ghost use Rattle.calls.specs.Answers.{number_of};

use kinds::{ClauseRef, HostSide, Refusal, State};

// 6, 7 and 8, and 11 where the record has no room for the line.
pub fn refuse_delete(
    s: State,
    words: &[u32],
    clauses: &[u32],
    irred: &[u32],
    core: &[u32],
    mid: &[u32],
    local: &[u32],
    rec: &[u32],
    host: HostSide<'_>,
    cref: ClauseRef,
) -> Result<(), Refusal>
    requires { judged five_lists_record_host (lent s words.now clauses.now irred.now core.now mid.now local.now [] [] rec.now (lent_by host)) ≡ 0 }
    ensures { number_of result ≡ own_number (delete cref.0) (lent s words.now clauses.now irred.now core.now mid.now local.now [] [] rec.now (lent_by host.entry)) }
{
    let offset = cref.0 as usize;
    let used = s.words;
    let n = s.clauses;
    if !judge_words::is_live(words, used, clauses, n, offset) {
        return Err(Refusal::Reference);
    }
    let tier = judge_words::tier_at(words, offset);
    if tier == 0 {
        return Err(Refusal::Original);
    }
    if asserting::asserting(words, offset, host) {
        return Err(Refusal::Asserting);
    }
    let len = buffers::word(words, offset + 2);
    if rec.len() - s.recorded < len + 2 {
        return Err(Refusal::Room);
    }
    Ok(())
}
