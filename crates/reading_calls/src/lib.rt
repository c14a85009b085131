// A clause's literals, assessing a learned clause, and emptying the record. Each call judges what it is lent, then looks for its own refusals, then takes its step.
#![tactic(auto)]

ghost use Rattle.std.specs.Prelude.{◌≡◌, []};
ghost use Rattle.kinds.specs.Lent.{lent_words, lent_levels, lent_record, no_host};
ghost use Rattle.calls.specs.Call.{literals, assess, empty_record};
ghost use Rattle.calls.specs.Outcome.{done, nothing, part_of};
ghost use Rattle.calls.specs.Answers.{number_of, assessed_answer, state_after};

use kinds::{Assessed, ClauseRef, Refusal, State};

// ---- a clause's literals

// Whether they are returned; else the number beside an empty part.
pub fn clause_lits_number(
    s: State,
    words: &[u32],
    clauses: &[u32],
    cref: ClauseRef,
) -> Result<(), Refusal>
    ensures { number_of result ≡ (done (literals cref.0) (lent_words s words.now clauses.now [] no_host)).number }
{
    judge::judge_list(s, words, clauses)?;
    if !judge_words::is_live(words, s.words, clauses, s.clauses, cref.0 as usize) {
        return Err(Refusal::Reference);
    }
    Ok(())
}

// A live clause's literals, as the part of the words that they are.
pub fn clause_lits<'a>(s: State, words: &'a [u32], clauses: &[u32], cref: ClauseRef) -> &'a [u32]
    ensures { result.now ≡ part_of (done (literals cref.0) (lent_words s words.now clauses.now [] no_host)).answer }
{
    if judge::judge_list(s, words, clauses).is_err() {
        return &words[0..0];
    }
    let offset = cref.0 as usize;
    if !judge_words::is_live(words, s.words, clauses, s.clauses, offset) {
        return &words[0..0];
    }
    alloc::lits(words, offset)
}

// ---- assessing

// The tier and the glue that the new header will have.
pub fn assess_learned_clause(vars: usize, levels: &[u32], lits: &[u32]) -> Result<Assessed, Refusal>
    ensures { record { number = number_of result; answer = assessed_answer result; then = lent_levels vars levels.now }
        ≡ done (assess lits.now) (lent_levels vars levels.now) }
{
    judge::judge_levels(vars, levels)?;
    let n = lits.len();
    if n < 1 {
        return Err(Refusal::Clause);
    }
    if vars < n {
        return Err(Refusal::Clause);
    }
    if !judge_words::lits_pass(vars, lits) {
        return Err(Refusal::Clause);
    }
    Ok(assess::assess_learned_clause(levels, lits))
}

// ---- the record

// "Emptying the record, an added call, takes its used length to 0."
pub fn empty_record(s: State, rec: &mut [u32]) -> Result<State, Refusal>
    ensures { record { number = number_of result; answer = nothing; then = lent_record (state_after s result) rec.new }
        ≡ done empty_record (lent_record s rec.old) }
{
    judge::judge_record(s, rec)?;
    buffers::clear(rec, 0, s.recorded);
    Ok(State { recorded: 0, ..s })
}
