// Returned parts as numbers: where a part starts in the lent buffer, and its length, since a reference does not pass back to another language.
#![tactic(auto)]

ghost use Rattle.std.specs.Prelude.{◌≡◌, [], ℕ, ◌+◌, ◌*◌};
ghost use Rattle.kinds.specs.Lent.{lent_rows, lent_words, no_host, room_of};
ghost use Rattle.calls.specs.Call.{implied, literals};
ghost use Rattle.calls.specs.Outcome.{done};
ghost use Rattle.store_kinds.specs.Heard.{part_given, part_heard};

use kinds::{ClauseRef, Lit, Refusal, State};
use store_kinds::{Part, no_part};

// `binary_calls::implied` and `implied_number`: "The implied literals of a literal are returned as that row's filled part."
pub fn implied(s: State, rows: &[u32], counts: &[u32], lit: Lit) -> Part
    ensures { part_given rows.now result
        ≡ part_heard (lit.0 * room_of s.vars rows.now) (done (implied lit.0) (lent_rows s rows.now counts.now)) }
{
    if let Err(refusal) = judge::judge_rows(s, rows, counts) {
        return no_part(refusal);
    }
    let code = lit.0 as usize;
    if 2 * s.vars <= code {
        return no_part(Refusal::Clause);
    }
    let room = rows.len() / (2 * s.vars);
    Part {
        number: 0,
        start: code * room,
        len: buffers::word(counts, code),
    }
}

// `reading_calls::clause_lits` and `clause_lits_number`: a live clause's literals, as the part of the words that they are.
pub fn clause_lits(s: State, words: &[u32], clauses: &[u32], cref: ClauseRef) -> Part
    ensures { part_given words.now result
        ≡ part_heard (cref.0 + 3) (done (literals cref.0) (lent_words s words.now clauses.now [] no_host)) }
{
    if let Err(refusal) = judge::judge_list(s, words, clauses) {
        return no_part(refusal);
    }
    let offset = cref.0 as usize;
    if !judge_words::is_live(words, s.words, clauses, s.clauses, offset) {
        return no_part(Refusal::Reference);
    }
    Part {
        number: 0,
        start: offset + 3,
        len: buffers::word(words, offset + 2),
    }
}
