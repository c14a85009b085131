// Adding binary clauses and reading implied literals: binary.rs. Each call judges what it is lent, then looks for its own refusals, then takes its step.
#![tactic(auto)]

ghost use Rattle.std.specs.Prelude.{◌≡◌, ℕ, ◌<◌, ◌≤◌, length, leb};
ghost use Rattle.laws.specs.Lists.{at};
ghost use Rattle.kinds.specs.Lent.{lent_rows, room_of};
ghost use Rattle.kinds.specs.Layout.{view, lay};
ghost use Rattle.calls.specs.Call.{add_binary, implied, only_rows};
ghost use Rattle.calls.specs.Adding.{added_binary};
ghost use Rattle.calls.specs.Outcome.{judged, own_number, done, nothing, part_of};
ghost use Rattle.calls.specs.Answers.{number_of, state_after};

use kinds::{Lit, Refusal, State};

// "each row's room being its length over 2V, rounded down". V is in range (1).
fn row_room(vars: usize, rows: &[u32]) -> usize
    requires { (0 < vars) × (vars ≤ 65536) }
    ensures { result ≡ room_of vars rows.now }
{
    rows.len() / (2 * vars)
}

// ---- implied literals

// Whether they are returned; else the number beside an empty part.
pub fn implied_number(s: State, rows: &[u32], counts: &[u32], lit: Lit) -> Result<(), Refusal>
    ensures { number_of result ≡ (done (implied lit.0) (lent_rows s rows.now counts.now)).number }
{
    judge::judge_rows(s, rows, counts)?;
    if 2 * s.vars <= lit.0 as usize {
        Err(Refusal::Clause)
    } else {
        Ok(())
    }
}

// "The implied literals of a literal are returned as that row's filled part."
pub fn implied<'a>(s: State, rows: &'a [u32], counts: &[u32], lit: Lit) -> &'a [u32]
    ensures { result.now ≡ part_of (done (implied lit.0) (lent_rows s rows.now counts.now)).answer }
{
    if judge::judge_rows(s, rows, counts).is_err() {
        return &rows[0..0];
    }
    if 2 * s.vars <= lit.0 as usize {
        return &rows[0..0];
    }
    let room = row_room(s.vars, rows);
    binary::implied(rows, room, counts, lit)
}

// ---- adding a binary clause

// Whether the row of a code has no room for one more. The code is below 2V (4) and the counts have 2V entries (1).
fn row_full(counts: &[u32], room: usize, code: u32) -> bool
    requires { code < length counts.now }
    ensures { result ≡ leb room (at counts.now code) }
{
    room <= buffers::word(counts, code as usize)
}

// 4 and 11.
fn refuse_add_binary_clause(
    s: State,
    rows: &[u32],
    counts: &[u32],
    lits: &[u32],
) -> Result<(), Refusal>
    requires { judged only_rows (lent_rows s rows.now counts.now) ≡ 0 }
    ensures { number_of result ≡ own_number (add_binary lits.now) (lent_rows s rows.now counts.now) }
{
    if lits.len() != 2 {
        return Err(Refusal::Clause);
    }
    if !judge_words::lits_pass(s.vars, lits) {
        return Err(Refusal::Clause);
    }
    let room = row_room(s.vars, rows);
    let not_a = Lit(lits[0]).negated().0;
    if row_full(counts, room, not_a) {
        return Err(Refusal::Room);
    }
    let not_b = Lit(lits[1]).negated().0;
    if row_full(counts, room, not_b) {
        return Err(Refusal::Room);
    }
    Ok(())
}

// The two rows get one more entry each, and the binary count one more.
fn append_binary_clause(s: State, rows: &mut [u32], counts: &mut [u32], lits: &[u32]) -> State
    requires counts_value { judged only_rows (lent_rows s rows.old counts.old) ≡ 0 }
    requires counts_value_2 { own_number (add_binary lits.now) (lent_rows s rows.old counts.old) ≡ 0 }
    ensures { lent_rows result rows.new counts.new
        ≡ lay only_rows (lent_rows s rows.old counts.old) (added_binary lits.now (view (lent_rows s rows.old counts.old))) }
{
    let room = row_room(s.vars, rows);
    binary::add_binary_clause(rows, room, counts, Lit(lits[0]), Lit(lits[1]));
    State {
        binary: s.binary + 1,
        ..s
    }
}

// "Adding {a, b} appends b to the row of not-a, then a to the row of not-b."
pub fn add_binary_clause(
    s: State,
    rows: &mut [u32],
    counts: &mut [u32],
    lits: &[u32],
) -> Result<State, Refusal>
    ensures { record { number = number_of result; answer = nothing; then = lent_rows (state_after s result) rows.new counts.new }
        ≡ done (add_binary lits.now) (lent_rows s rows.old counts.old) }
{
    judge::judge_rows(s, rows, counts)?;
    refuse_add_binary_clause(s, rows, counts, lits)?;
    Ok(append_binary_clause(s, rows, counts, lits))
}
