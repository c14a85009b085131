// The long-clause half of `unit_simplify`.
// The store's buffers are slices beside the state, each a parameter: "a state by value, slices beside it" (docs/01-scope.md, What must change shape).
#![tactic(auto)]

ghost use Rattle.std.specs.Prelude.{◌≡◌};
ghost use Rattle.kinds.specs.Layout.{view, lay};
ghost use Rattle.simplify_lines.specs.Walk.{walk_parts, lent_walk, longs_done};
ghost use Rattle.simplify_long.specs.Ready.{LongReady};

use kinds::{Lit, LitValue, State, Verdict};

// The long clauses in list order: a satisfied clause is struck; a clause with false literals is entered without them and struck in its old form; what stays closes up, and what the list
// gives up becomes 0.
pub fn simplify_long(
    start: State,
    words: &mut [u32],
    clauses: &mut [u32],
    rows: &mut [u32],
    counts: &mut [u32],
    rec: &mut [u32],
    values: &[u8],
) -> State
    requires { LongReady (lent_walk start words.old clauses.old rows.old counts.old rec.old values.now) }
    ensures { lent_walk result words.new clauses.new rows.new counts.new rec.new values.now
        ≡ lay walk_parts (lent_walk start words.old clauses.old rows.old counts.old rec.old values.now)
        (longs_done (view (lent_walk start words.old clauses.old rows.old counts.old rec.old values.now))) }
{
    let n = start.clauses;
    let room = rows.len() / (2 * start.vars);
    let mut s = start;
    let mut to = 0;
    'clauses: for i in 0..n {
        let o = clauses[i];
        let offset = o as usize;
        if header::deleted_of(words[offset + 1]) {
            continue 'clauses;
        }
        let lits = alloc::lits(words, offset);
        let verdict = 'lits: {
            let mut kept = 0;
            for &lit in lits {
                let value = kinds::lit_value(values, Lit(lit));
                if let LitValue::Unassigned = value {
                    kept += 1;
                }
                let LitValue::True = value else {
                    continue;
                };
                break 'lits Verdict::Satisfied;
            }
            if kept == lits.len() {
                break 'lits Verdict::Same;
            }
            Verdict::Shorter(kept)
        };
        let used = s.recorded;
        let Verdict::Shorter(m) = verdict else {
            let Verdict::Same = verdict else {
                let end = record::strike(words, offset, rec, used, 5);
                s = simplify_lines::drop_clause(s, words, offset, end);
                continue 'clauses;
            };
            clauses[to] = o;
            to += 1;
            continue 'clauses;
        };
        let mid = simplify_lines::enter(words, offset, rec, used, values, m);
        let end = record::strike(words, offset, rec, mid, 6);
        if m == 2 {
            binary::add_binary_clause(rows, room, counts, Lit(rec[used + 2]), Lit(rec[used + 3]));
            s = simplify_lines::drop_clause(s, words, offset, end);
            s.binary += 1;
            continue 'clauses;
        }
        simplify_lines::write_front(words, offset, rec, used + 2, m);
        s.recorded = end;
        clauses[to] = o;
        to += 1;
    }
    buffers::clear(clauses, to, n);
    s.clauses = to;
    s
}
