// Binary clauses in rows: binary.rs.
#![tactic(auto)]

ghost use Rattle.std.specs.Prelude.{◌≡◌, ℕ, ◌+◌, ◌*◌, ◌≤◌, ◌<◌, ◌^◌, length, set, take, drop};
ghost use Rattle.laws.specs.Lists.{at, list_at, more, lengths};
ghost use Rattle.kinds.specs.Clauses.{neg};
ghost use Rattle.kinds.specs.Layout.{rows_of, fill_rows};
ghost use Rattle.kinds.proofs.Layouts.{Sized};
ghost use Rattle.calls.specs.Adding.{pair_pushed};

use kinds::Lit;

// x behind the filled part of the row of a code. The judging has found the counts within their room; the caller has tested that this row has room.
pub fn push(rows: &mut [u32], room: usize, counts: &mut [u32], code: u32, x: u32)
    requires { (code < length counts.old) × (at counts.old code < room) × (length counts.old * room ≤ length rows.old) × (room < 2 ^ 32) }
    ensures { (rows.new ≡ set rows.old (code * room + at counts.old code) x) × (counts.new ≡ more code counts.old) }
{
    let c = code as usize;
    rows[c * room + counts[c] as usize] = x;
    counts[c] += 1;
}

// "Adding {a, b} appends b to the row of not-a, then a to the row of not-b." The finished rows fit.
pub fn add_binary_clause(rows: &mut [u32], room: usize, counts: &mut [u32], a: Lit, b: Lit)
    requires a_in_bounds { (neg a.0 < length counts.old) × (neg b.0 < length counts.old) × (length counts.old * room ≤ length rows.old) × (room < 2 ^ 32) }
    requires by_index { (c : ℕ) → c < length counts.old → at (more (neg b.0) (more (neg a.0) counts.old)) c ≤ room }
    ensures { (rows.new ≡ fill_rows room counts.old (pair_pushed a.0 b.0 (rows_of room counts.old rows.old)) rows.old)
        × (counts.new ≡ lengths (pair_pushed a.0 b.0 (rows_of room counts.old rows.old))) }
{
    let not_a = a.negated().0;
    let not_b = b.negated().0;
    push(rows, room, counts, not_a, b.0);
    push(rows, room, counts, not_b, a.0);
}

// "The implied literals of a literal are returned as that row's filled part."
pub fn implied<'a>(rows: &'a [u32], room: usize, counts: &[u32], lit: Lit) -> &'a [u32]
    requires { (lit.0 < length counts.now) × (at counts.now lit.0 ≤ room) × (length counts.now * room ≤ length rows.now) }
    ensures { result.now ≡ list_at (rows_of room counts.now rows.now) lit.0 }
{
    let code = lit.0 as usize;
    let start = code * room;
    &rows[start..start + counts[code] as usize]
}
