// `prove_units` below the judging.
// The store's buffers are slices beside the state, each a parameter: "a state by value, slices beside it" (docs/01-scope.md, What must change shape).
#![tactic(auto)]

ghost use Rattle.std.specs.Prelude.{◌≡◌, ◌+◌, ◌≤◌, ◌<◌, ◌^◌, length, set, leb};
ghost use Rattle.std.proofs.lemmas.List.Edits.{sets};
ghost use Rattle.laws.specs.Lists.{at};
ghost use Rattle.kinds.specs.Clauses.{var_of};
ghost use Rattle.kinds.specs.Numbers.{reason_of};
ghost use Rattle.kinds.specs.Lent.{lent_words, host_of, lent_by};
ghost use Rattle.kinds.specs.Layout.{view, lay};
ghost use Rattle.calls.specs.Call.{prove_units, words_record_host};
ghost use Rattle.calls.specs.Simplifying.{units_proved, new_unit};
ghost use Rattle.calls.specs.Outcome.{judged, own_number};
ghost use Rattle.calls.specs.Answers.{number_of};
ghost use Rattle.prove_units.specs.Units.{reason_line, ReasonIn, trail_lines, trail_set, TrailReady};

use kinds::{HostSide, Lit, Proved, Reason, Refusal, State};

// The words of a literal's line.
pub fn line_size(words: &[u32], reason: Reason, lit: u32) -> usize
    requires { ReasonIn words.now reason }
    ensures { result ≡ length (reason_line words.now reason lit) }
{
    match reason {
        Reason::Binary(_) => 4,
        Reason::Long(clause) => buffers::word(words, clause.0 as usize + 2) + 2,
        _ => 0,
    }
}

// A literal's line behind the used part of the record. Returns the new used length.
pub fn note_unit(words: &[u32], rec: &mut [u32], used: usize, reason: Reason, lit: u32) -> usize
    requires { (used + length (reason_line words.now reason lit) ≤ length rec.old) × ReasonIn words.now reason }
    ensures { (result ≡ used + length (reason_line words.now reason lit)) × (rec.new ≡ sets rec.old used (reason_line words.now reason lit)) }
{
    match reason {
        Reason::Binary(other) => {
            rec[used] = 1;
            rec[used + 1] = 2;
            rec[used + 2] = lit;
            rec[used + 3] = other.0;
            used + 4
        }
        Reason::Long(clause) => {
            let offset = clause.0 as usize;
            let n = buffers::word(words, offset + 2);
            rec[used] = 1;
            rec[used + 1] = n as u32;
            rec[used + 2] = lit;
            buffers::copy(rec, used + 3, words, offset + 4, n - 1);
            used + (n + 2)
        }
        _ => used,
    }
}

// One trail literal: its line, unless its reason is unit; then it is a removed unit, "a new removed unit's value becomes 0".
pub fn prove_unit(
    words: &[u32],
    rec: &mut [u32],
    used: usize,
    kinds: &mut [u8],
    reasons: &mut [u32],
    levels: &[u32],
    lit: u32,
) -> usize
    requires lit_in_bounds { (var_of lit < length kinds.old) × (var_of lit < length reasons.old) × (var_of lit < length levels.now) }
    requires lit_in_bounds_2 { (used + length (reason_line words.now (reason_of (at kinds.old (var_of lit)) (at reasons.old (var_of lit))) lit) ≤ length rec.old)
        × ReasonIn words.now (reason_of (at kinds.old (var_of lit)) (at reasons.old (var_of lit))) }
    ensures { (result ≡ used + length (reason_line words.now (reason_of (at kinds.old (var_of lit)) (at reasons.old (var_of lit))) lit))
        × (rec.new ≡ sets rec.old used (reason_line words.now (reason_of (at kinds.old (var_of lit)) (at reasons.old (var_of lit))) lit))
        × (kinds.new ≡ set kinds.old (var_of lit) 4)
        × (reasons.new ≡ set reasons.old (var_of lit) 0) }
{
    let var = Lit(lit).var();
    let node = kinds::node_at(kinds, reasons, levels, var);
    let end = note_unit(words, rec, used, node.reason, lit);
    let at = var.0 as usize;
    kinds[at] = 4;
    reasons[at] = 0;
    end
}

// The first n trail literals, in trail order. Returns the record's new used length.
pub fn prove_trail(
    words: &[u32],
    rec: &mut [u32],
    mut recorded: usize,
    kinds: &mut [u8],
    reasons: &mut [u32],
    levels: &[u32],
    trail: &[u32],
    n: usize,
) -> usize
    requires trail_ready { TrailReady words.now kinds.old reasons.old levels.now trail.now n }
    requires n_in_bounds { recorded + length (trail_lines words.now kinds.old reasons.old trail.now n) ≤ length rec.old }
    ensures { (result ≡ recorded + length (trail_lines words.now kinds.old reasons.old trail.now n))
        × (rec.new ≡ sets rec.old recorded (trail_lines words.now kinds.old reasons.old trail.now n))
        × (kinds.new ≡ trail_set 4 kinds.old trail.now n)
        × (reasons.new ≡ trail_set 0 reasons.old trail.now n) }
{
    for &lit in &trail[..n] {
        recorded = prove_unit(words, rec, recorded, kinds, reasons, levels, lit);
    }
    recorded
}

// Whether a record with room for `cap` words has room for the lines of the first n trail literals. Nothing is written.
pub fn lines_fit(
    words: &[u32],
    cap: usize,
    mut recorded: usize,
    kinds: &[u8],
    reasons: &[u32],
    levels: &[u32],
    trail: &[u32],
    n: usize,
) -> bool
    requires trail_ready { TrailReady words.now kinds.now reasons.now levels.now trail.now n }
    requires recorded_le_cap { (recorded ≤ cap) × (cap ≤ 2 ^ 24) }
    ensures { result ≡ leb (recorded + length (trail_lines words.now kinds.now reasons.now trail.now n)) cap }
{
    for &lit in &trail[..n] {
        let node = kinds::node_at(kinds, reasons, levels, Lit(lit).var());
        recorded += line_size(words, node.reason, lit);
        if cap < recorded {
            return false;
        }
    }
    true
}

// Refusal 11, the only one: the record lacks room for the lines.
pub fn refuse_prove_units(
    s: State,
    words: &[u32],
    clauses: &[u32],
    rec: &[u32],
    host: HostSide<'_>,
) -> Result<(), Refusal>
    requires { judged words_record_host (lent_words s words.now clauses.now rec.now (lent_by host)) ≡ 0 }
    ensures { number_of result ≡ own_number prove_units (lent_words s words.now clauses.now rec.now (lent_by host.entry)) }
{
    if host.level != 0 {
        return Ok(());
    }
    if lines_fit(
        words,
        rec.len(),
        s.recorded,
        host.kinds,
        host.reasons,
        host.levels,
        host.trail,
        host.assigned,
    ) {
        return Ok(());
    }
    Err(Refusal::Room)
}

// "At level 0 it records, in trail order, each literal whose reason isn't unit, makes all of them removed units and empties the trail."
pub fn prove_units(
    s: State,
    words: &[u32],
    clauses: &[u32],
    rec: &mut [u32],
    values: &[u8],
    kinds: &mut [u8],
    reasons: &mut [u32],
    levels: &[u32],
    trail: &mut [u32],
    assigned: usize,
    level: usize,
) -> Proved
    requires level_value { judged words_record_host (lent_words s words.now clauses.now rec.old (host_of values.now kinds.old reasons.old levels.now trail.old assigned level)) ≡ 0 }
    requires level_value_2 { own_number prove_units (lent_words s words.now clauses.now rec.old (host_of values.now kinds.old reasons.old levels.now trail.old assigned level)) ≡ 0 }
    ensures units_after { lent_words result.state words.now clauses.now rec.new (host_of values.now kinds.new reasons.new levels.now trail.new result.assigned level)
        ≡ lay words_record_host (lent_words s words.now clauses.now rec.old (host_of values.now kinds.old reasons.old levels.now trail.old assigned level))
        (units_proved (view (lent_words s words.now clauses.now rec.old (host_of values.now kinds.old reasons.old levels.now trail.old assigned level)))) }
    ensures new_value { result.new_unit ≡ new_unit (view (lent_words s words.now clauses.now rec.old (host_of values.now kinds.old reasons.old levels.now trail.old assigned level))) }
{
    if level != 0 {
        return Proved {
            new_unit: false,
            state: s,
            assigned,
        };
    }
    let recorded = prove_trail(
        words, rec, s.recorded, kinds, reasons, levels, trail, assigned,
    );
    buffers::clear(trail, 0, assigned);
    Proved {
        new_unit: assigned != 0,
        state: State { recorded, ..s },
        assigned: 0,
    }
}
