// What the lines of a walk print. docs/walk.md has every spelling.
#![tactic(auto)]

ghost use Rattle.std.specs.Prelude.{◌<◌, ◌≤◌, length};
ghost use Rattle.walk_text.specs.Page.{SameSlice};

use kinds::{ClauseActivity, ClauseRef, Lit, Refusal, State, Tier};
use view::HeaderFields;
use walk_kinds::{Lent, Said, Told, Walk};
use walk_text::{Number, Page};

// ---- pieces of lines

fn name(page: &mut Page<'_>, op: &[u8])
    ensures { SameSlice page.old.bytes page.new.bytes }
{
    page.text(b"op=");
    page.text(op);
}

fn field(page: &mut Page<'_>, label: &[u8], n: usize)
    ensures { SameSlice page.old.bytes page.new.bytes }
{
    page.text(label);
    page.number(n);
}

fn field_line(page: &mut Page<'_>, label: &[u8], n: usize)
    ensures { SameSlice page.old.bytes page.new.bytes }
{
    field(page, label, n);
    page.text(b"\n");
}

// Inlined, so that the label's length is known where it is laid: most of a long record's lines are little else.
#[inline(always)]
fn list_line<T: Number>(page: &mut Page<'_>, label: &[u8], list: &[T])
    ensures { SameSlice page.old.bytes page.new.bytes }
{
    page.text(label);
    page.list(list);
    page.text(b"\n");
}

// "A used length above its room prints the list cut at its room."
fn used_line<T: Number>(page: &mut Page<'_>, label: &[u8], list: &[T], used: usize)
    ensures { SameSlice page.old.bytes page.new.bytes }
{
    list_line(page, label, &list[..used.min(list.len())]);
}

// ---- the answer of a line

// `op=NAME answer=NUMBER`
fn numbered(page: &mut Page<'_>, op: &[u8], number: usize)
    ensures { SameSlice page.old.bytes page.new.bytes }
{
    name(page, op);
    field_line(page, b" answer=", number);
}

fn refused(page: &mut Page<'_>, op: &[u8], refusal: Refusal)
    ensures { SameSlice page.old.bytes page.new.bytes }
{
    numbered(page, op, u32::from(refusal) as usize);
}

pub fn unreadable(page: &mut Page<'_>)
    ensures { SameSlice page.old.bytes page.new.bytes }
{
    numbered(page, b"none", 99);
}

fn accepted_with(page: &mut Page<'_>, op: &[u8], label: &[u8], n: usize)
    ensures { SameSlice page.old.bytes page.new.bytes }
{
    name(page, op);
    page.text(b" answer=0");
    field_line(page, label, n);
}

fn assessed(page: &mut Page<'_>, op: &[u8], tier: Tier, glue: u32)
    ensures { SameSlice page.old.bytes page.new.bytes }
{
    name(page, op);
    field(page, b" tier=", tier.number() as usize);
    field_line(page, b" glue=", glue as usize);
}

// What an accepted line says: `op=long answer=0 ref=R`, `op=delete answer=0 rebuild=B`, `op=units answer=0 new=B`, `op=assess tier=T glue=G`, or `op=NAME answer=0`.
fn accepted(page: &mut Page<'_>, op: &[u8], said: Said)
    ensures { SameSlice page.old.bytes page.new.bytes }
{
    match said {
        Said::Nothing => numbered(page, op, 0),
        Said::Ref(offset) => accepted_with(page, op, b" ref=", offset as usize),
        Said::Rebuild(b) => accepted_with(page, op, b" rebuild=", usize::from(b)),
        Said::New(b) => accepted_with(page, op, b" new=", usize::from(b)),
        Said::Assessed(tier, glue) => assessed(page, op, tier, glue),
    }
}

// "A refused line prints `op=NAME answer=NUMBER`"; "an accepted line that prints nothing prints `op=NAME answer=0` and, where listed, its answer" while answers are on; an assessed clause always
// prints.
pub fn answer(page: &mut Page<'_>, op: &[u8], told: Told, answers: bool)
    ensures { SameSlice page.old.bytes page.new.bytes }
{
    if told.number != 0 {
        return numbered(page, op, told.number);
    }
    match told.said {
        Said::Assessed(tier, glue) => assessed(page, op, tier, glue),
        said if answers => accepted(page, op, said),
        _ => {}
    }
}

// ---- the literals of a clause, or of the binary clauses with a literal

// `op=NAME lits=..`
fn listed(page: &mut Page<'_>, op: &[u8], lits: &[u32])
    ensures { SameSlice page.old.bytes page.new.bytes }
{
    name(page, op);
    list_line(page, b" lits=", lits);
}

pub fn implied(page: &mut Page<'_>, state: State, lent: &Lent<'_>, lit: Lit)
    ensures { SameSlice page.old.bytes page.new.bytes }
{
    match binary_calls::implied_number(state, lent.rows, lent.counts, lit) {
        Err(refusal) => refused(page, b"implied", refusal),
        Ok(()) => {
            let lits = binary_calls::implied(state, lent.rows, lent.counts, lit);
            listed(page, b"implied", lits);
        }
    }
}

pub fn literals(page: &mut Page<'_>, state: State, lent: &Lent<'_>, cref: ClauseRef)
    ensures { SameSlice page.old.bytes page.new.bytes }
{
    match reading_calls::clause_lits_number(state, lent.words, lent.clauses, cref) {
        Err(refusal) => refused(page, b"literals", refusal),
        Ok(()) => {
            let lits = reading_calls::clause_lits(state, lent.words, lent.clauses, cref);
            listed(page, b"literals", lits);
        }
    }
}

// ---- show

fn counts_fields(page: &mut Page<'_>, counts: [usize; 4])
    ensures { SameSlice page.old.bytes page.new.bytes }
{
    field(page, b" count0=", counts[0]);
    field(page, b" count1=", counts[1]);
    field(page, b" count2=", counts[2]);
    field(page, b" count3=", counts[3]);
}

// How many clauses live, whatever the counts.
fn live(counts: [usize; 4]) -> usize {
    let [irred, core, mid, local] = counts;
    irred
        .wrapping_add(core)
        .wrapping_add(mid)
        .wrapping_add(local)
}

// `used`, `garbage` and `record` count words, the rest clauses.
fn summary(page: &mut Page<'_>, state: State)
    ensures { SameSlice page.old.bytes page.new.bytes }
{
    field(page, b"used=", state.words);
    field(page, b" garbage=", state.garbage);
    field(page, b" live=", live(state.counts));
    field(page, b" binary=", state.binary);
    counts_fields(page, state.counts);
    field_line(page, b" record=", state.recorded);
}

// Where the record's line at a place ends: "Kind, length, literals", cut at the list's end.
fn line_end(rec: &[u32], i: usize) -> usize
    requires { i < length rec.now }
    ensures { (i < result) × (result ≤ length rec.now) }
{
    let left = rec.len() - i;
    if left < 2 {
        return rec.len();
    }
    i + 2 + (rec[i + 1] as usize).min(left - 2)
}

fn record_line(page: &mut Page<'_>, line: &[u32])
    ensures { SameSlice page.old.bytes page.new.bytes }
{
    if let Some(kind) = line.first() {
        field(page, b"kind=", *kind as usize);
        list_line(page, b" lits=", &line[line.len().min(2)..]);
    }
}

fn record_lines(page: &mut Page<'_>, rec: &[u32])
    ensures { SameSlice page.old.bytes page.new.bytes }
{
    let mut i = 0;
    // no `for`: each line has a length of its own
    while i < rec.len() {
        let end = line_end(rec, i);
        record_line(page, &rec[i..end]);
        i = end;
    }
}

// "`show` prints one summary line and the record."
pub fn show(page: &mut Page<'_>, state: State, rec: &[u32])
    ensures { SameSlice page.old.bytes page.new.bytes }
{
    summary(page, state);
    record_lines(page, &rec[..state.recorded.min(rec.len())]);
}

// ---- dump

// "A NaN's bits print as 2143289344."
fn float_bits(x: f32) -> usize {
    let bits = if x.is_nan() { 0x7fc0_0000 } else { x.to_bits() };
    bits as usize
}

fn activity_fields(page: &mut Page<'_>, activity: ClauseActivity)
    ensures { SameSlice page.old.bytes page.new.bytes }
{
    field(page, b" bump=", float_bits(activity.bump));
    field_line(page, b" inverse=", float_bits(activity.inv_decay));
}

fn used_fields(page: &mut Page<'_>, state: State)
    ensures { SameSlice page.old.bytes page.new.bytes }
{
    let [irred, core, mid, local] = state.tiers;
    field(page, b"state vars=", state.vars);
    field(page, b" words=", state.words);
    field(page, b" clauses=", state.clauses);
    field(page, b" irred=", irred);
    field(page, b" core=", core);
    field(page, b" mid=", mid);
    field(page, b" local=", local);
    field(page, b" record=", state.recorded);
}

fn state_line(page: &mut Page<'_>, state: State)
    ensures { SameSlice page.old.bytes page.new.bytes }
{
    used_fields(page, state);
    counts_fields(page, state.counts);
    field(page, b" garbage=", state.garbage);
    field(page, b" binary=", state.binary);
    activity_fields(page, state.activity);
}

fn clause_lines(page: &mut Page<'_>, state: State, lent: &Lent<'_>)
    ensures { SameSlice page.old.bytes page.new.bytes }
{
    let [irred, core, mid, local] = state.tiers;
    used_line(page, b"words=", lent.words, state.words);
    used_line(page, b"clauses=", lent.clauses, state.clauses);
    used_line(page, b"irred=", lent.irred, irred);
    used_line(page, b"core=", lent.core, core);
    used_line(page, b"mid=", lent.mid, mid);
    used_line(page, b"local=", lent.local, local);
}

// "each row's room being its length over 2V, rounded down"; 0 where V is 0.
fn row_room(vars: usize, len: usize) -> usize {
    if vars == 0 { 0 } else { len / 2 / vars }
}

// A row with a count above 0.
fn row_line(page: &mut Page<'_>, code: usize, count: usize, row: &[u32])
    ensures { SameSlice page.old.bytes page.new.bytes }
{
    if count > 0 {
        field(page, b"row=", code);
        used_line(page, b" lits=", row, count);
    }
}

fn row_lines(page: &mut Page<'_>, vars: usize, rows: &[u32], counts: &[u32])
    ensures { SameSlice page.old.bytes page.new.bytes }
{
    if vars == 0 {
        return;
    }
    let room = row_room(vars, rows.len());
    let mut rest = rows;
    for (code, count) in counts.iter().enumerate() {
        let Some((row, behind)) = rest.split_at_checked(room) else {
            return;
        };
        row_line(page, code, *count as usize, row);
        rest = behind;
    }
}

fn host_lines(page: &mut Page<'_>, walk: &Walk, lent: &Lent<'_>)
    ensures { SameSlice page.old.bytes page.new.bytes }
{
    let vars = walk.state.vars;
    used_line(page, b"values=", lent.values, vars);
    used_line(page, b"kinds=", lent.kinds, vars);
    used_line(page, b"reasons=", lent.reasons, vars);
    used_line(page, b"levels=", lent.levels, vars);
    used_line(page, b"trail=", lent.trail, walk.assigned);
    field_line(page, b"level=", walk.level);
}

// All of the store and the host side.
pub fn dump(page: &mut Page<'_>, walk: &Walk, lent: &Lent<'_>)
    ensures { SameSlice page.old.bytes page.new.bytes }
{
    let state = walk.state;
    state_line(page, state);
    clause_lines(page, state, lent);
    row_lines(page, state.vars, lent.rows, lent.counts);
    used_line(page, b"record=", lent.rec, state.recorded);
    host_lines(page, walk, lent);
}

// ---- tails

fn nonzero(list: &[u32]) -> usize
    ensures { result ≤ length list.now }
{
    let mut n = 0;
    for x in list {
        if *x != 0 {
            n += 1;
        }
    }
    n
}

// "of each lent buffer, how many numbers behind its used part .. are not 0"
fn behind(list: &[u32], used: usize) -> usize
    ensures { result ≤ length list.now }
{
    nonzero(&list[used.min(list.len())..])
}

// The numbers that are not 0 in no row's filled part, also behind the last row.
fn rows_behind(vars: usize, rows: &[u32], counts: &[u32]) -> usize {
    let room = row_room(vars, rows.len());
    let mut rest = rows;
    let mut n = 0;
    for count in counts {
        let Some((row, after)) = rest.split_at_checked(room) else {
            break;
        };
        n += behind(row, *count as usize);
        rest = after;
    }
    n + nonzero(rest)
}

// What lies behind the used parts.
pub fn tails(page: &mut Page<'_>, walk: &Walk, lent: &Lent<'_>)
    ensures { SameSlice page.old.bytes page.new.bytes }
{
    let state = walk.state;
    let [irred, core, mid, local] = state.tiers;
    field(page, b"op=tails words=", behind(lent.words, state.words));
    field(page, b" clauses=", behind(lent.clauses, state.clauses));
    field(page, b" irred=", behind(lent.irred, irred));
    field(page, b" core=", behind(lent.core, core));
    field(page, b" mid=", behind(lent.mid, mid));
    field(page, b" local=", behind(lent.local, local));
    field(
        page,
        b" rows=",
        rows_behind(state.vars, lent.rows, lent.counts),
    );
    field(page, b" record=", behind(lent.rec, state.recorded));
    field_line(page, b" trail=", behind(lent.trail, walk.assigned));
}

// ---- the view

// The bits of an activity word; those of a NaN print as 2143289344.
fn word_bits(bits: u32) -> usize {
    if bits % 0x8000_0000 > 0x7f80_0000 {
        0x7fc0_0000
    } else {
        bits as usize
    }
}

fn header_fields(page: &mut Page<'_>, header: HeaderFields)
    ensures { SameSlice page.old.bytes page.new.bytes }
{
    field(page, b"op=view activity=", word_bits(header.activity));
    field(page, b" tier=", header.tier.number() as usize);
    field(page, b" deleted=", usize::from(header.deleted));
    field(page, b" mark=", usize::from(header.mark));
    field(page, b" glue=", header.glue as usize);
    field(page, b" active=", usize::from(header.active));
    field(page, b" length=", header.len as usize);
}

// "the literals of places 0, 1, .. that have one"
fn view_literals(page: &mut Page<'_>, words: &[u32])
    ensures { SameSlice page.old.bytes page.new.bytes }
{
    for place in 0..words.len() {
        let Some(lit) = view::view_literal(words, place) else {
            return;
        };
        if place > 0 {
            page.text(b",");
        }
        page.number(lit.0 as usize);
    }
}

// A clause view over words `from` to `end` of the lent word buffer: "A at most B, B at most its length, else answer 4".
pub fn view(page: &mut Page<'_>, words: &[u32], from: usize, end: usize)
    ensures { SameSlice page.old.bytes page.new.bytes }
{
    if from > end || end > words.len() {
        return refused(page, b"view", Refusal::Clause);
    }
    let clause = &words[from..end];
    header_fields(page, view::view_fields(clause));
    page.text(b" lits=");
    view_literals(page, clause);
    page.text(b"\n");
}
