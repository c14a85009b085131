// The lines that are the host's own doing: rooms, levels, the trail, and `op=poke`.
#![tactic(auto)]

use kinds::{Lit, Refusal, Var};
use walk_kinds::{Buffers, Lent, Rooms, Said, Told, Walk};

// ---- `op=room`: "a number above the length listed above is answered by 1"

fn rooms_ok(rooms: Rooms) -> bool {
    rooms.words <= 16384
        && rooms.clauses <= 4096
        && rooms.irred <= 4096
        && rooms.core <= 4096
        && rooms.mid <= 4096
        && rooms.local <= 4096
        && rooms.rows <= 16384
        && rooms.rec <= 16384
}

pub fn room(walk: &mut Walk, rooms: Rooms) -> Told {
    if !rooms_ok(rooms) {
        return Told::from(Refusal::Size);
    }
    walk.rooms = rooms;
    Told::from(Said::Nothing)
}

// ---- `op=level`, `op=answers`, `op=depth`

pub fn level(walk: &mut Walk, level: u32) -> Told {
    walk.level = level as usize;
    Told::from(Said::Nothing)
}

pub fn answers(walk: &mut Walk, on: bool) -> Told {
    walk.answers = on;
    Told::from(Said::Nothing)
}

// "the host sets a variable's level; X not below V: 4"
pub fn depth(walk: &Walk, lent: &mut Lent<'_>, var: Var, level: u32) -> Told {
    let x = var.0 as usize;
    if x >= walk.state.vars || x >= lent.levels.len() {
        return Told::from(Refusal::Clause);
    }
    lent.levels[x] = level;
    Told::from(Said::Nothing)
}

// ---- the trail

// Where `op=start` is accepted: "all unassigned, reasons none, values and levels 0, trail empty, current level 0".
pub fn begin(walk: &mut Walk, buffers: &mut Buffers) {
    buffers.values = [2; 1024];
    buffers.kinds = [0; 1024];
    buffers.reasons = [0; 1024];
    buffers.levels = [0; 1024];
    buffers.trail = [0; 1024];
    walk.assigned = 0;
    walk.level = 0;
}

// "the host puts L true on the trail with this reason and level, whatever they are; L out of range or assigned, or K above 255: 4"
pub fn assign(
    walk: &mut Walk,
    lent: &mut Lent<'_>,
    lit: Lit,
    kind: u32,
    value: u32,
    level: u32,
) -> Told {
    let x = lit.var().0 as usize;
    let top = walk.assigned;
    if x >= walk.state.vars
        || x >= lent.values.len()
        || x >= lent.kinds.len()
        || x >= lent.reasons.len()
        || x >= lent.levels.len()
        || lent.values[x] != 2
        || kind > 255
        || top >= lent.trail.len()
    {
        return Told::from(Refusal::Clause);
    }
    // the byte that makes it true
    lent.values[x] = if lit.0 % 2 == 0 { 1 } else { 0 };
    lent.kinds[x] = kind as u8;
    lent.reasons[x] = value;
    lent.levels[x] = level;
    lent.trail[top] = lit.0;
    walk.assigned = top + 1;
    Told::from(Said::Nothing)
}

// "the host puts L true on the trail, reason unit, value 0, at the current level; out of range or assigned: 4". The current level came from a number below 2^32.
pub fn unit(walk: &mut Walk, lent: &mut Lent<'_>, lit: Lit) -> Told {
    let level = (walk.level % (1 << 32)) as u32;
    assign(walk, lent, lit, 1, 0, level)
}

// "the host takes the last literal off the trail: its variable is unassigned, its reason, value and level stay, the trail entry becomes 0; empty trail: 4"
pub fn undo(walk: &mut Walk, lent: &mut Lent<'_>) -> Told {
    let top = walk.assigned;
    if top == 0 || top > lent.trail.len() {
        return Told::from(Refusal::Clause);
    }
    let last = top - 1;
    let x = Lit(lent.trail[last]).var().0 as usize;
    if x >= lent.values.len() {
        return Told::from(Refusal::Clause);
    }
    lent.values[x] = 2;
    lent.trail[last] = 0;
    walk.assigned = last;
    Told::from(Said::Nothing)
}

// ---- `op=poke`: "writes a number into a lent buffer, or a state field, as it stands; a place outside, or a value too large for it: 4"

fn put<T: Copy + TryFrom<u32>>(list: &mut [T], at: u32, value: u32) -> Told
where
    T::Error: Drop,
{
    let at = at as usize;
    let Ok(value) = T::try_from(value) else {
        return Told::from(Refusal::Clause);
    };
    if at >= list.len() {
        return Told::from(Refusal::Clause);
    }
    list[at] = value;
    Told::from(Said::Nothing)
}

// "A bits pattern that is a NaN's stores a NaN."
fn number_of(bits: u32) -> f32 {
    if bits % 0x8000_0000 > 0x7f80_0000 {
        return f32::NAN;
    }
    f32::from_bits(bits)
}

// "State fields by `at`: 0 V, 1 used words, 2 used clauses, 3 to 6 used tier lists, 7 used record, 8 to 11 the four counts, 12 garbage, 13 binary count, 14 the bump's bits, 15 the inverse
// decay's bits, 16 the trail's used length (host)."
fn poke_state(walk: &mut Walk, at: u32, value: u32) -> Told {
    let n = value as usize;
    match at {
        0 => walk.state.vars = n,
        1 => walk.state.words = n,
        2 => walk.state.clauses = n,
        3..=6 => walk.state.tiers[at as usize - 3] = n,
        7 => walk.state.recorded = n,
        8..=11 => walk.state.counts[at as usize - 8] = n,
        12 => walk.state.garbage = n,
        13 => walk.state.binary = n,
        14 => walk.state.activity.bump = number_of(value),
        15 => walk.state.activity.inv_decay = number_of(value),
        16 => walk.assigned = n,
        _ => return Told::from(Refusal::Clause),
    }
    Told::from(Said::Nothing)
}

// "Buffers of `poke`: 0 words, 1 clauses, 2 irred, 3 core, 4 mid, 5 local, 6 rows, 7 row counts, 8 record, 9 assignment bytes, 10 reason kinds, 11 reason values, 12 levels, 13 trail, 14 the state."
pub fn poke(walk: &mut Walk, lent: &mut Lent<'_>, buffer: u32, at: u32, value: u32) -> Told {
    match buffer {
        0 => put(lent.words, at, value),
        1 => put(lent.clauses, at, value),
        2 => put(lent.irred, at, value),
        3 => put(lent.core, at, value),
        4 => put(lent.mid, at, value),
        5 => put(lent.local, at, value),
        6 => put(lent.rows, at, value),
        7 => put(lent.counts, at, value),
        8 => put(lent.rec, at, value),
        9 => put(lent.values, at, value),
        10 => put(lent.kinds, at, value),
        11 => put(lent.reasons, at, value),
        12 => put(lent.levels, at, value),
        13 => put(lent.trail, at, value),
        14 => poke_state(walk, at, value),
        _ => Told::from(Refusal::Clause),
    }
}
