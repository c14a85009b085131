// What a line of a walk means: which call with which arguments, or unreadable. docs/walk.md has the table.
#![tactic(auto)]

ghost use Rattle.std.specs.Prelude.{◌≡◌, true, false, ◌&&◌, ℕ, suc, ◌+◌, ◌-◌, ◌*◌, ◌^◌, ◌≤◌, ◌<◌, length, take, drop, ltb, slice_set, MatchOption};
ghost use Rattle.walk_lines.specs.Lines.{digit, whole as Lines·whole, number, listed, matching, meaning, nth as Lines·nth, room_meant, pattern_at, meant_at};
ghost use Rattle.walk_lines.specs.Told.{number_of, digits_at, taken_of, prefixed, room_of, meaning_of};

use kinds::{ClauseRef, Lit, Var};
use walk_kinds::Rooms;

// A line that was read, or `Unreadable`, one case of 28 to be carried out. A list stands in the lent buffer: of a long clause behind tier and glue, up to the number of all numbers of the line.
#[derive(Clone, Copy)]
pub enum Line {
    Unreadable,
    Start(u32),
    Room(Rooms),
    Long(u32, u32, usize),
    Binary(usize),
    Tier(ClauseRef, u32),
    Delete(ClauseRef),
    Bump(ClauseRef),
    Decay,
    Locals,
    Mids,
    Collect,
    Units,
    Simplify,
    Empty,
    Assess(usize),
    Implied(Lit),
    Literals(ClauseRef),
    View(u32, u32),
    Unit(Lit),
    Assign(Lit, u32, u32, u32),
    Undo,
    Level(u32),
    Depth(Var, u32),
    Poke(u32, u32, u32),
    Answers(bool),
    Show,
    Dump,
    Tails,
}

// ---- numbers

#[tactic(auto, unfolding(crate::specs::Lines::digit))]
fn is_digit(b: u8) -> bool
    ensures { result ≡ digit b }
{
    matches!(b, b'0'..=b'9')
}

// Whether k digits with the value v are a number.
#[tactic(auto, unfolding(crate::specs::Lines::whole))]
fn is_whole(k: usize, v: u64) -> bool
    ensures { result ≡ Lines·whole k v }
{
    k > 0 && v < 1 << 32
}

// One digit more.
#[tactic(auto, unfolding(crate::specs::Lines::digit), using(crate::proofs::Numbers::next_power))]
fn with_digit(k: usize, v: u64, b: u8) -> u64
    requires { (k < 10) × (v < 10 ^ k) × (digit b ≡ true) }
    ensures { (result ≡ v * 10 + (b - 48)) × (result < 10 ^ suc k) }
{
    v * 10 + (b - b'0') as u64
}

// The number that k digits with the value v are, and the place behind it.
#[tactic(auto, unfolding(crate::specs::Lines::whole))]
fn number_of(k: usize, v: u64, i: usize) -> Option<(u32, usize)>
    ensures { result ≡ digits_at k v i }
{
    if is_whole(k, v) {
        Some((v as u32, i))
    } else {
        None
    }
}

// The number at a place, and the place behind it.
fn number_at(line: &[u8], from: usize) -> Option<(u32, usize)>
    ensures { number_of line.now result ≡ number 0 0 (drop from line.now) }
{
    let mut k = 0;
    let mut v = 0;
    for i in from..line.len() {
        let b = line[i];
        if !is_digit(b) {
            return number_of(k, v, i);
        }
        if k == 10 {
            return None;
        }
        v = with_digit(k, v, b);
        k += 1;
    }
    number_of(k, v, line.len())
}

// A number of a list, behind the n numbers before the list and the m before it in the list. Returns how many of the list there are then.
#[tactic(auto, unfolding(crate::specs::Lines::whole))]
fn put(values: &mut [u32], n: usize, m: usize, k: usize, v: u64) -> Option<usize>
    requires { (n ≤ 1024) × (length values.old ≡ 2048) }
    ensures { MatchOption result ((ltb m 1024 && Lines·whole k v) ≡ false) (λ after. (after ≡ m + 1) × (m < 1024) × (Lines·whole k v ≡ true) × (values.new ≡ slice_set values.old (n + m) v)) }
{
    if m >= 1024 || !is_whole(k, v) {
        return None;
    }
    values[n + m] = v as u32;
    Some(m + 1)
}

// The list from a place to the line's end, into values behind n numbers. Returns how many numbers stand there then.
fn list_from(line: &[u8], from: usize, values: &mut [u32], n: usize) -> Option<usize>
    requires { (n ≤ 1024) × (length values.old ≡ 2048) }
    ensures { taken_of values.new result ≡ prefixed (take n values.old) (listed (drop from line.now)) }
{
    if from >= line.len() {
        return Some(n);
    }
    let mut m = 0;
    let mut k = 0;
    let mut v = 0;
    for &b in &line[from..] {
        if b == b',' {
            m = put(values, n, m, k, v)?;
            k = 0;
            v = 0;
        } else {
            if !is_digit(b) || k == 10 {
                return None;
            }
            v = with_digit(k, v, b);
            k += 1;
        }
    }
    let m = put(values, n, m, k, v)?;
    Some(n + m)
}

// How many numbers of a line stand in values, where the line is of a pattern.
fn matches(pattern: &[u8], line: &[u8], values: &mut [u32]) -> Option<usize>
    requires { (length pattern.now ≤ 1024) × (length values.old ≡ 2048) }
    ensures { taken_of values.new result ≡ matching pattern.now line.now }
{
    let mut i = 0;
    let mut n = 0;
    for &p in pattern {
        match p {
            b'#' => {
                let (v, next) = number_at(line, i)?;
                values[n] = v;
                n += 1;
                i = next;
            }
            b'*' => return list_from(line, i, values, n),
            _ => {
                if i >= line.len() || line[i] != p {
                    return None;
                }
                i += 1;
            }
        }
    }
    if i < line.len() { None } else { Some(n) }
}

// ---- the table

// The pattern of each op.
const PATTERNS: [&[u8]; 28] = [
    b"op=start vars=#",
    b"op=room words=# clauses=# irred=# core=# mid=# local=# rows=# record=#",
    b"op=long tier=# glue=# lits=*",
    b"op=binary lits=*",
    b"op=tier ref=# tier=#",
    b"op=delete ref=#",
    b"op=bump ref=#",
    b"op=decay",
    b"op=locals",
    b"op=mids",
    b"op=collect",
    b"op=units",
    b"op=simplify",
    b"op=empty",
    b"op=assess lits=*",
    b"op=implied lit=#",
    b"op=literals ref=#",
    b"op=view from=# to=#",
    b"op=unit lit=#",
    b"op=assign lit=# kind=# value=# level=#",
    b"op=undo",
    b"op=level level=#",
    b"op=depth var=# level=#",
    b"op=poke buffer=# at=# value=#",
    b"op=answers on=#",
    b"op=show",
    b"op=dump",
    b"op=tails",
];

// The i-th of n numbers.
#[tactic(auto, unfolding(crate::specs::Lines::nth))]
fn nth(values: &[u32], n: usize, i: usize) -> u32
    ensures { result ≡ Lines·nth (take n values.now) i }
{
    if i < n && i < values.len() {
        values[i]
    } else {
        0
    }
}

#[tactic(auto, unfolding(crate::specs::Lines::room_meant))]
fn rooms_of(values: &[u32], n: usize) -> Rooms
    ensures { room_of result ≡ room_meant (take n values.now) }
{
    Rooms {
        words: nth(values, n, 0) as usize,
        clauses: nth(values, n, 1) as usize,
        irred: nth(values, n, 2) as usize,
        core: nth(values, n, 3) as usize,
        mid: nth(values, n, 4) as usize,
        local: nth(values, n, 5) as usize,
        rows: nth(values, n, 6) as usize,
        rec: nth(values, n, 7) as usize,
    }
}

// What the n numbers of an op mean, by the op's place in the table.
#[tactic(auto, using(crate::proofs::Table::meant_of), unfolding(crate::specs::Lines::ops, crate::specs::Lines::meant_in, crate::specs::Lines::meant_at, crate::specs::Lines::switched))]
fn line_of(op: usize, values: &[u32], n: usize) -> Line
    requires { op < 28 }
    ensures { meaning_of values.now result ≡ meant_at op (take n values.now) }
{
    let a = nth(values, n, 0);
    let b = nth(values, n, 1);
    let c = nth(values, n, 2);
    let d = nth(values, n, 3);
    match op {
        0 => Line::Start(a),
        1 => Line::Room(rooms_of(values, n)),
        2 => Line::Long(a, b, n),
        3 => Line::Binary(n),
        4 => Line::Tier(ClauseRef(a), b),
        5 => Line::Delete(ClauseRef(a)),
        6 => Line::Bump(ClauseRef(a)),
        7 => Line::Decay,
        8 => Line::Locals,
        9 => Line::Mids,
        10 => Line::Collect,
        11 => Line::Units,
        12 => Line::Simplify,
        13 => Line::Empty,
        14 => Line::Assess(n),
        15 => Line::Implied(Lit(a)),
        16 => Line::Literals(ClauseRef(a)),
        17 => Line::View(a, b),
        18 => Line::Unit(Lit(a)),
        19 => Line::Assign(Lit(a), b, c, d),
        20 => Line::Undo,
        21 => Line::Level(a),
        22 => Line::Depth(Var(a), b),
        23 => Line::Poke(a, b, c),
        24 => match a {
            0 => Line::Answers(false),
            1 => Line::Answers(true),
            _ => Line::Unreadable,
        },
        25 => Line::Show,
        26 => Line::Dump,
        _ => Line::Tails,
    }
}

// The first op of whose pattern the line is.
fn first_op(line: &[u8], values: &mut [u32]) -> Line
    requires { length values.old ≡ 2048 }
    ensures { meaning_of values.new result ≡ meaning line.now }
{
    for (op, pattern) in PATTERNS.iter().enumerate() {
        if let Some(n) = matches(pattern, line, values) {
            return line_of(op, values, n);
        }
    }
    Line::Unreadable
}

// What a line means. The numbers of a list stand in values afterwards.
pub fn read_line(line: &[u8], values: &mut [u32; 2048]) -> Line
    ensures { meaning_of values.new result ≡ meaning line.now }
{
    first_op(line, values)
}
