// What the walk keeps between lines, and what a line gives.
#![tactic(auto)]

ghost use Rattle.std.specs.Prelude.{◌≡◌, ◌≤◌};
ghost use Rattle.kinds.specs.Numbers.{refusal_number};
ghost use Rattle.walk_kinds.specs.declared.Said.TheVariants.{Nothing};

use kinds::{Refusal, State, Tier};

// The lengths lent, as `op=room` names them.
#[derive(Clone, Copy)]
pub struct Rooms {
    pub words: usize,
    pub clauses: usize,
    pub irred: usize,
    pub core: usize,
    pub mid: usize,
    pub local: usize,
    pub rows: usize,
    pub rec: usize,
}

#[derive(Clone, Copy)]
pub struct Walk {
    pub state: State,
    pub rooms: Rooms,
    // the trail's used length
    pub assigned: usize,
    // the current level
    pub level: usize,
    // whether an accepted line that prints nothing says so
    pub answers: bool,
}

// What an accepted line says besides 0. Nothing is one case of five: an Option around the others would be opened at each of them.
#[derive(Clone, Copy)]
pub enum Said {
    Nothing,
    Ref(u32),
    Rebuild(bool),
    New(bool),
    Assessed(Tier, u32),
}

// What a line gives: the table's number, 0 where it is accepted, and what it says besides. It is no Result, in which a wrong number and a wrong reference would be one mistake (docs/DESIGN-PASS.md, 1).
#[derive(Clone, Copy)]
pub struct Told {
    pub number: usize,
    pub said: Said,
}

// A refused line says nothing besides its number.
impl From<Refusal> for Told {
    ghost from_gives = { λ r t. (t.number ≡ refusal_number r) × (t.said ≡ Nothing) };

    fn from(refusal: Refusal) -> Told {
        Told {
            number: u32::from(refusal) as usize,
            said: Said::Nothing,
        }
    }
}

impl From<Said> for Told {
    ghost from_gives = { λ s t. (t.number ≡ 0) × (t.said ≡ s) };

    fn from(said: Said) -> Told {
        Told { number: 0, said }
    }
}

// The buffers: the store's, then the host's assignment bytes, reason kinds and values, levels and trail.
#[derive(Drop)]
pub struct Buffers {
    pub words: [u32; 16384],
    pub clauses: [u32; 4096],
    pub irred: [u32; 4096],
    pub core: [u32; 4096],
    pub mid: [u32; 4096],
    pub local: [u32; 4096],
    pub rows: [u32; 16384],
    pub counts: [u32; 2048],
    pub rec: [u32; 16384],
    pub values: [u8; 1024],
    pub kinds: [u8; 1024],
    pub reasons: [u32; 1024],
    pub levels: [u32; 1024],
    pub trail: [u32; 1024],
}

// What is lent of them.
#[derive(Drop)]
pub struct Lent<'a> {
    pub words: &'a mut [u32],
    pub clauses: &'a mut [u32],
    pub irred: &'a mut [u32],
    pub core: &'a mut [u32],
    pub mid: &'a mut [u32],
    pub local: &'a mut [u32],
    pub rows: &'a mut [u32],
    pub counts: &'a mut [u32],
    pub rec: &'a mut [u32],
    pub values: &'a mut [u8],
    pub kinds: &'a mut [u8],
    pub reasons: &'a mut [u32],
    pub levels: &'a mut [u32],
    pub trail: &'a mut [u32],
}

impl Buffers {
    // The parts that `op=room` and V leave; the trail is lent whole.
    pub fn lend(&mut self, rooms: Rooms, vars: usize) -> Lent<'_> {
        let n = lent_vars(vars);
        let Buffers {
            words,
            clauses,
            irred,
            core,
            mid,
            local,
            rows,
            counts,
            rec,
            values,
            kinds,
            reasons,
            levels,
            trail,
        } = self;
        Lent {
            words: &mut words[..rooms.words.min(16384)],
            clauses: &mut clauses[..rooms.clauses.min(4096)],
            irred: &mut irred[..rooms.irred.min(4096)],
            core: &mut core[..rooms.core.min(4096)],
            mid: &mut mid[..rooms.mid.min(4096)],
            local: &mut local[..rooms.local.min(4096)],
            rows: &mut rows[..rooms.rows.min(16384)],
            counts: &mut counts[..2 * n],
            rec: &mut rec[..rooms.rec.min(16384)],
            values: &mut values[..n],
            kinds: &mut kinds[..n],
            reasons: &mut reasons[..n],
            levels: &mut levels[..n],
            trail,
        }
    }
}

// "Buffers per variable and per literal are lent V and 2V long while V is 1 to 1,024, and 1,024 and 2,048 long otherwise"
fn lent_vars(vars: usize) -> usize
    ensures { result ≤ 1024 }
{
    if vars == 0 || vars > 1024 { 1024 } else { vars }
}
