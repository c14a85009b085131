// The kinds of numbers, the state, the answers, and what is read from a variable's words.
#![tactic(auto)]

ghost use Rattle.std.specs.Prelude.{◌≡◌, ℕ, ◌+◌, ◌-◌, ◌*◌, ◌/◌, ◌%◌, ◌≤◌, ◌<◌, length, get_or};
ghost use Rattle.kinds.specs.Clauses.{neg, var_of};
ghost use Rattle.kinds.specs.Held.{value_of, node_of};
ghost use Rattle.kinds.specs.Numbers.{tier_number, reason_of, refusal_number};

// A literal's code: twice the variable index, plus 1 if negated.
#[derive(Clone, Copy)]
pub struct Lit(pub u32);

// A variable's index.
#[derive(Clone, Copy)]
pub struct Var(pub u32);

// The offset of a long clause's word 0.
#[derive(Clone, Copy)]
pub struct ClauseRef(pub u32);

#[derive(Clone, Copy)]
pub enum Tier {
    Irred,
    Core,
    Mid,
    Local,
}

// An enum of its own and no `Option<bool>`: docs/01-scope.md asks for "an enum answer, taken apart at once", opened by let .. else.
#[derive(Clone, Copy)]
pub enum LitValue {
    True,
    False,
    Unassigned,
}

#[derive(Clone, Copy)]
pub enum Reason {
    None,
    Unit,
    Binary(Lit),
    Long(ClauseRef),
    Removed,
}

// What is known of a variable besides its value.
#[derive(Clone, Copy)]
pub struct Node {
    pub reason: Reason,
    pub level: u32,
}

#[repr(C)]
#[derive(Clone, Copy)]
pub struct ClauseActivity {
    pub bump: f32,
    pub inv_decay: f32,
}

// The state by value: V, the used lengths, the counts, garbage, the binary count, bump and inverse decay.
#[repr(C)]
#[derive(Clone, Copy)]
pub struct State {
    pub vars: usize,
    pub words: usize,
    pub clauses: usize,
    pub tiers: [usize; 4],
    pub recorded: usize,
    pub counts: [usize; 4],
    pub garbage: usize,
    pub binary: usize,
    pub activity: ClauseActivity,
}

// What the host lends: per variable an assignment byte, a reason in two buffers and a level; the trail with its used length; the current level.
#[derive(Clone, Copy)]
pub struct HostSide<'a> {
    pub values: &'a [u8],
    pub kinds: &'a [u8],
    pub reasons: &'a [u32],
    pub levels: &'a [u32],
    pub trail: &'a [u32],
    pub assigned: usize,
    pub level: usize,
}

// Why a call is refused: the table's numbers.
#[derive(Clone, Copy, Debug, PartialEq, Eq)]
pub enum Refusal {
    Size = 1,
    Store = 2,
    Host = 3,
    Clause = 4,
    Tier = 5,
    Reference = 6,
    Original = 7,
    Asserting = 8,
    Level = 9,
    Open = 10,
    Room = 11,
    Decay = 12,
}

// What a changing call leaves. A refused one answers its refusal alone: the state, by value, is the caller's as it was.
// Where it says no more than that it was done, the state alone.

// Adding a long clause: its reference.
#[derive(Clone, Copy)]
pub struct Added {
    pub cref: ClauseRef,
    pub state: State,
}

// A call after which watch lists may have to be built anew.
#[derive(Clone, Copy)]
pub struct Changed {
    pub rebuild: bool,
    pub state: State,
}

// `prove_units`: whether there is a new unit, and the trail's used length.
#[derive(Clone, Copy)]
pub struct Proved {
    pub new_unit: bool,
    pub state: State,
    pub assigned: usize,
}

// Assessing: the tier and the glue of the new header.
#[derive(Clone, Copy)]
pub struct Assessed {
    pub tier: Tier,
    pub glue: u32,
}

// What the literals of a long clause come to under an assignment: the number of those that are left.
#[derive(Clone, Copy)]
pub enum Verdict {
    Satisfied,
    Same,
    Shorter(usize),
}

// ---- literals and variables

impl Lit {
    pub fn var(self) -> Var
        ensures { result.0 ≡ var_of self.0 }
    {
        let code = self.0;
        Var(code / 2)
    }

    // The source's `!lit`.
    pub fn negated(self) -> Lit
        ensures { result.0 ≡ neg self.0 }
    {
        let code = self.0;
        if code % 2 == 0 {
            return Lit(code + 1);
        }
        Lit(code - 1)
    }
}

// "`Option` for `lit_value`: an enum answer"
pub fn lit_value(values: &[u8], lit: Lit) -> LitValue
    requires { var_of lit.0 < length values.now }
    ensures { result ≡ value_of values.now lit.0 }
{
    let code = lit.0;
    let byte = values[(code / 2) as usize] as u32;
    if byte + code % 2 == 1 {
        return LitValue::True;
    }
    if byte == 2 {
        return LitValue::Unassigned;
    }
    LitValue::False
}

// ---- tiers

impl Tier {
    pub fn number(self) -> u32
        ensures { (result ≡ tier_number self) × (result < 4) }
    {
        self as u32
    }
}

// The source's `Tier::from_index`: its callers hold two bits, so that it can't fail and is no `TryFrom`.
pub fn tier_from(number: u32) -> Tier
    requires { number < 4 }
    ensures { tier_number result ≡ number }
{
    match number {
        0 => Tier::Irred,
        1 => Tier::Core,
        2 => Tier::Mid,
        _ => Tier::Local,
    }
}

// ---- reasons

pub fn reason_of(kind: u8, value: u32) -> Reason
    ensures { result ≡ reason_of kind value }
{
    if kind == 1 {
        return Reason::Unit;
    }
    if kind == 2 {
        return Reason::Binary(Lit(value));
    }
    if kind == 3 {
        return Reason::Long(ClauseRef(value));
    }
    if kind == 4 {
        return Reason::Removed;
    }
    Reason::None
}

// The node of a variable, "read from the variable's words and handed on by value".
pub fn node_at(kinds: &[u8], reasons: &[u32], levels: &[u32], var: Var) -> Node
    requires { (var.0 < length kinds.now) × (var.0 < length reasons.now) × (var.0 < length levels.now) }
    ensures { result ≡ node_of kinds.now reasons.now levels.now var.0 }
{
    let at = var.0 as usize;
    let reason = reason_of(kinds[at], reasons[at]);
    Node {
        reason: reason,
        level: levels[at],
    }
}

// ---- refusals

impl From<Refusal> for u32 {
    ghost from_gives = { λ r n. n ≡ refusal_number r };

    fn from(refusal: Refusal) -> u32 {
        refusal as u32
    }
}
