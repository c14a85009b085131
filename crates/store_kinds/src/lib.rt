// What passes to a caller in another language: structs of numbers beside the state, and what each enum answer becomes there.
// The structs have a number beside a value because C does: an enum has no agreed layout there.
#![tactic(auto)]

ghost use Rattle.std.specs.Prelude.{◌≡◌};
ghost use Rattle.laws.specs.Lists.{at};
ghost use Rattle.kinds.specs.Numbers.{refusal_number};
ghost use Rattle.calls.specs.Answers.{number_of, added_answer, changed_answer, proved_answer, assessed_answer, place_number, place_answer, state_after, state_added, state_changed, state_proved, assigned_after, activity_after};
ghost use Rattle.view.specs.Shown.{shown};
ghost use Rattle.store_kinds.specs.Heard.{value, tier_said, glue_said, fields_heard, state_numbers};

use kinds::{Added, Assessed, Changed, ClauseActivity, Lit, Proved, Refusal, State};
use view::HeaderFields;

// The number of the table, 0 where the call was done; the answer as a number, 0 where it says nothing; the state.
#[repr(C)]
#[derive(Clone, Copy)]
pub struct Reply {
    pub number: u32,
    pub answer: u32,
    pub state: State,
}

// `prove_units` gives the trail's used length besides.
#[repr(C)]
#[derive(Clone, Copy)]
pub struct UnitsReply {
    pub number: u32,
    pub answer: u32,
    pub state: State,
    pub assigned: usize,
}

// The tier's number and the glue of the new header, both 0 where assessing is refused.
#[repr(C)]
#[derive(Clone, Copy)]
pub struct AssessedNumbers {
    pub number: u32,
    pub tier: u32,
    pub glue: u32,
}

// Setting the decay gives bump and inverse decay alone.
#[repr(C)]
#[derive(Clone, Copy)]
pub struct DecayNumbers {
    pub number: u32,
    pub activity: ClauseActivity,
}

// A returned part of a lent buffer: where it starts there, and its length.
#[repr(C)]
#[derive(Clone, Copy)]
pub struct Part {
    pub number: u32,
    pub start: usize,
    pub len: usize,
}

// The fields that a clause view shows.
#[repr(C)]
#[derive(Clone, Copy)]
pub struct FieldNumbers {
    pub activity: u32,
    pub tier: u32,
    pub deleted: u32,
    pub mark: u32,
    pub glue: u32,
    pub active: u32,
    pub len: u32,
}

// The literal that a clause view shows at a place.
#[repr(C)]
#[derive(Clone, Copy)]
pub struct PlaceNumbers {
    pub number: u32,
    pub literal: u32,
}

// ---- replies: s is the state before the call, which a refused one leaves

fn refused(s: State, refusal: Refusal) -> Reply
    ensures { (result.number ≡ refusal_number refusal) × (result.answer ≡ 0) × (result.state ≡ s) }
{
    let number = u32::from(refusal);
    Reply {
        number,
        answer: 0,
        state: s,
    }
}

pub fn plain(s: State, answer: Result<State, Refusal>) -> Reply
    ensures { (result.number ≡ number_of answer) × (result.answer ≡ 0) × (result.state ≡ state_after s answer) }
{
    match answer {
        Ok(state) => Reply {
            number: 0,
            answer: 0,
            state,
        },
        Err(refusal) => refused(s, refusal),
    }
}

pub fn added(s: State, answer: Result<Added, Refusal>) -> Reply
    ensures { (result.number ≡ number_of answer) × (result.answer ≡ value (added_answer answer)) × (result.state ≡ state_added s answer) }
{
    match answer {
        Ok(added) => Reply {
            number: 0,
            answer: added.cref.0,
            state: added.state,
        },
        Err(refusal) => refused(s, refusal),
    }
}

pub fn changed(s: State, answer: Result<Changed, Refusal>) -> Reply
    ensures { (result.number ≡ number_of answer) × (result.answer ≡ value (changed_answer answer)) × (result.state ≡ state_changed s answer) }
{
    match answer {
        Ok(changed) => Reply {
            number: 0,
            answer: changed.rebuild as u32,
            state: changed.state,
        },
        Err(refusal) => refused(s, refusal),
    }
}

pub fn proved(s: State, assigned: usize, answer: Result<Proved, Refusal>) -> UnitsReply
    ensures { (result.number ≡ number_of answer) × (result.answer ≡ value (proved_answer answer)) × (result.state ≡ state_proved s answer) × (result.assigned ≡ assigned_after assigned answer) }
{
    match answer {
        Ok(proved) => UnitsReply {
            number: 0,
            answer: proved.new_unit as u32,
            state: proved.state,
            assigned: proved.assigned,
        },
        Err(refusal) => UnitsReply {
            number: u32::from(refusal),
            answer: 0,
            state: s,
            assigned,
        },
    }
}

pub fn assessed(answer: Result<Assessed, Refusal>) -> AssessedNumbers
    ensures { (result.number ≡ number_of answer) × (result.tier ≡ tier_said (assessed_answer answer)) × (result.glue ≡ glue_said (assessed_answer answer)) }
{
    match answer {
        Ok(assessed) => AssessedNumbers {
            number: 0,
            tier: assessed.tier.number(),
            glue: assessed.glue,
        },
        Err(refusal) => AssessedNumbers {
            number: u32::from(refusal),
            tier: 0,
            glue: 0,
        },
    }
}

// The new activity number by number: a struct moved whole goes through memory here, which takes as long again as the call.
pub fn decay_set(a: ClauseActivity, answer: Result<ClauseActivity, Refusal>) -> DecayNumbers
    ensures { (result.number ≡ number_of answer) × (result.activity ≡ activity_after a answer) }
{
    match answer {
        Ok(ClauseActivity { bump, inv_decay }) => DecayNumbers {
            number: 0,
            activity: ClauseActivity { bump, inv_decay },
        },
        Err(refusal) => DecayNumbers {
            number: u32::from(refusal),
            activity: a,
        },
    }
}

// "A returned part is then empty"
pub fn no_part(refusal: Refusal) -> Part
    ensures { (result.number ≡ refusal_number refusal) × (result.start ≡ 0) × (result.len ≡ 0) }
{
    Part {
        number: u32::from(refusal),
        start: 0,
        len: 0,
    }
}

pub fn fields_shown(f: HeaderFields) -> FieldNumbers
    ensures { fields_heard result ≡ shown f }
{
    FieldNumbers {
        activity: f.activity,
        tier: f.tier.number(),
        deleted: f.deleted as u32,
        mark: f.mark as u32,
        glue: f.glue,
        active: f.active as u32,
        len: f.len,
    }
}

pub fn place_shown(place: Option<Lit>) -> PlaceNumbers
    ensures { (result.number ≡ place_number place) × (result.literal ≡ value (place_answer place)) }
{
    match place {
        Some(lit) => PlaceNumbers {
            number: 0,
            literal: lit.0,
        },
        None => PlaceNumbers {
            number: 4,
            literal: 0,
        },
    }
}

// Number `place` of the state, 0 past the last: by this a caller sees that each field of its own declaration arrives in its place.
pub fn state_number(s: State, place: usize) -> usize
    ensures { result ≡ at (state_numbers s) place }
{
    match place {
        0 => s.vars,
        1 => s.words,
        2 => s.clauses,
        3 => s.tiers[0],
        4 => s.tiers[1],
        5 => s.tiers[2],
        6 => s.tiers[3],
        7 => s.recorded,
        8 => s.counts[0],
        9 => s.counts[1],
        10 => s.counts[2],
        11 => s.counts[3],
        12 => s.garbage,
        13 => s.binary,
        14 => activity::pattern(s.activity.bump) as usize,
        15 => activity::pattern(s.activity.inv_decay) as usize,
        _ => 0,
    }
}
