// The clause view: clause.rs.
#![tactic(auto)]

ghost use Rattle.std.specs.Prelude.{◌≡◌};
ghost use Rattle.kinds.specs.Lent.{Lent};
ghost use Rattle.calls.specs.Call.{view_fields, view_literal};
ghost use Rattle.calls.specs.Outcome.{done, fields};
ghost use Rattle.calls.specs.Answers.{place_number, place_answer};
ghost use Rattle.view.specs.Shown.{shown, fields_from};

use kinds::{Lit, Tier};

// The header fields of a clause. The activity goes as its bits, since a slice may hold any.
#[derive(Clone, Copy)]
pub struct HeaderFields {
    pub activity: u32,
    pub tier: Tier,
    pub deleted: bool,
    pub mark: bool,
    pub glue: u32,
    pub active: bool,
    pub len: u32,
}

// ---- on the slice and the place

fn fields_from(activity: u32, word: u32, len: u32) -> HeaderFields
    ensures { shown result ≡ fields_from activity word len }
{
    HeaderFields {
        activity,
        tier: kinds::tier_from(header::tier_of(word)),
        deleted: header::deleted_of(word),
        mark: header::mark_of(word),
        glue: header::glue_of(word),
        active: header::active_of(word),
        len,
    }
}

// "Over fewer than three words it shows every field 0 and no literal." The view is lent nothing: k is what other calls are lent, and stays.
pub fn fields_at(words: &[u32]) -> HeaderFields
    ensures { (k : Lent) → record { number = 0; answer = fields (shown result); then = k } ≡ done (view_fields words.now) k }
{
    if words.len() < 3 {
        return fields_from(0, 0, 0);
    }
    fields_from(words[0], words[1], words[2])
}

// "a place has a literal if it is below the length word and word 3 + place is in the slice"
pub fn literal_at(words: &[u32], place: usize) -> Option<Lit>
    ensures { (k : Lent) → record { number = place_number result; answer = place_answer result; then = k } ≡ done (view_literal words.now place) k }
{
    let n = words.len();
    if n < 3 {
        return None;
    }
    let len = buffers::word(words, 2);
    if place >= len {
        return None;
    }
    if place >= n - 3 {
        return None;
    }
    Some(Lit(words[3 + place]))
}

// ---- the view: "a struct holding the slice, thin, after the core"

// "A clause view holds the slice from a clause's word 0 to its end"
#[derive(Clone, Copy)]
pub struct Clause<'a> {
    pub words: &'a [u32],
}

pub fn view<'a>(words: &'a [u32]) -> Clause<'a>
    ensures { result.words ≡ words.entry }
{
    Clause { words }
}

pub fn words<'a>(clause: Clause<'a>) -> &'a [u32]
    ensures { result ≡ clause.entry.words }
{
    clause.words
}

pub fn fields<'a>(clause: Clause<'a>) -> HeaderFields
    ensures { (k : Lent) → record { number = 0; answer = fields (shown result); then = k } ≡ done (view_fields clause.entry.words.now) k }
{
    fields_at(clause.words)
}

pub fn literal<'a>(clause: Clause<'a>, place: usize) -> Option<Lit>
    ensures { (k : Lent) → record { number = place_number result; answer = place_answer result; then = k } ≡ done (view_literal clause.entry.words.now place) k }
{
    literal_at(clause.words, place)
}

// ---- with plain parameters, for callers that hold no view

pub fn view_fields(words: &[u32]) -> HeaderFields
    ensures { (k : Lent) → record { number = 0; answer = fields (shown result); then = k } ≡ done (view_fields words.now) k }
{
    fields(view(words))
}

pub fn view_literal(words: &[u32], place: usize) -> Option<Lit>
    ensures { (k : Lent) → record { number = place_number result; answer = place_answer result; then = k } ≡ done (view_literal words.now place) k }
{
    literal(view(words), place)
}
