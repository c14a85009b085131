// The header of a long clause: three words by value, and the fields of word 1, with the source's shifts and masks.
#![tactic(auto)]

ghost use Rattle.std.specs.Prelude.{◌≡◌, Bool, not, ℕ, ◌+◌, ◌≤◌, ◌<◌, length, set, eqb, T};
ghost use Rattle.std.specs.Float.{binary32};
ghost use Rattle.std.specs.Float.Ieee.{is_nan, nan_bits, of_bits, to_bits};
ghost use Rattle.laws.specs.Fold.{one};
ghost use Rattle.laws.specs.Lists.{at};
ghost use Rattle.kinds.specs.Header.{field, put, tier_of, deleted_of, mark_of, glue_of, active_of, spare_of, with_tier, with_deleted, with_mark, saturated, with_glue, with_active, new_head};
ghost use Rattle.kinds.specs.Numbers.{tier_number};
ghost use Rattle.header.specs.Words.{header_at, header_stored};

use kinds::Tier;

// ---- word 1: "tier in bits 0-1 (0 Irred, 1 Core, 2 Mid, 3 Local), deleted bit 2, mark bit 3, glue bits 4-9, active bit 10, rest zero"

// The flag at a place.
fn flag(word: u32, place: u32) -> bool
    requires { place < 32 }
    ensures { result ≡ eqb (field place 1 word) 1 }
{
    (word >> place) & 1 != 0
}

fn with_flag(word: u32, place: u32, on: bool) -> u32
    requires { place < 32 }
    ensures { result ≡ put place 1 (one on) word }
{
    (word & !(1 << place)) | ((on as u32) << place)
}

pub fn tier_of(word: u32) -> u32
    ensures { (result ≡ tier_of word) × (result < 4) }
{
    word & 3
}

pub fn with_tier(word: u32, tier: u32) -> u32
    requires { tier < 4 }
    ensures { result ≡ with_tier tier word }
{
    (word & !3) | tier
}

pub fn deleted_of(word: u32) -> bool
    ensures { result ≡ eqb (deleted_of word) 1 }
{
    flag(word, 2)
}

pub fn with_deleted(word: u32, on: bool) -> u32
    ensures { result ≡ with_deleted on word }
{
    with_flag(word, 2, on)
}

pub fn mark_of(word: u32) -> bool
    ensures { result ≡ eqb (mark_of word) 1 }
{
    flag(word, 3)
}

pub fn with_mark(word: u32, on: bool) -> u32
    ensures { result ≡ with_mark on word }
{
    with_flag(word, 3, on)
}

pub fn glue_of(word: u32) -> u32
    ensures { (result ≡ glue_of word) × (result < 64) }
{
    (word >> 4) & 63
}

// "Glue saturates at 63."
pub fn saturate(glue: usize) -> u32
    ensures { (result ≡ saturated glue) × (result < 64) }
{
    glue.min(63) as u32
}

fn with_glue_bits(word: u32, glue: u32) -> u32
    requires { glue < 64 }
    ensures { result ≡ put 4 6 glue word }
{
    (word & !(63 << 4)) | (glue << 4)
}

pub fn with_glue(word: u32, glue: usize) -> u32
    ensures { result ≡ with_glue glue word }
{
    with_glue_bits(word, saturate(glue))
}

pub fn active_of(word: u32) -> bool
    ensures { result ≡ eqb (active_of word) 1 }
{
    flag(word, 10)
}

pub fn with_active(word: u32, on: bool) -> u32
    ensures { result ≡ with_active on word }
{
    with_flag(word, 10, on)
}

// The bits above the fields.
pub fn spare_of(word: u32) -> u32
    ensures { result ≡ spare_of word }
{
    word >> 11
}

// Word 1 of a new clause.
pub fn new_head(tier: u32, glue: usize) -> u32
    requires { tier < 4 }
    ensures { result ≡ new_head tier glue }
{
    with_tier(with_glue(0, glue), tier)
}

// ---- the header

// "`ClauseHeader` by transmute: three words by value"
#[derive(Clone, Copy)]
pub struct ClauseHeader {
    pub data: [u32; 3],
}

impl ClauseHeader {
    pub fn new() -> Self
        ensures { (at result.data 0 ≡ 0) × (at result.data 1 ≡ 0) × (at result.data 2 ≡ 0) }
    {
        ClauseHeader { data: [0; 3] }
    }

    pub fn len(self) -> usize
        ensures { result ≡ at self.data 2 }
    {
        self.data[2] as usize
    }

    pub fn set_len(mut self, len: u32) -> Self
        ensures { result.data ≡ set self.data 2 len }
    {
        self.data[2] = len;
        self
    }

    pub fn deleted(self) -> bool
        ensures { result ≡ eqb (deleted_of (at self.data 1)) 1 }
    {
        deleted_of(self.data[1])
    }

    pub fn set_deleted(mut self, deleted: bool) -> Self
        ensures { result.data ≡ set self.data 1 (with_deleted deleted (at self.data 1)) }
    {
        self.data[1] = with_deleted(self.data[1], deleted);
        self
    }

    pub fn tier(self) -> Tier
        ensures { tier_number result ≡ tier_of (at self.data 1) }
    {
        kinds::tier_from(tier_of(self.data[1]))
    }

    pub fn set_tier(mut self, tier: Tier) -> Self
        ensures { result.data ≡ set self.data 1 (with_tier (tier_number tier) (at self.data 1)) }
    {
        self.data[1] = with_tier(self.data[1], tier.number());
        self
    }

    // "Irred and binary clauses are 'original', others redundant."
    pub fn redundant(self) -> bool
        ensures { result ≡ not (eqb (tier_of (at self.data 1)) 0) }
    {
        tier_of(self.data[1]) != 0
    }

    pub fn mark(self) -> bool
        ensures { result ≡ eqb (mark_of (at self.data 1)) 1 }
    {
        mark_of(self.data[1])
    }

    pub fn set_mark(mut self, mark: bool) -> Self
        ensures { result.data ≡ set self.data 1 (with_mark mark (at self.data 1)) }
    {
        self.data[1] = with_mark(self.data[1], mark);
        self
    }

    pub fn active(self) -> bool
        ensures { result ≡ eqb (active_of (at self.data 1)) 1 }
    {
        active_of(self.data[1])
    }

    pub fn set_active(mut self, active: bool) -> Self
        ensures { result.data ≡ set self.data 1 (with_active active (at self.data 1)) }
    {
        self.data[1] = with_active(self.data[1], active);
        self
    }

    pub fn glue(self) -> usize
        ensures { result ≡ glue_of (at self.data 1) }
    {
        glue_of(self.data[1]) as usize
    }

    pub fn set_glue(mut self, glue: usize) -> Self
        ensures { result.data ≡ set self.data 1 (with_glue glue (at self.data 1)) }
    {
        self.data[1] = with_glue(self.data[1], glue);
        self
    }

    // The activity's bits are no NaN's: a live clause's are at most the limit's.
    pub fn activity(self) -> f32
        requires { T (not (nan_bits binary32 (at self.data 0))) }
        ensures { result ≡ of_bits binary32 (at self.data 0) }
    {
        f32::from_bits(self.data[0])
    }

    // Sums of activity and bump are no NaNs: both are finite and not negative.
    pub fn set_activity(mut self, activity: f32) -> Self
        requires { T (not (is_nan activity)) }
        ensures { result.data ≡ set self.data 0 (to_bits binary32 activity) }
    {
        self.data[0] = activity.to_bits();
        self
    }
}

// ---- in the word buffer

pub fn load(words: &[u32], offset: usize) -> ClauseHeader
    requires { offset + 3 ≤ length words.now }
    ensures { result.data ≡ header_at words.now offset }
{
    ClauseHeader {
        data: [words[offset], words[offset + 1], words[offset + 2]],
    }
}

pub fn store(words: &mut [u32], offset: usize, header: ClauseHeader)
    requires { offset + 3 ≤ length words.old }
    ensures { words.new ≡ header_stored words.old offset header.data }
{
    words[offset] = header.data[0];
    words[offset + 1] = header.data[1];
    words[offset + 2] = header.data[2];
}
