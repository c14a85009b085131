// Clause activities: bump, decay, rescale, and setting the decay.
#![tactic(auto)]

ghost use Rattle.std.specs.Prelude.{◌≡◌, true, ℕ, ◌+◌, ◌≤◌, ◌<◌, length, set, take};
ghost use Rattle.std.specs.Float.{binary32};
ghost use Rattle.std.specs.Float.Ieee.{lt, to_bits};
ghost use Rattle.laws.specs.Fold.{fold_list};
ghost use Rattle.laws.specs.Lists.{at, fill};
ghost use Rattle.kinds.specs.Clauses.{undeleted};
ghost use Rattle.kinds.specs.Floats.{limit, limit_bits, factor, bump_sum, activity_ok, bump_ok, decay_ok};
ghost use Rattle.kinds.specs.Lent.{lent_activity};
ghost use Rattle.calls.specs.Bumping.{scaled_at, rescaled, activity_bumped, decayed};
ghost use Rattle.calls.specs.Call.{set_decay};
ghost use Rattle.calls.specs.Outcome.{done, nothing};
ghost use Rattle.calls.specs.Answers.{number_of, activity_after};
ghost use Rattle.activity.specs.Stored.{holding, stored, Placed, Bounded, twice_limit, AllLoud, Away};

use kinds::{ClauseActivity, Refusal};

// What bump, decay and rescale leave beside the buffers: the clause list's used length, bump and inverse decay.
#[derive(Clone, Copy)]
pub struct Activities {
    pub listed: usize,
    pub activity: ClauseActivity,
}

// "The limit is f32 MAX/16."
pub fn rescale_limit() -> f32
    ensures { result ≡ limit }
{
    f32::MAX / 16.0
}

// "the rounded 1/limit"
pub fn rescale_factor() -> f32
    ensures { result ≡ factor }
{
    1.0 / rescale_limit()
}

// A float's bits, of a NaN one pattern of a NaN.
pub fn pattern(x: f32) -> u32
    ensures { result ≡ to_bits binary32 x }
{
    if x.is_nan() { 0x7fc0_0000 } else { x.to_bits() }
}

// ---- the clause list

// Moves the entries that stay to the front; says how many.
fn move_undeleted(words: &[u32], list: &mut [u32]) -> usize
    requires { (k : ℕ) → k < length list.old → at list.old k + 3 ≤ length words.now }
    ensures few { result ≤ length list.old }
    ensures front { take result list.new ≡ undeleted words.now list.old }
{
    let mut kept = 0;
    for i in 0..list.len() {
        let entry = list[i];
        let offset = entry as usize;
        let word = words[offset + 1];
        if !header::deleted_of(word) {
            list[kept] = entry;
            kept += 1;
        }
    }
    kept
}

// "drops deleted entries from the clause list"; entries given up become 0. The new used length. The judging of 1 and 2 gives what is required.
pub fn drop_deleted(words: &[u32], clauses: &mut [u32], n: usize) -> usize
    requires { Placed words.now clauses.old n }
    ensures { (clauses.new ≡ fill clauses.old n (undeleted words.now (take n clauses.old)))
        × (result ≡ length (undeleted words.now (take n clauses.old))) }
{
    let kept = move_undeleted(words, &mut clauses[..n]);
    buffers::clear(clauses, kept, n);
    kept
}

// ---- rescaling

// Multiplies the listed activities by the factor.
fn scale(words: &mut [u32], list: &[u32])
    requires { AllLoud words.old list.now }
    ensures { words.new ≡ fold_list scaled_at words.old list.now }
{
    let factor = rescale_factor();
    for r in list {
        let offset = *r as usize;
        words[offset] = (f32::from_bits(words[offset]) * factor).to_bits();
    }
}

// "Rescaling multiplies live activities, then bump, by the rounded 1/limit, and drops deleted entries from the clause list."
// A live activity is at most twice the limit: the limit by the judging of 2, and the one just bumped the sum of two such floats.
pub fn rescale(
    words: &mut [u32],
    clauses: &mut [u32],
    n: usize,
    activity: ClauseActivity,
) -> Activities
    requires { Bounded twice_limit words.old clauses.old n }
    ensures { record { words = words.exit.now; clauses = clauses.new; listed = result.listed; activity = result.activity }
        ≡ stored clauses.old n (rescaled (holding words.entry.now clauses.old n activity)) }
{
    let kept = drop_deleted(words, clauses, n);
    scale(words, &clauses[..kept]);
    let bump = activity.bump * rescale_factor();
    Activities {
        listed: kept,
        activity: ClauseActivity { bump, ..activity },
    }
}

// ---- bumping

// Adds bump to the activity at `offset`; says whether the sum exceeds the limit.
fn raise(words: &mut [u32], offset: usize, bump: f32) -> bool
    requires { (offset < length words.old) × (activity_ok (at words.old offset) ≡ true) × (bump_ok bump ≡ true) }
    ensures { (words.new ≡ set words.old offset (to_bits binary32 (bump_sum (at words.old offset) bump)))
        × (result ≡ lt limit (bump_sum (at words.old offset) bump)) }
{
    let sum = f32::from_bits(words[offset]) + bump;
    words[offset] = sum.to_bits();
    sum > rescale_limit()
}

// "add bump to the activity, rescale if the sum exceeds the limit". The judging of 1 and 2, and 6 for the reference, give what is required.
pub fn bump_activity(
    words: &mut [u32],
    clauses: &mut [u32],
    n: usize,
    offset: usize,
    activity: ClauseActivity,
) -> Activities
    requires { Bounded limit_bits words.old clauses.old n × (offset < length words.old) × (activity_ok (at words.old offset) ≡ true)
        × Away clauses.old n offset × (bump_ok activity.bump ≡ true) }
    ensures { record { words = words.exit.now; clauses = clauses.new; listed = result.listed; activity = result.activity }
        ≡ stored clauses.old n (activity_bumped offset (holding words.entry.now clauses.old n activity)) }
{
    if raise(words, offset, activity.bump) {
        rescale(words, clauses, n, activity)
    } else {
        Activities {
            listed: n,
            activity,
        }
    }
}

// ---- decay

// "Decay multiplies bump by the inverse decay and rescales at or above the limit." The judging of 1 and 2 gives what is required.
pub fn decay_activity(
    words: &mut [u32],
    clauses: &mut [u32],
    n: usize,
    activity: ClauseActivity,
) -> Activities
    requires { Bounded limit_bits words.old clauses.old n }
    ensures { record { words = words.exit.now; clauses = clauses.new; listed = result.listed; activity = result.activity }
        ≡ stored clauses.old n (decayed (holding words.entry.now clauses.old n activity)) }
{
    let bump = activity.bump * activity.inv_decay;
    let grown = ClauseActivity { bump, ..activity };
    if bump >= rescale_limit() {
        rescale(words, clauses, n, grown)
    } else {
        Activities {
            listed: n,
            activity: grown,
        }
    }
}

// ---- setting the decay

// 12: "decay not strictly between 1/16 and 1 (NaN included)"
#[tactic(auto, unfolding(kinds::specs::Floats::decay_ok))]
pub fn decay_ok(decay: f32) -> bool
    ensures { result ≡ decay_ok decay }
{
    let p = pattern(decay);
    0x3d80_0000 < p && p < 0x3f80_0000
}

// "Setting the decay stores 1/decay."
pub fn set_decay(a: ClauseActivity, decay: f32) -> Result<ClauseActivity, Refusal>
    ensures { record { number = number_of result; answer = nothing; then = lent_activity (activity_after a result) }
        ≡ done (set_decay decay) (lent_activity a) }
{
    if !decay_ok(decay) {
        return Err(Refusal::Decay);
    }
    Ok(ClauseActivity {
        inv_decay: 1.0 / decay,
        ..a
    })
}
