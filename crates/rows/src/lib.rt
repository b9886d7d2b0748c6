// The rows of refusals (rules R2.1 to R2.7), as tests on lengths: the lowest that applies is answered (rule R3.2).
#![tactic(auto)]

ghost use Rattle.std.specs.Prelude.{◌≡◌, ◌+◌, ◌-◌, ◌≤◌, OnOk};
ghost use Rattle.answer.specs.Number.{number_of};
ghost use Rattle.rows.specs.Passed.{Passed};
ghost use Rattle.rows.specs.Rows.{key_bad, iv_bad, tag_bad, ad_bad, text_bad, too_short};
ghost use Rattle.rows.specs.Rows.{lowest, length_rows, seal_rows, open_length_rows};

use answer::Refusal;

// The house limits, in bytes.
const LONGEST_IV: usize = 128;

const LONGEST_AD: usize = 65536;

const LONGEST_TEXT: usize = 65536;

// The answer to a seal with these lengths. They come one by one, as in the definitions: a struct of them would be made where this
// is called, and taken apart here.
#[tactic(auto, unfolding(crate::specs::Rows::lowest))]
pub fn seal_answer(
    key: usize,
    iv: usize,
    ad: usize,
    text: usize,
    tag: usize,
    room: usize,
) -> Result<(), Refusal>
    ensures numbered { number_of result ≡ lowest 1 (seal_rows key iv ad text tag room) }
    ensures passed { OnOk result (Passed key iv ad text tag) }
    ensures room { OnOk result (text + tag ≤ room) }
{
    length_answer(key, iv, ad, text, tag)?;
    if too_short(room, text + tag) {
        return Err(Refusal::OutputShort);
    }
    Ok(())
}

// The answer to an open with these lengths, as far as lengths decide it.
#[tactic(auto, unfolding(crate::specs::Rows::lowest))]
pub fn open_answer(
    key: usize,
    iv: usize,
    ad: usize,
    sealed: usize,
    tag: usize,
    room: usize,
) -> Result<(), Refusal>
    ensures numbered { number_of result ≡ lowest 1 (open_length_rows key iv ad sealed tag room) }
    ensures passed { OnOk result (Passed key iv ad (sealed - tag) tag) }
    ensures room { OnOk result ((tag ≤ sealed) × (sealed - tag ≤ room)) }
{
    let text = sealed.saturating_sub(tag);
    length_answer(key, iv, ad, text, tag)?;
    if too_short(sealed, tag) {
        return Err(Refusal::SealedShort);
    }
    if too_short(room, text) {
        return Err(Refusal::OutputShort);
    }
    Ok(())
}

// Rows 1 to 5.
#[tactic(auto, unfolding(crate::specs::Rows::lowest, crate::specs::Rows::key_bad, crate::specs::Rows::iv_bad, crate::specs::Rows::tag_bad))]
fn length_answer(key: usize, iv: usize, ad: usize, text: usize, tag: usize) -> Result<(), Refusal>
    ensures numbered { number_of result ≡ lowest 1 (length_rows key iv ad text tag) }
    ensures passed { OnOk result (Passed key iv ad text tag) }
{
    if key_bad(key) {
        return Err(Refusal::KeyLength);
    }
    if iv_bad(iv) {
        return Err(Refusal::IvLength);
    }
    if tag_bad(tag) {
        return Err(Refusal::TagLength);
    }
    if ad_bad(ad) {
        return Err(Refusal::AdLong);
    }
    if text_bad(text) {
        return Err(Refusal::TextLong);
    }
    Ok(())
}

// Row 1: a key that has neither 16 nor 32 bytes.
#[tactic(auto, unfolding(crate::specs::Rows::key_bad))]
pub fn key_bad(n: usize) -> bool
    ensures { result ≡ key_bad n }
{
    n != 16 && n != 32
}

// Row 2: an empty IV, or one over the limit.
#[tactic(auto, unfolding(crate::specs::Rows::iv_bad))]
fn iv_bad(n: usize) -> bool
    ensures { result ≡ iv_bad n }
{
    !(1..=LONGEST_IV).contains(&n)
}

// Row 3: a tag length below 12 or above 16.
#[tactic(auto, unfolding(crate::specs::Rows::tag_bad))]
pub fn tag_bad(n: usize) -> bool
    ensures { result ≡ tag_bad n }
{
    !(12..=16).contains(&n)
}

// Row 4: associated data over the limit. Like rows 5 to 7 a test of its own, since each row has a definition and an edit.
pub fn ad_bad(n: usize) -> bool
    ensures { result ≡ ad_bad n }
{
    LONGEST_AD < n
}

// Row 5: text over the limit.
pub fn text_bad(n: usize) -> bool
    ensures { result ≡ text_bad n }
{
    LONGEST_TEXT < n
}

// Rows 6 and 7: fewer bytes than are wanted.
pub fn too_short(n: usize, wanted: usize) -> bool
    ensures { result ≡ too_short n wanted }
{
    n < wanted
}
