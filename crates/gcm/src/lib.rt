// AES-GCM at once: SP 800-38D's mode over FIPS 197's cipher. Any lengths may be handed in; rules R2.1 to R2.7 refuse bad ones.
#![tactic(auto)]

ghost use Rattle.std.specs.Prelude.{◌≡◌, ◌+◌, ◌-◌, ◌≤◌, length};
ghost use Rattle.aes.specs.Cipher.{enciphered};
ghost use Rattle.aes.specs.Under.{enciphered_under};
ghost use Rattle.rows.specs.Passed.{Fitting, Passed};
ghost use Rattle.gcm.specs.Promise.{SealPromise, OpenPromise, OpenedBy, sealed_into};

use aes::Cipher;
use answer::Refusal;
use counter::crypt;
use mode::{first_block, hash_key, same_tag, tag};
use rows::{open_answer, seal_answer};
use sbox::Table;
use schedule::expand;

// Seals: the ciphertext and `tag_len` bytes of tag are written to the front of `out`, and counted. A refusal leaves `out` as it is.
#[tactic(auto, unfolding(crate::specs::Promise::seal_number))]
pub fn seal(
    key: &[u8],
    iv: &[u8],
    ad: &[u8],
    text: &[u8],
    tag_len: usize,
    out: &mut [u8],
) -> Result<usize, Refusal>
    ensures { SealPromise key.now iv.now ad.now text.now tag_len out.old result out.new }
{
    seal_answer(
        key.len(),
        iv.len(),
        ad.len(),
        text.len(),
        tag_len,
        out.len(),
    )?;
    seal_allowed(out, key, iv, ad, text, tag_len);
    Ok(text.len() + tag_len)
}

// Opens: the text is written to the front of `out`, and counted, if the tag is the one that these bytes have. A refusal leaves
// `out` as it is.
#[tactic(auto, unfolding(crate::specs::Promise::open_number, rows::specs::Rows::lowest))]
pub fn open(
    key: &[u8],
    iv: &[u8],
    ad: &[u8],
    sealed: &[u8],
    tag_len: usize,
    out: &mut [u8],
) -> Result<usize, Refusal>
    ensures { OpenPromise key.now iv.now ad.now sealed.now tag_len out.old result out.new }
{
    open_answer(
        key.len(),
        iv.len(),
        ad.len(),
        sealed.len(),
        tag_len,
        out.len(),
    )?;
    open_allowed(out, key, iv, ad, sealed, tag_len)?;
    Ok(sealed.len() - tag_len)
}

// A seal whose lengths pass. Its parameters go on as they came, and those of an open likewise: a struct of them would be made for
// the one call, and taken apart in it.
#[tactic(auto, unfolding(aes::specs::Cipher::enciphered))]
fn seal_allowed(out: &mut [u8], key: &[u8], iv: &[u8], ad: &[u8], text: &[u8], tag_len: usize)
    requires passed { Passed (length key.now) (length iv.now) (length ad.now) (length text.now) tag_len }
    requires tag_len_in_bounds { length text.now + tag_len ≤ length out.old }
    ensures { out.new ≡ sealed_into (enciphered key.now) iv.now ad.now tag_len text.now out.old }
{
    let table = Table::new();
    let words = expand(&table, key);
    let cipher = Cipher {
        table: &table,
        words: &words,
        rounds: key.len() / 4 + 6,
    };
    seal_by(out, cipher, iv, ad, text, tag_len);
}

fn seal_by(out: &mut [u8], cipher: Cipher, iv: &[u8], ad: &[u8], text: &[u8], tag_len: usize)
    requires fitting { Fitting (length iv.now) (length ad.now) (length text.now) tag_len }
    requires tag_len_in_bounds { length text.now + tag_len ≤ length out.old }
    ensures { out.new ≡ sealed_into (enciphered_under cipher.entry) iv.now ad.now tag_len text.now out.old }
{
    let h = hash_key(cipher);
    let j = first_block(h, iv);
    crypt(out, cipher, j, text);
    let n = text.len();
    let whole = tag(cipher, h, j, ad, &out[..n]);
    out[n..n + tag_len].copy_from_slice(&whole[..tag_len]);
}

// An open whose lengths pass: `out` is written only if the tag is the one that the sealed bytes have.
#[tactic(auto, unfolding(aes::specs::Cipher::enciphered))]
fn open_allowed(
    out: &mut [u8],
    key: &[u8],
    iv: &[u8],
    ad: &[u8],
    sealed: &[u8],
    tag_len: usize,
) -> Result<(), Refusal>
    requires passed { Passed (length key.now) (length iv.now) (length ad.now) (length sealed.now - tag_len) tag_len }
    requires tag_len_in_bounds { (tag_len ≤ length sealed.now) × (length sealed.now - tag_len ≤ length out.old) }
    ensures { OpenedBy (enciphered key.now) iv.now ad.now tag_len sealed.now out.old result out.new }
{
    let table = Table::new();
    let words = expand(&table, key);
    let cipher = Cipher {
        table: &table,
        words: &words,
        rounds: key.len() / 4 + 6,
    };
    open_by(out, cipher, iv, ad, sealed, tag_len)
}

fn open_by(
    out: &mut [u8],
    cipher: Cipher,
    iv: &[u8],
    ad: &[u8],
    sealed: &[u8],
    tag_len: usize,
) -> Result<(), Refusal>
    requires fitting { Fitting (length iv.now) (length ad.now) (length sealed.now - tag_len) tag_len }
    requires tag_len_in_bounds { (tag_len ≤ length sealed.now) × (length sealed.now - tag_len ≤ length out.old) }
    ensures { OpenedBy (enciphered_under cipher.entry) iv.now ad.now tag_len sealed.now out.old result out.new }
{
    let h = hash_key(cipher);
    let j = first_block(h, iv);
    let n = sealed.len() - tag_len;
    let whole = tag(cipher, h, j, ad, &sealed[..n]);
    if !same_tag(whole, &sealed[n..]) {
        return Err(Refusal::TagDiffers);
    }
    crypt(out, cipher, j, &sealed[..n]);
    Ok(())
}
