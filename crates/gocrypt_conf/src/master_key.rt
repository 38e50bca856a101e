// The master key, sealed for the configuration.

ghost use Rattle.std.specs.Prelude.{◌≡◌, ◌≢◌, ◌++◌, ℕ, List, take, IfOk, OnErr};
ghost use Rattle.gocrypt_conf.specs.MasterKey.{sealed_key};

use aes_lanes::Key256;
use gcm_mode::laws::sealed_texts_are_bytes;
use gcm_mode::{BadTag, Gcm};

const ASSOCIATED_DATA: &[u8; 8] = &[0; 8];

// The sealed bytes of a master key: the nonce, the encrypted key and the tag.
#[tactic(auto, unfolding(crate::specs::MasterKey::sealed_key))]
pub(crate) fn seal_master(key: &[u8; 32], nonce: &[u8; 16], master: &[u8; 32]) -> [u8; 64]
    ensures { result ≡ sealed_key key.now nonce.now master.now }
{
    let mut text = *master;
    let tag = Gcm::new(Key256::new(key)).seal(nonce, ASSOCIATED_DATA, &mut text);
    joined(nonce, &text, &tag)
}

// The three parts, one after the other.
fn joined(nonce: &[u8; 16], text: &[u8; 32], tag: &[u8; 16]) -> [u8; 64]
    ensures { result ≡ nonce.now ++ text.now ++ tag.now }
{
    let mut bytes = [0; 64];
    let (front, last) = bytes.split_at_mut(48);
    let (first, middle) = front.split_at_mut(16);
    first.copy_from_slice(nonce);
    middle.copy_from_slice(text);
    last.copy_from_slice(tag);
    bytes
}

// The master key that sealed bytes hold.
pub(crate) fn unseal_master(key: &[u8; 32], bytes: &[u8; 64]) -> Result<[u8; 32], BadTag>
    ensures master { IfOk result (λ master. sealed_key key.now (take 16 bytes.now) master ≡ bytes.now) }
    ensures bad_tag { OnErr result
        ((master : List ℕ) → sealed_key key.now (take 16 bytes.now) master ≢ bytes.now) }
{
    sealed_texts_are_bytes();
    let (front, last) = bytes.split_at(48);
    let (nonce, text) = front.split_at(16);
    let mut master = [0; 32];
    master.copy_from_slice(text);
    let mut tag = [0; 16];
    tag.copy_from_slice(last);
    Gcm::new(Key256::new(key)).unseal(nonce, ASSOCIATED_DATA, &mut master, &tag)?;
    Ok(master)
}
