//! Texts sealed by GCM, stored with their nonce and tag.

ghost use Rattle.std.specs.Prelude.{◌≡◌, ◌<◌, ◌≤◌, ◌+◌, ◌-◌, false, length};
ghost use Rattle.std.specs.Bool.{OnTrue};
ghost use Rattle.chunk_files.specs.Sealed.{is_tag_right, plain_text, text_of};

use gcm_mode::Gcm;
use gcm_mode::laws::unsealing_undoes_sealing;

/// The length of a tag in bytes.
pub const TAG_SIZE: usize = 16;

// Puts the text that is stored, behind a nonce of `n` bytes, into `text`, opened where its tag is right, and
// answers whether it is.
#[tactic(auto, unfolding(crate::specs::Sealed::is_tag_right, crate::specs::Sealed::plain_text))]
pub fn open_text(gcm: &Gcm, associated: &[u8], n: usize, stored: &[u8], text: &mut [u8]) -> bool
    requires some_nonce { 0 < n }
    requires nonce { n ≤ 16 }
    requires associated { length associated.now ≤ 24 }
    requires least { n + 16 ≤ length stored.now }
    requires most { length stored.now ≤ 32816 }
    requires size { length text.old ≡ length stored.now - (n + 16) }
    ensures right { result ≡ is_tag_right gcm.now associated.now n stored.now }
    ensures opened { OnTrue result (text.new ≡ plain_text gcm.now n stored.now) }
    ensures encrypted { result ≡ false → text.new ≡ text_of n stored.now }
{
    unsealing_undoes_sealing();
    let end = stored.len() - TAG_SIZE;
    let mut tag = [0; TAG_SIZE];
    tag.copy_from_slice(&stored[end..]);
    text.copy_from_slice(&stored[n..end]);
    match gcm.unseal(&stored[..n], associated, text, &tag) {
        Ok(()) => true,
        Err(_) => false,
    }
}
