// SIV (RFC 5297, sections 2.6 and 2.7).

ghost use Rattle.std.specs.Prelude.{◌≡◌, ◌<◌, ◌↔◌, length, IfOk, IsErrOf};
ghost use Rattle.siv_mode.specs.Siv.{first_counter as first_counter_of, siv_encrypt, Opens, OpensToNothing};
ghost use Rattle.siv_mode.specs.S2v.{associated, s2v as s2v_of};
ghost use Rattle.siv_mode.specs.declared.siv.SivFault.TheVariants.{Short, BadTag};
ghost use Rattle.aes_lanes.specs.Counter.{ctr128};

use super::blocks::whole;
use super::mac::Cmac;
use super::strings::s2v;
use aes_lanes::laws::counter_mode_undoes_itself;
use aes_lanes::{Block, Cipher, ctr128_xor, same_bytes};
use std::alloc::{AllocError, Global};
use std::marker::Model;

/// Why bytes don't unseal.
#[derive(Clone, Copy, PartialEq, Eq, Drop)]
pub enum SivFault {
    /// They are fewer than the 16 of a tag.
    Short,
    /// No text seals to them.
    BadTag,
    /// There was no memory for the text.
    NoMemory,
}

impl From<AllocError> for SivFault {
    ghost use Rattle.siv_mode.specs.declared.siv.SivFault.TheVariants.{NoMemory};

    ghost from_gives = { λ _ fault. fault ≡ NoMemory };

    fn from(_e: AllocError) -> SivFault {
        SivFault::NoMemory
    }
}

/// SIV under two keys of a cipher, the key of S2V and the key of counter mode, with the block that S2V begins with.
#[derive(Drop)]
pub struct Siv<C: Cipher> {
    mac: Cmac<C>,
    first: Block,
    ctr: C,
}

impl<C: Cipher> Model for Siv<C> {
    ghost use Rattle.std.specs.Prelude.{◌≡◌};
    ghost use Rattle.siv_mode.specs.Blocks.{zero_block};
    ghost use Rattle.siv_mode.specs.Cmac.{cmac};
    ghost use Rattle.siv_mode.specs.Keys.{Keys};

    ghost Value = { Keys C };

    ghost view = { λ s. record { mac = s.mac; ctr = s.ctr } };

    ghost invariant = { λ s. s.first ≡ cmac (C.image s.mac) zero_block };
}

impl<C: Cipher> Siv<C> {
    /// SIV under the key of S2V and the key of counter mode.
    pub fn new(mac: C, ctr: C) -> Siv<C>
        ensures mac { result.mac ≡ mac }
        ensures ctr { result.ctr ≡ ctr }
    {
        let mac = Cmac::new(mac);
        let first = mac.of(&[0; 16]);
        Siv { mac, first, ctr }
    }

    /// S2V of an associated string, where there is one, and the last string (section 2.4). Takes no
    /// memory.
    pub fn s2v(&self, ad: Option<&[u8]>, string: &[u8]) -> Block
        ensures { result ≡ s2v_of (C.image self.now.mac) (associated ad.entry) string.now }
    {
        s2v(&self.mac, &self.first, ad, string)
    }

    /// The text sealed with an associated string, where there is one: 16 bytes more than the text
    /// (section 2.6).
    pub fn seal(&self, alloc: Global, ad: Option<&[u8]>, text: &[u8]) -> Result<Vec<u8>, AllocError>
        ensures { IfOk result (λ bytes. bytes.items
            ≡ siv_encrypt (C.image self.now.mac) (C.image self.now.ctr) (associated ad.entry) text.now) }
    {
        let vector = self.s2v(ad, text);
        let body = self.streamed(alloc, &vector, text)?;
        let mut sealed = Vec::with_capacity(alloc, 16 + body.len())?;
        sealed.extend_from_slice(&vector)?;
        sealed.extend_from_slice(body.as_slice())?;
        Ok(sealed)
    }

    /// The text that seals to these bytes with an associated string, where there is one (section 2.7).
    pub fn unseal(
        &self,
        alloc: Global,
        ad: Option<&[u8]>,
        sealed: &[u8],
    ) -> Result<Vec<u8>, SivFault>
        ensures short { IsErrOf result Short ↔ (length sealed.now < 16) }
        ensures opened { IfOk result (λ text.
            Opens (C.image self.now.mac) (C.image self.now.ctr) (associated ad.entry) sealed.now text.items) }
        ensures bad_tag { IsErrOf result BadTag
            → OpensToNothing (C.image self.now.mac) (C.image self.now.ctr) (associated ad.entry) sealed.now }
    {
        counter_mode_undoes_itself();
        if sealed.len() < 16 {
            return Err(SivFault::Short);
        }
        let (front, body) = sealed.split_at(16);
        let vector = whole(front);
        let text = self.streamed(alloc, &vector, body)?;
        if !same_bytes(&self.s2v(ad, text.as_slice()), &vector) {
            return Err(SivFault::BadTag);
        }
        Ok(text)
    }

    // A text, encrypted or decrypted by the key stream of a vector.
    fn streamed(&self, alloc: Global, vector: &Block, text: &[u8]) -> Result<Vec<u8>, AllocError>
        ensures { IfOk result (λ streamed. streamed.items
            ≡ ctr128 (C.image self.now.ctr) (first_counter_of vector.now) text.now) }
    {
        let mut streamed = Vec::from_slice(alloc, text)?;
        ctr128_xor(&self.ctr, &first_counter(vector), streamed.as_mut_slice());
        Ok(streamed)
    }
}

// All bits but bit 63 and bit 31.
const KEPT: u128 = !(1 << 63 | 1 << 31);

// The counter block that the key stream of a vector starts with.
fn first_counter(vector: &Block) -> Block
    ensures { result ≡ first_counter_of vector.now }
{
    (u128::from_be_bytes(*vector) & KEPT).to_be_bytes()
}
