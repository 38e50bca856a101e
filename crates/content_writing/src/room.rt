//! How many bytes a source may still give as a content.
ghost use Rattle.std.specs.Prelude.{◌≡◌, ◌≤◌, ◌+◌, ◌-◌, ◌<◌, ◌⊎◌, true, false, IfOk, IfErr, Err, length, take, []};
ghost use Rattle.std.specs.Io.KnownBytes.{Consumes, IsAtEnd, Keeps};
ghost use Rattle.port_model.specs.Counts.{CountRose};
ghost use Rattle.content_writing.specs.Content.{Gives, TakesUpTo, coming_from, most_taken};
ghost use Rattle.vault_faults.specs.Limits.{content_limit};

use item_making::PutFault;
use port_model::Source;
use vault_faults::{CONTENT_LIMIT, Limit};

// Room for so many bytes, and whether a byte past them was seen. That byte is gone from the source.
#[derive(Drop)]
pub(crate) struct Room {
    pub(crate) bytes: u64,
    pub(crate) passed: bool,
    ghost fits: { bytes ≤ 1099511627776 },
}

impl Room {
    pub(crate) fn new() -> Room
        ensures bytes { result.bytes ≡ content_limit }
        ensures passed { result.passed ≡ false }
    {
        Room {
            bytes: CONTENT_LIMIT,
            passed: false,
        }
    }

    // Takes the next bytes of a source to the front of `out`.
    pub(crate) fn take<I: Source>(
        &mut self,
        source: &mut I,
        out: &mut [u8],
        most: usize,
    ) -> Result<usize, PutFault>
        requires some { 0 < most }
        requires most { most ≤ length out.old }
        ensures gives { Gives result out.new (coming_from self.old.bytes self.old.passed (I.left source.old)) (coming_from self.new.bytes self.new.passed (I.left source.new)) }
        ensures size { IfOk result (λ n. n ≤ most) }
        ensures room { IfOk result (λ n. n + self.new.bytes ≡ self.old.bytes) }
        ensures taken { TakesUpTo (most_taken result) (I.left source.old) (I.left source.new) }
        ensures shrinks { self.new.bytes ≤ self.old.bytes }
        ensures fault { IfErr result (λ fault. (fault ≡ PutFault.Limit Limit.Input) ⊎ (fault ≡ PutFault.Source)) }
        ensures failed { result ≡ Err PutFault.Source → CountRose (I.faults source.old) (I.faults source.new) }
        ensures counted { I.faults source.old ≤ I.faults source.new }
    {
        if self.passed {
            return Err(PutFault::Limit(Limit::Input));
        }
        if self.bytes == 0 {
            return self.look_past(source);
        }
        let most = (most as u64).min(self.bytes);
        let count = take_front(source, out, most as usize)?;
        self.bytes -= count as u64;
        Ok(count)
    }

    // Whether the source has ended, where there is no room for more.
    fn look_past<I: Source>(&mut self, source: &mut I) -> Result<usize, PutFault>
        requires full { self.old.bytes ≡ 0 }
        requires passed { self.old.passed ≡ false }
        ensures bytes { self.new.bytes ≡ 0 }
        ensures gives { Gives result [] (coming_from self.old.bytes self.old.passed (I.left source.old)) (coming_from self.new.bytes self.new.passed (I.left source.new)) }
        ensures none { IfOk result (λ n. n ≡ 0) }
        ensures taken { TakesUpTo (most_taken result) (I.left source.old) (I.left source.new) }
        ensures fault { IfErr result (λ fault. (fault ≡ PutFault.Limit Limit.Input) ⊎ (fault ≡ PutFault.Source)) }
        ensures failed { result ≡ Err PutFault.Source → CountRose (I.faults source.old) (I.faults source.new) }
        ensures counted { I.faults source.old ≤ I.faults source.new }
    {
        let mut byte = [0; 1];
        if take_front(source, &mut byte, 1)? == 0 {
            return Ok(0);
        }
        self.passed = true;
        Err(PutFault::Limit(Limit::Input))
    }
}

// Takes at most so many bytes of a source to the front of `out`.
fn take_front<I: Source>(source: &mut I, out: &mut [u8], most: usize) -> Result<usize, PutFault>
    requires some { 0 < most }
    requires most { most ≤ length out.old }
    ensures within { IfOk result (λ n. n ≤ most) }
    ensures size { length out.new ≡ length out.old }
    ensures moved { IfOk result (λ n. Consumes (I.left source.old) (I.left source.new) (take n out.new)) }
    ensures end { IfOk result (λ n. n ≡ 0 → IsAtEnd (I.left source.new)) }
    ensures fault { IfErr result (λ fault. fault ≡ PutFault.Source) }
    ensures kept { IfErr result (λ fault. Keeps (I.left source.old) (I.left source.new)) }
    ensures failed { IfErr result (λ fault. CountRose (I.faults source.old) (I.faults source.new)) }
    ensures counted { I.faults source.old ≤ I.faults source.new }
{
    let (front, _) = out.split_at_mut(most);
    match source.take(front) {
        Ok(count) => Ok(count),
        Err(_) => Err(PutFault::Source),
    }
}
