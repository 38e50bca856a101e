//! Comparing two contents piece by piece.
ghost use Rattle.std.specs.Prelude.{◌≡◌, ◌↔◌, ◌≤◌, ◌<◌, ◌-◌, [], ℕ, List, IfOk, IfErr, OnOk, IsTrue, Ok, Err, length, take, drop};
ghost use Rattle.chunk_files.specs.Reading.{Whole};
ghost use Rattle.folder_model.specs.Answers.{OnlyLooks};
ghost use Rattle.folder_spec.specs.View.{View, FileOf};
ghost use Rattle.folder_spec.specs.Seen.{IfSeen, IsSeen, ShowsFile};
ghost use Rattle.vault_spec.specs.Vault.{format_of};
ghost use Rattle.vault_read.specs.Contents.{IsBeingRead};
ghost use Rattle.tree_match.specs.Comparing.{Answers, IsFault, compared, content_at};
ghost use Rattle.tree_match.specs.Pieces.{IsFresh, bytes_left, nothing_before, uncompared, CanFault};

use crate::answer::MatchFault;
use chunk_files::ChunkBuf;
use folder_model::{FPath, Folder};
use std::alloc::{AllocError, Global};
use std::marker::Model;
use vault_read::{ContentReader, Vault};

// A content file that is read, and the bytes of its last chunk that weren't compared yet.
#[derive(Drop)]
struct Opened {
    reader: ContentReader,
    chunk: ChunkBuf,
    start: usize,
    end: usize,
}

impl Model for Opened {
    ghost use Rattle.std.specs.Prelude.{◌≤◌, ◌-◌, length, take, drop};
    ghost use Rattle.tree_match.specs.Pieces.{Opened};

    ghost Value = { Opened };

    ghost view = { λ content. record { at = content.reader.at; decoding = content.reader.decoding; ahead = take (content.end - content.start) (drop content.start content.chunk) } };

    ghost invariant = { λ content. (content.start ≤ content.end) × (content.end ≤ length content.chunk) };
}

impl Opened {
    // The content of the file at a path, of which nothing was read.
    fn start(alloc: Global, vault: &Vault, at: &FPath) -> Result<Opened, AllocError>
        ensures { IfOk result (λ content. IsFresh (format_of vault.now.vault).content at.now content) }
    {
        let reader = ContentReader::start(alloc, vault, at)?;
        let chunk = ChunkBuf::new(alloc)?;
        Ok(Opened {
            reader,
            chunk,
            start: 0,
            end: 0,
        })
    }

    // Goes on with the file at another path, of which nothing was read.
    fn turn_to(&mut self, vault: &Vault, at: &FPath) -> Result<(), AllocError>
        ensures { OnOk result (IsFresh (format_of vault.now.vault).content at.now self.new) }
    {
        self.reader.turn_to(vault, at)?;
        self.start = 0;
        self.end = 0;
        Ok(())
    }

    // The bytes that were read and not compared.
    fn ahead(&self) -> &[u8]
        ensures value { result.now ≡ self.now.ahead }
        ensures few { length self.now.ahead ≤ 32816 }
    {
        &self.chunk.bytes()[self.start..self.end]
    }

    // Reads the next chunk where all that was read is compared. Where none is left then, the content has ended.
    fn fill<F: Folder>(&mut self, folder: &mut F) -> Result<(), MatchFault>
        requires { IfSeen (F.told folder.old) (λ v. IsBeingRead v self.old.at self.old.decoding) }
        ensures looks { OnlyLooks (F.told folder.old) (F.told folder.new) (result ≡ Err MatchFault.Failed) (F.faults folder.old) (F.faults folder.new) }
        ensures at { self.new.at ≡ self.old.at }
        ensures suits { IfSeen (F.told folder.old) (λ v. IsBeingRead v self.new.at self.new.decoding) }
        ensures same { OnOk result (IfSeen (F.told folder.old) (λ v. (file : List ℕ) → v self.old.at ≡ FileOf file → uncompared self.old file ≡ uncompared self.new file)) }
        ensures ended { OnOk result (self.new.ahead ≡ [] → IfSeen (F.told folder.old) (λ v. (file : List ℕ) → v self.old.at ≡ FileOf file
            → uncompared self.old file ≡ nothing_before self.old.at Whole)) }
        ensures stops { IfErr result (λ fault. IfSeen (F.told folder.old) (λ v. (file : List ℕ) → v self.old.at ≡ FileOf file
            → IsFault (λ at ending. uncompared self.old file ≡ nothing_before at ending) fault)) }
        ensures left { OnOk result (0 < length self.new.ahead → length self.new.ahead ≤ 32816 → bytes_left self.new ≤ bytes_left self.old) }
        ensures fault { IfErr result (λ fault. CanFault fault) }
    {
        if self.start < self.end {
            return Ok(());
        }
        self.start = 0;
        self.end = 0;
        self.end = self.reader.next(folder, &mut self.chunk)?;
        Ok(())
    }

    // Takes bytes that were compared off the front.
    fn pass(&mut self, count: usize)
        requires { count ≤ length self.old.ahead }
        ensures at { self.new.at ≡ self.old.at }
        ensures decoding { self.new.decoding ≡ self.old.decoding }
        ensures ahead { self.new.ahead ≡ drop count self.old.ahead }
    {
        self.start += count;
    }
}

// Two content files that are compared, each of a vault.
#[derive(Drop)]
pub(crate) struct Pair {
    one: Opened,
    other: Opened,
}

impl Pair {
    // The content files at two paths, of which nothing was read. Where there is a pair it goes on with these.
    fn at(
        alloc: Global,
        kept: Option<Pair>,
        a: &Vault,
        a_at: &FPath,
        b: &Vault,
        b_at: &FPath,
    ) -> Result<Pair, AllocError>
        ensures one { IfOk result (λ pair. IsFresh (format_of a.now.vault).content a_at.now pair.one) }
        ensures other { IfOk result (λ pair. IsFresh (format_of b.now.vault).content b_at.now pair.other) }
    {
        let Some(mut pair) = kept else {
            let one = Opened::start(alloc, a, a_at)?;
            let other = Opened::start(alloc, b, b_at)?;
            return Ok(Pair { one, other });
        };
        pair.one.turn_to(a, a_at)?;
        pair.other.turn_to(b, b_at)?;
        Ok(pair)
    }
}

// Whether the content files at two paths of the folder, each of a vault, have the same content. What was opened for the files compared
// before serves again.
pub(crate) fn same_contents<F: Folder>(
    alloc: Global,
    folder: &mut F,
    kept: &mut Option<Pair>,
    a: &Vault,
    a_at: &FPath,
    b: &Vault,
    b_at: &FPath,
) -> Result<bool, MatchFault>
    requires a_file { IfSeen (F.told folder.old) (λ v. ShowsFile v a_at.now) }
    requires b_file { IfSeen (F.told folder.old) (λ v. ShowsFile v b_at.now) }
    ensures looks { OnlyLooks (F.told folder.old) (F.told folder.new) (result ≡ Err MatchFault.Failed) (F.faults folder.old) (F.faults folder.new) }
    ensures compares { (v : View) → IsSeen (F.told folder.old) v
        → Answers (compared (content_at (format_of a.now.vault).content v a_at.now) (content_at (format_of b.now.vault).content v b_at.now)) result }
    ensures fault { IfErr result (λ fault. CanFault fault) }
{
    let mut pair = Pair::at(alloc, kept.take(), a, a_at, b, b_at)?;
    let same = compare(folder, &mut pair.one, &mut pair.other);
    *kept = Some(pair);
    same
}

// Compares what is left of two contents from the front.
fn compare<F: Folder>(folder: &mut F, a: &mut Opened, b: &mut Opened) -> Result<bool, MatchFault>
    requires a_file { IfSeen (F.told folder.old) (λ v. IsBeingRead v a.old.at a.old.decoding) }
    requires b_file { IfSeen (F.told folder.old) (λ v. IsBeingRead v b.old.at b.old.decoding) }
    ensures looks { OnlyLooks (F.told folder.old) (F.told folder.new) (result ≡ Err MatchFault.Failed) (F.faults folder.old) (F.faults folder.new) }
    ensures compares { IfSeen (F.told folder.old) (λ v. (x y : List ℕ) → v a.old.at ≡ FileOf x → v b.old.at ≡ FileOf y
        → Answers (compared (uncompared a.old x) (uncompared b.old y)) result) }
    ensures fault { IfErr result (λ fault. CanFault fault) }
{
    'pieces: loop {
        a.fill(folder)?;
        b.fill(folder)?;
        let count = a.ahead().len().min(b.ahead().len());
        if count == 0 {
            return Ok(a.ahead().len() == b.ahead().len());
        }
        if !begin_alike(a.ahead(), b.ahead(), count) {
            return Ok(false);
        }
        a.pass(count);
        b.pass(count);
    }
}

// Whether two lists of bytes begin with the same ones, so many.
fn begin_alike(a: &[u8], b: &[u8], count: usize) -> bool
    requires a { count ≤ length a.now }
    requires b { count ≤ length b.now }
    ensures { IsTrue result ↔ (take count a.now ≡ take count b.now) }
{
    a[..count] == b[..count]
}
