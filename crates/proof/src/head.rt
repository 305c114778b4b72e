// Reading what stands before the top node: mark, version, file hash and digest.
ghost use Rattle.std.specs.Prelude.{◌≡◌, ℕ, ◌+◌, ◌≤◌, length};
ghost use Rattle.format.specs.Files.{mark as mark_bytes, mark_at, digest_at, version_at, head_at};
ghost use Rattle.proof.specs.Answers.{outcome};
ghost use Rattle.proof.specs.Heads.{headed};

use crate::fault::Fault;
use crate::reader::Reader;

// Compared byte by byte on reading, and written first.
pub const MARK: [u8; 31] = [
    0x00, 0x4f, 0x70, 0x65, 0x6e, 0x54, 0x69, 0x6d, 0x65, 0x73, 0x74, 0x61, 0x6d, 0x70, 0x73, 0x00,
    0x00, 0x50, 0x72, 0x6f, 0x6f, 0x66, 0x00, 0xbf, 0x89, 0xe2, 0xe8, 0x84, 0xe8, 0x92, 0x94,
];

// SHA-256, the only file hash.
pub const FILE_HASH: u8 = 0x08;

// The offset of the file hash tag, which a padded version moves, and the digest.
#[derive(Clone, Copy)]
pub struct Head<'a> {
    pub hash: usize,
    pub digest: &'a [u8; 32],
}

impl<'a> Reader<'a> {
    // These bytes, and no others.
    #[tactic(auto, using(format::proofs::ByteSteps::mark_more, format::proofs::ByteSteps::mark_all))]
    fn due(&mut self, due: &[u8]) -> Result<(), Fault>
        ensures same { self.new.file.now ≡ self.old.file.now }
        ensures reads { outcome (λ _. tt) result self.new.at ≡ mark_at due.now self.old.file.now self.old.at }
    {
        for m in due {
            let at = self.at;
            let b = self.byte()?;
            if b != *m {
                return Err(Fault::Mark(at));
            }
        }
        Ok(())
    }

    #[tactic(auto, unfolding(format::specs::Files::mark))]
    fn mark(&mut self) -> Result<(), Fault>
        ensures same { self.new.file.now ≡ self.old.file.now }
        ensures reads { outcome (λ _. tt) result self.new.at ≡ mark_at mark_bytes self.old.file.now self.old.at }
    {
        self.due(&MARK)
    }

    fn digest(&mut self) -> Result<Head<'a>, Fault>
        ensures same { self.new.file.now ≡ self.old.file.now }
        ensures reads { outcome headed result self.new.at ≡ digest_at self.old.file.now self.old.at }
    {
        let hash = self.at;
        let tag = self.byte()?;
        if tag != FILE_HASH {
            return Err(Fault::FileHash(hash));
        }
        let digest = self.array()?;
        Ok(Head { hash, digest })
    }

    fn version(&mut self) -> Result<Head<'a>, Fault>
        ensures same { self.new.file.now ≡ self.old.file.now }
        ensures reads { outcome headed result self.new.at ≡ version_at self.old.file.now self.old.at }
    {
        let first = self.at;
        let version = self.number()?;
        if version != 1 {
            return Err(Fault::Version(first));
        }
        self.digest()
    }

    // The head of the file, from its first byte on.
    pub(crate) fn head(&mut self) -> Result<Head<'a>, Fault>
        requires { self.old.at ≡ 0 }
        ensures same { self.new.file.now ≡ self.old.file.now }
        ensures reads { outcome headed result self.new.at ≡ head_at self.old.file.now }
    {
        self.mark()?;
        self.version()
    }
}
