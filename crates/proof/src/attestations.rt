// Reading attestations.
ghost use Rattle.std.specs.Prelude.{◌≡◌, cond, ℕ, ◌+◌, ◌-◌, ◌≤◌, length, IfOk};
ghost use Rattle.format.specs.Outcome.{got, fault, then};
ghost use Rattle.format.specs.Numbers.{block_at};
ghost use Rattle.format.specs.Attestations.{address_limit, height_at, address_at, content_at, address_byte, address_bytes, same as same_bytes, bitcoin_tag, pending_tag};
ghost use Rattle.format.specs.Items.{attestation_at};
ghost use Rattle.proof.specs.Answers.{outcome};
ghost use Rattle.proof.specs.Wholes.{wholly};
ghost use Rattle.proof.specs.Pieces.{piece, attested, Bounded};

use crate::fault::Fault;
use crate::item::{Content, Item};
use crate::reader::Reader;
use format::{BITCOIN, PENDING};

// The longest payload and the longest address.
const PAYLOAD: u32 = 8192;

const ADDRESS: u32 = 1000;

impl<'a> Reader<'a> {
    // An attestation behind its 00: the payload is read whole before anything in it.
    pub(crate) fn attestation(&mut self) -> Result<Item<'a>, Fault>
        ensures bounds { IfOk result (λ i. (depth : ℕ) (size : ℕ) → Bounded depth size i) }
        ensures same { self.new.file.now ≡ self.old.file.now }
        ensures reads { outcome piece result self.new.at ≡ attestation_at self.old.file.now self.old.at }
    {
        let offset = self.at;
        let tag = self.array()?;
        let payload = self.block(0, PAYLOAD)?;
        let first = self.at - payload.len();
        let content = self.content(tag, payload, first)?;
        Ok(Item::Attestation {
            content,
            payload,
            offset,
            first,
        })
    }

    // What the payload, which is the file from first to here, says under the tag.
    fn content(
        &self,
        tag: &'a [u8; 8],
        payload: &'a [u8],
        first: usize,
    ) -> Result<Content<'a>, Fault>
        requires { (first ≤ self.now.at) × (self.now.at ≤ length self.now.file.now) }
        ensures { outcome attested result self.now.at ≡ content_at tag.now payload.now self.now.file.now first self.now.at }
    {
        if is_bitcoin(tag) {
            let height = height(self.file, first, self.at)?;
            return Ok(Content::Bitcoin(height));
        }
        if is_pending(tag) {
            let address = address(self.file, first, self.at)?;
            return Ok(Content::Pending(address));
        }
        Ok(Content::Unknown { tag, payload })
    }

    // A length, then the bytes of an address, in the payload that begins at first.
    fn address(&mut self, first: usize) -> Result<&'a [u8], Fault>
        ensures same { self.new.file.now ≡ self.old.file.now }
        ensures reads { outcome (λ a. a.now) result self.new.at ≡ then (block_at 0 address_limit self.old.file.now self.old.at) (λ a n. cond (address_bytes a) (got a n) (fault 10 first)) }
    {
        let address = self.block(0, ADDRESS)?;
        if in_address(address) {
            Ok(address)
        } else {
            Err(Fault::Content(first))
        }
    }

    // What was read of a payload, which is the file from first on: it must be all of it.
    // Kept: what was read is passed, and no closure that reads; the proof of one that lends a part of the file didn't close.
    fn whole<T: Copy>(&self, first: usize, read: Result<T, Fault>) -> Result<T, Fault>
        ensures { result ≡ wholly first (length self.now.file.now) read self.now.at }
    {
        match read {
            Ok(_) if self.at != self.file.len() => Err(Fault::Content(first)),
            Err(Fault::Ends(_)) => Err(Fault::Content(first)),
            read => read,
        }
    }
}

pub fn is_bitcoin(tag: &[u8]) -> bool
    ensures { result ≡ same_bytes tag.now bitcoin_tag }
{
    same(tag, &BITCOIN)
}

pub fn is_pending(tag: &[u8]) -> bool
    ensures { result ≡ same_bytes tag.now pending_tag }
{
    same(tag, &PENDING)
}

// The height that the payload from first to end is.
// Kept: file, first and end apart; callers hold them as they are, and a struct would be built for one call and opened at once.
#[tactic(auto, using(crate::proofs::Payloads::payload_read))]
pub fn height(file: &[u8], first: usize, end: usize) -> Result<u32, Fault>
    requires { (first ≤ end) × (end ≤ length file.now) }
    ensures { outcome (λ n. n) result end ≡ height_at file.now first end }
{
    let mut inner = Reader {
        file: &file[..end],
        at: first,
    };
    let height = inner.number();
    inner.whole(first, height)
}

// The address that the payload from first to end holds.
#[tactic(auto, using(crate::proofs::Payloads::payload_read))]
pub fn address<'a>(file: &'a [u8], first: usize, end: usize) -> Result<&'a [u8], Fault>
    requires { (first ≤ end) × (end ≤ length file.now) }
    ensures { outcome (λ a. a.now) result end ≡ address_at file.now first end }
{
    let mut inner = Reader {
        file: &file[..end],
        at: first,
    };
    let address = inner.address(first);
    inner.whole(first, address)
}

// Whether every byte may stand in an address.
fn in_address(bytes: &[u8]) -> bool
    ensures { result ≡ address_bytes bytes.now }
{
    bytes.iter().all(|b| address_byte(*b))
}

fn address_byte(b: u8) -> bool
    ensures { result ≡ address_byte b }
{
    matches!(b, b'a'..=b'z' | b'A'..=b'Z' | b'0'..=b'9' | b'-' | b'.' | b'_' | b'/' | b':')
}

// Whether two byte strings are equal.
pub fn same(a: &[u8], b: &[u8]) -> bool
    ensures { result ≡ same_bytes a.now b.now }
{
    a == b
}
