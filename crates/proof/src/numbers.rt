// Reading bytes, numbers and lengths.
ghost use Rattle.std.specs.Prelude.{◌≡◌, ℕ, ◌+◌, ◌≤◌, length, IfOk, OnOk};
ghost use Rattle.format.specs.Numbers.{byte_at, bytes_at, number_at, length_at, block_at};
ghost use Rattle.proof.specs.Answers.{outcome};

use crate::fault::Fault;
use crate::reader::Reader;

impl<'a> Reader<'a> {
    pub(crate) fn byte(&mut self) -> Result<u8, Fault>
        ensures same { self.new.file.now ≡ self.old.file.now }
        ensures reads { outcome (λ b. b) result self.new.at ≡ byte_at self.old.file.now self.old.at }
    {
        let ends = Fault::Ends(self.file.len());
        let b = self.file.get(self.at).ok_or(ends)?;
        self.at += 1;
        Ok(*b)
    }

    // The next n bytes, as a part of the file.
    pub(crate) fn bytes(&mut self, n: usize) -> Result<&'a [u8], Fault>
        ensures long { IfOk result (λ s. length s.now ≡ n) }
        ensures behind { IfOk result (λ s. length s.now ≤ self.new.at) }
        ensures within { OnOk result (self.new.at ≤ length self.old.file.now) }
        ensures same { self.new.file.now ≡ self.old.file.now }
        ensures reads { outcome (λ s. s.now) result self.new.at ≡ bytes_at n self.old.file.now self.old.at }
    {
        let ends = Fault::Ends(self.file.len());
        let rest = self.file.get(self.at..).ok_or(ends)?;
        let bytes = rest.get(..n).ok_or(ends)?;
        self.at += n;
        Ok(bytes)
    }

    // The next N bytes, lent as an array.
    pub(crate) fn array<const N: usize>(&mut self) -> Result<&'a [u8; N], Fault>
        ensures same { self.new.file.now ≡ self.old.file.now }
        ensures reads { outcome (λ s. s.now) result self.new.at ≡ bytes_at N self.old.file.now self.old.at }
    {
        let ends = Fault::Ends(self.file.len());
        self.bytes(N)?.as_array().ok_or(ends)
    }

    // A number: seven bits to a byte, the lowest first; a byte with its top bit set is not the last.
    pub(crate) fn number(&mut self) -> Result<u32, Fault>
        ensures same { self.new.file.now ≡ self.old.file.now }
        ensures reads { outcome (λ n. n) result self.new.at ≡ number_at self.old.file.now self.old.at }
    {
        let first = self.at;
        let mut value: u64 = 0;
        let mut weight: u64 = 1;
        for _ in 0..5u8 {
            let b = self.byte()?;
            let group = b as u64;
            if group < 128 {
                value += group * weight;
                return u32::try_from(value).map_err(|_| Fault::Number(first));
            }
            value += (group - 128) * weight;
            weight *= 128;
        }
        Err(Fault::Number(first))
    }

    // A number from least to most.
    pub(crate) fn length(&mut self, least: u32, most: u32) -> Result<u32, Fault>
        ensures long { IfOk result (λ n. n ≤ most) }
        ensures same { self.new.file.now ≡ self.old.file.now }
        ensures reads { outcome (λ n. n) result self.new.at ≡ length_at least most self.old.file.now self.old.at }
    {
        let first = self.at;
        let n = self.number()?;
        if n < least || n > most {
            return Err(Fault::Length(first));
        }
        Ok(n)
    }

    // A length from least to most, then that many bytes.
    pub(crate) fn block(&mut self, least: u32, most: u32) -> Result<&'a [u8], Fault>
        ensures long { IfOk result (λ s. length s.now ≤ most) }
        ensures behind { IfOk result (λ s. length s.now ≤ self.new.at) }
        ensures within { OnOk result (self.new.at ≤ length self.old.file.now) }
        ensures same { self.new.file.now ≡ self.old.file.now }
        ensures reads { outcome (λ s. s.now) result self.new.at ≡ block_at least most self.old.file.now self.old.at }
    {
        let n = self.length(least, most)?;
        self.bytes(n as usize)
    }
}
