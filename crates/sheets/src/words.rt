// The words of the verdicts, and a word with its count.
ghost use Rattle.std.specs.Prelude.{◌≡◌, ◌≤◌, ◌++◌, length};
ghost use Rattle.sheets.specs.Onto.{word_of, word_for, count_length, count_onto};
ghost use Rattle.written.specs.Writers.{written, HasRoom, Moved};

use crate::SPACE;
use crate::numbers::{number_length, put_number};
use judge::verdict::Verdict;
use written::writer::Writer;

#[derive(Clone, Copy)]
pub(crate) enum Word {
    Confirmed,
    Rejected,
    Waiting,
    Foreign,
}

impl From<Verdict> for Word {
    ghost from_gives = { λ verdict word. word ≡ word_for verdict };

    fn from(verdict: Verdict) -> Word {
        match verdict {
            Verdict::Confirmed(_) => Word::Confirmed,
            Verdict::Rejected => Word::Rejected,
            Verdict::Waiting => Word::Waiting,
            Verdict::Foreign => Word::Foreign,
        }
    }
}

// No word has more than nine letters.
// Kept: bytes for the writer; a `Display` would write to a formatter, and the lent area has none.
#[tactic(auto, unfolding(crate::specs::Onto::word_of), using(crate::proofs::Lines::word_short))]
pub(crate) fn letters(word: Word) -> &'static [u8]
    ensures value { result.now ≡ word_of word }
    ensures bound { length (word_of word) ≤ 9 }
{
    match word {
        Word::Confirmed => b"confirmed",
        Word::Rejected => b"rejected",
        Word::Waiting => b"waiting",
        Word::Foreign => b"foreign",
    }
}

pub(crate) fn word_length(word: Word) -> usize
    ensures value { result ≡ length (word_of word) }
    ensures bound { result ≤ 9 }
{
    letters(word).len()
}

pub(crate) fn put_word(w: &mut Writer<'_>, word: Word)
    requires { HasRoom w.old (length (word_of word)) }
    ensures moved { Moved w.old w.new (length (word_of word)) }
    ensures front { written w.new ≡ written w.old ++ word_of word }
{
    w.bytes(letters(word))
}

pub(crate) fn count_length(word: Word, n: usize) -> usize
    ensures value { result ≡ count_length word n }
    ensures bound { result ≤ 30 }
{
    word_length(word) + 1 + number_length(n)
}

pub(crate) fn put_count(w: &mut Writer<'_>, word: Word, n: usize)
    requires { HasRoom w.old (count_length word n) }
    ensures moved { Moved w.old w.new (count_length word n) }
    ensures front { written w.new ≡ count_onto (written w.old) word n }
{
    put_word(w, word);
    w.byte(SPACE);
    put_number(w, n)
}
