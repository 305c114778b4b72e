// The words of a line.
ghost use Rattle.std.specs.Prelude.{◌≡◌, ℕ, ◌<◌, length};
ghost use Rattle.account.specs.Commands.{word};
ghost use Rattle.script.specs.Words.{words_of, word_at, Split, first_nine};

// One word more than a call has, so that a longer line shows.
const MOST: usize = 9;

// The words of a line: how many there are, and the first nine; those that are not there are empty.
// Kept: a count beside nine places, and no list of words: a line is split without memory, and that cannot fail.
#[derive(Clone, Copy)]
pub struct Words<'a> {
    pub count: usize,
    pub first: [&'a str; MOST],
}

impl<'a> Words<'a> {
    // The words, or the first nine of more.
    pub fn as_slice(&self) -> &[&'a str]
        ensures { result.now ≡ first_nine self.now }
    {
        &self.first[..self.count.min(MOST)]
    }
}

// The words of a line, which spaces part.
pub fn split<'a>(text: &'a str) -> Words<'a>
    ensures { Split (words_of text.now) result }
{
    let (count, first) = gone_over(text);
    Words { count, first }
}

// How many words a line has, and the first nine, of which those that are not there are empty. The line is gone over once.
fn gone_over<'a>(text: &'a str) -> (usize, [&'a str; MOST])
    ensures count { result.0 ≡ length (words_of text.now) }
    ensures first { (k : ℕ) → k < 9 → word result.1 k ≡ word_at k (words_of text.now) }
{
    let mut first = [""; MOST];
    let mut count = 0;
    for word in text.split(' ').filter(|word| !word.is_empty()) {
        if count < MOST {
            first[count] = word;
        }
        count += 1;
    }
    (count, first)
}
