// What a list of words asks for.
ghost use Rattle.std.specs.Prelude.{◌≡◌, IfOk};
ghost use Rattle.report.specs.Requests.{behind, request_from, request_of, pieces_of};

use crate::options::{Request, Wrong, name_of, no_request, option_step, paired, piece};
use std::alloc::{AllocError, Global};

// The words behind a word, without its value if it takes one.
fn behind<'w, 'a>(word: &str, rest: &'w [&'a str]) -> &'w [&'a str]
    ensures { result.now ≡ behind word.now rest.now }
{
    match rest {
        [_, more @ ..] if paired(name_of(word)) => more,
        _ => rest,
    }
}

// The request of the words behind a command.
pub fn parse<'a>(words: &[&'a str]) -> Result<Request<'a>, Wrong<'a>>
    ensures { result ≡ request_of words.now }
{
    asked(words, no_request())
}

fn asked<'a>(words: &[&'a str], begun: Request<'a>) -> Result<Request<'a>, Wrong<'a>>
    ensures { result ≡ request_from begun.entry words.now }
{
    let mut request = begun;
    let mut left = words;
    while let [word, rest @ ..] = left {
        request = option_step(request, word, rest.first().copied())?;
        left = behind(word, rest);
    }
    Ok(request)
}

// The proofs among the words behind a command.
pub fn pieces<'a>(heap: Global, words: &[&'a str]) -> Result<Vec<&'a str>, AllocError>
    ensures { IfOk result (λ v. v.items ≡ pieces_of words.now) }
{
    let mut pieces = Vec::new(heap);
    let mut left = words;
    while let [word, rest @ ..] = left {
        if piece(name_of(word)) {
            pieces.push(*word)?;
        }
        left = behind(word, rest);
    }
    Ok(pieces)
}
