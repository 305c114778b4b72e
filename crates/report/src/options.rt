// One option: what a word and the word behind it ask for.
ghost use Rattle.std.specs.Prelude.{◌≡◌};
ghost use Rattle.report.specs.Options.{dashed as dashed_word, named_by, is_paired, is_piece, with_file, stepped, no_request};

use coverage::options::{ChainOption, Options, chain_option, main_chain, with_chain};

// The options whose value is a file.
#[derive(Clone, Copy)]
pub enum FileOption {
    Out,
    Sheet,
    Headers,
    Calendars,
}

// What a word is.
#[derive(Clone, Copy)]
pub enum Named {
    // a proof
    Piece,
    Force,
    File(FileOption),
    Chain(ChainOption),
    Unknown,
}

// What is asked for so far: the paths of files, and what the first header is held to be.
#[derive(Clone, Copy)]
pub struct Request<'a> {
    pub out: Option<&'a str>,
    pub sheet: Option<&'a str>,
    pub headers: Option<&'a str>,
    pub calendars: Option<&'a str>,
    pub force: bool,
    pub chain: Options,
}

// What is wrong with an option.
#[derive(Clone, Copy)]
pub enum Wrong<'a> {
    Unknown(&'a str),
    NoValue(&'a str),
    // its value cannot be read
    Unreadable { option: &'a str, value: &'a str },
}

// Nothing is asked for yet, and headers are those of the main chain.
pub fn no_request<'a>() -> Request<'a>
    ensures { result ≡ no_request }
{
    Request {
        out: None,
        sheet: None,
        headers: None,
        calendars: None,
        force: false,
        chain: main_chain(),
    }
}

// What a word is by its name.
pub fn name_of(word: &str) -> Named
    ensures { result ≡ named_by word.now }
{
    match word {
        "--out" => Named::File(FileOption::Out),
        "--sheet" => Named::File(FileOption::Sheet),
        "--headers" => Named::File(FileOption::Headers),
        "--calendars" => Named::File(FileOption::Calendars),
        "--force" => Named::Force,
        _ => match chain_option(word) {
            Some(option) => Named::Chain(option),
            None if dashed(word) => Named::Unknown,
            None => Named::Piece,
        },
    }
}

fn dashed(word: &str) -> bool
    ensures { result ≡ dashed_word word.now }
{
    matches!(*word.as_bytes(), [b'-', b'-', ..])
}

// Whether a value stands behind the word.
pub fn paired(named: Named) -> bool
    ensures { result ≡ is_paired named }
{
    matches!(named, Named::File(_) | Named::Chain(_))
}

// Whether the word is a proof.
pub fn piece(named: Named) -> bool
    ensures { result ≡ is_piece named }
{
    matches!(named, Named::Piece)
}

fn with_file<'a>(option: FileOption, path: &'a str, request: Request<'a>) -> Request<'a>
    ensures { result ≡ with_file option path.entry request.entry }
{
    match option {
        FileOption::Out => Request {
            out: Some(path),
            ..request
        },
        FileOption::Sheet => Request {
            sheet: Some(path),
            ..request
        },
        FileOption::Headers => Request {
            headers: Some(path),
            ..request
        },
        FileOption::Calendars => Request {
            calendars: Some(path),
            ..request
        },
    }
}

// The request after a word, and the word behind it if there is one.
pub fn option_step<'a>(
    request: Request<'a>,
    word: &'a str,
    value: Option<&'a str>,
) -> Result<Request<'a>, Wrong<'a>>
    ensures { result ≡ stepped request.entry word.entry value.entry }
{
    match name_of(word) {
        Named::Piece => Ok(request),
        Named::Force => Ok(Request {
            force: true,
            ..request
        }),
        Named::File(option) => {
            let path = value.ok_or(Wrong::NoValue(word))?;
            Ok(with_file(option, path, request))
        }
        Named::Chain(option) => {
            let value = value.ok_or(Wrong::NoValue(word))?;
            let chain = with_chain(option, value, request.chain).ok_or(Wrong::Unreadable {
                option: word,
                value,
            })?;
            Ok(Request { chain, ..request })
        }
        Named::Unknown => Err(Wrong::Unknown(word)),
    }
}
