// What the words after the program's name ask for.
ghost use Rattle.std.specs.Prelude.{◌≡◌};
ghost use Rattle.account.specs.Commands.{asked, asked_by};

#[derive(Clone, Copy)]
pub enum Command<'a> {
    // how the program is used; also where nothing is asked
    Usage,
    Version,
    // the account of the proof at a path
    Show(&'a str),
    // the same, with the message under each attestation
    Messages(&'a str),
    // what the headers at a path cover, by the options behind it
    Headers {
        path: &'a str,
        options: &'a [&'a str],
    },
    Unknown,
}

pub fn parse<'a>(words: &'a [&'a str]) -> Command<'a>
    ensures { asked result ≡ asked_by words.now }
{
    match *words {
        [] | ["help"] => Command::Usage,
        ["version"] => Command::Version,
        ["show", path] => Command::Show(path),
        ["show", "--messages", path] => Command::Messages(path),
        ["headers", path, ref options @ ..] => Command::Headers { path, options },
        _ => Command::Unknown,
    }
}
