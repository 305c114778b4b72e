// What the words after the program's name ask for.
ghost use Rattle.std.specs.Prelude.{◌≡◌};
ghost use Rattle.report.specs.Commands.{asked, asked_by};

#[derive(Clone, Copy)]
pub enum Command<'a> {
    // the merge of several proofs: its options and the proofs
    Merge(&'a [&'a str]),
    // the sheet of a proof, likewise
    Sheet(&'a [&'a str]),
    // the calls of the script at a path
    Run(&'a str),
    // the same, and what it writes may overwrite
    Overwrite(&'a str),
    // a command that makes no call on a dossier
    Plain(account::commands::Command<'a>),
}

pub fn parse<'a>(words: &'a [&'a str]) -> Command<'a>
    ensures { asked result ≡ asked_by words.now }
{
    match *words {
        ["merge", ref words @ ..] => Command::Merge(words),
        ["sheet", ref words @ ..] => Command::Sheet(words),
        ["run", path] => Command::Run(path),
        ["run", "--force", path] => Command::Overwrite(path),
        _ => Command::Plain(account::commands::parse(words)),
    }
}
