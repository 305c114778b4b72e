// What the words of a command ask for, or a message of what is wrong with them.
use crate::files::failed;
use crate::judges::Texts;
use report::options::{Request, Wrong};
use report::requests::parse;

// The words behind the command.
pub fn request<'a>(rt: &HostRuntime, words: &[&'a str]) -> anyhow::Result<Request<'a>> {
    parse(words).map_err(|wrong| refused(rt, wrong))
}

fn refused(rt: &HostRuntime, wrong: Wrong) -> anyhow::Error {
    match wrong {
        Wrong::Unknown(option) => failed(rt, format_args!("not an option: {option}")),
        Wrong::NoValue(option) => failed(rt, format_args!("{option} has no value")),
        Wrong::Unreadable { option, value } => {
            failed(rt, format_args!("{option} cannot be {value}"))
        }
    }
}

// The texts of the judges that were asked for.
pub fn texts(rt: &HostRuntime, asked: &Request) -> anyhow::Result<Texts> {
    Texts::read(rt, asked.headers, asked.chain, asked.calendars).map_err(|error| failed(rt, error))
}
