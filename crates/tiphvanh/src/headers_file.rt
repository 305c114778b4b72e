// What a file of headers covers.
use crate::files::{HEADERS, failed, read};
use coverage::lines::{ending_line, headers_line, heights_line, times_line};
use coverage::options::{Wrong, parse};
use coverage::spans::cover;
use headers::chain::Chain;

// The words are its options.
pub fn headers(rt: &HostRuntime, path: &str, words: &[&str]) -> anyhow::Result<()> {
    let chain = parse(words).map_err(|wrong| refused(rt, wrong))?;
    let file = read(rt, path, HEADERS).map_err(|error| failed(rt, error))?;
    account(rt, &chain, file.as_slice())
}

fn account(rt: &HostRuntime, chain: &Chain, bytes: &[u8]) -> anyhow::Result<()> {
    let coverage = cover(chain, bytes);
    rt.println(headers_line(rt.alloc(), &coverage)?)?;
    if let Some(span) = coverage.span {
        rt.println(heights_line(rt.alloc(), &span)?)?;
        rt.println(times_line(rt.alloc(), &span)?)?;
    }
    rt.println(ending_line(rt.alloc(), &coverage)?)?;
    Ok(())
}

fn refused(rt: &HostRuntime, wrong: Wrong) -> anyhow::Error {
    match wrong {
        Wrong::Odd => failed(rt, "an option has no value: see tiphvanh help"),
        Wrong::Many => failed(rt, "too many options: see tiphvanh help"),
        Wrong::Unknown(option) => failed(rt, format_args!("not an option: {option}")),
        Wrong::Unreadable { option, value } => {
            failed(rt, format_args!("{option} cannot be {value}"))
        }
    }
}
