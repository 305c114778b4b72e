// The options of a file of headers: what its chain is held to be.
ghost use Rattle.std.specs.Prelude.{◌≡◌, length};
ghost use Rattle.coverage.specs.Options.{chain_option, with_chain, with_pair, parsed_from, main_chain, parsed};

use crate::reading::{bits, hash, number};
use headers::chain::Chain;

pub type Options = Chain;

// The options, each for one thing that the chain is held to be.
#[derive(Clone, Copy, Debug, PartialEq, Eq)]
pub enum ChainOption {
    Base,
    Previous,
    Ceiling,
}

#[derive(Clone, Copy, Debug, PartialEq, Eq)]
pub enum Wrong<'a> {
    // an option without its value
    Odd,
    // more than three pairs
    Many,
    Unknown(&'a str),
    // its value cannot be read
    Unreadable { option: &'a str, value: &'a str },
}

// The main chain from its first block on.
pub fn main_chain() -> Chain
    ensures { result ≡ main_chain }
{
    Chain {
        base: 0,
        previous: [0; 32],
        ceiling: 0x1d00ffff,
    }
}

// The option that a word names.
pub fn chain_option(word: &str) -> Option<ChainOption>
    ensures { result ≡ chain_option word.now }
{
    match word {
        "--base" => Some(ChainOption::Base),
        "--previous" => Some(ChainOption::Previous),
        "--ceiling" => Some(ChainOption::Ceiling),
        _ => None,
    }
}

// The chain after an option, where its value can be read.
pub fn with_chain(option: ChainOption, value: &str, chain: Chain) -> Option<Chain>
    ensures { result ≡ with_chain option value.now chain }
{
    Some(match option {
        ChainOption::Base => Chain {
            base: number(value)?,
            ..chain
        },
        ChainOption::Previous => Chain {
            previous: hash(value.as_bytes())?,
            ..chain
        },
        ChainOption::Ceiling => Chain {
            ceiling: bits(value.as_bytes())?,
            ..chain
        },
    })
}

// The chain by up to three options, each with its value behind it. Of an option that is given twice the later value counts.
pub fn parse<'a>(words: &[&'a str]) -> Result<Chain, Wrong<'a>>
    ensures { result ≡ parsed words.now }
{
    if words.len() > 6 {
        return Err(Wrong::Many);
    }
    if words.len() % 2 == 1 {
        return Err(Wrong::Odd);
    }
    read(main_chain(), words)
}

// The chain after these words.
fn read<'a>(chain: Chain, words: &[&'a str]) -> Result<Chain, Wrong<'a>>
    ensures { result ≡ parsed_from chain words.now }
{
    match words {
        [option, value, rest @ ..] => read(with(option, value, chain)?, rest),
        [_] => Err(Wrong::Odd),
        [] => Ok(chain),
    }
}

// The chain after a pair of words.
fn with<'a>(option: &'a str, value: &'a str, chain: Chain) -> Result<Chain, Wrong<'a>>
    ensures { result ≡ with_pair option.entry value.entry chain }
{
    let named = chain_option(option).ok_or(Wrong::Unknown(option))?;
    with_chain(named, value, chain).ok_or(Wrong::Unreadable { option, value })
}
