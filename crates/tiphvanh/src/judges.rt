// The judge that a program was asked for, and the texts that it stands on.
use crate::files::{FileError, HEADERS, read, whole};
use headers::chain::Chain;
use judge::calendar_judge::CalendarJudge;
use judge::choice::AnyJudge;
use judge::header_judge::HeaderJudge;

// A text of headers, and what the first of them is held to be.
#[derive(Drop)]
struct Headers {
    bytes: Vec<u8>,
    chain: Chain,
}

impl Headers {
    fn judge(&self) -> HeaderJudge<'_> {
        HeaderJudge::new(&self.chain, self.bytes.as_slice())
    }
}

// The texts, where they were asked for.
#[derive(Drop)]
pub struct Texts {
    headers: Option<Headers>,
    calendars: Option<Vec<u8>>,
}

impl Texts {
    // No text, and so no judge.
    pub fn none() -> Texts {
        Texts {
            headers: None,
            calendars: None,
        }
    }

    // The texts at the paths that are given. Of headers no more are read than a run can have.
    pub fn read<'a>(
        rt: &HostRuntime,
        headers: Option<&'a str>,
        chain: Chain,
        calendars: Option<&'a str>,
    ) -> Result<Texts, FileError<'a>> {
        let headers = headers.map(|path| read(rt, path, HEADERS)).transpose()?;
        let calendars = calendars.map(|path| whole(rt, path)).transpose()?;
        Ok(Texts {
            headers: headers.map(|bytes| Headers { bytes, chain }),
            calendars,
        })
    }

    // Headers decide before calendars; who was not asked for judges nothing.
    pub fn judge(&self) -> AnyJudge<'_> {
        match (&self.headers, &self.calendars) {
            (Some(headers), Some(calendars)) => {
                AnyJudge::Both(headers.judge(), CalendarJudge::new(calendars.as_slice()))
            }
            (Some(headers), None) => AnyJudge::Headers(headers.judge()),
            (None, Some(calendars)) => {
                AnyJudge::Calendars(CalendarJudge::new(calendars.as_slice()))
            }
            (None, None) => AnyJudge::Nobody,
        }
    }
}
