// Why a run of headers goes no further. All but the first four are about the first header behind the run.
#[derive(Clone, Copy, Debug, PartialEq, Eq)]
pub enum Ending {
    // the ceiling is unlawful, so nothing is covered
    Ceiling,
    // the bytes end with the run
    Complete,
    // the run has as many headers as one may have
    Count,
    // the next height would be above 4,294,967,295
    Height,
    // the header is not whole
    Cut,
    // it names another hash than the one before it
    Link,
    // its bits are unlawful
    Bits,
    // its target is above the ceiling's
    Target,
    // its hash is above its target
    Work,
}

// How many headers a run has, and why it ends behind them.
#[derive(Clone, Copy, Debug, PartialEq, Eq)]
pub struct Run {
    pub covered: usize,
    pub ending: Ending,
}
