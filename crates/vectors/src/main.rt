// Prints known answers, to be held against those of another implementation: SHA-256, operations, paths, the work area.
#![tactic(auto)]

mod areas;
mod digests;
mod messages;
mod paths;

fn run(rt: &HostRuntime) -> anyhow::Result<()> {
    digests::print_published(rt)?;
    digests::print_lengths(rt)?;
    messages::print_small(rt)?;
    messages::print_full(rt)?;
    paths::print_replayed(rt)?;
    paths::print_refused(rt)?;
    areas::print_left(rt)?;
    Ok(())
}

fn main(rt: HostRuntime) -> anyhow::Result<()> {
    run(&rt)
}
