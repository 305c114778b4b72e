// A dossier in whichever phase it is.
use dossier::phases::{Open, Settled};

#[derive(Drop)]
pub enum Phase {
    Open(Open),
    Settled(Settled),
}
