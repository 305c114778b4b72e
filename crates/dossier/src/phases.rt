// Open and settled dossiers: two types, each with what every dossier keeps.
pub mod calls;

use rows::held::About;

// A dossier that takes files. It is blank, or about a digest.
#[derive(Drop)]
pub struct Open {
    held: Option<About>,
}

// A dossier that is written and reported; it holds the same.
// Kept: two types, a rule of the project; one with a parameter for the phase would name it in every signature, and be no plainer.
#[derive(Drop)]
pub struct Settled {
    held: Option<About>,
}
