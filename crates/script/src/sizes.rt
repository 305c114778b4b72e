// A size from its text.
ghost use Rattle.std.specs.Prelude.{◌≡◌};
ghost use Rattle.script.specs.Sizes.{size_read};

// A decimal number; a plus may stand before it.
// Kept: a generic one beside `number` of `coverage` would be `parse` itself, and its clause would not say which texts are read.
#[tactic(auto, using(coverage::proofs::Numerals::decimal_parses))]
pub fn size(text: &str) -> Option<usize>
    ensures { result ≡ size_read text.now }
{
    text.parse().ok()
}
