// A digest and its tree, lent to be read.
ghost use Rattle.std.specs.Prelude.{◌≡◌};
ghost use Rattle.rows.specs.Models.{content_about, content_lent};

use crate::held::{About, LentAbout};

impl About {
    pub fn lent(&self) -> LentAbout<'_>
        ensures { content_lent result ≡ content_about self.now }
    {
        LentAbout {
            digest: self.digest.as_slice(),
            top: &self.top,
        }
    }
}
