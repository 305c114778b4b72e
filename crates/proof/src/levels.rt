// The nodes above a walk. Nothing is allocated: a node lies under at most 255 operations.
ghost use Rattle.std.specs.Prelude.{◌≡◌, ◌<◌, ◌≤◌, MatchOption, List, [], ◌∷◌, length, reverse, take};
ghost use Rattle.format.specs.declared.Level.{Level as Above};
ghost use Rattle.format.specs.Walks.{risen};
ghost use Rattle.proof.specs.Levels.{standing};

use format::Level;
use std::marker::Model;

#[derive(Drop)]
pub(crate) struct Levels {
    held: [Level; 255],
    depth: u8,
}

// Clauses see the levels, the nearest first.
impl Model for Levels {
    ghost Value = { List Above };

    ghost view = { λ s. reverse (take s.depth s.held) };

    ghost invariant = { λ s. s.depth ≤ length s.held };
}

impl Levels {
    pub(crate) fn new() -> Levels
        ensures { result ≡ [] }
    {
        Levels {
            held: [Level {
                more: false,
                size: 0,
            }; 255],
            depth: 0,
        }
    }

    pub(crate) fn depth(&self) -> u8
        ensures { result ≡ length self.now }
    {
        self.depth
    }

    pub(crate) fn push(&mut self, level: Level)
        requires { length self.old < 255 }
        ensures { self.new ≡ level ∷ self.old }
    {
        self.held[self.depth as usize] = level;
        self.depth += 1;
    }

    // Takes off the nearest level.
    fn pop(&mut self) -> Option<Level>
        ensures { MatchOption result ((self.old ≡ []) × (self.new ≡ [])) (λ l. self.old ≡ l ∷ self.new) }
    {
        if self.depth == 0 {
            return None;
        }
        self.depth -= 1;
        Some(self.held[self.depth as usize])
    }

    // A node has ended: up to the nearest one that goes on, and how long its message is.
    pub(crate) fn rise(&mut self) -> Option<u16>
        ensures { standing result self.new ≡ risen self.old }
    {
        while let Some(level) = self.pop() {
            if level.more {
                return Some(level.size);
            }
        }
        None
    }
}
