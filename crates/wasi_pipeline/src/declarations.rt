ghost use Rattle.std.specs.Prelude.{◌≡◌, ◌≤◌, true};
ghost use Rattle.wasi_pipeline.specs.Grammar.{nothing_declared, may_stand, declared_after};

use crate::line::Line;

/// What the lines of a script declared so far.
#[derive(Clone, Copy, Debug, PartialEq, Eq, Drop)]
pub(crate) struct Declared {
    /// Whether there is a link 0.
    linked: bool,
    stages: u32,
    /// Whether a step followed that declares nothing.
    begun: bool,
}

impl Declared {
    pub(crate) fn nothing() -> Declared
        ensures { result ≡ nothing_declared }
    {
        Declared {
            linked: false,
            stages: 0,
            begun: false,
        }
    }

    /// Whether a step may stand after these lines.
    pub(crate) fn allows(&self, line: Line) -> bool
        ensures { result ≡ may_stand self.now line }
    {
        match line {
            Line::Link { .. } => !self.linked,
            Line::Stage { .. } => self.linked && !self.begun && self.stages < 15,
            Line::Feed { .. } | Line::Drain { .. } => self.linked,
            Line::Turn { stage, .. } => self.linked && 1 <= stage && stage <= self.stages,
        }
    }

    /// What is declared after a step that may stand.
    pub(crate) fn after(self, line: Line) -> Declared
        requires { may_stand self line ≡ true }
        ensures { result ≡ declared_after self line }
    {
        match line {
            Line::Link { .. } => Declared {
                linked: true,
                ..self
            },
            Line::Stage { .. } => Declared {
                stages: self.stages + 1,
                ..self
            },
            Line::Feed { .. } | Line::Turn { .. } | Line::Drain { .. } => {
                Declared {
                    begun: true,
                    ..self
                }
            }
        }
    }
}
