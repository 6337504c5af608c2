ghost use Rattle.std.specs.Prelude.{◌≡◌, ◌<◌, length, All};
ghost use Rattle.circuit.specs.Plans.{plan};
ghost use Rattle.circuit.specs.Survey.{is_of, gates_of, highest, under, depth_of, Levelled};

use super::Circuit;
use crate::drafts::MAX_LINES;
use crate::kinds::Kind;
use crate::lines::Line;

impl Circuit {
    // How many gates of a kind the circuit has.
    pub fn gates(&self, kind: Kind) -> usize
        ensures { result ≡ gates_of kind (plan self.now).lines }
    {
        self.draft
            .lines
            .iter()
            .filter(|line| is_of(**line, kind))
            .count()
    }

    // The length of the longest way from an input.
    pub fn depth(&self) -> usize
        ensures deep { result ≡ depth_of (plan self.now).lines }
        ensures levelled { Levelled (plan self.now).lines }
    {
        let mut levels = [0; MAX_LINES];
        let mut top: usize = 0;
        for (i, line) in self.draft.lines.iter().enumerate() {
            let level = match line {
                Line::Input(_) => 0,
                Line::Gate(gate) => 1 + highest(&levels[..i], gate.pins.as_slice()),
            };
            levels[i] = level;
            top = top.max(level);
        }
        top
    }
}

// Whether a line is driven by a gate of the kind.
fn is_of(line: Line, kind: Kind) -> bool
    ensures { result ≡ is_of kind line }
{
    match line {
        Line::Input(_) => false,
        Line::Gate(gate) => gate.kind == kind,
    }
}

// The highest level of the lines that feed the pins.
fn highest(levels: &[usize], pins: &[u16]) -> usize
    requires fed { All (λ p. p < length levels.now) pins.now }
    ensures { result ≡ highest (under levels.now pins.now) }
{
    pins.iter()
        .map(|pin| levels[*pin as usize])
        .max()
        .unwrap_or(0)
}
