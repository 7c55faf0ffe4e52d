//! The window over 32 bits.
ghost use Rattle.std.specs.Prelude.{◌≡◌, ℕ, ◌<◌, List, [], ◌∷◌, ◌++◌, Option, Some, None};
ghost use Rattle.std.specs.Int.{bit_at};
ghost use Rattle.replay_window.specs.Numbers.{IsJudged};
ghost use Rattle.replay_window.specs.Parts.{StandsFor, IsWindow};
ghost use Rattle.replay_window.specs.declared.judged.Judged.TheVariants.{Fresh};

use crate::bits;
use crate::judged::Judged;
use std::marker::Model;

/// Which numbers were taken, as far back as 31 below the greatest. In contracts it is its parts, if
/// it has any.
#[derive(Clone, Copy, Debug, PartialEq, Eq)]
pub struct Window {
    parts: Option<(u64, u32)>,
}

impl Model for Window {
    ghost Value = { Option (ℕ × ℕ) };

    ghost view = { λ w. w.parts };

    ghost invariant = { λ w. IsWindow w.parts };

    ghost inverse = { λ parts. record { parts = parts } };
}

/// Judges a number by the parts of a window.
fn judge_by(parts: Option<(u64, u32)>, number: u64) -> Judged
    ensures { (numbers : List ℕ) → StandsFor numbers parts → IsJudged numbers number result }
{
    let Some((greatest, bits)) = parts else {
        return Judged::Fresh;
    };
    if number > greatest {
        return Judged::Fresh;
    }
    let below = greatest - number;
    if below >= bits::SIZE {
        Judged::Old
    } else if bits::is_marked(bits, below) {
        Judged::Taken
    } else {
        Judged::Fresh
    }
}

impl Window {
    /// A window in which no number was taken.
    pub fn empty() -> Window
        ensures { result ≡ None }
    {
        Window { parts: None }
    }

    /// Judges a number by those that were taken. The window stands for some list, and each such
    /// list judges so.
    pub fn judge(&self, number: u64) -> Judged
        ensures each { (numbers : List ℕ) → StandsFor numbers self.now → IsJudged numbers number result }
        ensures some { (numbers : List ℕ) × StandsFor numbers self.now × IsJudged numbers number result }
    {
        judge_by(self.parts, number)
    }

    /// Takes a number that is judged Fresh.
    pub fn take(&mut self, number: u64)
        requires { (numbers : List ℕ) × StandsFor numbers self.old × IsJudged numbers number Fresh }
        ensures { (numbers : List ℕ) → StandsFor numbers self.old → StandsFor (numbers ++ number ∷ []) self.new }
    {
        let parts = match self.parts {
            None => (number, 1),
            Some((greatest, bits)) => {
                if number > greatest {
                    (number, bits::move_up(bits, number - greatest))
                } else {
                    (greatest, bits::mark(bits, greatest - number))
                }
            },
        };
        self.parts = Some(parts);
    }

    /// The greatest number taken and the 32 bits, of which bit i says that the greatest minus i was
    /// taken. None where no number was taken.
    pub fn parts(&self) -> Option<(u64, u32)>
        ensures parts { result ≡ self.now }
        ensures valid { IsWindow result }
    {
        self.parts
    }

    /// The window of these parts. Bit 0 is set, and no bit is at a place above the greatest
    /// number.
    pub fn of_parts(greatest: u64, bits: u32) -> Window
        requires first { bit_at bits 0 ≡ 1 }
        requires none_above { (i : ℕ) → greatest < i → bit_at bits i ≡ 0 }
        ensures parts { result ≡ Some (greatest, bits) }
        ensures numbers { (numbers : List ℕ) × StandsFor numbers result }
    {
        Window {
            parts: Some((greatest, bits)),
        }
    }
}
