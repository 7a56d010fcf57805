// Where the walk stands after the numbers chosen so far, and which numbers the next place may have in a row.
ghost use Rattle.std.specs.Prelude.{◌≡◌, true, ◌*◌, ◌<◌, ◌≤◌};
ghost use Rattle.equation.specs.Places.{Room, Apart, Lifts, Ranges, budget_of, after_choice};

use std::ops::RangeInclusive;

// Where the walk stands, of the numbers chosen so far: the two sums, the offsets included; what is left of
// the budget of the places whose left coefficient is at least the right one, and of the others; and whether
// an all-zero rest counts.
#[derive(Clone, Copy)]
pub struct Standing {
    pub left: usize,
    pub right: usize,
    pub up: u8,
    pub down: u8,
    pub counts: bool,
}

// The product of two bytes, which always fits.
fn times(a: u8, b: u8) -> usize
    ensures { result ≡ a * b }
{
    usize::from(a) * usize::from(b)
}

// The one number within the budget that can lift the lower sum, by so much for each unit, to the higher one.
fn divided(low: usize, high: usize, step: u8, budget: u8) -> Option<u8>
    requires { 0 < step }
    ensures { Lifts low high step budget result }
{
    let number = high.checked_sub(low)? / usize::from(step);
    if usize::from(budget) < number {
        return None;
    }
    Some(number as u8)
}

impl Standing {
    // What is left of the budget that a place with these coefficients spends.
    fn budget(self, left: u8, right: u8) -> u8
        ensures { result ≡ budget_of self left right }
    {
        if right <= left { self.up } else { self.down }
    }

    // Where the walk stands when a place with these coefficients has got its number.
    pub fn chosen(self, left: u8, right: u8, number: u8) -> Standing
        requires { (number ≤ budget_of self left right) × Room self }
        ensures { result ≡ after_choice self left right number }
    {
        let next = Standing {
            left: self.left + times(left, number),
            right: self.right + times(right, number),
            counts: self.counts | (0 < number),
            ..self
        };
        if right <= left {
            Standing {
                up: self.up - number,
                ..next
            }
        } else {
            Standing {
                down: self.down - number,
                ..next
            }
        }
    }

    // Whether the two sums are further apart than what is left of the budgets can bridge, where no coefficient
    // left is above these.
    pub fn apart(self, lift: u8, drop: u8) -> bool
        requires { Room self }
        ensures { result ≡ true → Apart self lift drop }
    {
        self.left + times(self.up, lift) < self.right
            || self.right + times(self.down, drop) < self.left
    }

    // The numbers that a place with these coefficients may have: up to its budget; at the last place only the one
    // that makes the sums equal; and where the coefficients are equal, none but what keeps the vector from being
    // all zero.
    pub fn possible(self, left: u8, right: u8, last: bool) -> RangeInclusive<u8>
        ensures { Ranges self left right last result }
    {
        if left == right {
            let most = if self.counts || self.up == 0 { 0 } else { 1 };
            return 0..=most;
        }
        if !last {
            return 0..=self.budget(left, right);
        }
        let number = if right < left {
            divided(self.left, self.right, left - right, self.up)
        } else {
            divided(self.right, self.left, right - left, self.down)
        };
        match number {
            Some(number) => number..=number,
            None => 1..=0,
        }
    }
}
