// The walk through the vectors in ascending order, place by place, and the search that it makes.
ghost use Rattle.std.specs.Prelude.{◌≡◌, ◌*◌, ◌<◌, ◌≤◌, length};
ghost use Rattle.equation.specs.Found.{equation_with, Finds};
ghost use Rattle.equation.specs.Walk.{Settles, Ready, Walks, Starts};

use crate::kept::keep;
use crate::searched::Searched;
use crate::standing::Standing;
use crate::{FoundRows, Offsets, ROOM};
use numbers::limits::VARIABLES;

impl Searched<'_> {
    // At the end of a vector: keeps it if it solves the equation.
    fn settle(&self, vector: &[u8], rows: &mut [u8], count: usize, at: Standing) -> Option<usize>
        requires { (count ≤ self.now.limit) × (self.now.limit * length vector.now ≤ length rows.old) }
        ensures { Settles self.now.limit vector.now at rows.old count rows.new result }
    {
        if at.left != at.right || !at.counts {
            return Some(count);
        }
        keep(rows, self.limit, count, vector)
    }

    // Finds the rows that begin with the numbers of the vector before `place`, when those that stand before them
    // are found: the numbers that the place may have are taken one after the other, ascending, and with each of
    // them the walk goes on from the next place. How many rows are found then, unless they are more than the limit.
    fn walk(
        &self,
        vector: &mut [u8],
        rows: &mut [u8],
        place: usize,
        count: usize,
        at: Standing,
    ) -> Option<usize>
        requires { Ready self.now vector.old rows.old place count at }
        ensures { Walks self.now vector.old rows.old place count at vector.new rows.new result }
    {
        if place == self.left.len() {
            return self.settle(vector, rows, count, at);
        }
        if at.apart(self.lifts[place], self.drops[place]) {
            return Some(count);
        }
        let left = self.left[place];
        let right = self.right[place];
        let last = place + 1 == self.left.len();
        let mut found = count;
        for number in at.possible(left, right, last) {
            vector[place] = number;
            let next = at.chosen(left, right, number);
            found = self.walk(vector, rows, place + 1, found, next)?;
        }
        Some(found)
    }

    // Where the walk starts. The places whose left coefficient is at least the right one get their budget from the right
    // side, the others from the left one, the offsets among them: the other side sets how large an entry of a row can be.
    fn start(&self, offsets: Offsets) -> Standing
        ensures { Starts (equation_with self.now.left.now self.now.right.now offsets) result }
    {
        let lift = self.lifts[0];
        let drop = self.drops[0];
        Standing {
            left: usize::from(offsets.left),
            right: usize::from(offsets.right),
            up: offsets.right.max(drop).max(1),
            down: offsets.left.max(lift),
            counts: !offsets.homogeneous,
        }
    }

    // The rows of the equation with these offsets, unless they are more than the limit.
    pub fn search(&self, offsets: Offsets) -> Option<FoundRows>
        ensures { Finds self.now.limit (equation_with self.now.left.now self.now.right.now offsets) result }
    {
        let mut vector = [0u8; VARIABLES];
        let mut rows = [0u8; ROOM];
        let places = self.left.len();
        let number = self.walk(&mut vector[..places], &mut rows, 0, 0, self.start(offsets))?;
        Some(FoundRows { rows, number })
    }
}
