// The places of a ring of 128, by its two counts: where the next row goes, and where the row i stands. Any counts and any i are taken; counts out of
// range are those of an empty ring. The places are numbers from 0 to 127, and no remainder is formed.
#![tactic(auto)]

ghost use Rattle.std.specs.Prelude.{◌≡◌, ◌<◌, ◌≤◌, pos, IfSome};
ghost use Rattle.ring.specs.Ring.{
  in_range,
  rows_in,
  counts_in,
  place_after,
  one_more,
  spot_of,
  place_of_row,
  row_place,
};

// The place of the next row and the real rows, as they are read.
#[derive(Clone, Copy)]
pub struct Counts {
    pub place: usize,
    pub rows: usize,
}

// Where a row goes, and the counts after it.
#[derive(Clone, Copy)]
pub struct Spot {
    pub at: usize,
    pub next: i32,
    pub real: i32,
}

// Two words of a record, as C has them, here and below: a struct of them would be made by each caller to be taken apart at once.
#[tactic(auto, unfolding(crate::specs::Ring::in_range))]
fn in_range(next: i32, real: i32) -> bool
    ensures { result ≡ in_range next real }
{
    fixed::within(0, 127, next) & fixed::within(0, 128, real)
}

// The two counts, as they are read: both are 0 where either is out of range.
#[tactic(auto, using(crate::proofs::Places::counted), unfolding(crate::specs::Ring::counts_in, crate::specs::Ring::place_in, crate::specs::Ring::rows_in))]
fn counts_in(next: i32, real: i32) -> Counts
    ensures read { result ≡ counts_in next real }
    ensures place { result.place < 128 }
    ensures rows { result.rows ≤ 128 }
{
    if in_range(next, real) {
        Counts {
            place: next as usize,
            rows: real as usize,
        }
    } else {
        Counts { place: 0, rows: 0 }
    }
}

// How many rows are real, for a caller.
#[tactic(auto, unfolding(crate::specs::Ring::counts_in))]
pub fn count_in(next: i32, real: i32) -> i32
    ensures { result ≡ pos (rows_in next real) }
{
    counts_in(next, real).rows as i32
}

#[tactic(auto, unfolding(crate::specs::Ring::place_after))]
fn place_after(at: usize) -> usize
    ensures place { result ≡ place_after at }
    ensures inside { result < 128 }
{
    if at < 127 { at + 1 } else { 0 }
}

// No twin of the place after: that begins anew at the end, and this stays there.
#[tactic(auto, unfolding(crate::specs::Ring::one_more))]
fn one_more(real: usize) -> usize
    ensures rows { result ≡ one_more real }
    ensures most { result ≤ 128 }
{
    if real < 128 { real + 1 } else { 128 }
}

// Where the next row goes. Counts out of range are 0 before it, so that the row is then the only one.
#[tactic(auto, unfolding(crate::specs::Ring::spot_of, crate::specs::Ring::counts_in))]
pub fn spot_for(next: i32, real: i32) -> Spot
    ensures spot { result ≡ spot_of next real }
    ensures inside { result.at < 128 }
{
    let c = counts_in(next, real);
    Spot {
        at: c.place,
        next: place_after(c.place) as i32,
        real: one_more(c.rows) as i32,
    }
}

// The place of the row k of the real rows, the oldest being row 0.
#[tactic(auto, unfolding(crate::specs::Ring::place_of_row))]
fn place_of_row(place: usize, real: usize, k: usize) -> usize
    requires { (place < 128) × (real ≤ 128) × (k < real) }
    ensures place { result ≡ place_of_row place real k }
    ensures inside { result < 128 }
{
    let on = place + (128 - real) + k;
    if on < 128 { on } else { on - 128 }
}

// Where the row i stands, of any number i: no row comes before the oldest, and none after the newest.
#[tactic(auto, unfolding(crate::specs::Ring::counts_in, crate::specs::Ring::row_place, crate::specs::Ring::place_at))]
pub fn row_place(next: i32, real: i32, i: i32) -> Option<usize>
    ensures place { result ≡ row_place next real i }
    ensures inside { IfSome result (λ at. at < 128) }
{
    let k = usize::try_from(i).ok()?;
    let c = counts_in(next, real);
    if k < c.rows {
        Some(place_of_row(c.place, c.rows, k))
    } else {
        None
    }
}
