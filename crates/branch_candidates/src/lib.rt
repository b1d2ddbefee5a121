// Candidates: the rows of a table that a bound may reach. A row that a partial choice does not reach is left out for
// all that extend it. A list of them is so many bytes that the caller lends: the numbers of rows, and in the last byte
// how many there are.
#![tactic(auto)]

ghost use Rattle.std.specs.Prelude.{◌≡◌, ◌≤◌, length};
ghost use Rattle.branch_candidates.specs.Sifted.{max_rows, list_width, Sifted};

pub const MAX_ROWS: usize = 128;

pub const LIST_WIDTH: usize = 129;

// Lists the first `m` rows: none is left out.
pub fn all_rows(m: usize, to: &mut [u8])
    requires { (m ≤ max_rows) × (length to.old ≡ list_width) }
    ensures { Sifted m (λ _. ⊥) to.new }
{
    for i in 0..m {
        to[i] = i as u8;
    }
    to[MAX_ROWS] = m as u8;
}
