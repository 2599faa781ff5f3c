// Where the numbers of a list do not rise from row to row. Rows are numbered from 0.
ghost use Rattle.std.specs.Prelude.{◌≡◌, ◌<◌, length};
ghost use Rattle.bench_list.specs.Rising.{Rising, earlier, rises_at, break_at, breaks_below};

#[derive(Clone, Copy, Debug, PartialEq, Eq)]
pub enum Break {
    // Its number stands in an earlier row, the first of which is `of`.
    Duplicate { row: usize, of: usize },
    // It is below the number of the row before.
    Fall { row: usize },
}

// The first row before this one with its number.
fn earlier(rows: &[u32], row: usize) -> Option<usize>
    requires { row < length rows.now }
    ensures { result ≡ earlier rows.now row }
{
    let number = rows[row];
    rows[..row].iter().position(|earlier| *earlier == number)
}

fn rises(rows: &[u32], row: usize) -> bool
    requires { row < length rows.now }
    ensures { result ≡ rises_at rows.now row }
{
    row == 0 || rows[row - 1] < rows[row]
}

// Why the row is not above the one before; nothing where it is, at the first row, and past the last.
pub fn break_at(rows: &[u32], row: usize) -> Option<Break>
    ensures { result ≡ break_at rows.now row }
{
    if row >= rows.len() || rises(rows, row) {
        return None;
    }
    let fall = Break::Fall { row };
    Some(earlier(rows, row).map_or(fall, |of| Break::Duplicate { row, of }))
}

// How many rows are not above the one before: none exactly where the numbers rise.
#[tactic(auto, using(crate::proofs::RisingSteps::rising_of_none, crate::proofs::RisingSteps::none_of_rising))]
pub fn count_breaks(rows: &[u32]) -> usize
    ensures count { result ≡ breaks_below rows.now (length rows.now) }
    ensures none { result ≡ 0 → Rising rows.now }
    ensures rising { Rising rows.now → result ≡ 0 }
{
    count_falls(rows)
}

// How many numbers are at most the one before them. Apart from its theorem, so that a wrong count is refused here.
fn count_falls(rows: &[u32]) -> usize
    ensures { result ≡ breaks_below rows.now (length rows.now) }
{
    (0..rows.len())
        .map(|row| usize::from(!rises(rows, row)))
        .sum()
}
