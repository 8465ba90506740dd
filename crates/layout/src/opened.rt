// Of the processors in their order, those that are open in a stretch. Both functions serve this crate and those above, so that rooms and
// rows go by the same; `open_processors` has a `requires`.
ghost use Rattle.std.specs.Prelude.{◌≡◌, ◌&&◌, ◌≤◌, leb, length, take};
ghost use Rattle.sums.specs.Lists.{keep};
ghost use Rattle.layout.specs.Laid.{Numbered};
ghost use Rattle.layout.specs.Planned.{open_at};

use super::Kept;

// Whether a window, or a job's interval, holds a stretch.
pub fn is_open(opens: u32, closes: u32, start: u32, end: u32) -> bool
    ensures { result ≡ leb opens start && leb end closes }
{
    opens <= start && end <= closes
}

pub fn open_processors(
    processors: [u32; 16],
    n: usize,
    opens: &[u32],
    closes: &[u32],
    start: u32,
    end: u32,
) -> Kept
    requires { (n ≤ 16) × Numbered n processors × (n ≤ length opens.now) × (n ≤ length closes.now) }
    ensures { (result.count ≤ n)
        × (take result.count result.list ≡ keep (open_at opens.now closes.now start end) (take n processors)) }
{
    let mut list = [0; 16];
    let mut count = 0;
    for &i in &processors[..n] {
        let at = (i - 1) as usize;
        if is_open(opens[at], closes[at], start, end) {
            list[count] = i;
            count += 1;
        }
    }
    Kept { count, list }
}
