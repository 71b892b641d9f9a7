// Where a Clist ends: before its first pair of two zero words.
ghost use Rattle.std.specs.Prelude.{◌≡◌, ◌+◌, ◌*◌, ◌<◌, length};
ghost use Rattle.clists.specs.Clist.{zero_pair, list_end};

// Whether both words of pair i are zero.
fn zero_pair(run: &[u64], i: usize) -> bool
    requires { 2 * i + 1 < length run.now }
    ensures { result ≡ zero_pair run.now i }
{
    run[2 * i] == 0 && run[2 * i + 1] == 0
}

// How many pairs of a run stand before its first pair of two zero words, all of them where there is none. Eight are looked at in each turn;
// the last loop is for a run of any length, and never turns on one of whole pages.
pub fn list_end(run: &[u64]) -> usize
    ensures { result ≡ list_end run.now }
{
    let pairs = run.len() / 2;
    for k in 0..pairs / 8 {
        for i in 8 * k..8 * k + 8 {
            if zero_pair(run, i) {
                return i;
            }
        }
    }
    for i in pairs / 8 * 8..pairs {
        if zero_pair(run, i) {
            return i;
        }
    }
    pairs
}
