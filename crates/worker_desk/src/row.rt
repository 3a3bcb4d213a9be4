//! The flows of a worker, at the front of a row.

ghost use Rattle.std.specs.Prelude.{◌≡◌, ℕ, ◌+◌, ◌<◌, ◌≤◌, [], ◌∷◌, ◌++◌, take, drop, slice_index};
ghost use Rattle.worker_desk.specs.Serving.{flows_of_worker};

/// Puts a flow at the end of those at the front of a row, and answers how many these are then.
pub(crate) fn put(row: &mut [u32; 64], count: usize, flow: u32) -> usize
    requires { count < 64 }
    ensures count { result ≡ count + 1 }
    ensures front { take result row.new ≡ take count row.old ++ flow ∷ [] }
    ensures later { (n : ℕ) → count < n → drop n row.new ≡ drop n row.old }
    ensures below { (flows n : ℕ) → flow < flows → ((k : ℕ) → k < n → slice_index row.old k < flows)
        → (k : ℕ) → k < n → slice_index row.new k < flows }
{
    row[count] = flow;
    count + 1
}

/// The flows `f` with `f mod workers = first`, at the front of a row, and how many they are.
pub(crate) fn row_of(flows: u32, first: u32, workers: u32) -> ([u32; 64], usize)
    requires flows { flows ≤ 64 }
    requires workers { 1 ≤ workers }
    ensures count { result.1 ≤ flows }
    ensures row { take result.1 result.0 ≡ flows_of_worker first workers flows }
    ensures flows { (k : ℕ) → k < result.1 → slice_index result.0 k < flows }
{
    let mut row = [0; 64];
    let mut count = 0;
    for flow in 0..flows {
        if flow % workers == first {
            count = put(&mut row, count, flow);
        }
    }
    (row, count)
}
