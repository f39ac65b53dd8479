// A row of running sums, from the row above it and a row of samples. Lanes entries are made at a time: what four samples add up to carries four running sums along,
// side by side.
#![tactic(auto)]

ghost use Rattle.std.specs.Prelude.{◌≡◌, ℕ, ◌+◌, ◌*◌, ◌%◌, ◌^◌, ◌<◌, ◌≤◌, ◌⊎◌, ◌++◌, length, take, drop, slice_index};
ghost use Rattle.integers.specs.Sum.{sum};
ghost use Rattle.lists.specs.Tabulate.{tabulate};
ghost use Rattle.running_sums.specs.Fours.{four_sum, lane};

// Lanes running sums side by side.
#[derive(Clone, Copy)]
pub struct Lanes {
    pub a: u32,
    pub b: u32,
    pub c: u32,
    pub d: u32,
}

fn plus(a: u8, b: u8) -> u16
    ensures { result ≡ a + b }
{
    u16::from(a) + u16::from(b)
}

// What two samples add up to, from each of the first n places on.
fn pair_sums(row: &[u8], n: usize, dst: &mut [u16])
    requires { (n + 1 ≤ length row.now) × (n ≤ length dst.old) }
    ensures { dst.new ≡ tabulate (λ x. slice_index row.now x + slice_index row.now (x + 1)) n ++ drop n dst.old }
{
    for x in 0..n {
        dst[x] = plus(row[x], row[x + 1]);
    }
}

// The first n sums of two, each with the one two places on.
fn join_pairs(dst: &mut [u16], n: usize)
    requires { (n + 2 ≤ length dst.old) × ((x : ℕ) → x < n + 2 → slice_index dst.old x ≤ 510) }
    ensures { dst.new ≡ tabulate (λ x. slice_index dst.old x + slice_index dst.old (x + 2)) n ++ drop n dst.old }
{
    for x in 0..n {
        dst[x] += dst[x + 2];
    }
}

// What four samples add up to, from each of the first n places on.
fn four_sums(row: &[u8], n: usize, dst: &mut [u16])
    requires { (n + 3 ≤ length row.now) × (n + 2 ≤ length dst.old) }
    ensures { (x : ℕ) → x < n → slice_index dst.new x ≡ four_sum row.now x }
{
    pair_sums(row, n + 2, dst);
    join_pairs(dst, n);
}

// The running sums at the first four places.
fn first_lanes(row: &[u8]) -> Lanes
    requires { 3 ≤ length row.now }
    ensures { (i : ℕ) → i < 4 → lane result i ≡ sum (take i row.now) % 2 ^ 32 }
{
    let one = u32::from(row[0]);
    let two = one + u32::from(row[1]);
    let three = two + u32::from(row[2]);
    Lanes {
        a: 0,
        b: one,
        c: two,
        d: three,
    }
}

// Lanes running sums, four places on.
fn next_lanes(t: Lanes, fours: &[u16]) -> Lanes
    requires { 4 ≤ length fours.now }
    ensures { (i : ℕ) → i < 4 → lane result i ≡ (lane t i + slice_index fours.now i) % 2 ^ 32 }
{
    Lanes {
        a: t.a.wrapping_add(u32::from(fours[0])),
        b: t.b.wrapping_add(u32::from(fours[1])),
        c: t.c.wrapping_add(u32::from(fours[2])),
        d: t.d.wrapping_add(u32::from(fours[3])),
    }
}

// Lanes entries at `to`: those at `from`, above them, and these running sums. All are read before one is stored.
fn put_lanes(sums: &mut [u32], from: usize, to: usize, t: Lanes)
    requires { (from + 4 ≤ length sums.old) × (to + 4 ≤ length sums.old) }
    ensures { sums.new ≡ take to sums.old ++ tabulate (λ i. (slice_index sums.old (from + i) + lane t i) % 2 ^ 32) 4 ++ drop (to + 4) sums.old }
{
    let a = sums[from].wrapping_add(t.a);
    let b = sums[from + 1].wrapping_add(t.b);
    let c = sums[from + 2].wrapping_add(t.c);
    let d = sums[from + 3].wrapping_add(t.d);
    sums[to] = a;
    sums[to + 1] = b;
    sums[to + 2] = c;
    sums[to + 3] = d;
}

// The first 4n entries of the row at `to`, from the row above it at `from`; gives the running sum behind them.
fn add_blocks(sums: &mut [u32], from: usize, to: usize, n: usize, row: &[u8], fours: &[u16]) -> u32
    requires { (from + 4 * n ≤ length sums.old) × (to + 4 * n ≤ length sums.old) × ((to ≤ from) ⊎ (from + 4 * n ≤ to)) × (4 * n + 3 ≤ length row.now) × (4 * n ≤ length fours.now) × ((x : ℕ) → x < 4 * n → slice_index fours.now x ≡ four_sum row.now x) }
    ensures { (result ≡ sum (take (4 * n) row.now) % 2 ^ 32) × (sums.new ≡ take to sums.old ++ tabulate (λ x. (slice_index sums.old (from + x) + sum (take x row.now)) % 2 ^ 32) (4 * n) ++ drop (to + 4 * n) sums.old) }
{
    let mut t = first_lanes(row);
    for k in 0..n {
        let x = 4 * k;
        put_lanes(sums, from + x, to + x, t);
        t = next_lanes(t, &fours[x..]);
    }
    t.a
}

// Entries of the row at `to`, from the row above them at `from`, one by one. `total` is the running sum before them.
fn add_rest(sums: &mut [u32], from: usize, to: usize, n: usize, total: u32, row: &[u8])
    requires { (from + n ≤ length sums.old) × (to + n ≤ length sums.old) × (n ≤ length row.now) × ((to ≤ from) ⊎ (from + n ≤ to)) }
    ensures { sums.new ≡ take to sums.old ++ tabulate (λ x. (slice_index sums.old (from + x) + (total + sum (take x row.now))) % 2 ^ 32) n ++ drop (to + n) sums.old }
{
    let mut running = total;
    for x in 0..n {
        sums[to + x] = sums[from + x].wrapping_add(running);
        running = running.wrapping_add(u32::from(row[x]));
    }
}

// The row of sums at `to`, from the row above it at `from` and the running sums along the samples of `row`. Sums of four samples are made in `fours`.
pub fn add_row(
    sums: &mut [u32],
    from: usize,
    to: usize,
    width: usize,
    row: &[u8],
    fours: &mut [u16],
)
    requires { (from + width ≤ length sums.old) × (to + width ≤ length sums.old) × ((to ≤ from) ⊎ (from + width ≤ to)) × (width + 3 ≤ length row.now) × (width + 2 ≤ length fours.old) }
    ensures { sums.new ≡ take to sums.old ++ tabulate (λ x. (slice_index sums.old (from + x) + sum (take x row.now)) % 2 ^ 32) width ++ drop (to + width) sums.old }
{
    let n = width / 4;
    let done = 4 * n;
    four_sums(row, done, fours);
    let total = add_blocks(sums, from, to, n, row, fours);
    add_rest(
        sums,
        from + done,
        to + done,
        width - done,
        total,
        &row[done..],
    );
}
