// Sets of variables in lent words, for any number of words a set. Laws of membership are in proofs/Members.antt.
#![tactic(auto)]

ghost use Rattle.std.specs.Prelude.{ℕ, ◌≡◌, ◌-◌, ◌%◌, ◌&&◌, ◌+◌, ◌^◌, ◌≤◌, ◌<◌, length};
ghost use Rattle.sets.specs.Sets.{bit_at, with_bit, without_bit, member, changed, inserted, removed, cleared, united, disjoint_of, subset_of, LeastBit};

// ---- One word

// Bit k of x, x with bit k set, x with bit k cleared.
fn bit_at(x: u64, k: usize) -> bool
    requires { k < 64 }
    ensures { result ≡ bit_at x k }
{
    (x >> k) & 1 == 1
}

fn with_bit(x: u64, k: usize) -> u64
    requires { k < 64 }
    ensures { result ≡ with_bit x k }
{
    x | (1u64 << k)
}

pub fn without_bit(x: u64, k: usize) -> u64
    requires { k < 64 }
    ensures { result ≡ without_bit x k }
{
    x ^ (x & (1u64 << k))
}

// The least bit of x from k on that is set, 64 or more where there is none.
pub fn lowest_bit(x: u64, k: usize) -> usize
    requires { k < 64 }
    ensures { LeastBit x k result }
{
    k + (x >> k).trailing_zeros() as usize
}

// ---- Sets: the n words of `area` from `at` on. Most files have no more variables than one word has bits: the first word takes no loop.
// A set is a place and a count beside its area, and no slice: sets stand side by side in one area, where one is read while another is written. Tried with
// slices (`insert(&mut area[at..at + n], v)`): a call gets longer, and each proof has to lead from the part back to the area.

pub fn member(area: &[u64], at: usize, n: usize, v: usize) -> bool
    requires { at + n ≤ length area.now }
    ensures { result ≡ member area.now at n v }
{
    if v == 0 {
        return false;
    }
    let k = (v - 1) / 64;
    if k >= n {
        return false;
    }
    bit_at(area[at + k], (v - 1) % 64)
}

// Changes the bit of v in its word, if the set has one.
fn change<F: Fn(u64, usize) -> u64>(area: &mut [u64], at: usize, n: usize, v: usize, bit: F)
    requires { (at + n ≤ length area.old) × ((x : ℕ) → x < 2 ^ 64 → F.pre bit x ((v - 1) % 64)) }
    ensures { (g : ℕ → ℕ → ℕ) → ((x r : ℕ) → F.post bit x ((v - 1) % 64) r → r ≡ g x ((v - 1) % 64))
        → area.new ≡ changed g area.old at n v }
{
    if v == 0 {
        return;
    }
    let place = (v - 1) / 64;
    if place >= n {
        return;
    }
    let word = bit(area[at + place], (v - 1) % 64);
    area[at + place] = word;
}

pub fn insert(area: &mut [u64], at: usize, n: usize, v: usize)
    requires { at + n ≤ length area.old }
    ensures { area.new ≡ inserted area.old at n v }
{
    change(area, at, n, v, |x, k| with_bit(x, k));
}

pub fn remove(area: &mut [u64], at: usize, n: usize, v: usize)
    requires { at + n ≤ length area.old }
    ensures { area.new ≡ removed area.old at n v }
{
    change(area, at, n, v, |x, k| without_bit(x, k));
}

// The loop of `clear`: with `fill` in its place, whole checks take up to 0.8 % more instructions.
fn clear_words(area: &mut [u64], at: usize, n: usize)
    requires { at + n ≤ length area.old }
    ensures { area.new ≡ cleared area.old at n }
{
    for k in 0..n {
        area[at + k] = 0;
    }
}

pub fn clear(area: &mut [u64], at: usize, n: usize)
    requires { at + n ≤ length area.old }
    ensures { area.new ≡ cleared area.old at n }
{
    if n == 0 {
        return;
    }
    area[at] = 0;
    clear_words(area, at + 1, n - 1);
}

// The same as `unite`, and its loop: for lists of many links, where the next union waits for this one, the loop alone is faster.
pub fn unite_words(area: &mut [u64], to: usize, from: usize, n: usize)
    requires { (from + n ≤ to) × (to + n ≤ length area.old) }
    ensures { area.new ≡ united area.old to from n }
{
    for k in 0..n {
        let x = area[to + k];
        let y = area[from + k];
        area[to + k] = x | y;
    }
}

// Adds the members of the set at `from` to the set at `to`, which stands above it.
pub fn unite(area: &mut [u64], to: usize, from: usize, n: usize)
    requires { (from + n ≤ to) × (to + n ≤ length area.old) }
    ensures { area.new ≡ united area.old to from n }
{
    if n == 0 {
        return;
    }
    let x = area[to];
    let y = area[from];
    area[to] = x | y;
    unite_words(area, to + 1, from + 1, n - 1);
}

// Whether no number is a member of both the set at `first` of one area and the set at `second` of another.
pub fn disjoint(area: &[u64], first: usize, other: &[u64], second: usize, n: usize) -> bool
    requires { (first + n ≤ length area.now) × (second + n ≤ length other.now) }
    ensures { result ≡ disjoint_of area.now first other.now second n }
{
    for k in 0..n {
        let x = area[first + k];
        let y = other[second + k];
        if (x & y) != 0 {
            return false;
        }
    }
    true
}

// Whether all members of two sets are members of a third: a word of each at a time, the first without a loop.
pub fn both_subsets(first: &[u64], second: &[u64], all: &[u64], n: usize) -> bool
    requires { (n ≤ length first.now) × (n ≤ length second.now) × (n ≤ length all.now) }
    ensures { result ≡ (subset_of first.now 0 all.now 0 n && subset_of second.now 0 all.now 0 n) }
{
    if n == 0 {
        return true;
    }
    let either = first[0] | second[0];
    let among = all[0];
    if (either & among) != either {
        return false;
    }
    for k in 1..n {
        let x = first[k] | second[k];
        let y = all[k];
        if (x & y) != x {
            return false;
        }
    }
    true
}
