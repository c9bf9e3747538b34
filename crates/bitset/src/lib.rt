// Sets of numbers in lent words of 64 bits: number i is bit i % 64 of word i / 64.
#![tactic(auto)]

ghost use Rattle.std.specs.Prelude.{◌≡◌, ◌+◌, ◌-◌, ◌*◌, ◌/◌, ◌%◌, ◌^◌, ◌≤◌, ◌<◌, length, MatchOption};
ghost use Rattle.bitset.specs.Bitset.{has, Put, Taken, Next, Last, United};
ghost use Rattle.bitset.specs.Words.{Lowest, Highest, Clear};

// Is the number in the set?
pub fn has(set: &[u64], i: usize) -> bool
    requires { i < 64 * length set.now }
    ensures { result ≡ has set.now i }
{
    set[i / 64] >> (i % 64) & 1 == 1
}

// Puts the number in.
pub fn put(set: &mut [u64], i: usize)
    requires { i < 64 * length set.old }
    ensures { Put set.old i set.new }
{
    set[i / 64] |= 1 << (i % 64);
}

// Takes the number out.
pub fn take(set: &mut [u64], i: usize)
    requires { i < 64 * length set.old }
    ensures { Taken set.old i set.new }
{
    set[i / 64] &= !(1 << (i % 64));
}

// The place of the lowest one of the word from place k on.
fn lowest(w: u64, k: usize) -> Option<usize>
    requires { k < 64 }
    ensures { MatchOption result (w / 2 ^ k ≡ 0) (Lowest w k) }
{
    let x = w >> k;
    if x == 0 {
        return None;
    }
    Some(k + x.trailing_zeros() as usize)
}

// The least number of the set from `from` on, below `end`, where the rest of the word of `from` has none.
fn next_word(set: &[u64], from: usize, end: usize) -> usize
    requires { (from < end) × (end ≤ 64 * length set.now) × Clear set.now from (from / 64 * 64 + 64) }
    ensures { Next set.now from end result }
{
    for i in from / 64 + 1..(end - 1) / 64 + 1 {
        if let Some(k) = lowest(set[i], 0) {
            return usize::min(i * 64 + k, end);
        }
    }
    end
}

// The least number of the set from `from` on, below `end`; `end` where there is none, as `Next` says.
pub fn next(set: &[u64], from: usize, end: usize) -> usize
    requires { (from ≤ end) × (end ≤ 64 * length set.now) }
    ensures { Next set.now from end result }
{
    if from == end {
        return end;
    }
    let at = from / 64;
    match lowest(set[at], from % 64) {
        Some(k) => usize::min(at * 64 + k, end),
        None => next_word(set, from, end),
    }
}

// The twins `next` and `last` stay two: lowest and highest, rising and falling, min and max differ, and one function with a
// parameter for each would be longer than both.

// The place of the highest one of the word up to place k.
fn highest(w: u64, k: usize) -> Option<usize>
    requires { k < 64 }
    ensures { MatchOption result (w % 2 ^ (k + 1) ≡ 0) (Highest w k) }
{
    let s = 63 - k;
    let x = w << s >> s;
    if x == 0 {
        return None;
    }
    Some(63 - x.leading_zeros() as usize)
}

// One more than the greatest number of the set from `from` on, below `end`, where the word of the last of them has none.
fn last_word(set: &[u64], from: usize, end: usize) -> usize
    requires { (from < end) × (end ≤ 64 * length set.now) × Clear set.now ((end - 1) / 64 * 64) end }
    ensures { Last set.now from end result }
{
    for i in (from / 64..(end - 1) / 64).rev() {
        if let Some(k) = highest(set[i], 63) {
            return usize::max(i * 64 + k + 1, from);
        }
    }
    from
}

// One more than the greatest number of the set from `from` on, below `end`; `from` where there is none, as `Last` says.
pub fn last(set: &[u64], from: usize, end: usize) -> usize
    requires { (from ≤ end) × (end ≤ 64 * length set.now) }
    ensures { Last set.now from end result }
{
    if from == end {
        return from;
    }
    let at = (end - 1) / 64;
    match highest(set[at], (end - 1) % 64) {
        Some(k) => usize::max(at * 64 + k + 1, from),
        None => last_word(set, from, end),
    }
}

// Joins the numbers of the `count` words from word `at` on by those of the words `off` words further on.
pub fn unite(set: &mut [u64], at: usize, off: usize, count: usize)
    requires { at + off + count ≤ length set.old }
    ensures { United set.old at off count set.new }
{
    for i in at..at + count {
        set[i] |= set[i + off];
    }
}
