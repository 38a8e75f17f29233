// Words of 64 bits, place by place. The lemmas that every coding cites on them are in proofs/.
#![tactic(auto)]

ghost use Rattle.std.specs.Prelude.{◌≡◌, ℕ, ◌<◌, ◌≤◌, if◌then◌else◌, count_ones, nat_eq, nat_lt};
ghost use Rattle.words.specs.Bit.{bit};

// Whether the bit at a place is set; no bit is, from place 64 on.
pub fn holds(word: u64, place: usize) -> bool
    ensures { result ≡ bit place word }
{
    place < 64 && (word >> place) & 1 == 1
}

// The word whose set bits are the places below n.
pub fn below(n: usize) -> u64
    ensures { (k : ℕ) → k < 64 → bit k result ≡ nat_lt k n }
{
    if n < 64 { (1 << n) - 1 } else { u64::MAX }
}

// The word with the bit at a place set or not; from place 64 on, the word as it was.
pub fn put(word: u64, place: usize, set: bool) -> u64
    ensures { (k : ℕ) → k < 64 → bit k result ≡ (if nat_eq k place then set else bit k word) }
{
    if place >= 64 {
        return word;
    }
    let at = 1 << place;
    if set { word | at } else { word & !at }
}

// How many bits are set.
pub fn count(word: u64) -> usize
    ensures value { result ≡ count_ones word }
    ensures bound { result ≤ 64 }
{
    word.count_ones() as usize
}
