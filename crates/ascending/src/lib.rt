// A small list that ascends, in a region of a lent slice; two lists compared.
#![tactic(auto)]

ghost use Rattle.std.specs.Prelude.{◌≡◌, ◌+◌, ◌≤◌, ◌<◌, leb, length};
ghost use Rattle.std.proofs.lemmas.List.Edits.{sets};
ghost use Rattle.laws.specs.Merging.{region, Asc};
ghost use Rattle.laws.specs.Lists.{add, eql};

// Two lists are equal. A loop by index over both: `==` on slices took a quarter longer where the first words differ.
pub fn equal(a: &[u32], b: &[u32]) -> bool
    ensures { result ≡ eql a.now b.now }
{
    if a.len() != b.len() {
        return false;
    }
    for i in 0..a.len() {
        if a[i] != b[i] {
            return false;
        }
    }
    true
}

// v goes to its place among the n ascending words from o on, unless it is there; answers how many there are then. By places in the whole
// slice: the list grows, and its callers say of the whole slice what it holds.
pub fn insert(work: &mut [u32], o: usize, n: usize, v: u32) -> usize
    requires { (o + n ≤ length work.old) × (o + length (add leb v (region o n work.old)) ≤ length work.old) × Asc (region o n work.old) }
    ensures { (result ≡ length (add leb v (region o n work.old))) × (work.new ≡ sets work.old o (add leb v (region o n work.old))) }
{
    match work[o..o + n].binary_search(&v) {
        Ok(_) => n,
        Err(p) => {
            sorting::shift(work, o + p, n - p, v);
            n + 1
        }
    }
}
