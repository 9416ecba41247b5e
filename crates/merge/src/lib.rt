// Runs of a slice: up to 64 of them, whose next numbers are taken from the lowest on.
#![tactic(auto)]

ghost use Rattle.std.specs.Prelude.{◌≡◌, map, ℕ, ◌+◌, ◌≤◌, ◌<◌, ◌^◌, length, get_or, set, replicate};
ghost use Rattle.std.proofs.lemmas.List.Edits.{sets};
ghost use Rattle.laws.specs.Lists.{keep, up_from};
ghost use Rattle.merge.specs.Runs.{head, stands, next, Ends, Lowest};

// The first number of the run from x to e, or d. A number above all that may come stands for none, and no Option: so the lowest of all runs
// is one minimum, and the next of a run is found by one comparison.
fn head_of(base: &[u32], x: usize, e: usize, d: usize) -> usize
    requires { e ≤ length base.now }
    ensures { result ≡ head d x e base.now }
{
    if x < e { base[x] as usize } else { d }
}

// How many runs there are, and where each stands and ends. Two lists and not one of pairs: the places move and the ends stay, and the
// contracts say so of each.
#[derive(Clone, Copy)]
pub struct Runs {
    pub count: usize,
    pub from: [usize; 64],
    pub to: [usize; 64],
}

impl Runs {
    // A run for each number n of a list: from x and the word at o + n on, up to x and the next word.
    pub fn open(base: &[u32], list: &[u32], o: usize, x: usize) -> Runs
        requires { (length list.now ≤ 64) × (x < 2 ^ 63) × ((i : ℕ) → i < length list.now → o + get_or list.now i 0 + 1 < length base.now) }
        ensures count { result.count ≡ length list.now }
        ensures from { result.from ≡ sets (replicate 64 0) 0 (map (λ n. x + get_or base.now (o + n) 0) list.now) }
        ensures to { result.to ≡ sets (replicate 64 0) 0 (map (λ n. x + get_or base.now (o + n + 1) 0) list.now) }
    {
        let mut runs = Runs {
            count: list.len(),
            from: [0; 64],
            to: [0; 64],
        };
        for (i, &n) in list.iter().enumerate() {
            let n = o + n as usize;
            runs.from[i] = x + base[n] as usize;
            runs.to[i] = x + base[n + 1] as usize;
        }
        runs
    }

    // The lowest of the numbers that the runs have next, or d.
    pub fn lowest(&self, base: &[u32], d: usize) -> usize
        requires { Ends self.now.count self.now.to base.now }
        ensures { Lowest self.now.count base.now self.now.from self.now.to d result }
    {
        let mut r = d;
        // by number: of both lists only the first `count` count, and the promise goes by the number
        for i in 0..self.count {
            r = r.min(head_of(base, self.from[i], self.to[i], d));
        }
        r
    }

    // Takes g from run i where it is next; answers whether it was.
    fn pass_one(&mut self, base: &[u32], i: usize, g: usize) -> bool
        requires { (i < 64) × (get_or self.old.to i 0 ≤ length base.now) × (g < 2 ^ 32) }
        ensures value { result ≡ stands base.now self.old.from self.old.to g i }
        ensures from { self.new.from ≡ set self.old.from i (next base.now self.old.from self.old.to g i) }
        ensures others { (self.new.count ≡ self.old.count) × (self.new.to ≡ self.old.to) }
    {
        let x = self.from[i];
        let is_next = head_of(base, x, self.to[i], g + 1) == g;
        if is_next {
            self.from[i] = x + 1;
        }
        is_next
    }

    // Takes g from each run that has it next; answers how many had.
    pub fn pass(&mut self, base: &[u32], g: usize) -> usize
        requires ends { Ends self.old.count self.old.to base.now }
        requires g_bound { g < 2 ^ 32 }
        ensures value { result ≡ length (keep (stands base.now self.old.from self.old.to g) (up_from 0 self.old.count)) }
        ensures from { self.new.from ≡ sets self.old.from 0 (map (next base.now self.old.from self.old.to g) (up_from 0 self.old.count)) }
        ensures others { (self.new.count ≡ self.old.count) × (self.new.to ≡ self.old.to) }
    {
        let mut n = 0;
        for i in 0..self.count {
            n += usize::from(self.pass_one(base, i, g));
        }
        n
    }
}
