// The rings of a PHED: the runs of its words between separators, those under three nodes dropped.
ghost use Rattle.std.specs.Prelude.{◌≡◌, ◌≤◌, length, drop, suc};
ghost use Rattle.mesh.specs.Steps.{lead};

// The word that separates the rings of a PHED.
pub const SEPARATOR: u32 = 4294967295;

// How many words stand before the first separator.
fn lead(words: &[u32]) -> usize
    ensures { result ≡ lead words.now }
{
    words
        .iter()
        .position(|word| *word == SEPARATOR)
        .unwrap_or(words.len())
}

// What stands behind the first n words and a separator.
fn behind(words: &[u32], n: usize) -> &[u32]
    requires { n ≤ length words.now }
    ensures { result.now ≡ drop (suc n) words.now }
{
    &words[(n + 1).min(words.len())..]
}

// The rings that are left, one by one.
#[derive(Clone, Copy)]
pub struct PhedRings<'a> {
    pub words: &'a [u32],
}

impl<'a> PhedRings<'a> {
    pub fn new(words: &'a [u32]) -> PhedRings<'a>
        ensures { result.words.now ≡ words.now }
    {
        PhedRings { words }
    }
}

impl<'a> Iterator for PhedRings<'a> {
    ghost use Rattle.std.specs.Iterator.{YieldsFirstBy, item_count};
    ghost use Rattle.mesh.specs.PhedRest.{phed_rest};

    type Item = &'a [u32];

    ghost next_gives = { YieldsFirstBy (λ r. r.now) phed_rest };

    ghost remaining = { item_count phed_rest };

    fn next(&mut self) -> Option<&'a [u32]> {
        // no `for`: a turn passes over the runs that are no ring, however many
        // no `split` kept: its type has its closure's, which a struct can't name
        while !self.words.is_empty() {
            let n = lead(self.words);
            let run = &self.words[..n];
            self.words = behind(self.words, n);
            if 3 <= n {
                return Some(run);
            }
        }
        None
    }
}
