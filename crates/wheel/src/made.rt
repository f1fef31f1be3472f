// How a wheel is made of sizes, and what its sizes are.
// Sizes are refused if there are none or more than 16, or if one is 0 or above 1,022.
ghost use Rattle.std.specs.Prelude.{◌≡◌, ◌≤◌, ◌&&◌, length, take, nat_le, nat_lt};
ghost use Rattle.std.specs.List.{list_all};
ghost use Rattle.wheel.specs.Meaning.{sizes_right, size_of};
ghost use Rattle.wheel.specs.Made.{made, sizes_of, sizes_told};

use crate::Wheel;
use hierarchy::Refusal;

impl Wheel {
    // A wheel of these sizes, the outermost level first.
    pub fn new(sizes: &[usize]) -> Result<Wheel, Refusal>
        ensures { sizes_told result ≡ made sizes.now }
    {
        if !are_right(sizes) {
            return Err(Refusal::WheelSizes);
        }
        let levels = sizes.len();
        let sizes = copied(sizes);
        Ok(Wheel { sizes, levels })
    }

    // How many levels there are.
    pub fn levels(&self) -> usize
        ensures levels { result ≡ length (sizes_of self.now) }
        ensures some { 1 ≤ result }
        ensures few { result ≤ 16 }
    {
        self.levels
    }

    // The size of level `k`; 0 beyond the levels.
    pub fn level_size(&self, k: usize) -> usize
        ensures size { result ≡ size_of (sizes_of self.now) k }
        ensures small { result ≤ 1022 }
    {
        // by a test and an index: most answers read here, and `get` of a slice makes loops over places up to three times
        // as slow
        if k < self.levels { self.sizes[k] } else { 0 }
    }

    // The sizes that count.
    #[tactic(auto, unfolding(crate::specs::Made::sizes_of))]
    pub(crate) fn sizes(&self) -> &[usize]
        ensures { result.now ≡ sizes_of self.now }
    {
        &self.sizes[..self.levels]
    }
}

fn are_right(sizes: &[usize]) -> bool
    ensures { result ≡ sizes_right sizes.now }
{
    (1..=16).contains(&sizes.len()) && are_sized(sizes)
}

fn are_sized(sizes: &[usize]) -> bool
    ensures { result ≡ list_all (λ s. nat_lt 0 s && nat_le s 1022) sizes.now }
{
    sizes.iter().all(|size| (1..=1022).contains(size))
}

// The sizes with room for the most levels.
fn copied(sizes: &[usize]) -> [usize; 16]
    requires { length sizes.now ≤ 16 }
    ensures sizes { take (length sizes.now) result ≡ sizes.now }
    ensures room { length result ≡ 16 }
{
    let mut copy = [0; 16];
    copy[..sizes.len()].copy_from_slice(sizes);
    copy
}
