//! Numbers at places, with a tree of maxima over them, so that the first place whose number is
//! greater than another is found in as many steps as the tree has levels.
ghost use Rattle.std.specs.Prelude.{◌≡◌, ◌≢◌, ◌⊎◌, ℕ, ◌+◌, ◌<◌, ◌≤◌, ◌^◌, List, IfOk, MatchOption, length, drop, get_or, slice_set as set};
ghost use Rattle.rekey_core.specs.Maxima.{IsTree, IsTreeOf, IsJoint, IsFirstOver, IsFirstPlace};

use edge_traits::NoMemory;
use std::alloc::Global;
use std::marker::Model;

/// A number for each of a fixed count of places. In contracts it is the list of the numbers.
#[derive(Drop)]
pub(crate) struct Maxima {
    /// The root is at 1, the children of the node at `k` at `2 k` and `2 k + 1`. The leaves are the
    /// second half.
    tree: Vec<u64>,
    leaves: usize,
    levels: u32,
}

impl Model for Maxima {
    ghost use Rattle.std.specs.Prelude.{List, ℕ, drop};
    ghost use Rattle.rekey_core.specs.Maxima.{IsTreeOf};

    ghost Value = { List ℕ };

    ghost view = { λ m. drop m.leaves m.tree.items };

    ghost invariant = { λ m. IsTreeOf m.levels m.leaves m.tree.items };
}

/// The least power of two that isn't below `places`, and of which power it is.
fn leaves_for(places: u32) -> (usize, u32)
    ensures power { result.0 ≡ 2 ^ result.1 }
    ensures enough { places ≤ result.0 }
    ensures small { result.0 < 2 ^ 33 }
{
    let mut leaves = 1;
    let mut levels = 0;
    while leaves < places as usize {
        leaves *= 2;
        levels += 1;
    }
    (leaves, levels)
}

/// Gives a node the greater of its children.
fn join(tree: &mut Vec<u64>, node: usize)
    requires inside { node + node + 1 < length tree.old.items }
    requires inner { 1 ≤ node }
    ensures joint { IsJoint tree.new.items node }
    ensures others { (k : ℕ) → k ≢ node → get_or tree.new.items k 0 ≡ get_or tree.old.items k 0 }
    ensures nodes { length tree.new.items ≡ length tree.old.items }
    ensures drops { (n : ℕ) → node < n → drop n tree.new.items ≡ drop n tree.old.items }
{
    let left = tree[2 * node];
    let right = tree[2 * node + 1];
    tree[node] = left.max(right);
}

/// Writes the number of a place, and the nodes above it.
fn write(tree: &mut Vec<u64>, leaves: usize, place: usize, number: u64)
    requires tree { IsTree leaves tree.old.items }
    requires place { place < leaves }
    ensures tree { IsTree leaves tree.new.items }
    ensures set { drop leaves tree.new.items ≡ set (drop leaves tree.old.items) place number }
{
    let mut at = leaves + place;
    tree[at] = number;
    while at > 1 {
        at /= 2;
        join(tree, at);
    }
}

/// The first of two children under which a number is greater, where that is so of their parent.
fn child_over(tree: &[u64], node: usize, now: u64) -> usize
    requires inside { node + node + 1 < length tree.now }
    ensures either { (result ≡ node + node) ⊎ (result ≡ node + node + 1) }
    ensures over { IsJoint tree.now node → now < get_or tree.now node 0 → now < get_or tree.now result 0 }
    ensures before { result ≡ node + node + 1 → get_or tree.now (node + node) 0 ≤ now }
{
    if tree[2 * node] > now {
        2 * node
    } else {
        2 * node + 1
    }
}

/// The first leaf whose number is greater, where the root's is.
fn leaf_over(tree: &[u64], leaves: usize, levels: u32, now: u64) -> usize
    requires tree { IsTreeOf levels leaves tree.now }
    requires over { now < get_or tree.now 1 0 }
    ensures { IsFirstOver tree.now levels now result }
{
    let mut node = 1;
    for level in 0..levels {
        node = child_over(tree, node, now);
    }
    node
}

impl Maxima {
    /// A place for each of `places` numbers or more, all of them 0.
    pub(crate) fn empty(alloc: Global, places: u32) -> Result<Maxima, NoMemory>
        ensures places { IfOk result (λ m. places ≤ length m) }
        ensures zero { IfOk result (λ m. (k : ℕ) → get_or m k 0 ≡ 0) }
    {
        let (leaves, levels) = leaves_for(places);
        let mut tree = Vec::new(alloc);
        match tree.resize(2 * leaves, 0) {
            Ok(()) => Ok(Maxima {
                tree,
                leaves,
                levels,
            }),
            Err(_) => Err(NoMemory),
        }
    }

    /// Sets the number of a place.
    pub(crate) fn set(&mut self, place: usize, number: u64)
        requires { place < length self.old }
        ensures { self.new ≡ set self.old place number }
    {
        write(&mut self.tree, self.leaves, place, number);
    }

    /// The first place whose number is greater than `now`.
    pub(crate) fn first_over(&self, now: u64) -> Option<usize>
        ensures { MatchOption result ((k : ℕ) → get_or self.now k 0 ≤ now) (IsFirstPlace self.now now) }
    {
        if self.tree[1] > now {
            Some(leaf_over(&self.tree, self.leaves, self.levels, now) - self.leaves)
        } else {
            None
        }
    }
}
