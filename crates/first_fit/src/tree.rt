ghost use Rattle.std.specs.Prelude.{◌≡◌, ◌+◌, ◌*◌, ◌^◌, ◌<◌, ◌≤◌, [], drop, length, nat_le, set, slice_index, take, IfOk, OnErr, OnOk};
ghost use Rattle.std.specs.List.{position_or_len};
ghost use Rattle.first_fit.specs.Tree.{IsPower, IsTree};

use blob_words::NoMemory;
use std::alloc::Global;
use std::marker::Model;

/// The leaves of a tree whose every other node holds the lesser of its two children. Contracts see
/// the leaves.
#[derive(Debug, Drop)]
pub struct Tree {
    // The first is no node, the second is the root, the children of `node` are `node * 2` and
    // `node * 2 + 1`, and the leaves are last.
    nodes: Vec<u64>,
    // None, or a power of two.
    leaves: usize,
}

impl Model for Tree {
    ghost use Rattle.std.specs.Prelude.{ℕ, List, drop};
    ghost use Rattle.first_fit.specs.Tree.{IsTree};

    ghost Value = { List ℕ };

    ghost view = { λ tree. drop tree.leaves tree.nodes.items };

    ghost invariant = { λ tree. IsTree tree.leaves tree.nodes.items };
}

// Writes a leaf, and then each node above it.
fn write(nodes: &mut [u64], leaves: usize, leaf: usize, value: u64)
    requires tree { IsTree leaves nodes.old }
    requires within { leaf < leaves }
    ensures tree { IsTree leaves nodes.new }
    ensures leaves { drop leaves nodes.new ≡ set (drop leaves nodes.old) leaf value }
{
    let mut node = leaves + leaf;
    nodes[node] = value;
    while node > 1 {
        node /= 2;
        nodes[node] = nodes[node * 2].min(nodes[node * 2 + 1]);
    }
}

// The first leaf that is at most `most`, where the root is.
fn first_leaf(nodes: &[u64], leaves: usize, most: u64) -> usize
    requires tree { IsTree leaves nodes.now }
    requires some { 0 < leaves }
    requires root { slice_index nodes.now 1 ≤ most }
    ensures { result ≡ position_or_len (λ value. nat_le value most) (drop leaves nodes.now) }
{
    // the first node of a level, and the first on it that is at most `most`
    let mut start = 1;
    let mut node = 1;
    while start < leaves {
        start *= 2;
        node *= 2;
        if nodes[node] > most {
            node += 1;
        }
    }
    node - leaves
}

impl Tree {
    /// No leaves. It takes no memory.
    pub fn new(alloc: Global) -> Tree
        ensures { result ≡ [] }
    {
        Tree {
            nodes: Vec::new(alloc),
            leaves: 0,
        }
    }

    // So many leaves, none of which is small.
    fn greatest(alloc: Global, leaves: usize) -> Result<Tree, NoMemory>
        requires power { IsPower leaves }
        requires fits { 2 * leaves < 2 ^ 64 }
        ensures { IfOk result (λ tree. length tree ≡ leaves) }
    {
        let nodes = vec![in alloc; u64::MAX; 2 * leaves]?;
        Ok(Tree { nodes, leaves })
    }

    // So many leaves, the first of them with these values.
    fn with_values(alloc: Global, values: &[u64], leaves: usize) -> Result<Tree, NoMemory>
        requires power { IsPower leaves }
        requires fits { 2 * leaves < 2 ^ 64 }
        requires room { length values.now ≤ leaves }
        ensures len { IfOk result (λ tree. length tree ≡ leaves) }
        ensures values { IfOk result (λ tree. take (length values.now) tree ≡ values.now) }
    {
        let mut tree = Tree::greatest(alloc, leaves)?;
        for (leaf, value) in values.iter().enumerate() {
            tree.set(leaf, *value);
        }
        Ok(tree)
    }

    /// How many leaves there are.
    pub fn len(&self) -> usize
        ensures { result ≡ length self.now }
    {
        self.leaves
    }

    /// Writes a leaf.
    pub fn set(&mut self, leaf: usize, value: u64)
        requires { leaf < length self.old }
        ensures value { self.new ≡ set self.old leaf value }
        ensures fits { length self.new < 2 ^ 64 }
    {
        write(&mut self.nodes, self.leaves, leaf, value);
    }

    /// The first leaf that is at most `most`, or else the number of leaves.
    pub fn first(&self, most: u64) -> usize
        ensures { result ≡ position_or_len (λ value. nat_le value most) self.now }
    {
        if self.leaves == 0 || self.nodes[1] > most {
            return self.leaves;
        }
        first_leaf(&self.nodes, self.leaves, most)
    }

    /// Puts more leaves behind those that are there, as many again or one.
    pub fn grow(&mut self, alloc: Global) -> Result<(), NoMemory>
        ensures more { OnOk result (length self.old < length self.new) }
        ensures same { OnOk result (take (length self.old) self.new ≡ self.old) }
        ensures err { OnErr result (self.new ≡ self.old) }
    {
        let leaves = (2 * self.leaves).max(1);
        *self = Tree::with_values(alloc, &self.nodes[self.leaves..], leaves)?;
        Ok(())
    }
}
