ghost use Rattle.std.specs.Prelude.{◌≡◌, ◌<◌, length};
ghost use Rattle.cw_tree.specs.Walks.{is_ancestor, lca, xparent, nua, conflict, victim};

use crate::Tree;

// Each walk takes no memory, and as many steps as its nodes are deep.
impl Tree {
    /// Whether `a` is an ancestor of `b`. A node is its own ancestor.
    pub fn ancestor(&self, a: u32, b: u32) -> bool
        requires { b < length self.now }
        ensures { result ≡ is_ancestor self.now a b }
    {
        // A hint to the prover, without effect: each parent has a smaller number.
        let _ = &self.nodes;
        let mut n = b;
        while n > a {
            n = self.parent(n);
        }
        n == a
    }

    /// The least common ancestor of two nodes.
    pub fn lca(&self, a: u32, b: u32) -> u32
        requires a { a < length self.now }
        requires b { b < length self.now }
        ensures { result ≡ lca self.now a b }
    {
        let (mut left, mut right) = (a, b);
        while left != right {
            if left > right {
                left = self.parent(left);
            } else {
                right = self.parent(right);
            }
        }
        left
    }

    /// The innermost block above a node.
    pub fn xparent(&self, n: u32) -> Option<u32>
        requires { n < length self.now }
        ensures { result ≡ xparent self.now n }
    {
        let mut at = n;
        while at > 0 {
            at = self.parent(at);
            if self.is_block(at) {
                return Some(at);
            }
        }
        None
    }

    /// The nearest pending block above a node.
    pub fn nua(&self, n: u32) -> Option<u32>
        requires { n < length self.now }
        ensures { result ≡ nua self.now n }
    {
        let mut at = n;
        while at > 0 {
            at = self.parent(at);
            if self.is_pending(at) {
                return Some(at);
            }
        }
        None
    }

    /// Whether an access `v` of a cell conflicts with `u`, its last access.
    pub fn conflict_plain(&self, u: u32, v: u32) -> bool
        requires u { u < length self.now }
        requires v { v < length self.now }
        ensures { result ≡ conflict self.now u v }
    {
        match self.nua(u) {
            Some(block) => !self.ancestor(block, v),
            None => false,
        }
    }

    /// The outermost pending block above `v` that is not above `u`.
    pub fn victim_plain(&self, u: u32, v: u32) -> Option<u32>
        requires u { u < length self.now }
        requires v { v < length self.now }
        ensures { result ≡ victim self.now u v }
    {
        // A hint to the prover, without effect: each parent has a smaller number.
        let _ = &self.nodes;
        let meet = self.lca(u, v);
        let mut found = None;
        let mut at = v;
        while at != meet {
            at = self.parent(at);
            // what is above the least common ancestor is above both
            if (at != meet || at == u) && self.is_pending(at) {
                found = Some(at);
            }
        }
        found
    }
}
