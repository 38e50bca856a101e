// The cost of scrypt.

ghost use Rattle.std.specs.Prelude.{◌≡◌, ◌↔◌, ◌≤◌, IsOk, IsTrue, IfOk};
ghost use Rattle.std.specs.Int.{IsPowerOfTwo};
ghost use Rattle.kdf_suite.specs.ScryptCost.{IsCost};

use std::marker::Model;

/// The cost of scrypt (RFC 7914, section 2): n, the cost parameter, r, the block size, and p, the
/// number of parts.
///
/// n is a power of two, at least 2 and less than 2^(16 · r); r is at least 1, and p is 1 to 16. The
/// table, of 128 · n · r bytes, has at most 2^29 bytes, and the parts, of 128 · r · p bytes, at most
/// 2^24.
#[derive(Clone, Copy, PartialEq, Eq)]
pub struct ScryptCost {
    n: u64,
    r: u64,
    p: u64,
}

impl Model for ScryptCost {
    ghost use Rattle.kdf_suite.specs.ScryptCost.{Cost, IsCost};

    ghost Value = { Cost };

    ghost view = { λ cost. record { n = cost.n; r = cost.r; p = cost.p } };

    ghost invariant = { λ cost. IsCost (record { n = cost.n; r = cost.r; p = cost.p }) };

    ghost inverse = { λ cost. record { n = cost.n; r = cost.r; p = cost.p } };
}

/// Three numbers that are no cost of scrypt.
#[derive(Clone, Copy, PartialEq, Eq)]
pub struct BadCost;

impl ScryptCost {
    /// The cost of these three numbers, where they keep to its limits.
    pub fn new(n: u64, r: u64, p: u64) -> Result<ScryptCost, BadCost>
        ensures exactly { IsOk result ↔ IsCost (record { n = n; r = r; p = p }) }
        ensures numbers { IfOk result (λ cost. cost ≡ record { n = n; r = r; p = p }) }
    {
        if is_cost(n, r, p) {
            return Ok(ScryptCost { n, r, p });
        }
        Err(BadCost)
    }

    /// The cost parameter.
    pub fn n(&self) -> u64
        ensures number { result ≡ self.now.n }
        ensures stated { IsCost self.now }
    {
        self.n
    }

    /// The block size parameter.
    pub fn r(&self) -> u64
        ensures number { result ≡ self.now.r }
        ensures stated { IsCost self.now }
    {
        self.r
    }

    /// The number of parts.
    pub fn p(&self) -> u64
        ensures number { result ≡ self.now.p }
        ensures stated { IsCost self.now }
    {
        self.p
    }
}

// The most blocks of 128 bytes that the table may have, and that all parts may have.
const TABLE_LIMIT: u128 = 1 << 22;

const PARTS_LIMIT: u128 = 1 << 17;

// Whether these three numbers are a cost.
fn is_cost(n: u64, r: u64, p: u64) -> bool
    ensures { IsTrue result ↔ IsCost (record { n = n; r = r; p = p }) }
{
    if !is_power_above_one(n) {
        return false;
    }
    if r < 1 {
        return false;
    }
    if p < 1 {
        return false;
    }
    if 16 < p {
        return false;
    }
    // From r = 2 on the table's limit is the lower one.
    if r < 2 && 1 << 16 <= n {
        return false;
    }
    if TABLE_LIMIT < n as u128 * r as u128 {
        return false;
    }
    r as u128 * p as u128 <= PARTS_LIMIT
}

fn is_power_above_one(n: u64) -> bool
    ensures { IsTrue result ↔ (IsPowerOfTwo n × (2 ≤ n)) }
{
    n.is_power_of_two() && 2 <= n
}
