//! The tops of all addresses, and the least end of each block of 64 of them.
ghost use Rattle.std.specs.Prelude.{◌≡◌, ◌≢◌, ℕ, ◌+◌, ◌≤◌, List, slice_index_or, length, All, Option, Some, None, IfOk};
ghost use Rattle.address_leases.specs.declared.top.Top.{Top as ATop};
ghost use Rattle.address_leases.specs.Grants.{IsInPool};
ghost use Rattle.address_leases.specs.Indices.{IsBoundOf, AreTops, IsFirstOver, top_at};

use crate::grant::is_over;
use crate::top::Top;
use std::alloc::{AllocError, Global};
use std::marker::Model;

/// How many addresses there are, 0x0000 and 0xffff among them.
const ADDRESSES: usize = 65536;

/// How many addresses a block has.
const BLOCK: usize = 64;

/// The top of each address. In contracts it is their list.
///
/// ```text
/// tops     0 .. 63 | 64 .. 127 | ..        the top of each address
/// bounds      0    |     1     | ..        the least end of a block of tops
/// ```
#[derive(Drop)]
pub(crate) struct Tops {
    tops: Vec<Option<Top>>,
    bounds: Vec<Option<u64>>,
}

impl Model for Tops {
    ghost Value = { List (Option ATop) };

    ghost view = { λ t. t.tops.items };

    ghost invariant = { λ t. AreTops t.tops.items t.bounds.items };
}

/// The least end of a block, where each address of it has a top.
fn least_end(tops: &[Option<Top>]) -> Option<u64>
    ensures { All (IsBoundOf result) tops.now }
{
    let mut least = u64::MAX;
    for top in tops {
        match top {
            None => return None,
            Some(top) => least = least.min(top.until),
        }
    }
    Some(least)
}

fn no_tops(alloc: Global) -> Result<Vec<Option<Top>>, AllocError>
    ensures len { IfOk result (λ v. length v.items ≡ 65536) }
    ensures none { IfOk result (λ v. (a : ℕ) → slice_index_or v.items a None ≡ None) }
{
    let mut tops = Vec::with_capacity(alloc, ADDRESSES)?;
    while tops.len() < ADDRESSES {
        tops.push(None)?;
    }
    Ok(tops)
}

fn no_bounds(alloc: Global) -> Result<Vec<Option<u64>>, AllocError>
    ensures len { IfOk result (λ v. length v.items ≡ 1024) }
    ensures none { IfOk result (λ v. (a : ℕ) → slice_index_or v.items a None ≡ None) }
{
    let mut bounds = Vec::with_capacity(alloc, ADDRESSES / BLOCK)?;
    while bounds.len() < ADDRESSES / BLOCK {
        bounds.push(None)?;
    }
    Ok(bounds)
}

impl Tops {
    /// No address has a top.
    pub(crate) fn new(alloc: Global) -> Result<Tops, AllocError>
        ensures { IfOk result (λ t. (a : ℕ) → top_at t a ≡ None) }
    {
        let tops = no_tops(alloc)?;
        let bounds = no_bounds(alloc)?;
        Ok(Tops { tops, bounds })
    }

    pub(crate) fn get(&self, address: u16) -> Option<Top>
        ensures { result ≡ top_at self.now address }
    {
        self.tops[address as usize]
    }

    /// Sets the top of an address.
    pub(crate) fn set(&mut self, address: u16, top: Top)
        ensures set { top_at self.new address ≡ Some top }
        ensures others { (a : ℕ) → a ≢ address → top_at self.new a ≡ top_at self.old a }
    {
        let place = address as usize;
        let block = place / BLOCK;
        self.tops[place] = Some(top);
        let first = block * BLOCK;
        self.bounds[block] = least_end(&self.tops.as_slice()[first..first + BLOCK]);
    }

    /// No address has a top any more.
    pub(crate) fn clear(&mut self)
        ensures { (a : ℕ) → top_at self.new a ≡ None }
    {
        for place in 0..ADDRESSES {
            self.tops[place] = None;
        }
        for block in 0..ADDRESSES / BLOCK {
            self.bounds[block] = None;
        }
    }

    /// The least address of the pool whose top is over at `now`.
    pub(crate) fn first_over(&self, first: u16, count: u16, now: u64) -> Option<u16>
        requires { first + count ≤ 65534 }
        ensures { IsFirstOver self.now first count now result }
    {
        let last = first as usize + count as usize;
        let mut place = first as usize;
        while place < last {
            let skipped = match self.bounds[place / BLOCK] {
                Some(bound) => place % BLOCK == 0 && !is_over(bound, now),
                None => false,
            };
            if skipped {
                place += BLOCK;
            } else {
                match self.tops[place] {
                    None => return Some(place as u16),
                    Some(top) => {
                        if is_over(top.until, now) {
                            return Some(place as u16);
                        }
                    },
                }
                place += 1;
            }
        }
        None
    }
}
