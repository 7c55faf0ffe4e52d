//! The bytes of two areas.
ghost use Rattle.std.specs.Prelude.{ℕ, ◌≤◌, ◌≡◌, ◌+◌, IfOk, OnOk, IsOk, length, vec_len, vec_capacity};
ghost use Rattle.edge_traits.specs.Disk.{Overwrites, Torn};

use crate::pick::Pick;
use edge_traits::Area;
use std::alloc::{AllocError, Global};

/// The bytes of both areas of a disk.
#[derive(Drop)]
pub struct Contents {
    left: Vec<u8>,
    right: Vec<u8>,
}

impl Contents {
    ghost use Rattle.edge_traits.specs.Disk.{bytes_of, Changes};
    ghost use Rattle.edge_memory.specs.Contents.{areas_of, HasRoom};

    /// A copy of these bytes, with room for more in each area.
    pub fn new(alloc: Global, left: &[u8], right: &[u8], room: usize) -> Result<Self, AllocError>
        ensures areas { IfOk result (λ contents. areas_of contents ≡ record { left = left.now; right = right.now }) }
        ensures room { IfOk result (λ contents. HasRoom contents room) }
    {
        Ok(Contents {
            left: with_room(alloc, left, room)?,
            right: with_room(alloc, right, room)?,
        })
    }

    pub fn area(&self, area: Area) -> &[u8]
        ensures { result.now ≡ bytes_of (areas_of self.now) area }
    {
        match area {
            Area::Left => &self.left,
            Area::Right => &self.right,
        }
    }

    /// Puts bytes over what is in the area from this place on, and past its end.
    pub fn overwrite(&mut self, area: Area, at: usize, bytes: &[u8]) -> Result<(), AllocError>
        requires { at ≤ length (bytes_of (areas_of self.old) area) }
        ensures written { OnOk result (Changes area (Overwrites at bytes.now) (areas_of self.old) (areas_of self.new)) }
        ensures succeeds { HasRoom self.old (length bytes.now) → IsOk result }
        ensures room { OnOk result ((rest : ℕ) → HasRoom self.old (length bytes.now + rest) → HasRoom self.new rest) }
    {
        match area {
            Area::Left => overwrite(&mut self.left, at, bytes),
            Area::Right => overwrite(&mut self.right, at, bytes),
        }
    }

    /// Writes as a crash may cut it short, with the outcome that `pick` draws.
    pub fn tear(
        &mut self,
        area: Area,
        at: usize,
        bytes: &[u8],
        pick: &mut Pick,
    ) -> Result<(), AllocError>
        ensures { OnOk result (Changes area (Torn at (length bytes.now)) (areas_of self.old) (areas_of self.new)) }
    {
        match area {
            Area::Left => tear(&mut self.left, at, bytes, pick),
            Area::Right => tear(&mut self.right, at, bytes, pick),
        }
    }
}

fn with_room(alloc: Global, bytes: &[u8], room: usize) -> Result<Vec<u8>, AllocError>
    ensures bytes { IfOk result (λ content. content.items ≡ bytes.now) }
    ensures room { IfOk result (λ content. vec_len content + room ≤ vec_capacity content) }
{
    let mut content = bytes.to_vec(alloc)?;
    content.reserve(room)?;
    Ok(content)
}

fn overwrite(content: &mut Vec<u8>, at: usize, bytes: &[u8]) -> Result<(), AllocError>
    requires { at ≤ vec_len content.old }
    ensures written { OnOk result (Overwrites at bytes.now content.old.items content.new.items) }
    ensures succeeds { at + length bytes.now ≤ vec_capacity content.old → IsOk result }
    ensures len { OnOk result (vec_len content.new ≤ vec_len content.old + length bytes.now) }
    ensures capacity { vec_capacity content.old ≤ vec_capacity content.new }
{
    let over = bytes.len().min(content.len() - at);
    content[at..at + over].copy_from_slice(&bytes[..over]);
    content.extend_from_slice(&bytes[over..])
}

// Nothing arrives where what was written before it didn't.
fn tear(content: &mut Vec<u8>, at: usize, bytes: &[u8], pick: &mut Pick) -> Result<(), AllocError>
    ensures { OnOk result (Torn at (length bytes.now) content.old.items content.new.items) }
{
    if content.len() < at {
        return Ok(());
    }
    let torn = pick.tear(bytes.len());
    for (i, byte) in bytes[..torn.reach].iter().enumerate() {
        let place = at + i;
        if place < content.len() {
            content[place] = pick.byte(torn.fill, content[place], *byte);
        } else {
            content.push(pick.byte(torn.fill, 0, *byte))?;
        }
    }
    Ok(())
}
