//! Reading an area: its header, its batches, and where it has no reading.
ghost use Rattle.std.specs.Prelude.{◌≡◌, ◌≢◌, ◌≤◌, ◌<◌, ◌+◌, List, length, take, drop, IfOk, IfErr};
ghost use Rattle.journal_store.specs.Area.{first_header, IsLog};
ghost use Rattle.journal_store.specs.Fault.{AgreesTo, DiffersAt, summary_length, HasFault, AreaCause};
ghost use Rattle.journal_store.specs.Store.{end_limit};

use crate::body::{read_entries, split_body};
use crate::{Spot, StoreFault};
use byteorder::{BigEndian, ByteOrder};
use journal_text::Entry;
use std::alloc::Global;

/// An area without batches: the gate of the area, its name, generation 1, the summary of the empty history after its length,
/// and a closed gate.
pub const EMPTY: [u8; 43] =
    *b"\x016TJRC-1\0\0\0\0\0\0\0\x01\0\0\0\x16\0\0\0\0\0\0\0\0\0\0\0\0\0\0\0\0\0\0\0\0\0\0\0";

/// What comes before the first gate.
const HEADER_LEN: usize = 42;

/// How many bytes at the start are the header's.
fn agreement(area: &[u8]) -> usize
    ensures most { result ≤ 42 }
    ensures agrees { AgreesTo result area.now }
    ensures first { result < 42 → DiffersAt result area.now }
{
    for place in 0..HEADER_LEN {
        if !area.starts_with(&EMPTY[..place + 1]) {
            return place;
        }
    }
    HEADER_LEN
}

fn summary_size(area: &[u8]) -> u64
    requires { 20 ≤ length area.now }
    ensures { result ≡ summary_length area.now }
{
    BigEndian::read_uint(&area[16..], 4)
}

/// Whether the area has the header.
fn check_header(area: &[u8]) -> Result<(), Spot>
    ensures found { IfOk result (λ _. take 42 area.now ≡ first_header) }
    ensures fault { IfErr result (HasFault area.now) }
{
    let same = agreement(area);
    if same < 16 {
        return Err(Spot::Place(same as u64));
    }
    if area.len() < 20 {
        return Err(Spot::Place(16));
    }
    let size = summary_size(area);
    if (area.len() as u64) - 20 < size {
        return Err(Spot::Place(16));
    }
    if size != 22 {
        return Err(Spot::Summary(16));
    }
    if same < HEADER_LEN {
        return Err(Spot::Summary(same as u64));
    }
    Ok(())
}

/// The place of the closed gate, and the entries of the batches before it.
fn read_batches(alloc: Global, area: &[u8]) -> Result<(u64, Vec<Entry>), StoreFault>
    requires { take 42 area.now ≡ first_header }
    ensures found { IfOk result (λ read. IsLog first_header read.0 read.1.items area.now) }
    ensures fault { IfErr result (AreaCause area.now) }
{
    let mut log = Vec::new(alloc);
    let mut rest = &area[HEADER_LEN..];
    while let Some((gate, bytes)) = rest.split_first() {
        if *gate != 1 {
            return Ok(((area.len() - rest.len()) as u64, log));
        }
        let Some((body, behind)) = split_body(bytes) else {
            let place = (area.len() - bytes.len()) as u64;
            return Err(StoreFault::NotAJournal(Spot::Place(place)));
        };
        read_entries(body, &mut log)?;
        rest = behind;
    }
    Err(StoreFault::NotAJournal(Spot::Place(area.len() as u64)))
}

/// The place of the closed gate at which the log of the area ends, and the log.
pub fn read_area(alloc: Global, area: &[u8]) -> Result<(u64, Vec<Entry>), StoreFault>
    ensures found { IfOk result (λ read. IsLog first_header read.0 read.1.items area.now) }
    ensures end { IfOk result (λ read. read.0 ≤ end_limit (length read.1.items)) }
    ensures fault { IfErr result (AreaCause area.now) }
{
    match check_header(area) {
        Ok(()) => read_batches(alloc, area),
        Err(spot) => Err(StoreFault::NotAJournal(spot)),
    }
}
