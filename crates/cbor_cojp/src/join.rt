//! The Join_Request (RFC 9031, 8.4.1).
ghost use Rattle.std.specs.Prelude.{◌≡◌, ◌++◌, ◌<◌, ◌≤◌, ◌^◌, ℕ, length, IfOk, IfSome, Ok, List, option_map};
ghost use Rattle.cbor_item.specs.declared.head.Major.TheVariants.{Unsigned, Bytes, Array};
ghost use Rattle.cbor_cojp.specs.Fault.{Reads, Gives};
ghost use Rattle.cbor_cojp.specs.Grammar.{times_at};
ghost use Rattle.cbor_cojp.specs.Join.{Join, Role, Network, Unsupported, Other, view, fields_view, no_fields, triple_at, unsupported_at, join_value_at, join_field_at, join_at, IsJoin};
ghost use Rattle.cbor_cojp.specs.Spelling.{Puts, role_text, network_text, join_count, join_text, most_join};

use crate::fault::CojpFault;
use crate::object::{end_object, read_label, read_map};
use crate::value::{array_within, bytes_within, int_within, skip_within, uint_within};
use crate::write::{copy_out, put_bytes, put_map, put_uint};
use arrayvec::ArrayVec;
use cbor_item::{Full, Reader, Writer};

/// What a pledge asks for.
#[derive(Clone, Copy, Debug, PartialEq, Eq)]
pub struct JoinRequest<'a> {
    /// 0 is an ordinary node, 1 a 6LBR. An absent role is 0.
    pub role: u64,
    /// The identifier of the network that the pledge wants to join.
    pub network: Option<&'a [u8]>,
}

/// What the fields said so far.
#[derive(Clone, Copy)]
struct Fields<'a> {
    role: Option<u64>,
    network: Option<&'a [u8]>,
    unsupported: bool,
}

#[tactic(auto, unfolding(crate::specs::Join::triple_at))]
fn read_triple(reader: &mut Reader<'_>) -> Result<(), CojpFault>
    ensures { Reads (λ _. tt) reader.old reader.new result (triple_at reader.old.end reader.old.left) }
{
    int_within(reader, 8)?;
    int_within(reader, 8)?;
    skip_within(reader, 8)
}

fn read_triples(reader: &mut Reader<'_>, count: u64) -> Result<(), CojpFault>
    ensures { Reads (λ _. tt) reader.old reader.new result (times_at (λ _. triple_at) count tt reader.old.end reader.old.left) }
{
    for _ in 0..count {
        read_triple(reader)?;
    }
    Ok(())
}

#[tactic(auto, unfolding(crate::specs::Join::unsupported_at))]
fn read_unsupported(reader: &mut Reader<'_>) -> Result<(), CojpFault>
    ensures { Reads (λ _. tt) reader.old reader.new result (unsupported_at reader.old.end reader.old.left) }
{
    let count = array_within(reader, 8)?;
    if count % 3 == 0 && count >= 3 {
        read_triples(reader, count / 3)
    } else {
        Err(CojpFault::Malformed(8))
    }
}

fn read_role<'a>(reader: &mut Reader<'a>, fields: Fields<'a>) -> Result<Fields<'a>, CojpFault>
    ensures { Reads fields_view reader.old reader.new result (join_value_at Role (fields_view fields.entry) reader.old.end reader.old.left) }
{
    if fields.role.is_some() {
        return Err(CojpFault::Repeated(1));
    }
    let role = Some(uint_within(reader, 1)?);
    Ok(Fields { role, ..fields })
}

fn read_network<'a>(reader: &mut Reader<'a>, fields: Fields<'a>) -> Result<Fields<'a>, CojpFault>
    ensures { Reads fields_view reader.old reader.new result (join_value_at Network (fields_view fields.entry) reader.old.end reader.old.left) }
{
    if fields.network.is_some() {
        return Err(CojpFault::Repeated(5));
    }
    let network = Some(bytes_within(reader, 5)?);
    Ok(Fields { network, ..fields })
}

fn read_parameters<'a>(reader: &mut Reader<'a>, fields: Fields<'a>) -> Result<Fields<'a>, CojpFault>
    ensures { Reads fields_view reader.old reader.new result (join_value_at Unsupported (fields_view fields.entry) reader.old.end reader.old.left) }
{
    if fields.unsupported {
        return Err(CojpFault::Repeated(8));
    }
    read_unsupported(reader)?;
    Ok(Fields {
        unsupported: true,
        ..fields
    })
}

fn read_other<'a>(reader: &mut Reader<'a>, fields: Fields<'a>) -> Result<Fields<'a>, CojpFault>
    ensures { Reads fields_view reader.old reader.new result (join_value_at Other (fields_view fields.entry) reader.old.end reader.old.left) }
{
    reader.skip().map_err(CojpFault::Form)?;
    Ok(fields)
}

#[tactic(auto, unfolding(crate::specs::Join::join_field_at))]
fn read_field<'a>(reader: &mut Reader<'a>, fields: Fields<'a>) -> Result<Fields<'a>, CojpFault>
    ensures { Reads fields_view reader.old reader.new result (join_field_at (fields_view fields.entry) reader.old.end reader.old.left) }
{
    match read_label(reader)? {
        1 => read_role(reader, fields),
        5 => read_network(reader, fields),
        8 => read_parameters(reader, fields),
        _ => read_other(reader, fields),
    }
}

fn read_fields<'a>(reader: &mut Reader<'a>, count: u64) -> Result<Fields<'a>, CojpFault>
    ensures { Reads fields_view reader.old reader.new result (times_at join_field_at count no_fields reader.old.end reader.old.left) }
{
    let mut fields = Fields {
        role: None,
        network: None,
        unsupported: false,
    };
    for _ in 0..count {
        fields = read_field(reader, fields)?;
    }
    Ok(fields)
}

#[tactic(auto, unfolding(crate::specs::Join::join_at, crate::specs::Grammar::object_at))]
fn read_request(bytes: &[u8]) -> Result<JoinRequest<'_>, CojpFault>
    ensures { Gives view result (join_at (length bytes.now) bytes.now) }
{
    let mut reader = Reader::new(bytes);
    let count = read_map(&mut reader)?;
    let fields = read_fields(&mut reader, count)?;
    end_object(&reader)?;
    Ok(JoinRequest {
        role: fields.role.unwrap_or(0),
        network: fields.network,
    })
}

/// Reads a Join_Request, which is all of the bytes.
pub fn read_join(bytes: &[u8]) -> Result<JoinRequest<'_>, CojpFault>
    // What is read is in the grammar.
    ensures found { IfOk result (λ join. IsJoin bytes.now (view join)) }
    // What is in the grammar is read.
    ensures only { (join : Join) → IsJoin bytes.now join → Gives view result (Ok join) }
    // A refusal is the first fault from the left.
    ensures exact { Gives view result (join_at (length bytes.now) bytes.now) }
{
    read_request(bytes)
}

fn put_role(writer: &mut Writer<512>, role: u64) -> Result<(), Full>
    ensures { Puts (role_text role) writer.old writer.new result }
{
    if role == 0 {
        Ok(())
    } else {
        put_uint(writer, 1, role)
    }
}

fn put_network(writer: &mut Writer<512>, network: Option<&[u8]>) -> Result<(), Full>
    ensures { Puts (network_text (option_map (λ v. v.now) network.entry)) writer.old writer.new result }
{
    match network {
        None => Ok(()),
        Some(network) => put_bytes(writer, 5, network),
    }
}

fn put_fields(writer: &mut Writer<512>, join: &JoinRequest<'_>) -> Result<(), Full>
    ensures { Puts (role_text join.now.role ++ network_text (view join.now).network) writer.old writer.new result }
{
    put_role(writer, join.role)?;
    put_network(writer, join.network)
}

fn count_of(join: &JoinRequest<'_>) -> u64
    ensures count { result ≡ join_count (view join.now) }
    ensures small { join.now.role < 2 ^ 64 }
{
    u64::from(join.role != 0) + u64::from(join.network.is_some())
}

fn put_join(writer: &mut Writer<512>, join: &JoinRequest<'_>) -> Result<(), Full>
    ensures put { Puts (join_text (view join.now)) writer.old writer.new result }
    ensures small { join.now.role < 2 ^ 64 }
{
    put_map(writer, count_of(join))?;
    put_fields(writer, join)
}

/// Writes a Join_Request into a buffer that always has room for it. A role of 0 isn't written.
pub fn write_join(join: &JoinRequest<'_>, out: &mut ArrayVec<u8, 512>)
    requires { IfSome (view join.now).network (λ network. length network ≤ 400) }
    // What is written is the request, and is read back as the same.
    ensures reads_back { IsJoin out.new.items (view join.now) }
    ensures exact { out.new.items ≡ join_text (view join.now) }
    ensures most { length out.new.items ≤ most_join }
{
    let mut writer = Writer::new();
    match put_join(&mut writer, join) {
        Ok(()) => copy_out(&writer, out),
        Err(_) => unreachable!(),
    }
}
