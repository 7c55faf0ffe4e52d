//! The info of a derived key (RFC 8613, 3.2.1), written as CBOR.
ghost use Rattle.std.specs.Prelude.{◌≡◌, ◌≤◌, ◌+◌, ◌++◌, length, IfSome};
ghost use Rattle.std.specs.Option.{option_map};
ghost use Rattle.oscore_context.specs.Items.{array, number, byte_string, text_string, optional_bytes};
ghost use Rattle.oscore_context.specs.Derivation.{info_text};

use cbor_item::Writer;

// The algorithm AES-CCM-16-64-128 (RFC 9053, 4.2).
const AES_CCM_16_64_128: u64 = 10;

#[tactic(auto, using(crate::proofs::Items::short_head), unfolding(crate::specs::Items::array))]
fn put_array(writer: &mut Writer<128>, count: u64)
    requires { length writer.old + 9 ≤ 128 }
    ensures text { writer.new ≡ writer.old ++ array count }
    ensures few { length writer.new ≤ length writer.old + 9 }
{
    match writer.array(count) {
        Ok(()) => {}
        Err(_) => unreachable!(),
    }
}

#[tactic(auto, using(crate::proofs::Items::short_head), unfolding(crate::specs::Items::number))]
fn put_number(writer: &mut Writer<128>, value: u64)
    requires { length writer.old + 9 ≤ 128 }
    ensures text { writer.new ≡ writer.old ++ number value }
    ensures few { length writer.new ≤ length writer.old + 9 }
{
    match writer.uint(value) {
        Ok(()) => {}
        Err(_) => unreachable!(),
    }
}

#[tactic(auto, using(crate::proofs::Items::short_head), unfolding(crate::specs::Items::byte_string))]
fn put_bytes(writer: &mut Writer<128>, value: &[u8])
    requires { length writer.old + 9 + length value.now ≤ 128 }
    ensures text { writer.new ≡ writer.old ++ byte_string value.now }
    ensures few { length writer.new ≤ length writer.old + 9 + length value.now }
{
    match writer.bytes(value) {
        Ok(()) => {}
        Err(_) => unreachable!(),
    }
}

#[tactic(auto, using(crate::proofs::Items::short_head), unfolding(crate::specs::Items::text_string))]
fn put_text(writer: &mut Writer<128>, value: &str)
    requires { length writer.old + 9 + length value.now ≤ 128 }
    ensures text { writer.new ≡ writer.old ++ text_string value.now }
    ensures few { length writer.new ≤ length writer.old + 9 + length value.now }
{
    match writer.text(value) {
        Ok(()) => {}
        Err(_) => unreachable!(),
    }
}

#[tactic(auto, unfolding(crate::specs::Items::optional_bytes))]
fn put_context(writer: &mut Writer<128>, context: Option<&[u8]>)
    requires room { length writer.old + 41 ≤ 128 }
    requires context { IfSome context (λ c. length c.now ≤ 32) }
    ensures text { writer.new ≡ writer.old ++ optional_bytes (option_map (λ c. c.now) context.entry) }
    ensures few { length writer.new ≤ length writer.old + 41 }
{
    match context {
        Some(bytes) => put_bytes(writer, bytes),
        None => match writer.null() {
            Ok(()) => {}
            Err(_) => unreachable!(),
        },
    }
}

/// Writes the info of this ID, ID Context, type and length.
#[tactic(auto, unfolding(crate::specs::Derivation::info_text))]
pub(crate) fn write_info(
    writer: &mut Writer<128>,
    id: &[u8],
    context: Option<&[u8]>,
    kind: &str,
    size: u64,
)
    requires empty { length writer.old ≡ 0 }
    requires id { length id.now ≤ 7 }
    requires context { IfSome context (λ c. length c.now ≤ 32) }
    requires kind { length kind.now ≤ 3 }
    ensures { writer.new ≡ info_text id.now (option_map (λ c. c.now) context.entry) kind.now size }
{
    put_array(writer, 5);
    put_bytes(writer, id);
    put_context(writer, context);
    put_number(writer, AES_CCM_16_64_128);
    put_text(writer, kind);
    put_number(writer, size);
}
