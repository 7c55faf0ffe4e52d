//! Both sides write and open the messages of other implementations.
use super::vectors::*;
use super::*;

/// A line's fields.
#[derive(Drop)]
struct Line {
    number: u64,
    kind: Kind,
    mid: u16,
    token: Vec<u8, Global>,
    inner: Vec<u8, Global>,
    datagram: Vec<u8, Global>,
}

fn bytes_in(alloc: Global, digits: &str) -> Result<Vec<u8, Global>, Fail> {
    if digits == "-" {
        return Ok(Vec::new(alloc));
    }
    Ok(hex::decode(alloc, digits)?)
}

fn kind_of(word: &str) -> Kind {
    match word {
        "con" => Kind::Con,
        "non" => Kind::Non,
        _ => Kind::Ack,
    }
}

fn next<'a>(words: &mut std::str::Split<'a, char>) -> &'a str {
    words.next().unwrap_or("-")
}

/// The line's first word, and its fields.
fn line_of(alloc: Global, text: &str) -> Result<(&str, Line), Fail> {
    let mut words = text.split(' ');
    let what = next(&mut words);
    let number = next(&mut words).parse::<u64>()?;
    let kind = kind_of(next(&mut words));
    let mid = next(&mut words).parse::<u16>()?;
    let token = bytes_in(alloc, next(&mut words))?;
    let inner = bytes_in(alloc, next(&mut words))?;
    let datagram = bytes_in(alloc, next(&mut words))?;
    Ok((
        what,
        Line {
            number,
            kind,
            mid,
            token,
            inner,
            datagram,
        },
    ))
}

/// The writer's request is the line's datagram, and the reader finds and opens it.
fn request_is_right(rt: &impl Abort, writer: &Context, reader: &Context, line: &Line) {
    let number = line.number;
    assert!(rt; number < 1 << 40);
    assert!(rt; line.token.len() <= 600);
    assert!(rt; line.datagram.len() <= 1280);
    let head = Head {
        kind: line.kind,
        code: 0,
        mid: line.mid,
        token: &line.token,
    };
    let mut out = ArrayVec::new();
    assert!(rt; protect_request(writer, number, &line.inner, &head, &mut out).is_ok());
    assert!(rt; out.as_slice() == line.datagram.as_slice());
    let found = match writer.side() {
        Side::Pledge => find(&line.datagram),
        Side::Registrar => find_update(&line.datagram),
    };
    match found {
        Err(_) => panic!(rt; "not found"),
        Ok(found) => {
            assert!(rt; found.number == number);
            let mut inner = ArrayVec::new();
            assert!(rt; open_request(reader, &found, &mut inner).is_ok());
            assert!(rt; inner.as_slice() == line.inner.as_slice());
        }
    }
}

fn answer_is_written(rt: &impl Abort, writer: &Context, line: &Line) {
    let inner = line.inner.as_slice();
    assert!(rt; line.number < 1 << 40);
    assert!(rt; 1 <= inner.len());
    assert!(rt; inner.len() <= 512);
    let reply = Reply {
        kind: line.kind,
        mid: line.mid,
        token: buffer(rt, &line.token),
    };
    let mut out = ArrayVec::new();
    protect_answer(writer, line.number, inner, &reply, &mut out);
    assert!(rt; out.as_slice() == line.datagram.as_slice());
}

fn answer_is_opened(rt: &impl Abort, reader: &Context, line: &Line) {
    assert!(rt; line.number < 1 << 40);
    assert!(rt; line.datagram.len() <= 1280);
    let mut inner = ArrayVec::new();
    assert!(rt; open_answer(reader, line.number, &line.datagram, &mut inner).is_ok());
    assert!(rt; inner.as_slice() == line.inner.as_slice());
}

fn line_is_right(rt: &impl Abort, pledge: &Context, registrar: &Context, what: &str, line: &Line) {
    match what {
        "request" => request_is_right(rt, pledge, registrar, line),
        "update" => request_is_right(rt, registrar, pledge, line),
        "answer" => {
            answer_is_written(rt, registrar, line);
            answer_is_opened(rt, pledge, line);
        }
        "node" => {
            answer_is_written(rt, pledge, line);
            answer_is_opened(rt, registrar, line);
        }
        _ => answer_is_opened(rt, registrar, line),
    }
}

fn messages_are_right(rt: &impl Abort, alloc: Global, exchange: &Exchange) -> Result<(), Fail> {
    let id = PledgeId(exchange.id);
    let pledge = Context::derive(&exchange.psk, id, Side::Pledge);
    let registrar = Context::derive(&exchange.psk, id, Side::Registrar);
    for text in exchange.lines {
        let (what, line) = line_of(alloc, text)?;
        line_is_right(rt, &pledge, &registrar, what, &line);
    }
    Ok(())
}

// A static a test: a test of all of them takes the prover past its limits.

#[test]
fn messages_of_the_first_pledge(rt: HostRuntime) -> Result<(), Fail> {
    messages_are_right(&rt, rt.alloc(), &FIRST)
}

#[test]
fn messages_of_the_second_pledge(rt: HostRuntime) -> Result<(), Fail> {
    messages_are_right(&rt, rt.alloc(), &SECOND)
}

#[test]
fn messages_of_the_third_pledge(rt: HostRuntime) -> Result<(), Fail> {
    messages_are_right(&rt, rt.alloc(), &THIRD)
}

#[test]
fn messages_of_the_fourth_pledge(rt: HostRuntime) -> Result<(), Fail> {
    messages_are_right(&rt, rt.alloc(), &FOURTH)
}

#[test]
fn messages_of_the_fifth_pledge(rt: HostRuntime) -> Result<(), Fail> {
    messages_are_right(&rt, rt.alloc(), &FIFTH)
}

#[test]
fn messages_of_the_sixth_pledge(rt: HostRuntime) -> Result<(), Fail> {
    messages_are_right(&rt, rt.alloc(), &SIXTH)
}

#[test]
fn messages_of_the_seventh_pledge(rt: HostRuntime) -> Result<(), Fail> {
    messages_are_right(&rt, rt.alloc(), &SEVENTH)
}

#[test]
fn messages_of_the_eighth_pledge(rt: HostRuntime) -> Result<(), Fail> {
    messages_are_right(&rt, rt.alloc(), &EIGHTH)
}

#[test]
fn messages_of_the_ninth_pledge(rt: HostRuntime) -> Result<(), Fail> {
    messages_are_right(&rt, rt.alloc(), &NINTH)
}

#[test]
fn messages_of_the_tenth_pledge(rt: HostRuntime) -> Result<(), Fail> {
    messages_are_right(&rt, rt.alloc(), &TENTH)
}

#[test]
fn messages_of_the_eleventh_pledge(rt: HostRuntime) -> Result<(), Fail> {
    messages_are_right(&rt, rt.alloc(), &ELEVENTH)
}

#[test]
fn messages_of_the_twelfth_pledge(rt: HostRuntime) -> Result<(), Fail> {
    messages_are_right(&rt, rt.alloc(), &TWELFTH)
}

#[test]
fn messages_of_the_thirteenth_pledge(rt: HostRuntime) -> Result<(), Fail> {
    messages_are_right(&rt, rt.alloc(), &THIRTEENTH)
}

#[test]
fn messages_of_the_fourteenth_pledge(rt: HostRuntime) -> Result<(), Fail> {
    messages_are_right(&rt, rt.alloc(), &FOURTEENTH)
}

#[test]
fn messages_of_the_fifteenth_pledge(rt: HostRuntime) -> Result<(), Fail> {
    messages_are_right(&rt, rt.alloc(), &FIFTEENTH)
}

#[test]
fn messages_of_the_sixteenth_pledge(rt: HostRuntime) -> Result<(), Fail> {
    messages_are_right(&rt, rt.alloc(), &SIXTEENTH)
}
