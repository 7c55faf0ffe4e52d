//! What single lines say, and what is printed for single outcomes, worked out by hand from the format.
ghost use Rattle.std.specs.Prelude.{◌<◌, ◌^◌};

use super::*;
use arrayvec::ArrayVec;
use edge_traits::{Failed, PledgeId, Sink, write_all};
use join_history::Quiet;

const ID: PledgeId = PledgeId([0x01, 0x23, 0x45, 0x67, 0x89, 0xab, 0xcd, 0xef]);

/// A sink that takes one byte a call, and no more than `room` bytes in all.
#[derive(Drop)]
struct Narrow {
    text: ArrayVec<u8, 40>,
    room: usize,
    faults: u64,
    ghost fits: { faults < 2 ^ 64 },
}

impl Sink for Narrow {
    ghost use Rattle.std.specs.Prelude.{Some};

    ghost written = { λ s. Some s.text.items };

    ghost fault_count = { λ s. s.faults };

    ghost fault_count_fits = { λ s. s.fits };

    fn write(&mut self, bytes: &[u8]) -> Result<usize, Failed> {
        let Some(byte) = bytes.first() else {
            return Ok(0);
        };
        if self.text.len() >= self.room || self.text.try_push(*byte).is_err() {
            self.faults = self.faults.saturating_add(1);
            return Err(Failed);
        }
        Ok(1)
    }

    fn faults(&self) -> u64 {
        self.faults
    }
}

fn sink_of(room: usize) -> Narrow {
    Narrow {
        text: ArrayVec::new(),
        room,
        faults: 0,
    }
}

const SKIPPED: [&str; 4] = [
    "",
    "#",
    "#ask 0 0123456789abcdef 0",
    "# a comment, \u{fc} too",
];

/// Lines for the pledge `ID`, each with its time and number.
const ASKS: [(&str, u64, u64); 5] = [
    ("ask 0 0123456789abcdef 0", 0, 0),
    ("ask 7 0123456789abcdef 10", 7, 10),
    ("ask 3600 0123456789ABCDEF 12", 3600, 12),
    ("ask 90 0123456789aBcDeF 900", 90, 900),
    (
        "ask 1099511627775 0123456789abcdef 1099511627775",
        1099511627775,
        1099511627775,
    ),
];

/// Lines outside the grammar, but for those that a text can't show as a line.
const OUTSIDE: &str = " # no comment
ask 1099511627776 0123456789abcdef 0
ask 0 0123456789abcdef 1099511627776
ask 9999999999999 0123456789abcdef 0
ask 10000000000000 0123456789abcdef 0
ask 18446744073709551616 0123456789abcdef 0
ask 00 0123456789abcdef 0
ask 01 0123456789abcdef 0
ask 0 0123456789abcdef 01
ask +1 0123456789abcdef 0
ask -1 0123456789abcdef 0
ask 0 0123456789abcdef +1
ask 1a 0123456789abcdef 0
ask 0x1 0123456789abcdef 0
ask 0 0123456789abcde 0
ask 0 0123456789abcd 0
ask 0 0123456789abcdef0 0
ask 0 0123456789abcdef01 0
ask 0 0123456789abcdeg 0
ask  0 0123456789abcdef 0
ask 0  0123456789abcdef 0
ask 0 0123456789abcdef  0
ask 0 0123456789abcdef 0 0
ask 0 0123456789abcdef
ask 0
ask
 ask 0 0123456789abcdef 0
Ask 0 0123456789abcdef 0
asks 0 0123456789abcdef 0
as 0 0123456789abcdef 0
recv 0 0123456789abcdef 0
ask \u{661} 0123456789abcdef 0
ask 0 \u{ff11}23456789abcdef 0
\u{ff}";

/// Lines outside the grammar for the sake of a space, a tab, a CR or an LF.
const SPACED: [&str; 8] = [
    " ",
    "ask ",
    "ask 0 0123456789abcdef ",
    "ask 0 0123456789abcdef 0 ",
    "ask\t0 0123456789abcdef 0",
    "ask 0\t0123456789abcdef 0",
    "ask 0 0123456789abcdef 0\r",
    "ask 0 0123456789abcdef 0\n",
];

#[test]
fn exactly_the_lines_of_the_grammar_are_read(rt: HostRuntime) {
    for line in SKIPPED {
        assert_eq!(rt;
            read_line(line.as_bytes()),
            Some(Line::Skipped),
            "at {line:?}"
        );
    }
    for (line, time, number) in ASKS {
        let ask = Line::Ask {
            time,
            id: ID,
            number,
        };
        assert_eq!(rt; read_line(line.as_bytes()), Some(ask), "at {line:?}");
    }
    for line in OUTSIDE.split('\n') {
        assert_eq!(rt; read_line(line.as_bytes()), None, "at {line:?}");
    }
    for line in SPACED {
        assert_eq!(rt; read_line(line.as_bytes()), None, "at {line:?}");
    }
    assert_eq!(rt; read_line(b"ask 0 0123456789abcde\xff 0"), None);
}

#[test]
fn an_lf_ends_a_line_and_the_last_line_may_lack_it(rt: HostRuntime) {
    let scripts = [
        ("\n", ""),
        ("ask", "ask"),
        ("ask\n", "ask"),
        ("\n\nask", "||ask"),
        ("#\r\n\r\n\u{fc}\n\nask ", "#\r|\r|\u{fc}||ask "),
    ];
    for (script, lines) in scripts {
        let mut rest = script.as_bytes();
        for want in lines.split('|') {
            let (line, behind) = next_line(rest).expect(&rt, "one more line");
            assert_eq!(rt; line, want.as_bytes(), "in {script:?}");
            rest = behind;
        }
        assert!(rt; next_line(rest).is_none(), "after {script:?}");
    }
    assert!(rt; next_line(b"").is_none());
}

fn texts() -> [(Outcome, &'static str); 13] {
    [
        (
            Outcome::Grant {
                address: 0x0a1f,
                until: 3600,
            },
            "grant 0a1f 3600\n",
        ),
        (
            Outcome::Grant {
                address: 0,
                until: 0,
            },
            "grant 0000 0\n",
        ),
        (
            Outcome::AgainGrant {
                address: 0xfffe,
                until: 18446744073709551615,
            },
            "again fffe 18446744073709551615\n",
        ),
        (Outcome::Refuse { code: 0xa3 }, "refuse 503\n"),
        (Outcome::Refuse { code: 0x9d }, "refuse 429\n"),
        (Outcome::AgainRefuse { code: 0x80 }, "again 400\n"),
        (Outcome::AgainRefuse { code: 0x1f }, "again 031\n"),
        (Outcome::Quiet(Quiet::Taken), "quiet taken\n"),
        (Outcome::Quiet(Quiet::Old), "quiet old\n"),
        (Outcome::Quiet(Quiet::Late), "quiet late\n"),
        (Outcome::Unsure { faults: 1 }, "unsure 1\n"),
        (
            Outcome::Unsure {
                faults: 18446744073709551615,
            },
            "unsure 18446744073709551615\n",
        ),
        (Outcome::Full { entries: 262144 }, "full 262144\n"),
    ]
}

#[test]
fn an_outcome_is_written_whole_or_up_to_the_fault(rt: HostRuntime) {
    for (outcome, text) in texts() {
        for room in 0..text.len() {
            let mut out = sink_of(room);
            assert_eq!(rt; write_outcome(&mut out, &outcome), Err(Failed));
            assert_eq!(rt; out.text.as_slice(), &text.as_bytes()[..room]);
            assert_eq!(rt; out.faults(), 1);
        }
        let mut out = sink_of(text.len());
        assert_eq!(rt; write_outcome(&mut out, &outcome), Ok(()));
        assert_eq!(rt; out.text.as_slice(), text.as_bytes());
        assert_eq!(rt; out.faults(), 0);
    }
}

#[test]
fn no_bytes_are_written_without_a_call(rt: HostRuntime) {
    let mut out = sink_of(0);
    assert_eq!(rt; write_all(&mut out, b""), Ok(()));
    assert_eq!(rt; write_all(&mut out, b"a"), Err(Failed));
}
