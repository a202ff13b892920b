//! What `check` says of driver files by their dependency expressions. What is expected was worked out from the rules of expressions.
use crate::cases::{Case, first_wrong};
use sample_volumes::{Contents, SOUND, TRUE};
use std::test::Fail;

/// Expressions that are refused.
const REFUSED: &[Case] = &[
    (
        "END alone",
        &[(0x1c, Contents::Bytes(b"\x08")), SOUND],
        b"size 00000174 refused depex empty\n",
    ),
    (
        "no bytes",
        &[(0x1c, Contents::Bytes(b"")), SOUND],
        b"size 00000170 refused depex noend\n",
    ),
    (
        "TRUE without END",
        &[(0x1c, Contents::Bytes(b"\x06")), SOUND],
        b"size 00000174 refused depex noend\n",
    ),
    (
        "a name that is cut",
        &[
            (
                0x1c,
                Contents::Bytes(
                    b"\x02\x11\x11\x11\x11\x22\x22\x33\x33\x44\x44\x55\x55\x55\x55\x55",
                ),
            ),
            SOUND,
        ],
        b"size 00000180 refused depex noend\n",
    ),
    (
        "no opcode",
        &[(0x1c, Contents::Bytes(b"\x09")), SOUND],
        b"size 00000174 refused depex unknown\n",
    ),
    (
        "AND of nothing",
        &[(0x1c, Contents::Bytes(b"\x03\x08")), SOUND],
        b"size 00000174 refused depex underflow\n",
    ),
    (
        "AND of one operand",
        &[(0x1c, Contents::Bytes(b"\x06\x03\x08")), SOUND],
        b"size 00000174 refused depex underflow\n",
    ),
    (
        "NOT of nothing",
        &[(0x1c, Contents::Bytes(b"\x05\x08")), SOUND],
        b"size 00000174 refused depex underflow\n",
    ),
    (
        "two operands at END",
        &[(0x1c, Contents::Bytes(b"\x06\x06\x08")), SOUND],
        b"size 00000174 refused depex leftover\n",
    ),
    (
        "BEFORE behind TRUE",
        &[
            (
                0x1c,
                Contents::Bytes(
                    b"\x06\x00\x11\x11\x11\x11\x22\x22\x33\x33\x44\x44\x55\x55\x55\x55\x55\x55\x08",
                ),
            ),
            SOUND,
        ],
        b"size 00000184 refused depex beforenotfirst\n",
    ),
    (
        "TRUE behind AFTER",
        &[
            (
                0x1c,
                Contents::Bytes(
                    b"\x01\x11\x11\x11\x11\x22\x22\x33\x33\x44\x44\x55\x55\x55\x55\x55\x55\x06\x08",
                ),
            ),
            SOUND,
        ],
        b"size 00000184 refused depex beforenotfirst\n",
    ),
    (
        "BEFORE without END",
        &[
            (
                0x1c,
                Contents::Bytes(
                    b"\x00\x11\x11\x11\x11\x22\x22\x33\x33\x44\x44\x55\x55\x55\x55\x55\x55",
                ),
            ),
            SOUND,
        ],
        b"size 00000184 refused depex noend\n",
    ),
    (
        "257 operands",
        &[(0x1c, Contents::Operands(257, b"\x08")), SOUND],
        b"size 00000274 refused depex toodeep\n",
    ),
    (
        "a 257th operand whose name is cut",
        &[(0x1c, Contents::Operands(256, b"\x02")), SOUND],
        b"size 00000274 refused depex toodeep\n",
    ),
    (
        "256 operands",
        &[(0x1c, Contents::Operands(256, b"\x08")), SOUND],
        b"size 00000274 refused depex leftover\n",
    ),
];

#[test]
fn says_what_an_expression_is_refused_for(rt: HostRuntime) -> Result<(), Fail> {
    assert_eq!(rt; first_wrong(rt.alloc(), REFUSED)?, None);
    Ok(())
}

/// Expressions that nothing is wrong with, and files without one.
const TAKEN: &[Case] = &[
    (
        "TRUE, and bytes behind END",
        &[(0x1c, Contents::Bytes(b"\x06\x08\xff")), SOUND],
        b"size 00000174 driver\n",
    ),
    (
        "BEFORE",
        &[
            (
                0x1c,
                Contents::Bytes(
                    b"\x00\x11\x11\x11\x11\x22\x22\x33\x33\x44\x44\x55\x55\x55\x55\x55\x55\x08",
                ),
            ),
            SOUND,
        ],
        b"size 00000184 driver\n",
    ),
    (
        "AFTER, and bytes behind END",
        &[
            (
                0x1c,
                Contents::Bytes(
                    b"\x01\x11\x11\x11\x11\x22\x22\x33\x33\x44\x44\x55\x55\x55\x55\x55\x55\x08\x06",
                ),
            ),
            SOUND,
        ],
        b"size 00000184 driver\n",
    ),
    (
        "a condition on two protocols",
        &[
            (
                0x1c,
                Contents::Bytes(
                    b"\x02\x11\x11\x11\x11\x22\x22\x33\x33\x44\x44\x55\x55\x55\x55\x55\x55\x05\x02\x11\x11\x11\x11\x22\x22\x33\x33\x44\x44\x55\x55\x55\x55\x55\x55\x07\x04\x03\x08",
                ),
            ),
            SOUND,
        ],
        b"size 00000198 driver\n",
    ),
    ("no expression", &[SOUND], b"size 0000016c driver\n"),
    (
        "one for boot services alone",
        &[(0x13, Contents::Bytes(b"\x09")), SOUND],
        b"size 00000174 driver\n",
    ),
];

#[test]
fn takes_expressions_that_nothing_is_wrong_with(rt: HostRuntime) -> Result<(), Fail> {
    assert_eq!(rt; first_wrong(rt.alloc(), TAKEN)?, None);
    Ok(())
}

/// Files with two expressions, and with more that is wrong.
const FIRST: &[Case] = &[
    (
        "TRUE behind one that is refused",
        &[(0x1c, Contents::Bytes(b"\x08")), TRUE, SOUND],
        b"size 0000017c refused depex empty\n",
    ),
    (
        "one that is refused behind TRUE",
        &[TRUE, (0x1c, Contents::Bytes(b"\x08")), SOUND],
        b"size 0000017c driver\n",
    ),
    (
        "one that is refused behind the image",
        &[SOUND, (0x1c, Contents::Bytes(b"\x08"))],
        b"size 00000171 refused depex empty\n",
    ),
    (
        "an image that is refused too",
        &[
            (0x1c, Contents::Bytes(b"\x08")),
            (0x10, Contents::Image(336, &[(0x9c, b"\x0a")])),
        ],
        b"size 00000174 refused pe subsystem at 0000009c\n",
    ),
    (
        "no image",
        &[(0x1c, Contents::Bytes(b"\x08"))],
        b"size 0000001d refused noimage\n",
    ),
    (
        "a compressed section behind",
        &[
            (0x1c, Contents::Bytes(b"\x08")),
            (0x10, Contents::Image(336, &[(0x9c, b"\x0a")])),
            (0x01, Contents::Bytes(b"\0\0\0\0\x01")),
        ],
        b"size 0000017d refused compressed\n",
    ),
];

#[test]
fn judges_the_first_expression_behind_sections_and_image(rt: HostRuntime) -> Result<(), Fail> {
    assert_eq!(rt; first_wrong(rt.alloc(), FIRST)?, None);
    Ok(())
}
