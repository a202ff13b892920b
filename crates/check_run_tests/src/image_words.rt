//! What `check` says of driver files with images that are damaged. What is expected was worked out from the rules of images.
use crate::cases::{Case, first_wrong};
use sample_volumes::{Contents, NATIVE, SOUND, TRUE};
use std::test::Fail;

/// Images that are cut, and fields of their headers that are changed.
const HEADERS: &[Case] = &[
    (
        "cut to no bytes",
        &[TRUE, (0x10, Contents::Image(0, &[]))],
        b"size 00000024 refused pe short at 00000000\n",
    ),
    (
        "cut to 63 bytes",
        &[TRUE, (0x10, Contents::Image(63, &[]))],
        b"size 00000063 refused pe short at 00000000\n",
    ),
    (
        "another DOS signature",
        &[TRUE, (0x10, Contents::Image(336, &[(0x0, b"\0")]))],
        b"size 00000174 refused pe mz at 00000000\n",
    ),
    (
        "cut to 64 bytes",
        &[TRUE, (0x10, Contents::Image(64, &[]))],
        b"size 00000064 refused pe lfanew at 0000003c\n",
    ),
    (
        "cut to 199 bytes",
        &[TRUE, (0x10, Contents::Image(199, &[]))],
        b"size 000000eb refused pe lfanew at 0000003c\n",
    ),
    (
        "another PE signature",
        &[TRUE, (0x10, Contents::Image(336, &[(0x40, b"\0")]))],
        b"size 00000174 refused pe signature at 00000040\n",
    ),
    (
        "no machine",
        &[TRUE, (0x10, Contents::Image(336, &[(0x44, b"\0\0")]))],
        b"size 00000174 refused pe machine at 00000044\n",
    ),
    (
        "PE32",
        &[TRUE, (0x10, Contents::Image(336, &[(0x58, b"\x0b\x01")]))],
        b"size 00000174 refused pe magic at 00000058\n",
    ),
    (
        "cut to 200 bytes",
        &[TRUE, (0x10, Contents::Image(200, &[]))],
        b"size 000000ec refused pe optional at 00000054\n",
    ),
    (
        "cut to 239 bytes",
        &[TRUE, (0x10, Contents::Image(239, &[]))],
        b"size 00000113 refused pe optional at 00000054\n",
    ),
    (
        "an application",
        &[TRUE, (0x10, Contents::Image(336, &[(0x9c, b"\x0a")]))],
        b"size 00000174 refused pe subsystem at 0000009c\n",
    ),
    (
        "no bytes of an image",
        &[TRUE, (0x10, Contents::Image(336, &[(0x90, b"\0\0\0\0")]))],
        b"size 00000174 refused pe size at 00000090\n",
    ),
    (
        "cut to 240 bytes",
        &[TRUE, (0x10, Contents::Image(240, &[]))],
        b"size 00000114 refused pe headers at 00000094\n",
    ),
    (
        "cut to 256 bytes",
        &[TRUE, (0x10, Contents::Image(256, &[]))],
        b"size 00000124 refused pe section at 000000c8\n",
    ),
    (
        "cut to 335 bytes",
        &[TRUE, (0x10, Contents::Image(335, &[]))],
        b"size 00000173 refused pe section at 000000c8\n",
    ),
    (
        "an odd entry",
        &[TRUE, (0x10, Contents::Image(336, &[(0x68, b"\x01\x01")]))],
        b"size 00000174 refused pe entry at 00000068\n",
    ),
    (
        "an entry behind the section",
        &[TRUE, (0x10, Contents::Image(336, &[(0x68, b"\x50\x01")]))],
        b"size 00000174 refused pe entry at 00000068\n",
    ),
    (
        "another place of the PE header",
        &[TRUE, (0x10, Contents::Image(336, &[(0x3c, b"\x41")]))],
        b"size 00000174 refused pe signature at 00000041\n",
    ),
    (
        "AArch64",
        &[TRUE, (0x10, Contents::Image(336, &[(0x44, b"\x64\xaa")]))],
        b"size 00000174 native\n",
    ),
    (
        "a runtime driver",
        &[TRUE, (0x10, Contents::Image(336, &[(0x9c, b"\x0c")]))],
        b"size 00000174 driver\n",
    ),
];

#[test]
fn says_what_an_image_is_refused_for(rt: HostRuntime) -> Result<(), Fail> {
    assert_eq!(rt; first_wrong(rt.alloc(), HEADERS)?, None);
    Ok(())
}

/// Images with six directories: two for x64 without sections, and four of byte code with a block of one fixup.
const RELOCATIONS: &[Case] = &[
    (
        "a directory up to the end",
        &[
            TRUE,
            (
                0x10,
                Contents::Image(
                    336,
                    &[
                        (0x44, b"\x64\x86\0\0"),
                        (0x54, b"\xa0"),
                        (0xc4, b"\x06"),
                        (0xf0, b"\x5f\x01\0\0\x01\0\0\0"),
                    ],
                ),
            ),
        ],
        b"size 00000174 native\n",
    ),
    (
        "a directory that leaves the image",
        &[
            TRUE,
            (
                0x10,
                Contents::Image(
                    336,
                    &[
                        (0x44, b"\x64\x86\0\0"),
                        (0x54, b"\xa0"),
                        (0xc4, b"\x06"),
                        (0xf0, b"\x5f\x01\0\0\x02\0\0\0"),
                    ],
                ),
            ),
        ],
        b"size 00000174 refused pe reloc at 000000f0\n",
    ),
    (
        "a fixup of kind 10",
        &[
            TRUE,
            (
                0x10,
                Contents::Image(
                    336,
                    &[
                        (0x54, b"\xa0"),
                        (0x68, b"\x20\x01"),
                        (0x94, b"\x20\x01"),
                        (0xc4, b"\x06"),
                        (0xf0, b"\x40\x01\0\0\x0c\0\0\0"),
                        (
                            0xf8,
                            b"\0\0\0\0\0\0\0\0\x40\0\0\0\x20\x01\0\0\x30\0\0\0\x20\x01\0\0",
                        ),
                        (0x110, b"\0\0\0\0\0\0\0\0\0\0\0\0\x20\0\0\x60"),
                        (0x140, b"\0\0\0\0\x0c\0\0\0"),
                        (0x148, b"\x20\xa1\0\0"),
                    ],
                ),
            ),
        ],
        b"size 00000174 driver\n",
    ),
    (
        "a fixup of kind 4",
        &[
            TRUE,
            (
                0x10,
                Contents::Image(
                    336,
                    &[
                        (0x54, b"\xa0"),
                        (0x68, b"\x20\x01"),
                        (0x94, b"\x20\x01"),
                        (0xc4, b"\x06"),
                        (0xf0, b"\x40\x01\0\0\x0c\0\0\0"),
                        (
                            0xf8,
                            b"\0\0\0\0\0\0\0\0\x40\0\0\0\x20\x01\0\0\x30\0\0\0\x20\x01\0\0",
                        ),
                        (0x110, b"\0\0\0\0\0\0\0\0\0\0\0\0\x20\0\0\x60"),
                        (0x140, b"\0\0\0\0\x0c\0\0\0"),
                        (0x148, b"\x20\x41\0\0"),
                    ],
                ),
            ),
        ],
        b"size 00000174 refused pe reloc at 000000f0\n",
    ),
    (
        "a fixup that touches the directory",
        &[
            TRUE,
            (
                0x10,
                Contents::Image(
                    336,
                    &[
                        (0x54, b"\xa0"),
                        (0x68, b"\x20\x01"),
                        (0x94, b"\x20\x01"),
                        (0xc4, b"\x06"),
                        (0xf0, b"\x40\x01\0\0\x0c\0\0\0"),
                        (
                            0xf8,
                            b"\0\0\0\0\0\0\0\0\x40\0\0\0\x20\x01\0\0\x30\0\0\0\x20\x01\0\0",
                        ),
                        (0x110, b"\0\0\0\0\0\0\0\0\0\0\0\0\x20\0\0\x60"),
                        (0x140, b"\0\0\0\0\x0c\0\0\0"),
                        (0x148, b"\x39\xa1\0\0"),
                    ],
                ),
            ),
        ],
        b"size 00000174 refused pe reloc at 000000f0\n",
    ),
    (
        "a fixup that ends at the directory",
        &[
            TRUE,
            (
                0x10,
                Contents::Image(
                    336,
                    &[
                        (0x54, b"\xa0"),
                        (0x68, b"\x20\x01"),
                        (0x94, b"\x20\x01"),
                        (0xc4, b"\x06"),
                        (0xf0, b"\x40\x01\0\0\x0c\0\0\0"),
                        (
                            0xf8,
                            b"\0\0\0\0\0\0\0\0\x40\0\0\0\x20\x01\0\0\x30\0\0\0\x20\x01\0\0",
                        ),
                        (0x110, b"\0\0\0\0\0\0\0\0\0\0\0\0\x20\0\0\x60"),
                        (0x140, b"\0\0\0\0\x0c\0\0\0"),
                        (0x148, b"\x38\xa1\0\0"),
                    ],
                ),
            ),
        ],
        b"size 00000174 driver\n",
    ),
];

#[test]
fn says_that_relocations_are_refused(rt: HostRuntime) -> Result<(), Fail> {
    assert_eq!(rt; first_wrong(rt.alloc(), RELOCATIONS)?, None);
    Ok(())
}

/// Driver files with two images, and with one at another place.
const TWO_IMAGES: &[Case] = &[
    (
        "a sound image behind one that is not",
        &[
            TRUE,
            (0x10, Contents::Image(336, &[(0x9c, b"\x0a")])),
            SOUND,
        ],
        b"size 000002c8 refused pe subsystem at 0000009c\n",
    ),
    (
        "an image that is not sound behind one that is",
        &[
            TRUE,
            SOUND,
            (0x10, Contents::Image(336, &[(0x9c, b"\x0a")])),
        ],
        b"size 000002c8 driver\n",
    ),
    (
        "an image for x64 behind one of byte code",
        &[TRUE, SOUND, NATIVE],
        b"size 000002c8 driver\n",
    ),
    (
        "an image of byte code behind one for x64",
        &[TRUE, NATIVE, SOUND],
        b"size 000002c8 native\n",
    ),
    (
        "an image in front of the expression",
        &[SOUND, TRUE],
        b"size 00000172 driver\n",
    ),
    (
        "no image, and a section of another type with one",
        &[TRUE, (0x12, Contents::Image(336, &[]))],
        b"size 00000174 refused noimage\n",
    ),
];

#[test]
fn judges_the_first_image(rt: HostRuntime) -> Result<(), Fail> {
    assert_eq!(rt; first_wrong(rt.alloc(), TWO_IMAGES)?, None);
    Ok(())
}
