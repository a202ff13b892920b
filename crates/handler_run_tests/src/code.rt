//! Pieces of images of byte code, of scripts and of reports that several tests share. An image is the sample image with other code, which
//! begins at 100 (hexadecimal) of it and has place for 80 bytes. It takes 39 pages, of which the first is the image itself, so that the code of
//! the first image begins at 80000100 (hexadecimal), that of the second one at 80027100, and so on.
//!
//! Of a region, the communicate page is the sixth page, and the service page comes after it: of the first image the size cell stands at
//! 80005000 (hexadecimal), the buffer at 80005008, and the service page at 80006000. From the buffer, the entry of service n stands at
//! 4344 + 16 n.
use sample_volumes::Piece;

/// The place of the code in the image.
pub const CODE: usize = 0x100;

/// The place of a handler's code, after that of an entry which registers it. It has place for 46 bytes.
pub const HANDLER: usize = 0x122;

/// The GUID 11111111-2222-3333-4444-555555555555 in the image's header, at a place that no loader reads.
pub const NAMED: Piece = (
    0x10,
    b"\x11\x11\x11\x11\x22\x22\x33\x33\x44\x44\x55\x55\x55\x55\x55\x55",
);

/// An entry that registers the handler for that GUID, and returns the status that it is answered. It spends 13 units.
pub const REGISTERS: Piece = (
    CODE,
    // R1 = @R0(+24), the service page; PUSH64 R5, a cell; R4 = R0; PUSH64 R4, where the number goes
    // R2 = the GUID, 254 bytes back; PUSH64 R2; R2 = the handler, 14 bytes on; PUSH64 R2
    // R3 = R1(+400); native call of service 9; R0 = R0(+32); RET
    b"\x60\x81\x18\0\x6b\x05\x20\x04\x6b\x04\x79\x02\x02\xff\x6b\x02\x79\x02\x0e\0\x6b\x02\x60\x13\x90\x01\x03\x23\x60\0\x20\0\x04\0",
);

/// A handler that doubles the first 8 bytes of its message as a number.
pub const DOUBLES: Piece = (
    HANDLER,
    // R1 = @R0(+32), the buffer; R2 = @R1; R2 = R2 + R2; @R1 = R2; RET
    b"\x60\x81\x20\0\x20\x92\x4c\x22\x20\x29\x04\0",
);

/// A handler that begins with writing the byte 5A into its buffer.
pub const WRITES: Piece = (
    HANDLER,
    // R1 = @R0(+32), the buffer; R2 = 5A; the byte at R1 = R2
    b"\x60\x81\x20\0\x77\x32\x5a\0\x1d\x29",
);

/// The place of its next instruction.
pub const NEXT: usize = 0x12c;

/// One entry with a message of the bytes 1 to 8 for that GUID.
pub const ONE_MESSAGE: &[u8] =
    b"lanes 1 4\nfill 0 1111111122223333444455555555555508000000000000000102030405060708\nring 0\nrun 0\n";

/// What is told of a boot of one driver, which registers a handler, and of its policy.
pub const ONE_BOOTED: &[u8] = b"policy none fuel 65536
start 76697264-7265-6e20-756d-626572203031 round 1 returned 0000000000000000
locked images 1 handlers 1 protocols 0
image 0 76697264-7265-6e20-756d-626572203031 closed
";

/// What is told of a boot of two drivers, each of which registers a handler.
pub const TWO_BOOTED: &[u8] = b"policy none fuel 65536
start 76697264-7265-6e20-756d-626572203031 round 1 returned 0000000000000000
start 76697264-7265-6e20-756d-626572203032 round 1 returned 0000000000000000
locked images 2 handlers 2 protocols 0
image 0 76697264-7265-6e20-756d-626572203031 open
image 1 76697264-7265-6e20-756d-626572203032 open
";

/// How that entry begins where it is answered SUCCESS, and where it is answered NOT_FOUND.
pub const SERVED: &[u8] = b"entry 0 lane 0 loads 5 status 0000000000000000
  request 0000000000000020 1111111122223333444455555555555508000000000000000102030405060708
  dispatched 11111111-2222-3333-4444-555555555555
";

pub const NOT_SERVED: &[u8] = b"entry 0 lane 0 loads 5 status 800000000000000e
  request 0000000000000020 1111111122223333444455555555555508000000000000000102030405060708
  dispatched 11111111-2222-3333-4444-555555555555
";

/// How it ends where its handlers leave the message as it was, for either answer.
pub const LEFT: &[u8] = b"  reply 1111111122223333444455555555555508000000000000000102030405060708
lane 0 length 0000000000000020 status 0000000000000000 data 1111111122223333444455555555555508000000000000000102030405060708
";

pub const LEFT_NOT_SERVED: &[u8] =
    b"  reply 1111111122223333444455555555555508000000000000000102030405060708
lane 0 length 0000000000000020 status 800000000000000e data 1111111122223333444455555555555508000000000000000102030405060708
";

/// How it ends where they left the byte 5A in the message, and it is answered NOT_FOUND.
pub const WRITTEN: &[u8] =
    b"  reply 1111111122223333444455555555555508000000000000005a02030405060708
lane 0 length 0000000000000020 status 800000000000000e data 1111111122223333444455555555555508000000000000005a02030405060708
";
