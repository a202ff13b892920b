//! Floor: program. It promises nothing: it puts volumes together, of bytes that stand in it or are given, so that crates of tests and of
//! measurements stand on it. It never reads a volume.
#![tactic(auto)]

mod drivers;
mod usual;
mod volumes;

pub use drivers::{Contents, Driver, NATIVE, SOUND, Section, TRUE, USUAL, volume_with};
pub use usual::usual_volume;
pub use volumes::{
    COMPRESSED, COMPRESSED_BEHIND, DRIVER, DRIVER_AND_REST, EMPTY, GUID_DEFINED, IMAGE,
    LONG_SECTION, Layout, NO_IMAGE, NO_RULES, ONE_FILE, ONE_RULE, POLICY_NAME, Part, Piece,
    SHORT_BEHIND, SHORT_SECTION, TEXT, edited, joined, put_file, put_parts, volume_around,
    volume_of,
};
