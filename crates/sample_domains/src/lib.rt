//! Floor: supervisor. It promises nothing: it makes tables with one image or two, and runs invocations over them whose steps say what they
//! are answered, so that crates of tests and of measurements stand on it. It never runs byte code.
#![tactic(auto)]

mod image_pair;
mod invocations;
mod making;

pub use image_pair::two_images;
pub use invocations::{
    ACCESS_DENIED, Answer, HEADERS, INVALID_PARAMETER, Invocation, KEPT, NAME, NAME_DENIED,
    NOT_FOUND, OTHER_NAME, OUT, OUT_DENIED, OUT_OF_RESOURCES, POOL, RESERVE, SECOND_NAME,
    SECOND_OTHER_NAME, SECOND_OUT, SECOND_POOL, SECOND_RESERVE, SUCCESS, Step, UNSUPPORTED, Wrong,
    first_untold, first_wrong, read, write,
};
pub use making::domain_with;
