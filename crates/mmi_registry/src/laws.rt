//! Laws of the chain rule over whole chains, and the limits of a registry. These functions do nothing: their contracts
//! are the laws.
ghost use Rattle.std.specs.Prelude.{◌≡◌};
ghost use Rattle.mmi_registry.specs.ChainLaws.{RootComesToBest, GuidComesToFirst};

use crate::{MOST_BUILT_IN, MOST_HANDLERS, MOST_IMAGES, MOST_OF_IMAGE};

/// What a chain comes to, by its handlers' statuses alone.
pub fn chain_results()
    ensures root { RootComesToBest }
    ensures guid { GuidComesToFirst }
{}

/// The limits that clauses and definitions have as numbers are those of the code.
pub fn limits()
    ensures images { MOST_IMAGES ≡ 32 }
    ensures of_image { MOST_OF_IMAGE ≡ 8 }
    ensures built_in { MOST_BUILT_IN ≡ 65 }
    ensures handlers { MOST_HANDLERS ≡ 321 }
{}
