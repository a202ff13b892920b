//! Floor: readers. It promises nothing by itself: it has the words and the lemmas of courses, which whatever reads bytes item by
//! item stands on. It never touches bytes, and has no code.
#![tactic(auto)]
