//! Places of a window.
ghost use Rattle.std.specs.Prelude.{◌≡◌, ◌+◌, ◌<◌, ◌^◌};
ghost use Rattle.pe_loader.specs.WindowsInside.{span_of};

/// The places of a window from `begin` to in front of `end`, counted from the window's begin.
#[derive(Clone, Copy, Debug, PartialEq, Eq)]
pub(crate) struct Span {
    pub(crate) begin: usize,
    pub(crate) end: usize,
}

impl Span {
    /// Which places of a window of so many from `from` on belong to `length` bytes from `at` on.
    pub(crate) fn of(at: u32, length: u32, from: usize, places: usize) -> Span
        ensures { result ≡ span_of at length from places }
    {
        Span {
            begin: (at as usize).saturating_sub(from).min(places),
            end: (at as usize + length as usize)
                .saturating_sub(from)
                .min(places),
        }
    }
}
