/// Which names a list shows.
#[derive(Clone, Copy, PartialEq, Eq, Debug)]
pub enum Which {
    /// Those of services and of bundles.
    All,
    /// Those of services.
    Services,
    /// Those of oneshots.
    Oneshots,
    /// Those of longruns.
    Longruns,
    /// Those of bundles.
    Bundles,
}
