use crate::service::Service;
use crate::table::Table;
use rc_graph::Graph;
use rc_names::Names;
use thiserror::Error;

/// What a database is made of. A service is its place among the names: its description and what it
/// needs stand at that place.
pub struct Parts {
    pub names: Names,
    pub services: Vec<Service>,
    pub graph: Graph,
    pub table: Table,
}

// Not derived: a crate that drops the parts calls this, and proves nothing about them.
impl Drop for Parts {
    fn drop(self) {
        let Parts {
            names: _,
            services: _,
            graph: _,
            table: _,
        } = self;
    }
}

/// The parts do not fit together: lengths or bounds differ, a service's kind is a
/// bundle, a producer writes for what is no longrun or isn't needed, or a bundle has the
/// name of a service. They are gone.
#[derive(Clone, Copy, PartialEq, Eq, Debug, Error)]
#[error("the parts do not fit together")]
pub struct Unfit;
