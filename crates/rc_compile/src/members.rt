//! What bundles and pipelines hold: the services that each name of definitions stands for.

mod graph;
mod join;
mod pipes;
mod rows;
mod sets;
mod shown;
mod walk;

pub use crate::members::graph::{CycleFault, bundle_graph, need_all, need_listed, shown_cycle};
pub use crate::members::pipes::pipeline_name;
pub use crate::members::rows::{Listed, rows_of};
pub use crate::members::sets::bundle_sets;
pub use crate::members::shown::names_at;
